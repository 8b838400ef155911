//! Putting the last day earlier or later.
ghost use Rattle.std.specs.Prelude.{◌≡◌, ◌≤◌, MatchResult};
ghost use Rattle.catalogue.specs.Calls.{Judged, amend};
ghost use Rattle.catalogue.specs.Answers.{told};
ghost use Rattle.catalogue.specs.Slots.{redated};
ghost use Rattle.catalogue.specs.Held.{held, WritesSlot};

use crate::memory::Catalogue;
use crate::refusing::Refusal;
use crate::slot::{Slot, State};

impl<T: Drop> Catalogue<T> {
    /// Sets the last day of a place in work or published.
    pub fn amend(&mut self, place: usize, last: u16) -> Result<(), Refusal>
        ensures judged { Judged (held self.old) (amend place last) (told result) (held self.new) }
        ensures stored { MatchResult result (λ _. WritesSlot self.old self.new place (redated last)) (λ _. self.new ≡ self.old) }
        ensures fits { last ≤ 65535 }
    {
        let slot = self.slot(place)?;
        if slot.state == State::Empty {
            return Err(Refusal::EmptyPlace);
        }
        let head = slot.head.with_last(last).ok_or(Refusal::LastBeforeFirst)?;
        self.put(place, Slot { head, ..slot })
    }
}
