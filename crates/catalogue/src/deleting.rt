//! Deleting a place in work.
ghost use Rattle.std.specs.Prelude.{◌≡◌, MatchResult};
ghost use Rattle.catalogue.specs.declared.slot.State.TheVariants.{Empty};
ghost use Rattle.catalogue.specs.Calls.{Judged, delete};
ghost use Rattle.catalogue.specs.Answers.{told};
ghost use Rattle.catalogue.specs.Slots.{restated};
ghost use Rattle.catalogue.specs.Held.{held, WritesSlot};

use crate::memory::Catalogue;
use crate::refusing::Refusal;
use crate::slot::{Slot, State};

impl<T: Drop> Catalogue<T> {
    /// Empties a place in work: only its state changes.
    pub fn delete(&mut self, place: usize) -> Result<(), Refusal>
        ensures judged { Judged (held self.old) (delete place) (told result) (held self.new) }
        ensures stored { MatchResult result (λ _. WritesSlot self.old self.new place (restated Empty)) (λ _. self.new ≡ self.old) }
    {
        let slot = self.slot(place)?;
        match slot.state {
            State::Empty => Err(Refusal::EmptyPlace),
            State::Published => Err(Refusal::StillPublished),
            State::InWork => self.put(
                place,
                Slot {
                    state: State::Empty,
                    ..slot
                },
            ),
        }
    }
}
