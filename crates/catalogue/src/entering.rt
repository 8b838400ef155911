//! Entering a head and a tariff.
ghost use Rattle.std.specs.Prelude.{◌≡◌, ◌<◌, Some, MatchResult, vec_len};
ghost use Rattle.heads.specs.Heads.{head_data, raw_data};
ghost use Rattle.catalogue.specs.Calls.{Judged, NoCause, enter};
ghost use Rattle.catalogue.specs.Refusals.{row_of};
ghost use Rattle.catalogue.specs.Answers.{told_back};
ghost use Rattle.catalogue.specs.Held.{held, WritesEntry};

use crate::memory::Catalogue;
use crate::refusing::Refusal;
use crate::slot::{Slot, State};
use heads::{Head, RawHead};

impl<T: Drop> Catalogue<T> {
    /// Writes head and tariff at a place that is empty or in work, which is then in work. Declined, it hands the tariff back.
    pub fn enter(&mut self, place: usize, head: &RawHead, tariff: T) -> Result<(), (Refusal, T)>
        ensures judged { Judged (held self.old) (enter place (raw_data head.now) tariff) (told_back result) (held self.new) }
        ensures stored { MatchResult result (λ _. WritesEntry self.old self.new place (raw_data head.now) tariff) (λ e. (self.new ≡ self.old) × (e.1 ≡ tariff)) }
    {
        // The tariff goes into the memory or back with the refusal, so `map_err` cannot take it.
        match self.enterable(place, head) {
            Err(refusal) => Err((refusal, tariff)),
            Ok(head) => {
                self.slots[place] = Slot {
                    state: State::InWork,
                    head,
                };
                self.tariffs[place] = tariff;
                Ok(())
            }
        }
    }
}

impl<T> Catalogue<T> {
    // The head that an enter writes, where no row declines it.
    fn enterable(&self, place: usize, head: &RawHead) -> Result<Head, Refusal>
        ensures { MatchResult result (λ h. (place < vec_len self.now.slots) × (head_data h ≡ raw_data head.now) × ((t : T) → NoCause (held self.now) (enter place (raw_data head.now) t))) (λ e. (t : T) → Judged (held self.now) (enter place (raw_data head.now) t) (Some (row_of e)) (held self.now)) }
    {
        let slot = self.slot(place)?;
        let head = Head::new(head).ok_or(Refusal::BadHead)?;
        if slot.state == State::Published {
            return Err(Refusal::AlreadyPublished);
        }
        Ok(head)
    }
}
