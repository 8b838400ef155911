//! Reading the slot of a place, and writing one.
ghost use Rattle.std.specs.Prelude.{◌≡◌, ◌<◌, None, MatchResult, vec_len};
ghost use Rattle.catalogue.specs.declared.refusing.Refusal.TheVariants.{NoSuchPlace};
ghost use Rattle.catalogue.specs.Books.{place_at};
ghost use Rattle.catalogue.specs.Held.{held};
ghost use Rattle.catalogue.specs.Written.{SlotAt, Put};

use crate::memory::Catalogue;
use crate::refusing::Refusal;
use crate::rivals::clashing;
use crate::slot::{Slot, State};

impl<T> Catalogue<T> {
    // What the memory holds of a place, if there is such a place.
    pub(crate) fn slot(&self, place: usize) -> Result<Slot, Refusal>
        ensures { MatchResult result (λ s. SlotAt self.now place s) (λ e. (e ≡ NoSuchPlace) × (place_at (held self.now) place ≡ None)) }
    {
        self.slots.get(place).copied().ok_or(Refusal::NoSuchPlace)
    }

    // Writes a slot, unless it is published and a published namesake at another place shares a day with it.
    pub(crate) fn put(&mut self, place: usize, slot: Slot) -> Result<(), Refusal>
        requires { place < vec_len self.old.slots }
        ensures { Put self.old self.new place slot result }
    {
        if slot.state == State::Published {
            if let Some(other) = clashing(&self.slots, place, &slot.head) {
                return Err(Refusal::SharesDay(other));
            }
        }
        self.slots[place] = slot;
        Ok(())
    }
}
