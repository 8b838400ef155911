//! Opening a catalogue, and how many places it has.
ghost use Rattle.std.specs.Prelude.{◌≡◌, map, length, vec_len, MatchResult};
ghost use Rattle.catalogue.specs.declared.refusing.Refusal.TheVariants.{NotOpened};
ghost use Rattle.catalogue.specs.Books.{all_empty, Openable, Apart, SoundBook};
ghost use Rattle.catalogue.specs.Slots.{slot_data, emptied};
ghost use Rattle.catalogue.specs.Held.{memory, held};
ghost use Rattle.catalogue.specs.Laws.{BookLaws};

use crate::memory::{Catalogue, MOST_PLACES};
use crate::refusing::Refusal;
use crate::slot::{Slot, State};

/// Memories that no catalogue was opened over, as they were.
#[derive(Drop)]
pub struct Unopened<T> {
    /// Why.
    pub refusal: Refusal,
    /// The slots.
    pub slots: Vec<Slot>,
    /// The tariffs.
    pub tariffs: Vec<T>,
}

impl<T: Drop> Catalogue<T> {
    /// Opens a catalogue over these memories, with every place empty: only states change. Refused with 8, it hands them back.
    pub fn open(mut slots: Vec<Slot>, tariffs: Vec<T>) -> Result<Catalogue<T>, Unopened<T>>
        ensures { MatchResult result (λ m. Openable (vec_len slots) (vec_len tariffs) × (held m ≡ all_empty (vec_len slots)) × (memory m ≡ map emptied (map slot_data slots.items)) × (m.tariffs ≡ tariffs)) (λ u. (Openable (vec_len slots) (vec_len tariffs) → ⊥) × (u.refusal ≡ NotOpened) × (u.slots ≡ slots) × (u.tariffs ≡ tariffs)) }
    {
        let n = slots.len();
        if !(1..=MOST_PLACES).contains(&n) || n != tariffs.len() {
            return Err(Unopened {
                refusal: Refusal::NotOpened,
                slots,
                tariffs,
            });
        }
        for slot in slots.iter_mut() {
            slot.state = State::Empty;
        }
        Ok(Catalogue { slots, tariffs })
    }
}

impl<T> Catalogue<T> {
    /// How many places there are. No two published namesakes share a day, and every head entered keeps the rules.
    pub fn places(&self) -> usize
        ensures is { result ≡ length (held self.now) }
        ensures openable { Openable result result }
        ensures apart { Apart (held self.now) }
        ensures sound { SoundBook (held self.now) }
        ensures laws { BookLaws T }
    {
        self.slots.len()
    }
}
