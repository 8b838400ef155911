//! The catalogue's own memory: a slot and a tariff for each place.
ghost use Rattle.std.specs.Prelude.{◌≡◌, ◌≤◌, map, vec_len};
ghost use Rattle.catalogue.specs.declared.memory.TheConstants.{MOST_PLACES};
ghost use Rattle.catalogue.specs.Books.{Apart};
ghost use Rattle.catalogue.specs.Slots.{slot_data, book_of};

use crate::slot::Slot;

/// The most places of a catalogue.
pub const MOST_PLACES: usize = 256;

/// A catalogue of offers: 1 to 256 places. Two published namesakes never share a day.
// One memory for heads and one for tariffs is handed over at opening, so there are two vectors.
#[derive(Drop)]
pub struct Catalogue<T> {
    pub(crate) slots: Vec<Slot>,
    pub(crate) tariffs: Vec<T>,
    ghost level: { vec_len slots ≡ vec_len tariffs },
    ghost some: { 1 ≤ vec_len slots },
    ghost few: { vec_len slots ≤ MOST_PLACES },
    ghost apart: { Apart (book_of (map slot_data slots.items) tariffs.items) },
}
