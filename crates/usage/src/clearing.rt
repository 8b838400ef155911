//! Sets of seats, and lists of uses with some seats at 0.
ghost use Rattle.std.specs.Prelude.{◌≡◌, false, slice_index_or};
ghost use Rattle.usage.specs.UsesLists.{cleared};
ghost use Rattle.usage.specs.Groups.{no_member};

use crate::seats::Seats;
use crate::uses::Uses;
use std::array;

impl Seats {
    /// The set of the seats that are flagged.
    pub fn new(flags: [bool; 16]) -> Seats
        ensures { result.flags ≡ flags }
    {
        Seats { flags }
    }

    /// Whether the seat is in the set; a seat over 15 is in none.
    pub fn contains(&self, seat: usize) -> bool
        ensures { result ≡ slice_index_or self.now.flags seat false }
    {
        self.flags.get(seat).copied().unwrap_or(false)
    }

    /// Whether no seat is in the set.
    pub fn is_empty(&self) -> bool
        ensures { result ≡ no_member self.now.flags }
    {
        self.flags.iter().all(|flag| !flag)
    }
}

impl Uses {
    /// The list with each seat of the set at 0.
    pub fn without(self, seats: &Seats) -> Uses
        ensures { result.parts ≡ cleared seats.now.flags self.parts }
    {
        let parts: [u32; 16] = array::from_fn(|seat| if seats.flags[seat] {
            0
        } else {
            self.parts[seat]
        });
        Uses { parts }
    }
}
