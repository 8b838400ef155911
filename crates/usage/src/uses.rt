//! The list of uses.
ghost use Rattle.std.specs.Prelude.{◌≡◌, ℕ, ◌≤◌, length, slice_index};

/// How many seats a list of uses has: one for each end service.
pub const SEATS: usize = 16;

/// The largest number of parts at a seat. A part is a thousandth of a unit.
pub const MOST_PARTS: u32 = 100_000_000;

/// A list of uses: the parts used at each of the 16 seats.
#[derive(Clone, Copy)]
pub struct Uses {
    pub(crate) parts: [u32; 16],
    ghost seats: { length parts ≡ 16 },
    ghost bounded: { (k : ℕ) → slice_index parts k ≤ 100000000 },
}
