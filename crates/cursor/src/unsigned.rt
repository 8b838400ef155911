//! Numbers of one, two and four bytes, the highest byte first.
ghost use Rattle.std.specs.Prelude.{◌≡◌, ℕ, ◌<◌, ◌≤◌, length, refl, Some, MatchOption};
ghost use Rattle.std.specs.Ordering.{nat_cmp};
ghost use Rattle.cursor.specs.Readings.{big_endian};

/// A number as it stands in a sheet: so many bytes, the highest first.
pub trait Number: Copy + PartialOrd {
    /// How many bytes there are.
    const WIDTH: usize;

    ghost WIDTH: { ℕ };

    // the number itself
    ghost number: { Self → ℕ };

    /// The number in the first bytes, if there are so many.
    fn first_in(bytes: &[u8]) -> Option<Self>
        ensures { MatchOption result (length bytes.now < WIDTH) (λ n. (WIDTH ≤ length bytes.now) × (number n ≡ big_endian WIDTH bytes.now 0)) };

    // two numbers compare as such
    ghost compared: { (a b : Self) → Self.partial_cmp a b ≡ Some (nat_cmp (number a) (number b)) };
}

impl Number for u8 {
    const WIDTH: usize = 1;

    ghost WIDTH = { 1 };

    ghost number = { λ n. n };

    ghost compared = { λ a b. refl };

    fn first_in(bytes: &[u8]) -> Option<u8> {
        bytes.first().copied()
    }
}

impl Number for u16 {
    const WIDTH: usize = 2;

    ghost WIDTH = { 2 };

    ghost number = { λ n. n };

    ghost compared = { λ a b. refl };

    fn first_in(bytes: &[u8]) -> Option<u16> {
        bytes.first_chunk().copied().map(u16::from_be_bytes)
    }
}

impl Number for u32 {
    const WIDTH: usize = 4;

    ghost WIDTH = { 4 };

    ghost number = { λ n. n };

    ghost compared = { λ a b. refl };

    fn first_in(bytes: &[u8]) -> Option<u32> {
        bytes.first_chunk().copied().map(u32::from_be_bytes)
    }
}
