//! What stands at a seat and charges its use, and what all seats cost together.
ghost use Rattle.std.specs.Prelude.{◌≡◌, ℕ, ◌*◌, ◌<◌, ◌≤◌};
ghost use Rattle.prices.specs.OverSeats.{over_seats, entry_cost};
ghost use Rattle.prices.specs.Blocks.{started};
ghost use Rattle.prices.specs.Laws.{price_within, block_within};

use crate::amounts::UnitPrice;
use crate::block::Block;
use usage::Uses;

/// What stands at a seat and charges its use: a unit price, or a block.
pub trait SeatCharge: Copy {
    // what so many parts cost, in ten-millionths
    ghost cost: { Self → ℕ → ℕ };

    /// What so many parts cost, in ten-millionths.
    fn cost(&self, parts: u32) -> u64
        ensures { result ≡ cost self.now parts };

    // whatever the parts, they cost no more than this
    ghost within: { (x : Self) (parts : ℕ) → parts < 4294967296 → cost x parts ≤ 5000000000000000 };
}

impl SeatCharge for UnitPrice {
    ghost cost = { λ p parts. parts * p.price };

    ghost within = { λ p parts few. price_within p parts few };

    fn cost(&self, parts: u32) -> u64 {
        u64::from(parts) * u64::from(self.price)
    }
}

impl SeatCharge for Block {
    ghost cost = { λ b parts. started parts b.parts * (b.price.price * 1000) };

    ghost within = { λ b parts few. block_within b parts few };

    fn cost(&self, parts: u32) -> u64 {
        let size = u64::from(self.parts);
        let started = (u64::from(parts) + (size - 1)) / size;
        started * (u64::from(self.price.price) * 1000)
    }
}

// What the uses cost together at the seats that have an entry.
pub(crate) fn cost_over_seats<T: SeatCharge>(entries: &[Option<T>; 16], parts: &[u32; 16]) -> u64
    ensures { result ≡ over_seats (entry_cost T.cost) entries.now parts.now }
{
    // A sum over pairs of entries and parts leaves open that it fits, so the seats are gone through by number.
    let mut sum: u64 = 0;
    for seat in 0..16 {
        sum += entry_cost(entries[seat], parts[seat]);
    }
    sum
}

// What so many parts cost at a seat's entry, or at none.
fn entry_cost<T: SeatCharge>(entry: Option<T>, parts: u32) -> u64
    ensures is { result ≡ entry_cost T.cost entry parts }
    ensures bound { result ≤ 5000000000000000 }
{
    entry.map_or(0, |entry| entry.cost(parts))
}
