//! What a plan holds, and what an option holds besides the tariff below it.
ghost use Rattle.std.specs.Prelude.{◌≡◌, length};

use crate::amounts::{FixedSum, UnitPrice};
use usage::Groups;

/// A fixed sum, a unit price or none for each of the 16 seats, and groups.
#[derive(Clone, Copy)]
pub struct PriceTable {
    pub(crate) fixed: FixedSum,
    pub(crate) prices: [Option<UnitPrice>; 16],
    pub(crate) groups: Groups,
    ghost seats: { length prices ≡ 16 },
}
