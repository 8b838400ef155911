//! Blocks: use that is paid by the started block.
ghost use Rattle.std.specs.Prelude.{◌≤◌};

use crate::amounts::UnitPrice;

/// The fewest parts of a block.
pub const LEAST_BLOCK: u32 = 1_000;

/// The most parts of a block.
pub const MOST_BLOCK: u32 = 1_000_000_000;

/// A block of parts, and the price of a block: a unit price, multiplied by 1,000 to be a total.
#[derive(Clone, Copy)]
pub struct Block {
    pub(crate) parts: u32,
    pub(crate) price: UnitPrice,
    ghost least: { 1000 ≤ parts },
    ghost most: { parts ≤ 1000000000 },
}
