//! Blocks from raw numbers, and their numbers back.
ghost use Rattle.std.specs.Prelude.{◌≡◌, MatchResult};
ghost use Rattle.usage.specs.declared.refusing.Refusal.TheVariants.{OutOfRange};
ghost use Rattle.prices.specs.Blocks.{BlockRange};

use crate::amounts::UnitPrice;
use crate::block::{Block, LEAST_BLOCK, MOST_BLOCK};
use crate::ranges::in_range;
use usage::Refusal;

impl Block {
    /// The block of so many parts at a price: refused with 32 unless it has 1,000 to 1,000,000,000 parts.
    pub fn new(parts: u32, price: UnitPrice) -> Result<Block, Refusal>
        ensures { MatchResult result (λ b. BlockRange parts × ((b.parts ≡ parts) × (b.price ≡ price))) (λ e. (BlockRange parts → ⊥) × (e ≡ OutOfRange)) }
    {
        let parts = in_range(parts, LEAST_BLOCK, MOST_BLOCK)?;
        Ok(Block { parts, price })
    }

    /// The parts of the block.
    pub fn parts(&self) -> u32
        ensures is { result ≡ self.now.parts }
        ensures range { BlockRange result }
    {
        self.parts
    }

    /// The price of the block.
    pub fn price(&self) -> UnitPrice
        ensures { result ≡ self.now.price }
    {
        self.price
    }
}
