//! Tables of blocks: look-up, and what the started blocks cost.
ghost use Rattle.std.specs.Prelude.{◌≡◌, ◌≤◌, None, slice_index_or};
ghost use Rattle.prices.specs.Blocks.{blocks_cost, blocks_data};

use crate::block::Block;
use crate::blocks::BlockTable;
use crate::over_seats::cost_over_seats;
use usage::Uses;

impl BlockTable {
    /// The table of a block or none for each seat.
    pub fn new(blocks: [Option<Block>; 16]) -> BlockTable
        ensures { result.entries ≡ blocks }
    {
        BlockTable { entries: blocks }
    }

    /// The block of a seat, or none; a seat over 15 has none.
    pub fn block(&self, seat: usize) -> Option<Block>
        ensures { result ≡ slice_index_or self.now.entries seat None }
    {
        self.entries.get(seat).copied().flatten()
    }

    /// What the started blocks cost, in ten-millionths.
    pub fn cost(&self, uses: &Uses) -> u64
        ensures is { result ≡ blocks_cost (blocks_data self.now) uses.now.parts }
        ensures bound { result ≤ 80000000000000000 }
    {
        cost_over_seats(&self.entries, &uses.parts())
    }
}
