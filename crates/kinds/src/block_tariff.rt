//! Block tariffs: use is paid by the started block.
ghost use Rattle.prices.specs.Blocks.{blocks_data};
ghost use Rattle.kinds.specs.Meanings.{block_served, block_charge, block_floor};
ghost use Rattle.std.proofs.Common.{refl};
ghost use Rattle.std.proofs.Math.Nat.{le_refl};
ghost use Rattle.kinds.specs.Laws.{capped_most, block_above};

use crate::plan::MOST_TOTAL;
use prices::{BlockTable, FixedSum};
use tariff::Tariff;
use usage::Uses;

/// A block tariff: a fixed sum, and a block or none for each seat. It draws nothing.
#[derive(Clone, Copy)]
pub struct BlockTariff {
    pub(crate) fixed: FixedSum,
    pub(crate) table: BlockTable,
}

impl Tariff for BlockTariff {
    ghost served = { λ t k. block_served (blocks_data t.table) k };

    ghost drawn = { λ t us. us };

    ghost charged = { λ t us. block_charge t.fixed.hundredths (blocks_data t.table) us };

    ghost floor = { λ t. block_floor t.fixed.hundredths };

    ghost keeps = { λ t us u. refl };

    ghost lowers = { λ t us u k. le_refl _ };

    ghost capped = { λ t us u. capped_most _ };

    ghost above = { λ t us u. block_above t.fixed.hundredths (blocks_data t.table) us t.fixed.low };

    fn serves(&self, seat: usize) -> bool {
        self.table.block(seat).is_some()
    }

    fn draw(&self, uses: Uses) -> Uses {
        uses
    }

    fn charge(&self, uses: &Uses) -> u64 {
        (self.fixed.amount() + self.table.cost(uses)).min(MOST_TOTAL)
    }

    fn floor(&self) -> u64 {
        self.fixed.amount()
    }
}
