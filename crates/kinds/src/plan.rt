//! Plans: subscriptions and cards.
ghost use Rattle.prices.specs.Tables.{table_data};
ghost use Rattle.kinds.specs.Meanings.{plan_served, plan_drawn, plan_charge, plan_floor};
ghost use Rattle.usage.proofs.GroupLaws.{all_keeps, all_lowers};
ghost use Rattle.usage.specs.Held.{held};
ghost use Rattle.kinds.specs.Laws.{capped_most, plan_above};

use prices::PriceTable;
use tariff::Tariff;
use usage::Uses;

/// No total and no floor is above this, in ten-millionths.
pub const MOST_TOTAL: u64 = 1_000_000_000_000_000_000;

/// A plan: a fixed sum, a unit price or none for each seat, and groups.
#[derive(Clone, Copy)]
pub struct Plan {
    pub(crate) table: PriceTable,
}

impl Tariff for Plan {
    ghost served = { λ t k. plan_served (table_data t.table) k };

    ghost drawn = { λ t us. plan_drawn (table_data t.table) us };

    ghost charged = { λ t us. plan_charge (table_data t.table) us };

    ghost floor = { λ t. plan_floor (table_data t.table) };

    ghost keeps = { λ t us u. all_keeps (held t.table.groups) us };

    ghost lowers = { λ t us u k. all_lowers (held t.table.groups) us k };

    ghost capped = { λ t us u. capped_most _ };

    ghost above = { λ t us u. plan_above (table_data t.table) us t.table.fixed.low };

    fn serves(&self, seat: usize) -> bool {
        self.table.price(seat).is_some()
    }

    fn draw(&self, uses: Uses) -> Uses {
        self.table.draw(uses)
    }

    fn charge(&self, uses: &Uses) -> u64 {
        (self.table.fixed().amount() + self.table.cost(uses)).min(MOST_TOTAL)
    }

    fn floor(&self) -> u64 {
        self.table.fixed().amount()
    }
}
