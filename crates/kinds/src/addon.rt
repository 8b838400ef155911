//! Add-ons: a tariff over any tariff.
ghost use Rattle.prices.specs.Tables.{table_data, priced_seats};
ghost use Rattle.kinds.specs.Meanings.{addon_served, addon_drawn, addon_charge, addon_floor};
ghost use Rattle.std.proofs.Common.{◌∙◌};
ghost use Rattle.std.proofs.Math.Nat.{le_trans};
ghost use Rattle.kinds.specs.Laws.{capped_most, addon_above};
ghost use Rattle.usage.proofs.GroupLaws.{all_keeps, all_lowers};
ghost use Rattle.usage.specs.Held.{held};
ghost use Rattle.usage.proofs.UsesLaws.{cleared_uses};

use crate::plan::MOST_TOTAL;
use prices::PriceTable;
use tariff::Tariff;
use usage::Uses;

/// What `docs/` and the program call an *option* (the name `Option` is taken): a fixed sum, prices and groups over a tariff below.
///
/// A seat without a price of its own is the tariff below's.
#[derive(Clone, Copy)]
pub struct AddOn<T> {
    pub(crate) table: PriceTable,
    pub(crate) below: T,
}

impl<T: Tariff> Tariff for AddOn<T> {
    ghost served = { λ t k. addon_served (table_data t.table) (T.Tariff.served t.below) k };

    ghost drawn = { λ t us. addon_drawn (table_data t.table) (T.Tariff.drawn t.below) us };

    ghost charged = { λ t us. addon_charge (table_data t.table) (T.Tariff.charged t.below) us };

    ghost floor = { λ t. addon_floor (table_data t.table) (T.Tariff.floor t.below) };

    ghost keeps = { λ t us u. all_keeps (held t.table.groups) (T.Tariff.drawn t.below us) ∙ T.Tariff.keeps t.below us u };

    ghost lowers = { λ t us u k. le_trans (all_lowers (held t.table.groups) (T.Tariff.drawn t.below us) k) (T.Tariff.lowers t.below us u k) };

    ghost capped = { λ t us u. capped_most _ };

    ghost above = { λ t us u. addon_above (table_data t.table) (T.Tariff.charged t.below) (T.Tariff.floor t.below) us (T.Tariff.above t.below _ (cleared_uses (priced_seats (table_data t.table).prices) us u)) };

    fn serves(&self, seat: usize) -> bool {
        self.table.price(seat).is_some() || self.below.serves(seat)
    }

    fn draw(&self, uses: Uses) -> Uses {
        self.table.draw(self.below.draw(uses))
    }

    fn charge(&self, uses: &Uses) -> u64 {
        let own = self.table.fixed().amount() + self.table.cost(uses);
        let rest = uses.without(&self.table.priced());
        (own + self.below.charge(&rest)).min(MOST_TOTAL)
    }

    fn floor(&self) -> u64 {
        (self.table.fixed().amount() + self.below.floor()).min(MOST_TOTAL)
    }
}
