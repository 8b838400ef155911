//! Saving a draft, as a plan or as an option's table.
ghost use Rattle.std.specs.Prelude.{◌≡◌, ◌<◌, false, length, None, slice_index_or, take};
ghost use Rattle.std.specs.List.{list_any};
ghost use Rattle.refusal.specs.Lowest.{lowest};
ghost use Rattle.prices.specs.Tables.{price_of, price_data, table_data};
ghost use Rattle.tree.specs.Trees.{end_at};
ghost use Rattle.tree.specs.Held.{parents_of};
ghost use Rattle.draft.specs.Drafts.{draft_data, if_there};
ghost use Rattle.draft.specs.Rules.{map_ok};
ghost use Rattle.draft.specs.Saving.{AddonAnswer, PlanAnswer, end_price, seat_prices, saved_table, lacks_price, save_addon, save_plan};
ghost use Rattle.draft.specs.Plans.{plan_table};

use crate::draft::Draft;
use crate::refusing::Refusal;
use kinds::Plan;
use prices::{FixedSum, PriceTable, UnitPrice};
use std::array;
use usage::Groups;

impl Draft {
    /// The draft saved as what an option holds, with a fixed sum: refused with 32 where the sum is outside its range.
    pub fn save_addon_table(&self, sum: u32) -> Result<PriceTable, Refusal>
        ensures is { map_ok table_data result ≡ save_addon (draft_data self.now) sum }
        ensures means { AddonAnswer (draft_data self.now) sum (map_ok table_data result) }
    {
        self.to_addon_table(sum)
    }

    /// The draft saved as a plan, with a fixed sum; or the topmost cause that refuses it.
    pub fn save_plan(&self, sum: u32) -> Result<Plan, Refusal>
        ensures is { map_ok plan_table result ≡ save_plan (draft_data self.now) sum }
        ensures means { PlanAnswer (draft_data self.now) sum (map_ok plan_table result) }
    {
        self.to_plan(sum)
    }

    // By their first clauses; the second ones follow from them once, and not at each exit.
    fn to_addon_table(&self, sum: u32) -> Result<PriceTable, Refusal>
        ensures { map_ok table_data result ≡ save_addon (draft_data self.now) sum }
    {
        let fixed = FixedSum::new(sum)?;
        Ok(self.table(fixed))
    }

    fn to_plan(&self, sum: u32) -> Result<Plan, Refusal>
        ensures { map_ok plan_table result ≡ save_plan (draft_data self.now) sum }
    {
        let fixed = FixedSum::new(sum)?;
        if let Some(end) = self.unpriced() {
            return Err(Refusal::NoPrice(end));
        }
        Ok(Plan::new(self.table(fixed)))
    }

    // What the saved draft holds.
    fn table(&self, fixed: FixedSum) -> PriceTable
        ensures { table_data result ≡ saved_table (draft_data self.now) fixed.hundredths }
    {
        let prices = self.seat_prices();
        let groups = self.groups;
        PriceTable::new(fixed, prices, groups)
    }

    // The price of each seat.
    fn seat_prices(&self) -> [Option<UnitPrice>; 16]
        ensures { price_data result ≡ seat_prices (draft_data self.now) }
    {
        array::from_fn(|seat| self.seat_price(seat as u8))
    }

    fn seat_price(&self, seat: u8) -> Option<UnitPrice>
        ensures { price_of result ≡ if_there None (end_price (draft_data self.now)) (end_at (parents_of self.now.tree) seat) }
    {
        let end = self.tree.end_service(seat)?;
        self.end_price(end)
    }

    // The price of an end service: that of the priced node on its branch.
    fn end_price(&self, end: u8) -> Option<UnitPrice>
        ensures { price_of result ≡ end_price (draft_data self.now) end }
    {
        let node = self.tree.lowest(|node| self.price_at(node).is_some()
            && self.tree.is_under(end, node))?;
        self.price_at(node)
    }

    // The lowest end service without a price, under a group.
    fn unpriced(&self) -> Option<u8>
        ensures { result ≡ lowest (lacks_price (draft_data self.now)) (length (parents_of self.now.tree)) }
    {
        self.tree.lowest(|node| self.lacks_price(node))
    }

    // Whether a node is an end service without a price, under a group.
    fn lacks_price(&self, node: u8) -> bool
        ensures { result ≡ lacks_price (draft_data self.now) node }
    {
        self.tree.seat(node).is_some_and(|seat| in_group(&self.groups, seat)
            && self.end_price(node).is_none())
    }
}

// Whether a seat belongs to one of the groups.
fn in_group(groups: &Groups, seat: u8) -> bool
    ensures { result ≡ list_any (λ g. slice_index_or g.members.flags seat false) (take groups.now.count groups.now.entries) }
{
    groups
        .entries()
        .iter()
        .any(|group| group.members().contains(usize::from(seat)))
}
