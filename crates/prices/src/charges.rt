//! Tables of prices: look-up, what the priced seats cost, and drawing.
ghost use Rattle.std.specs.Prelude.{◌≡◌, ◌*◌, ◌≤◌, map, is_some, None, slice_index_or};
ghost use Rattle.std.specs.Option.{option_map};
ghost use Rattle.usage.specs.Groups.{drawn_all};
ghost use Rattle.usage.specs.Held.{held};
ghost use Rattle.prices.specs.Tables.{priced_cost, priced_seats, table_data, empty_table};

use crate::amounts::{FixedSum, UnitPrice};
use crate::over_seats::cost_over_seats;
use crate::table::PriceTable;
use std::array;
use usage::{Groups, Seats, Uses};

impl PriceTable {
    /// The table of a fixed sum, prices and groups.
    pub fn new(fixed: FixedSum, prices: [Option<UnitPrice>; 16], groups: Groups) -> PriceTable
        ensures { (result.fixed ≡ fixed) × (result.prices ≡ prices) × (result.groups ≡ groups) }
    {
        PriceTable {
            fixed,
            prices,
            groups,
        }
    }

    /// The table without prices, groups or sum.
    pub fn empty() -> PriceTable
        ensures { table_data result ≡ empty_table }
    {
        PriceTable {
            fixed: FixedSum { hundredths: 0 },
            prices: [None; 16],
            groups: Groups::none(),
        }
    }

    /// The fixed sum.
    pub fn fixed(&self) -> FixedSum
        ensures { result ≡ self.now.fixed }
    {
        self.fixed
    }

    /// The groups.
    pub fn groups(&self) -> &Groups
        ensures { result.now ≡ self.now.groups }
    {
        &self.groups
    }

    /// The unit price of a seat, or none; a seat over 15 has none.
    pub fn price(&self, seat: usize) -> Option<UnitPrice>
        ensures { result ≡ slice_index_or self.now.prices seat None }
    {
        self.prices.get(seat).copied().flatten()
    }

    /// The seats that have a price.
    pub fn priced(&self) -> Seats
        ensures { result.flags ≡ priced_seats (table_data self.now).prices }
    {
        let flags = array::from_fn(|seat| self.is_priced(seat));
        Seats::new(flags)
    }

    // Whether a seat has a price.
    fn is_priced(&self, seat: usize) -> bool
        ensures { result ≡ is_some (slice_index_or self.now.prices seat None) }
    {
        self.price(seat).is_some()
    }

    /// What the uses of the priced seats cost, in ten-millionths.
    pub fn cost(&self, uses: &Uses) -> u64
        ensures is { result ≡ priced_cost (table_data self.now).prices uses.now.parts }
        ensures bound { result ≤ 1600000000000000 }
    {
        cost_over_seats(&self.prices, &uses.parts())
    }

    /// The list of uses after the table's groups were drawn, by ascending order.
    pub fn draw(&self, uses: Uses) -> Uses
        ensures { result.parts ≡ drawn_all (table_data self.now).groups uses.parts }
    {
        self.groups.draw(uses)
    }
}
