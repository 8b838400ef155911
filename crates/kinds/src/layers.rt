//! Making the kinds of tariff from their parts, and their parts back: a method each, which hands out a field.
ghost use Rattle.std.specs.Prelude.{◌≡◌};
ghost use Rattle.prices.specs.Tables.{table_data, empty_table};
ghost use Rattle.kinds.specs.Meanings.{addon_served, addon_drawn, addon_charge, addon_floor};
ghost use Rattle.kinds.specs.Nothing.{ChangesNothing};

use crate::addon::AddOn;
use crate::block_tariff::BlockTariff;
use crate::plan::Plan;
use crate::promotion::Promotion;
use prices::{BlockTable, FixedSum, PriceTable};
use tariff::Tariff;

impl Plan {
    /// The plan of a table.
    pub fn new(table: PriceTable) -> Plan
        ensures { result.table ≡ table }
    {
        Plan { table }
    }

    /// What the plan holds.
    pub fn table(&self) -> &PriceTable
        ensures { result.now ≡ self.now.table }
    {
        &self.table
    }
}

impl BlockTariff {
    /// The block tariff of a fixed sum and a table of blocks.
    pub fn new(fixed: FixedSum, table: BlockTable) -> BlockTariff
        ensures { (result.fixed ≡ fixed) × (result.table ≡ table) }
    {
        BlockTariff { fixed, table }
    }
}

impl<T> AddOn<T> {
    /// The add-on of a table over a tariff.
    pub fn new(table: PriceTable, below: T) -> AddOn<T>
        ensures { (result.table ≡ table) × (result.below ≡ below) }
    {
        AddOn { table, below }
    }

    /// What the add-on itself holds.
    pub fn table(&self) -> &PriceTable
        ensures { result.now ≡ self.now.table }
    {
        &self.table
    }

    /// The tariff below.
    pub fn below(&self) -> &T
        ensures { result.now ≡ self.now.below }
    {
        &self.below
    }
}

impl<T: Tariff> AddOn<T> {
    /// The add-on without prices, groups or sum: it changes nothing of the tariff below.
    pub fn empty(below: T) -> AddOn<T>
        ensures below { result.below ≡ below }
        ensures table { table_data result.table ≡ empty_table }
        ensures nothing { ChangesNothing (addon_served (table_data result.table) (T.served result.below)) (addon_drawn (table_data result.table) (T.drawn result.below)) (addon_charge (table_data result.table) (T.charged result.below)) (addon_floor (table_data result.table) (T.floor result.below)) (T.served below) (T.drawn below) (T.charged below) (T.floor below) }
    {
        AddOn {
            table: PriceTable::empty(),
            below,
        }
    }
}

impl<T> Promotion<T> {
    /// The promotion that takes up to a fixed sum off a tariff.
    pub fn new(reduction: FixedSum, below: T) -> Promotion<T>
        ensures { (result.reduction ≡ reduction) × (result.below ≡ below) }
    {
        Promotion { reduction, below }
    }

    /// The sum that the promotion takes off.
    pub fn reduction(&self) -> FixedSum
        ensures { result ≡ self.now.reduction }
    {
        self.reduction
    }

    /// The tariff below.
    pub fn below(&self) -> &T
        ensures { result.now ≡ self.now.below }
    {
        &self.below
    }
}
