//! The tariffs of the small shop.
use kinds::{AddOn, BlockTariff, DataOffer, PhoneOffer, Plan, Promotion};
use prices::{Block, BlockTable, FixedSum, PriceTable, UnitPrice};
use std::array;
use usage::{Groups, Refusal, Seats};

// The same price at seats 0 to 3, none elsewhere.
fn four(price: u32) -> Result<[Option<UnitPrice>; 16], Refusal> {
    let each = UnitPrice::new(price)?;
    Ok(array::from_fn(|seat| (seat < 4).then_some(each)))
}

/// A plan of this fixed sum and price at seats 0 to 3, with a promotion that takes a reduction off.
pub fn plain_plan(sum: u32, price: u32, reduction: u32) -> Result<PhoneOffer, Refusal> {
    let table = PriceTable::new(FixedSum::new(sum)?, four(price)?, Groups::none());
    let pile = AddOn::empty(AddOn::empty(Plan::new(table)));
    Ok(Promotion::new(FixedSum::new(reduction)?, pile))
}

// Blocks of so many parts at seats 0 and 1.
fn two_blocks(parts: u32, price: u32) -> Result<BlockTable, Refusal> {
    let block = Block::new(parts, UnitPrice::new(price)?)?;
    let blocks = array::from_fn(|seat| (seat < 2).then_some(block));
    Ok(BlockTable::new(blocks))
}

/// A block tariff of this fixed sum, under an option of 1.00 with some units over seats 0 and 1.
pub fn blocks(sum: u32, parts: u32, price: u32, units: u32) -> Result<DataOffer, Refusal> {
    let flags = array::from_fn(|seat| seat < 2);
    let groups = Groups::none().add(Seats::new(flags), units, 1)?;
    let option = PriceTable::new(FixedSum::new(100)?, [None; 16], groups);
    let tariff = BlockTariff::new(FixedSum::new(sum)?, two_blocks(parts, price)?);
    Ok(Promotion::new(FixedSum::new(0)?, AddOn::new(option, tariff)))
}
