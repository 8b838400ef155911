//! Small bills.
use kinds::piles::data_total;
use kinds::{AddOn, BlockTariff, Plan, Promotion};
use prices::{Block, BlockTable, FixedSum, PriceTable, UnitPrice};
use std::test::Fail;
use tariff::{Tariff, total};
use usage::{Groups, Refusal, Seats, Uses};

// Uses of these parts at seats 0, 1 and 2.
fn three(first: u32, second: u32, third: u32) -> Result<Uses, Refusal> {
    Uses::new(&[first, second, third, 0, 0, 0, 0, 0, 0, 0, 0, 0, 0, 0, 0, 0])
}

// A table of a sum, a price at seat 0, and groups.
fn table(sum: u32, price: Option<u32>, groups: Groups) -> Result<PriceTable, Refusal> {
    let mut prices = [None; 16];
    if let Some(p) = price {
        prices[0] = Some(UnitPrice::new(p)?);
    }
    Ok(PriceTable::new(FixedSum::new(sum)?, prices, groups))
}

// One unit over seats 0, 1 and 2.
fn one_unit() -> Result<Groups, Refusal> {
    let mut flags = [false; 16];
    flags[0] = true;
    flags[1] = true;
    flags[2] = true;
    Groups::none().add(Seats::new(flags), 1, 0)
}

// A block tariff of 3.00 with blocks of 1,000 parts at 0.0001 a block, at seat 0.
fn blocks() -> Result<BlockTariff, Refusal> {
    let mut blocks = [None; 16];
    blocks[0] = Some(Block::new(1_000, UnitPrice::new(1)?)?);
    Ok(BlockTariff::new(FixedSum::new(300)?, BlockTable::new(blocks)))
}

#[test]
fn a_price_of_nothing_is_a_price(rt: HostRuntime) -> Result<(), Fail> {
    let plan = Plan::new(table(0, Some(0), Groups::none())?);
    assert!(rt; plan.serves(0));
    assert!(rt; !plan.serves(1));
    let above = AddOn::new(table(0, None, Groups::none())?, plan);
    assert!(rt; above.serves(0));
    assert!(rt; !above.serves(1));
    // priced at nothing by the add-on, a seat costs nothing below either
    let dear = Plan::new(table(0, Some(1_000), Groups::none())?);
    let free = AddOn::new(table(0, Some(0), Groups::none())?, dear);
    assert_eq!(rt; dear.charge(&three(10, 0, 0)?), 10_000);
    assert_eq!(rt; free.charge(&three(10, 0, 0)?), 0);
    Ok(())
}

#[test]
fn seats_over_fifteen_are_not_served(rt: HostRuntime) -> Result<(), Fail> {
    let price = Some(UnitPrice::new(1)?);
    let plan = Plan::new(PriceTable::new(FixedSum::new(0)?, [price; 16], Groups::none()));
    assert!(rt; plan.serves(15));
    assert!(rt; !plan.serves(16));
    assert!(rt; !plan.serves(usize::MAX));
    assert!(rt; plan.table().price(16).is_none());
    assert!(rt; !blocks()?.serves(16));
    assert!(rt; !AddOn::empty(plan).serves(16));
    assert!(rt; !Promotion::new(FixedSum::new(0)?, plan).serves(16));
    Ok(())
}

#[test]
fn thirds(rt: HostRuntime) -> Result<(), Fail> {
    let plan = Plan::new(table(0, None, one_unit()?)?);
    let left = plan.draw(three(1_000, 1_000, 1_000)?).parts();
    assert_eq!(rt; left[0], 667);
    assert_eq!(rt; left[1], 667);
    assert_eq!(rt; left[2], 666);
    let none = plan.draw(three(1, 1, 1)?).parts();
    assert_eq!(rt; none[0], 0);
    assert_eq!(rt; none[1], 0);
    assert_eq!(rt; none[2], 0);
    Ok(())
}

#[test]
fn the_largest_list_is_drawn(rt: HostRuntime) -> Result<(), Fail> {
    let groups = Groups::none().add(Seats::new([true; 16]), 1_600_000, 0)?;
    let plan = Plan::new(table(0, None, groups)?);
    let left = plan.draw(Uses::new(&[100_000_000; 16])?).parts();
    for parts in &left {
        assert_eq!(rt; *parts, 0);
    }
    Ok(())
}

#[test]
fn started_blocks(rt: HostRuntime) -> Result<(), Fail> {
    let tariff = blocks()?;
    assert_eq!(rt; tariff.floor(), 30_000_000);
    assert_eq!(rt; tariff.charge(&three(0, 0, 0)?), 30_000_000);
    assert_eq!(rt; tariff.charge(&three(1_000, 0, 0)?), 30_001_000);
    assert_eq!(rt; tariff.charge(&three(1_001, 0, 0)?), 30_002_000);
    assert_eq!(rt; tariff.draw(three(5, 6, 7)?).parts()[1], 6);
    Ok(())
}

#[test]
fn promotions_stop_at_nothing(rt: HostRuntime) -> Result<(), Fail> {
    let plan = Plan::new(table(300, Some(1), Groups::none())?);
    let promoted = Promotion::new(FixedSum::new(500)?, plan);
    assert_eq!(rt; promoted.floor(), 0);
    assert_eq!(rt; promoted.charge(&three(0, 0, 0)?), 0);
    assert_eq!(rt; total(&promoted, three(30_000_000, 0, 0)?), 10_000_000);
    Ok(())
}

#[test]
fn a_data_offer(rt: HostRuntime) -> Result<(), Fail> {
    let option = AddOn::new(table(200, None, one_unit()?)?, blocks()?);
    let offer = Promotion::new(FixedSum::new(100)?, option);
    assert_eq!(rt; offer.floor(), 40_000_000);
    assert_eq!(rt; data_total(&offer, three(2_500, 0, 0)?), 40_002_000);
    Ok(())
}
