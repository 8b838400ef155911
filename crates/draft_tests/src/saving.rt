//! Saving drafts: prices and groups seat by seat, and end services without a price.
use draft::{Draft, Refusal};
use prices::PriceTable;
use refusal::{Row, Value, number_in};
use std::test::Fail;
use tariff::Tariff;
use tree::ServiceTree;

// Node 0 above 1 and 2, node 3 above 4, node 5 alone: seats 0 to 3 are nodes 1, 2, 4 and 5.
fn wide() -> Result<Draft, Fail> {
    Ok(Draft::new(ServiceTree::new(&[255, 0, 0, 255, 3, 255])?))
}

// The price of a seat, 9 where it has none.
fn price(table: &PriceTable, seat: usize) -> u32 {
    table.price(seat).map_or(9, |price| price.price())
}

#[test]
fn prices_by_seat(rt: HostRuntime) -> Result<(), Fail> {
    let draft = wide()?.price(0, 100)?.price(4, 40)?;
    let plan = draft.save_plan(250)?;
    let table = plan.table();
    assert_eq!(rt; table.fixed().hundredths(), 250);
    assert_eq!(rt; price(table, 0), 100);
    assert_eq!(rt; price(table, 1), 100);
    assert_eq!(rt; price(table, 2), 40);
    assert_eq!(rt; price(table, 3), 9);
    assert!(rt; !plan.serves(3));
    assert!(rt; !plan.serves(4));
    Ok(())
}

#[test]
fn a_price_of_nothing_serves(rt: HostRuntime) -> Result<(), Fail> {
    let plan = wide()?.price(5, 0)?.save_plan(0)?;
    assert!(rt; plan.serves(3));
    assert!(rt; !plan.serves(0));
    Ok(())
}

#[test]
fn groups_by_seat_and_order(rt: HostRuntime) -> Result<(), Fail> {
    let draft = wide()?.group(9, 20, &[3])?.group(2, 10, &[0, 5])?;
    let table = draft.save_addon_table(0)?;
    let groups = table.groups();
    assert_eq!(rt; groups.count(), 2);
    let first = groups.group(0).ok_or_else(|| Fail::new("no first group"))?;
    assert_eq!(rt; first.order(), 2);
    assert_eq!(rt; first.units(), 10);
    assert!(rt; first.members().contains(0));
    assert!(rt; first.members().contains(1));
    assert!(rt; !first.members().contains(2));
    assert!(rt; first.members().contains(3));
    assert!(rt; !first.members().contains(4));
    Ok(())
}

#[test]
fn end_services_without_a_price(rt: HostRuntime) -> Result<(), Fail> {
    let draft = wide()?.group(1, 10, &[0, 3])?;
    assert_eq!(rt; number_in(draft.save_plan(0)), 120);
    let Err(refusal) = draft.price(1, 5)?.save_plan(0) else {
        return Err(Fail::new("saved without a price"));
    };
    assert_eq!(rt; refusal.value(0), Some(Value::Node(2)));
    assert_eq!(rt; refusal.value(1), None);
    assert!(rt; draft.save_addon_table(0).is_ok());
    assert!(rt; draft.price(0, 5)?.price(3, 6)?.save_plan(0).is_ok());
    Ok(())
}

#[test]
fn sums_of_saved_drafts(rt: HostRuntime) -> Result<(), Fail> {
    let draft = wide()?.group(1, 10, &[0])?;
    assert_eq!(rt; number_in(draft.save_plan(1_000_001)), 32);
    assert_eq!(rt; number_in(draft.save_plan(1_000_000)), 120);
    assert!(rt; draft.save_addon_table(1_000_000).is_ok());
    let Err(refusal) = draft.save_addon_table(1_000_001) else {
        return Err(Fail::new("saved over the range"));
    };
    assert_eq!(rt; refusal.number(), 32);
    Ok(())
}
