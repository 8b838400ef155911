//! The edges of every range of every constructor.
use prices::{Block, FixedSum, UnitPrice};
use refusal::{Row, number_in};
use std::test::Fail;
use usage::{Group, Groups, Refusal, Seats, Uses};

fn nobody() -> Seats {
    Seats::new([false; 16])
}

fn everybody() -> Seats {
    Seats::new([true; 16])
}

#[test]
fn uses(rt: HostRuntime) {
    assert_eq!(rt; number_in(Uses::new(&[0; 15])), 30);
    assert_eq!(rt; number_in(Uses::new(&[0; 16])), 0);
    assert_eq!(rt; number_in(Uses::new(&[0; 17])), 30);
    assert_eq!(rt; number_in(Uses::new(&[])), 30);
    assert_eq!(rt; number_in(Uses::new(&[100_000_000; 16])), 0);
    assert_eq!(rt;
        number_in(Uses::new(&[0, 0, 0, 0, 0, 0, 0, 0, 0, 0, 0, 0, 0, 0, 0, 100_000_001])),
        30
    );
    assert_eq!(rt;
        number_in(Uses::new(&[100_000_001, 0, 0, 0, 0, 0, 0, 0, 0, 0, 0, 0, 0, 0, 0, 0])),
        30
    );
}

#[test]
fn sums_and_prices(rt: HostRuntime) {
    assert_eq!(rt; number_in(FixedSum::new(0)), 0);
    assert_eq!(rt; number_in(FixedSum::new(1_000_000)), 0);
    assert_eq!(rt; number_in(FixedSum::new(1_000_001)), 32);
    assert_eq!(rt; number_in(UnitPrice::new(0)), 0);
    assert_eq!(rt; number_in(UnitPrice::new(1_000_000)), 0);
    assert_eq!(rt; number_in(UnitPrice::new(1_000_001)), 32);
    assert_eq!(rt; number_in(UnitPrice::new(u32::MAX)), 32);
}

#[test]
fn blocks(rt: HostRuntime) -> Result<(), Fail> {
    let price = UnitPrice::new(1)?;
    assert_eq!(rt; number_in(Block::new(999, price)), 32);
    assert_eq!(rt; number_in(Block::new(1_000, price)), 0);
    assert_eq!(rt; number_in(Block::new(1_000_000_000, price)), 0);
    assert_eq!(rt; number_in(Block::new(1_000_000_001, price)), 32);
    assert_eq!(rt; number_in(Block::new(0, price)), 32);
    Ok(())
}

#[test]
fn single_groups(rt: HostRuntime) {
    assert_eq!(rt; number_in(Group::new(everybody(), 0, 0)), 0);
    assert_eq!(rt; number_in(Group::new(everybody(), 1_600_000, 255)), 0);
    assert_eq!(rt; number_in(Group::new(everybody(), 1_600_001, 0)), 32);
    assert_eq!(rt; number_in(Group::new(nobody(), 1, 0)), 34);
    assert_eq!(rt;
        number_in(Group::new(nobody(), 1_600_001, 0)),
        34,
        "the topmost cause is given"
    );
}

// Groups with these orders, 1 unit each over every seat.
fn with_orders(orders: &[u8]) -> Result<Groups, Refusal> {
    let mut groups = Groups::none();
    for order in orders {
        groups = groups.add(everybody(), 1, *order)?;
    }
    Ok(groups)
}

#[test]
fn eight_groups(rt: HostRuntime) -> Result<(), Fail> {
    let eight = with_orders(&[7, 0, 255, 3, 5, 1, 254, 2])?;
    assert_eq!(rt; eight.count(), 8);
    assert_eq!(rt; number_in(eight.add(everybody(), 1, 9)), 38);
    assert_eq!(rt;
        number_in(eight.add(everybody(), 1, 7)),
        38,
        "the ninth group comes before the used order"
    );
    assert_eq!(rt; number_in(eight.add(nobody(), 1, 9)), 34);
    assert_eq!(rt; number_in(eight.add(everybody(), 1_600_001, 9)), 32);
    Ok(())
}

#[test]
fn ascending_orders(rt: HostRuntime) -> Result<(), Fail> {
    let groups = with_orders(&[7, 0, 255])?;
    assert_eq!(rt; number_in(groups.add(everybody(), 1, 0)), 115);
    assert_eq!(rt; number_in(groups.add(everybody(), 1, 255)), 115);
    assert_eq!(rt; number_in(groups.add(everybody(), 1, 6)), 0);
    assert_eq!(rt; order_at(&groups, 0), Some(0));
    assert_eq!(rt; order_at(&groups, 1), Some(7));
    assert_eq!(rt; order_at(&groups, 2), Some(255));
    assert_eq!(rt; order_at(&groups, 3), None);
    Ok(())
}

fn order_at(groups: &Groups, at: usize) -> Option<u8> {
    groups.group(at).map(|group| group.order())
}

#[test]
fn numbers(rt: HostRuntime) {
    assert_eq!(rt; Refusal::BadUses.number(), 30);
    assert_eq!(rt; Refusal::EmptyGroup.number(), 34);
    assert_eq!(rt; Refusal::OutOfRange.number(), 32);
    assert_eq!(rt; Refusal::NinthGroup.number(), 38);
    assert_eq!(rt; Refusal::OrderUsed.number(), 115);
    assert_eq!(rt; Refusal::OrderUsed.value(0), None);
}
