//! Entries of drafts: every refusal, the topmost first, with the node that it names.
use draft::{Draft, Refusal};
use refusal::{Row, Value};
use std::test::Fail;
use tree::ServiceTree;

// A draft on nodes 1 and 2 under 0.
fn fork() -> Result<Draft, Fail> {
    Ok(Draft::new(ServiceTree::new(&[255, 0, 0])?))
}

// The number of a refusal and the node that it names, 255 for none; 0 where the entry is granted.
fn told(answer: Result<Draft, Refusal>) -> (u16, u64) {
    let refusal = answer.err();
    refusal.map_or((0, 255), |refusal| (refusal.number(), node_of(refusal)))
}

fn node_of(refusal: Refusal) -> u64 {
    match refusal.value(0) {
        Some(Value::Node(node)) => node,
        _ => 255,
    }
}

#[test]
fn a_price_above_or_below(rt: HostRuntime) -> Result<(), Fail> {
    let above = fork()?.price(0, 5)?;
    assert_eq!(rt; told(above.price(1, 7)), (100, 0));
    assert_eq!(rt; told(above.price(0, 7)), (100, 0));
    let below = fork()?.price(2, 5)?.price(1, 0)?;
    assert_eq!(rt; told(below.price(0, 7)), (100, 1));
    Ok(())
}

#[test]
fn a_declined_price_changes_nothing(rt: HostRuntime) -> Result<(), Fail> {
    let draft = fork()?.price(1, 5)?;
    assert_eq!(rt; told(draft.price(0, 7)), (100, 1));
    assert!(rt; draft.price_at(0).is_none());
    assert!(rt; draft.price_at(1).is_some());
    assert!(rt; draft.price_at(255).is_none());
    assert_eq!(rt; told(draft.price(2, 7)), (0, 255));
    Ok(())
}

#[test]
fn ranges_of_prices(rt: HostRuntime) -> Result<(), Fail> {
    assert_eq!(rt; told(fork()?.price(2, 1_000_000)), (0, 255));
    assert_eq!(rt; told(fork()?.price(2, 1_000_001)), (32, 255));
    assert_eq!(rt; told(fork()?.price(3, 1_000_001)), (34, 255));
    let draft = fork()?.price(0, 0)?;
    assert_eq!(rt; told(draft.price(1, 1_000_001)), (32, 255));
    Ok(())
}

#[test]
fn nodes_of_one_group(rt: HostRuntime) -> Result<(), Fail> {
    assert_eq!(rt; told(fork()?.group(3, 10, &[0, 1])), (110, 0));
    assert_eq!(rt; told(fork()?.group(3, 10, &[2, 1, 0])), (110, 0));
    assert_eq!(rt; told(fork()?.group(3, 10, &[1, 2])), (0, 255));
    // a node given twice counts once
    assert_eq!(rt; told(fork()?.group(3, 10, &[1, 1])), (0, 255));
    Ok(())
}

#[test]
fn nodes_of_earlier_groups(rt: HostRuntime) -> Result<(), Fail> {
    let draft = fork()?.group(3, 10, &[0])?;
    assert_eq!(rt; told(draft.group(4, 10, &[0])), (0, 255));
    assert_eq!(rt; told(draft.group(4, 10, &[2])), (110, 2));
    assert_eq!(rt; told(draft.group(4, 10, &[2, 1])), (110, 1));
    let lower = fork()?.group(3, 10, &[2])?;
    assert_eq!(rt; told(lower.group(4, 10, &[0])), (110, 0));
    assert_eq!(rt; told(lower.group(4, 10, &[1])), (0, 255));
    Ok(())
}

#[test]
fn the_topmost_cause_of_a_group(rt: HostRuntime) -> Result<(), Fail> {
    let draft = fork()?.group(3, 10, &[0])?;
    assert_eq!(rt; told(draft.group(3, 1_600_001, &[])), (34, 255));
    assert_eq!(rt; told(draft.group(3, 1_600_001, &[1, 3])), (34, 255));
    assert_eq!(rt; told(draft.group(3, 1_600_001, &[1])), (32, 255));
    assert_eq!(rt; told(draft.group(3, 1_600_000, &[1])), (115, 255));
    assert_eq!(rt; told(draft.group(255, 1_600_000, &[1])), (110, 1));
    Ok(())
}

#[test]
fn a_ninth_group(rt: HostRuntime) -> Result<(), Fail> {
    let mut draft = fork()?;
    for order in 0..8 {
        draft = draft.group(order, 0, &[0])?;
    }
    assert_eq!(rt; told(draft.group(7, 0, &[1])), (38, 255));
    assert_eq!(rt; told(draft.group(7, 1_600_001, &[1])), (32, 255));
    Ok(())
}
