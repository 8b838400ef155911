//! Service trees: the edges of their rule, branches and seats.
use refusal::Row;
use std::array;
use std::test::Fail;
use tree::{Refusal, ServiceTree};

// Whether a list of parents is refused with 36.
fn refused(parents: &[u8]) -> bool {
    let refusal = ServiceTree::new(parents).err();
    refusal.is_some_and(|refusal| refusal.number() == 36 && refusal.value(0).is_none())
}

// A chain of so many nodes, at most 41: each under the one before.
fn chain(length: usize) -> ([u8; 41], usize) {
    let parents = array::from_fn(|node: usize| match node {
        0 => 255,
        _ => (node - 1) as u8,
    });
    (parents, length.min(41))
}

#[test]
fn sizes(rt: HostRuntime) {
    assert!(rt; refused(&[]));
    assert!(rt; !refused(&[255]));
    let (parents, _) = chain(41);
    assert!(rt; !refused(&parents[0..40]));
    assert!(rt; refused(&parents[0..41]));
}

#[test]
fn parents_are_numbered_lower(rt: HostRuntime) {
    assert!(rt; refused(&[0]));
    assert!(rt; refused(&[1, 255]));
    assert!(rt; refused(&[255, 1]));
    assert!(rt; refused(&[255, 2, 0]));
    assert!(rt; refused(&[255, 254]));
    assert!(rt; !refused(&[255, 255, 1]));
}

#[test]
fn end_services(rt: HostRuntime) {
    assert!(rt; !refused(&[255; 16]));
    assert!(rt; refused(&[255; 17]));
    // one node above sixteen, and above seventeen
    let mut parents = [0; 18];
    parents[0] = 255;
    assert!(rt; !refused(&parents[0..17]));
    assert!(rt; refused(&parents[0..18]));
}

#[test]
fn a_chain_of_forty(rt: HostRuntime) -> Result<(), Fail> {
    let (parents, _) = chain(40);
    let tree = ServiceTree::new(&parents[0..40])?;
    assert_eq!(rt; tree.nodes(), 40);
    assert_eq!(rt; tree.seats(), 1);
    assert_eq!(rt; tree.seat(39), Some(0));
    assert_eq!(rt; tree.end_service(0), Some(39));
    assert!(rt; tree.is_under(39, 0));
    assert!(rt; !tree.is_under(0, 39));
    assert!(rt; tree.share_branch(0, 39));
    assert!(rt; tree.share_branch(39, 0));
    Ok(())
}

#[test]
fn two_under_one(rt: HostRuntime) -> Result<(), Fail> {
    let tree = ServiceTree::new(&[255, 0, 0])?;
    assert!(rt; tree.is_under(1, 0));
    assert!(rt; tree.is_under(1, 1));
    assert!(rt; !tree.is_under(1, 2));
    assert!(rt; tree.share_branch(0, 2));
    assert!(rt; !tree.share_branch(1, 2));
    assert_eq!(rt; tree.parent(2), Some(0));
    assert_eq!(rt; tree.parent(0), None);
    assert!(rt; !tree.is_end_service(0));
    assert!(rt; tree.is_end_service(2));
    Ok(())
}

#[test]
fn seats_by_ascending_number(rt: HostRuntime) -> Result<(), Fail> {
    // 0 and 3 have no children; 1 has 2 and 4
    let tree = ServiceTree::new(&[255, 255, 1, 255, 1])?;
    assert_eq!(rt; tree.seats(), 4);
    assert_eq!(rt; tree.seat(0), Some(0));
    assert_eq!(rt; tree.seat(1), None);
    assert_eq!(rt; tree.seat(2), Some(1));
    assert_eq!(rt; tree.seat(3), Some(2));
    assert_eq!(rt; tree.seat(4), Some(3));
    assert_eq!(rt; tree.end_service(3), Some(4));
    assert_eq!(rt; tree.end_service(4), None);
    Ok(())
}

#[test]
fn numbers_that_are_no_nodes(rt: HostRuntime) -> Result<(), Fail> {
    let tree = ServiceTree::new(&[255, 0])?;
    assert!(rt; !tree.is_under(2, 0));
    assert!(rt; !tree.is_under(1, 255));
    assert!(rt; !tree.is_under(255, 255));
    assert!(rt; !tree.share_branch(2, 2));
    assert!(rt; !tree.is_end_service(2));
    assert_eq!(rt; tree.seat(255), None);
    assert_eq!(rt; tree.end_service(255), None);
    assert_eq!(rt; tree.parent(2), None);
    Ok(())
}
