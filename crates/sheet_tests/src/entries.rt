//! Entries that the draft declines.
use crate::sheets::*;
use std::test::Fail;

#[test]
fn no_such_node(rt: HostRuntime) -> Result<(), Fail> {
    against_draft(&with(19, 3), 34, 19)?;
    against_draft(&with(31, 3), 34, 25)
}

#[test]
fn amounts_out_of_range(rt: HostRuntime) -> Result<(), Fail> {
    // a price of 1,000,000 and more: 0x0F4240 is the most
    against_draft(&with(20, 1), 32, 19)?;
    // 1,600,000 units are 0x186A00
    against_draft(&with(26, 1), 32, 25)
}

#[test]
fn a_branch_priced_twice(rt: HostRuntime) -> Result<(), Fail> {
    let sheet = [
        1, 2, 0, 7, 0, 0, 0, 0, 0, 0, 0, 0, 0, 1, 65, 1, 65, 2, 1, 0, 0, 0, 1, 0, 0, 0, 0, 1, 0,
    ];
    at_node(&sheet, 100, 1, 23)
}

#[test]
fn an_entry_that_is_not_whole_is_not_entered(rt: HostRuntime) -> Result<(), Fail> {
    // the second price would be on the same branch
    let sheet = [
        1, 2, 0, 7, 0, 0, 0, 0, 0, 0, 0, 0, 0, 1, 65, 1, 65, 2, 1, 0, 0, 0, 1, 0, 0, 0, 0,
    ];
    against_layout(&sheet, 40, 27)
}

#[test]
fn an_order_used_twice(rt: HostRuntime) -> Result<(), Fail> {
    let sheet = [
        1, 2, 0, 7, 0, 0, 0, 0, 0, 0, 0, 0, 0, 1, 65, 1, 65, 0, 2, 5, 0, 0, 0, 1, 1, 1, 5, 0, 0, 0,
        1, 1, 2,
    ];
    against_draft(&sheet, 115, 26)
}

#[test]
fn groups_on_one_branch(rt: HostRuntime) -> Result<(), Fail> {
    let sheet = [
        1, 2, 0, 7, 0, 0, 0, 0, 0, 0, 0, 0, 0, 1, 65, 1, 65, 0, 2, 5, 0, 0, 0, 1, 1, 1, 6, 0, 0, 0,
        1, 1, 0,
    ];
    at_node(&sheet, 110, 0, 26)?;
    // a node given twice is one node
    let sheet = [
        1, 2, 0, 7, 0, 0, 0, 0, 0, 0, 0, 0, 0, 1, 65, 1, 65, 1, 1, 0, 0, 0, 1, 1, 5, 0, 0, 0, 1, 2,
        1, 1,
    ];
    assert_eq!(rt; refusal_of(&sheet)?.0, 0);
    Ok(())
}

#[test]
fn a_group_with_no_price(rt: HostRuntime) -> Result<(), Fail> {
    at_node(&with(31, 2), 120, 2, 32)?;
    at_node(&with(31, 0), 120, 2, 32)
}
