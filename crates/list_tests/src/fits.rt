//! Which offers fit an enquiry.
use crate::making::{enquiry, offer, plan, publish_under};
use catalogue::Catalogue;
use catalogue_tests::making::{check_told, opened, subscription};
use kinds::Plan;
use listing::{Enquiry, list};
use prices::PriceTable;
use stage_tests::making::stale;
use std::alloc::Global;
use std::test::Fail;

// 1 where the one offer of a catalogue is listed, 0 where none is, 2 for a refusal.
fn shown(catalogue: &Catalogue<Plan>, asked: &Enquiry) -> u16 {
    let mut memory = [stale(); 1];
    list(catalogue, asked, &mut memory).map_or(2, |told| u16::from(told == (1, 1)))
}

// A catalogue of one offer, which serves seat 0 from day 10 to day 20.
fn single(heap: Global, tariff: Plan) -> Result<Catalogue<Plan>, Fail> {
    let mut catalogue = opened(heap, 1, tariff)?;
    offer(heap, &mut catalogue, 0, 65, tariff)?;
    Ok(catalogue)
}

#[test]
fn a_tariff_that_serves_no_seat(rt: HostRuntime) -> Result<(), Fail> {
    let heap = rt.alloc();
    let catalogue = single(heap, Plan::new(PriceTable::empty()))?;
    let noughts = enquiry(heap, 1, 0)?;
    let one_part = enquiry(heap, 1, 1)?;
    let told = [shown(&catalogue, &noughts), shown(&catalogue, &one_part)];
    check_told(&told, &[1, 0])
}

#[test]
fn a_use_at_the_last_seat(rt: HostRuntime) -> Result<(), Fail> {
    let heap = rt.alloc();
    let catalogue = single(heap, plan(1, 1)?)?;
    let first = enquiry(heap, 1, 5)?;
    let mut last = enquiry(heap, 1, 0)?;
    last.estimate = vec![in heap; 0, 0, 0, 0, 0, 0, 0, 0, 0, 0, 0, 0, 0, 0, 0, 1]?;
    let told = [shown(&catalogue, &first), shown(&catalogue, &last)];
    check_told(&told, &[1, 0])
}

// What is shown on a day.
fn shown_on(catalogue: &Catalogue<Plan>, asked: &mut Enquiry, day: u16) -> u16 {
    asked.day = day;
    shown(catalogue, asked)
}

#[test]
fn days_at_both_ends(rt: HostRuntime) -> Result<(), Fail> {
    let heap = rt.alloc();
    let catalogue = single(heap, plan(1, 1)?)?;
    let mut asked = enquiry(heap, 1, 0)?;
    let told = [
        shown_on(&catalogue, &mut asked, 9),
        shown_on(&catalogue, &mut asked, 10),
        shown_on(&catalogue, &mut asked, 20),
        shown_on(&catalogue, &mut asked, 21),
        shown_on(&catalogue, &mut asked, 65_535),
    ];
    check_told(&told, &[0, 1, 1, 0, 2])
}

#[test]
fn an_open_last_day(rt: HostRuntime) -> Result<(), Fail> {
    let heap = rt.alloc();
    let mut catalogue = single(heap, plan(1, 1)?)?;
    let amended = catalogue.amend(0, 65_535).is_ok();
    let mut asked = enquiry(heap, 1, 0)?;
    assert!(rt; amended);
    assert_eq!(rt; shown_on(&catalogue, &mut asked, 65_534), 1);
    Ok(())
}

// What is shown for a network, a contract and a longest term.
fn shown_for(
    catalogue: &Catalogue<Plan>,
    asked: &mut Enquiry,
    network: u8,
    contract: u8,
    term: u8,
) -> u16 {
    asked.network = network;
    asked.contract = contract;
    asked.term = term;
    shown(catalogue, asked)
}

#[test]
fn networks_contracts_and_terms(rt: HostRuntime) -> Result<(), Fail> {
    let heap = rt.alloc();
    let mut catalogue = opened(heap, 1, plan(1, 1)?)?;
    let mut head = subscription(heap, 65, 10, 20)?;
    head.term = 12;
    publish_under(&mut catalogue, 0, &head, plan(1, 1)?)?;
    let mut asked = enquiry(heap, 1, 0)?;
    let told = [
        shown_for(&catalogue, &mut asked, 0, 0, 12),
        shown_for(&catalogue, &mut asked, 2, 1, 12),
        shown_for(&catalogue, &mut asked, 1, 0, 12),
        shown_for(&catalogue, &mut asked, 0, 2, 12),
        shown_for(&catalogue, &mut asked, 0, 0, 11),
        shown_for(&catalogue, &mut asked, 0, 0, 60),
    ];
    check_told(&told, &[1, 1, 0, 0, 0, 1])
}
