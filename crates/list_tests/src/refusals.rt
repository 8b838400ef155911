//! Why a list call is declined, topmost cause first.
use crate::making::{enquiry, plan};
use catalogue::Catalogue;
use catalogue_tests::making::{check_told, opened};
use kinds::Plan;
use listing::{Enquiry, Refusal, list};
use refusal::{Row, number_in};
use stage_tests::making::{check_lines, stale};
use stages::Line;
use std::test::Fail;

// The number that a list of this length, for this day, is declined with, or 0.
fn number(
    catalogue: &Catalogue<Plan>,
    asked: &mut Enquiry,
    length: usize,
    day: u16,
    memory: &mut [Line],
) -> u16 {
    asked.length = length;
    asked.day = day;
    number_in(list(catalogue, asked, memory))
}

#[test]
fn in_order(rt: HostRuntime) -> Result<(), Fail> {
    let heap = rt.alloc();
    let catalogue = opened(heap, 2, plan(1, 1)?)?;
    let mut short = [stale(); 1];
    let mut enough = [stale(); 2];
    let mut asked = enquiry(heap, 0, 100_000_001)?;
    let told = [
        number(&catalogue, &mut asked, 0, 65_535, &mut short),
        number(&catalogue, &mut asked, 21, 65_535, &mut short),
        number(&catalogue, &mut asked, 20, 65_535, &mut short),
        number(&catalogue, &mut asked, 20, 65_534, &mut short),
        number(&catalogue, &mut asked, 20, 65_534, &mut enough),
    ];
    check_told(&told, &[20, 20, 22, 24, 30])?;
    check_lines(&short, &[stale()])?;
    check_lines(&enough, &[stale(), stale()])
}

// The number that an enquiry with these values is declined with, or 0.
fn valued(
    catalogue: &Catalogue<Plan>,
    asked: &mut Enquiry,
    network: u8,
    contract: u8,
    term: u8,
) -> u16 {
    asked.network = network;
    asked.contract = contract;
    asked.term = term;
    let mut memory = [stale(); 1];
    number(catalogue, asked, 1, 65_534, &mut memory)
}

#[test]
fn values_of_an_enquiry(rt: HostRuntime) -> Result<(), Fail> {
    let heap = rt.alloc();
    let catalogue = opened(heap, 1, plan(1, 1)?)?;
    let mut asked = enquiry(heap, 1, 0)?;
    let told = [
        valued(&catalogue, &mut asked, 2, 2, 60),
        valued(&catalogue, &mut asked, 3, 2, 60),
        valued(&catalogue, &mut asked, 2, 3, 60),
        valued(&catalogue, &mut asked, 2, 2, 61),
    ];
    check_told(&told, &[0, 22, 22, 22])
}

#[test]
fn estimates(rt: HostRuntime) -> Result<(), Fail> {
    let heap = rt.alloc();
    let catalogue = opened(heap, 1, plan(1, 1)?)?;
    let mut memory = [stale(); 1];
    let mut most = enquiry(heap, 1, 100_000_000)?;
    let mut fifteen = enquiry(heap, 1, 0)?;
    fifteen.estimate = vec![in heap; 0u32; 15]?;
    let told = [
        number(&catalogue, &mut most, 1, 15, &mut memory),
        number(&catalogue, &mut fifteen, 1, 15, &mut memory),
    ];
    check_told(&told, &[0, 30])
}

#[test]
fn no_values(rt: HostRuntime) {
    assert_eq!(rt; Refusal::ShortMemory.number(), 24);
    assert_eq!(rt; Refusal::ShortMemory.value(0), None);
}
