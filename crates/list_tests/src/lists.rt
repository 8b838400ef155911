//! What a list shows, and how many offers it costs.
use crate::making::{enquiry, offer, plan};
use catalogue::Catalogue;
use catalogue_tests::making::{check_count, opened};
use kinds::Plan;
use listing::list;
use stage_tests::making::{check_lines, line, stale};
use stages::Line;
use std::alloc::Global;
use std::test::Fail;

// What an offer of the tests holds: a sum and a price.
#[derive(Clone, Copy)]
struct Sums {
    sum: u32,
    price: u32,
}

fn priced(sum: u32, price: u32) -> Sums {
    Sums { sum, price }
}

// Offers at places 0, 1 and 3 of 4.
fn shop(heap: Global, first: Sums, second: Sums, third: Sums) -> Result<Catalogue<Plan>, Fail> {
    let mut catalogue = opened(heap, 4, plan(0, 0)?)?;
    offer(heap, &mut catalogue, 0, 65, plan(first.sum, first.price)?)?;
    offer(heap, &mut catalogue, 1, 66, plan(second.sum, second.price)?)?;
    offer(heap, &mut catalogue, 3, 67, plan(third.sum, third.price)?)?;
    Ok(catalogue)
}

// Lists for 100,000 parts at seat 0, which cost as many hundredths as the price has ten-thousandths.
fn check_list(
    heap: Global,
    catalogue: &Catalogue<Plan>,
    length: usize,
    memory: &mut [Line],
    wanted_shown: usize,
    wanted_costed: usize,
) -> Result<(), Fail> {
    let (shown, costed) = list(catalogue, &enquiry(heap, length, 100_000)?, memory)?;
    check_count(shown, wanted_shown, "shown")?;
    check_count(costed, wanted_costed, "costed")
}

#[test]
fn equal_totals_stay_on(rt: HostRuntime) -> Result<(), Fail> {
    let heap = rt.alloc();
    let catalogue = shop(heap, priced(7, 0), priced(5, 0), priced(5, 0))?;
    let mut memory = [stale(); 5];
    check_list(heap, &catalogue, 1, &mut memory, 2, 2)?;
    let none = line(0, 0);
    check_lines(&memory, &[line(1, 5), line(3, 5), none, none, none])
}

#[test]
fn lengths(rt: HostRuntime) -> Result<(), Fail> {
    let heap = rt.alloc();
    let catalogue = shop(heap, priced(7, 0), priced(5, 0), priced(5, 0))?;
    let mut memory = [stale(); 4];
    check_list(heap, &catalogue, 2, &mut memory, 3, 3)?;
    check_list(heap, &catalogue, 3, &mut memory, 3, 3)?;
    check_list(heap, &catalogue, 20, &mut memory, 3, 3)?;
    check_lines(&memory, &[line(1, 5), line(3, 5), line(0, 7), line(0, 0)])
}

#[test]
fn taking_ends_early(rt: HostRuntime) -> Result<(), Fail> {
    let heap = rt.alloc();
    let catalogue = shop(heap, priced(3, 5), priced(5, 1), priced(9, 0))?;
    let mut memory = [stale(); 4];
    check_list(heap, &catalogue, 1, &mut memory, 1, 2)?;
    let none = line(0, 0);
    check_lines(&memory, &[line(1, 6), none, none, none])
}

#[test]
fn a_floor_that_ties_is_costed(rt: HostRuntime) -> Result<(), Fail> {
    let heap = rt.alloc();
    let catalogue = shop(heap, priced(3, 5), priced(5, 1), priced(8, 0))?;
    let mut memory = [stale(); 4];
    check_list(heap, &catalogue, 1, &mut memory, 1, 3)?;
    let none = line(0, 0);
    check_lines(&memory, &[line(1, 6), none, none, none])
}

#[test]
fn a_tie_at_the_floor_is_shown(rt: HostRuntime) -> Result<(), Fail> {
    let heap = rt.alloc();
    let catalogue = shop(heap, priced(8, 0), priced(3, 5), priced(8, 0))?;
    let mut memory = [stale(); 4];
    check_list(heap, &catalogue, 1, &mut memory, 3, 3)?;
    check_lines(&memory, &[line(0, 8), line(1, 8), line(3, 8), line(0, 0)])
}

#[test]
fn no_offers(rt: HostRuntime) -> Result<(), Fail> {
    let heap = rt.alloc();
    let catalogue = opened(heap, 1, plan(0, 0)?)?;
    let mut memory = [stale(); 2];
    check_list(heap, &catalogue, 1, &mut memory, 0, 0)?;
    check_lines(&memory, &[line(0, 0), line(0, 0)])
}

#[test]
fn a_full_catalogue(rt: HostRuntime) -> Result<(), Fail> {
    let heap = rt.alloc();
    let mut catalogue = opened(heap, 256, plan(0, 0)?)?;
    offer(heap, &mut catalogue, 0, 65, plan(2, 0)?)?;
    offer(heap, &mut catalogue, 255, 66, plan(2, 0)?)?;
    let mut memory = [stale(); 256];
    check_list(heap, &catalogue, 1, &mut memory, 2, 2)?;
    check_lines(&memory[0..3], &[line(0, 2), line(255, 2), line(0, 0)])
}

// Offers at 22 places, each a hundredth cheaper than the one before.
fn falling(heap: Global) -> Result<Catalogue<Plan>, Fail> {
    let mut catalogue = opened(heap, 22, plan(0, 0)?)?;
    for place in 0..22u8 {
        let sum = 30 - u32::from(place);
        offer(
            heap,
            &mut catalogue,
            usize::from(place),
            65 + place,
            plan(sum, 0)?,
        )?;
    }
    Ok(catalogue)
}

#[test]
fn twenty_different_totals(rt: HostRuntime) -> Result<(), Fail> {
    let heap = rt.alloc();
    let catalogue = falling(heap)?;
    let mut memory = [stale(); 22];
    check_list(heap, &catalogue, 20, &mut memory, 20, 20)?;
    check_lines(&memory[0..2], &[line(21, 9), line(20, 10)])?;
    check_lines(&memory[19..22], &[line(2, 28), line(0, 0), line(0, 0)])
}
