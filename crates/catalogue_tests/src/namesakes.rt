//! Published namesakes never share a day.
use crate::calls::{entering, last_at};
use crate::making::{check_told, opened, subscription};
use catalogue::{Catalogue, Refusal};
use refusal::{Row, Value, number_in};
use std::alloc::Global;
use std::test::Fail;

// What a call tells: 0, the number of its refusal, or, for a 210, 1000 and the place that goes with it.
fn told(answer: Result<(), Refusal>) -> u16 {
    match answer {
        Ok(()) => 0,
        Err(refusal) => match refusal.value(0) {
            Some(Value::Place(0)) => 1000,
            Some(Value::Place(1)) => 1001,
            Some(Value::Place(2)) => 1002,
            Some(_) => 1999,
            None => refusal.number(),
        },
    }
}

// Three places, with an offer published at place 1 for days 10 to 20.
fn shop(heap: Global) -> Result<Catalogue<u32>, Fail> {
    let mut catalogue = opened(heap, 3, 0u32)?;
    let head = subscription(heap, 65, 10, 20)?;
    let numbers = [
        entering(&mut catalogue, 1, &head),
        number_in(catalogue.publish(1)),
    ];
    check_told(&numbers, &[0, 0])?;
    Ok(catalogue)
}

#[test]
fn a_shared_day(rt: HostRuntime) -> Result<(), Fail> {
    let heap = rt.alloc();
    let mut catalogue = shop(heap)?;
    let tied = subscription(heap, 65, 20, 30)?;
    let later = subscription(heap, 65, 21, 30)?;
    let numbers = [
        entering(&mut catalogue, 2, &tied),
        told(catalogue.publish(2)),
        number_in(catalogue.publish(2)),
        entering(&mut catalogue, 2, &later),
        told(catalogue.publish(2)),
    ];
    check_told(&numbers, &[0, 1001, 210, 0, 0])
}

#[test]
fn a_shared_day_before(rt: HostRuntime) -> Result<(), Fail> {
    let heap = rt.alloc();
    let mut catalogue = shop(heap)?;
    let tied = subscription(heap, 65, 0, 10)?;
    let earlier = subscription(heap, 65, 0, 9)?;
    let numbers = [
        entering(&mut catalogue, 0, &tied),
        told(catalogue.publish(0)),
        entering(&mut catalogue, 0, &earlier),
        told(catalogue.publish(0)),
    ];
    check_told(&numbers, &[0, 1001, 0, 0])
}

#[test]
fn the_lowest_rival(rt: HostRuntime) -> Result<(), Fail> {
    let heap = rt.alloc();
    let mut catalogue = shop(heap)?;
    let later = subscription(heap, 65, 21, 30)?;
    let both = subscription(heap, 65, 15, 25)?;
    let numbers = [
        entering(&mut catalogue, 0, &later),
        told(catalogue.publish(0)),
        entering(&mut catalogue, 2, &both),
        told(catalogue.publish(2)),
    ];
    check_told(&numbers, &[0, 0, 0, 1000])
}

#[test]
fn a_last_day_put_later(rt: HostRuntime) -> Result<(), Fail> {
    let heap = rt.alloc();
    let mut catalogue = shop(heap)?;
    let earlier = subscription(heap, 65, 0, 5)?;
    let numbers = [
        entering(&mut catalogue, 0, &earlier),
        told(catalogue.publish(0)),
        told(catalogue.amend(0, 9)),
        told(catalogue.amend(0, 10)),
        last_at(&catalogue, 0),
    ];
    check_told(&numbers, &[0, 0, 0, 1001, 9])
}

#[test]
fn a_place_in_work_put_later(rt: HostRuntime) -> Result<(), Fail> {
    let heap = rt.alloc();
    let mut catalogue = shop(heap)?;
    let earlier = subscription(heap, 65, 0, 5)?;
    let numbers = [
        entering(&mut catalogue, 0, &earlier),
        told(catalogue.amend(0, 10)),
        told(catalogue.publish(0)),
        told(catalogue.amend(0, 9)),
        told(catalogue.publish(0)),
    ];
    check_told(&numbers, &[0, 0, 1001, 0, 0])
}

#[test]
fn no_namesakes(rt: HostRuntime) -> Result<(), Fail> {
    let heap = rt.alloc();
    let mut catalogue = shop(heap)?;
    let renamed = subscription(heap, 66, 10, 20)?;
    let mut foreign = subscription(heap, 65, 10, 20)?;
    foreign.supplier = 8;
    let numbers = [
        entering(&mut catalogue, 0, &renamed),
        told(catalogue.publish(0)),
        entering(&mut catalogue, 2, &foreign),
        told(catalogue.publish(2)),
    ];
    check_told(&numbers, &[0, 0, 0, 0])
}
