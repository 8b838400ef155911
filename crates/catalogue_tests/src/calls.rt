//! Enter, publish, amend and delete: what each refuses, and the first and the last place.
use crate::making::{check_told, opened, subscription};
use catalogue::{Catalogue, Refusal};
use heads::RawHead;
use refusal::{Row, number_in};
use std::test::Fail;

// The number that an enter of tariff 5 is refused with, or 0.
pub fn entering(catalogue: &mut Catalogue<u32>, place: usize, head: &RawHead) -> u16 {
    let declined = catalogue.enter(place, head, 5).err();
    declined.map_or(0, |(refusal, _)| refusal.number())
}

// The last day of the offer published at a place, or 0.
pub fn last_at<T>(catalogue: &Catalogue<T>, place: usize) -> u16 {
    catalogue.offer(place).map_or(0, |(head, _)| head.last())
}

// The tariff published at a place, or another.
fn tariff_at<T: Copy>(catalogue: &Catalogue<T>, place: usize, other: T) -> T {
    catalogue.offer(place).map_or(other, |(_, tariff)| *tariff)
}

#[test]
fn enter(rt: HostRuntime) -> Result<(), Fail> {
    let heap = rt.alloc();
    let mut catalogue = opened(heap, 2, 0u32)?;
    let good = subscription(heap, 65, 10, 20)?;
    let bad = subscription(heap, 31, 10, 20)?;
    let told = [
        // no such place comes before a bad head
        entering(&mut catalogue, 2, &bad),
        entering(&mut catalogue, usize::MAX, &good),
        entering(&mut catalogue, 0, &bad),
        entering(&mut catalogue, 0, &good),
        // in work, it is written again
        entering(&mut catalogue, 0, &good),
        number_in(catalogue.publish(0)),
        // a bad head comes before a published place
        entering(&mut catalogue, 0, &bad),
        entering(&mut catalogue, 0, &good),
        entering(&mut catalogue, 1, &good),
    ];
    check_told(&told, &[10, 10, 12, 0, 0, 0, 12, 200, 0])
}

#[test]
fn a_declined_enter_hands_the_tariff_back(rt: HostRuntime) -> Result<(), Fail> {
    let heap = rt.alloc();
    let mut catalogue = opened(heap, 1, 0u32)?;
    let head = subscription(heap, 65, 10, 20)?;
    match catalogue.enter(1, &head, 77) {
        Ok(()) => Err(Fail::new("entered at no place")),
        Err((refusal, tariff)) => {
            assert_eq!(rt; refusal.value(0), None);
            assert_eq!(rt; tariff, 77);
            Ok(())
        }
    }
}

#[test]
fn publish(rt: HostRuntime) -> Result<(), Fail> {
    let heap = rt.alloc();
    let mut catalogue = opened(heap, 2, 0u32)?;
    let head = subscription(heap, 65, 10, 20)?;
    let told = [
        number_in(catalogue.publish(2)),
        number_in(catalogue.publish(1)),
        entering(&mut catalogue, 1, &head),
        // in work, it is no offer yet
        last_at(&catalogue, 1),
        number_in(catalogue.publish(1)),
        number_in(catalogue.publish(1)),
        last_at(&catalogue, 0),
        last_at(&catalogue, 1),
        last_at(&catalogue, 2),
    ];
    check_told(&told, &[10, 16, 0, 0, 0, 200, 0, 20, 0])?;
    assert_eq!(rt; tariff_at(&catalogue, 1, 0), 5);
    Ok(())
}

#[test]
fn amend(rt: HostRuntime) -> Result<(), Fail> {
    let heap = rt.alloc();
    let mut catalogue = opened(heap, 1, 0u32)?;
    let head = subscription(heap, 65, 10, 20)?;
    let told = [
        number_in(catalogue.amend(1, 5)),
        number_in(catalogue.amend(0, 5)),
        entering(&mut catalogue, 0, &head),
        number_in(catalogue.amend(0, 9)),
        number_in(catalogue.amend(0, 10)),
        number_in(catalogue.publish(0)),
        last_at(&catalogue, 0),
        number_in(catalogue.amend(0, 9)),
        number_in(catalogue.amend(0, 65_535)),
        last_at(&catalogue, 0),
    ];
    check_told(&told, &[10, 16, 0, 14, 0, 0, 10, 14, 0, 65_535])
}

#[test]
fn delete(rt: HostRuntime) -> Result<(), Fail> {
    let heap = rt.alloc();
    let mut catalogue = opened(heap, 1, 0u32)?;
    let head = subscription(heap, 65, 10, 20)?;
    let told = [
        number_in(catalogue.delete(1)),
        number_in(catalogue.delete(0)),
        entering(&mut catalogue, 0, &head),
        number_in(catalogue.delete(0)),
        number_in(catalogue.publish(0)),
        entering(&mut catalogue, 0, &head),
        number_in(catalogue.publish(0)),
        number_in(catalogue.delete(0)),
        last_at(&catalogue, 0),
    ];
    check_told(&told, &[10, 16, 0, 0, 16, 0, 0, 18, 20])
}

#[test]
fn the_last_of_256_places(rt: HostRuntime) -> Result<(), Fail> {
    let heap = rt.alloc();
    let mut catalogue = opened(heap, 256, 0u32)?;
    let head = subscription(heap, 65, 10, 20)?;
    let told = [
        entering(&mut catalogue, 256, &head),
        entering(&mut catalogue, 255, &head),
        number_in(catalogue.publish(255)),
        last_at(&catalogue, 255),
    ];
    check_told(&told, &[10, 0, 0, 20])?;
    assert_eq!(rt; catalogue.places(), 256);
    Ok(())
}
