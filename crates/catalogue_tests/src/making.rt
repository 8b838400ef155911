//! Heads and catalogues for tests.
use catalogue::{Catalogue, Slot};
use heads::RawHead;
use std::alloc::{AllocError, Global};
use std::test::Fail;

/// A mobile subscription of supplier 7 without a term, named by one letter.
pub fn subscription(
    heap: Global,
    letter: u8,
    first: u16,
    last: u16,
) -> Result<RawHead, AllocError> {
    Ok(RawHead {
        supplier: 7,
        name: vec![in heap; letter]?,
        network: 2,
        contract: 1,
        term: 0,
        first,
        last,
    })
}

/// An empty catalogue of so many places.
pub fn opened<T: Clone + Drop>(
    heap: Global,
    places: usize,
    tariff: T,
) -> Result<Catalogue<T>, Fail> {
    let slots = vec![in heap; Slot::empty(); places]?;
    let tariffs = vec![in heap; tariff; places]?;
    Catalogue::open(slots, tariffs).map_err(|_| Fail::new("not opened"))
}

/// Fails with these words unless the condition holds.
pub fn check(holds: bool, words: &str) -> Result<(), Fail> {
    if holds { Ok(()) } else { Err(Fail::new(words)) }
}

/// Fails with both counts unless they are the same.
pub fn check_count(told: usize, wanted: usize, words: &str) -> Result<(), Fail> {
    if told == wanted {
        Ok(())
    } else {
        Err(Fail::new(format_args!("{words}: {told} and not {wanted}")))
    }
}

/// Whether a test was told these numbers.
pub fn check_told(told: &[u16], wanted: &[u16]) -> Result<(), Fail> {
    check_count(told.len(), wanted.len(), "numbers")?;
    for (at, (number, other)) in told.iter().zip(wanted).enumerate() {
        if number != other {
            return Err(Fail::new(format_args!("{number} and not {other} at {at}")));
        }
    }
    Ok(())
}
