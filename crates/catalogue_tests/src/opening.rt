//! Opening a catalogue.
use crate::making::check_told;
use catalogue::{Catalogue, Slot};
use refusal::Row;
use std::alloc::{AllocError, Global};
use std::test::Fail;

// The number that opening memories of these lengths is refused with, or 0; 1 where they do not come back.
fn opening(heap: Global, slots: usize, tariffs: usize) -> Result<u16, AllocError> {
    let heads = vec![in heap; Slot::empty(); slots]?;
    let kept = vec![in heap; 1u32; tariffs]?;
    match Catalogue::open(heads, kept) {
        Ok(_) => Ok(0),
        Err(unopened) => {
            if unopened.slots.len() == slots && unopened.tariffs.len() == tariffs {
                Ok(unopened.refusal.number())
            } else {
                Ok(1)
            }
        }
    }
}

#[test]
fn places(rt: HostRuntime) -> Result<(), Fail> {
    let heap = rt.alloc();
    let told = [
        opening(heap, 0, 0)?,
        opening(heap, 1, 1)?,
        opening(heap, 256, 256)?,
        opening(heap, 257, 257)?,
    ];
    check_told(&told, &[8, 0, 0, 8])
}

#[test]
fn unequal_memories(rt: HostRuntime) -> Result<(), Fail> {
    let heap = rt.alloc();
    let told = [
        opening(heap, 2, 1)?,
        opening(heap, 1, 2)?,
        opening(heap, 1, 0)?,
    ];
    check_told(&told, &[8, 8, 8])
}
