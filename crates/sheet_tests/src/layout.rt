//! Faults of the layout.
use crate::sheets::*;
use std::test::Fail;

#[test]
fn a_sheet_that_ends_early(rt: HostRuntime) -> Result<(), Fail> {
    against_layout(&[], 40, 0)?;
    against_layout(&good()[0..1], 40, 1)?;
    against_layout(&good()[0..31], 40, 31)
}

#[test]
fn a_field_is_tested_once_it_is_whole(rt: HostRuntime) -> Result<(), Fail> {
    // three bytes of a sum that would be too large
    against_layout(&[1, 2, 0, 7, 255, 255, 255], 40, 7)?;
    against_layout(&[1, 2, 0, 7, 255, 255, 255, 255], 42, 4)
}

#[test]
fn the_first_and_the_last_field(rt: HostRuntime) -> Result<(), Fail> {
    against_layout(&with(0, 0), 42, 0)?;
    against_layout(&with(0, 3), 42, 0)?;
    against_layout(&with(30, 0), 42, 30)?;
    against_layout(&with(30, 41), 42, 30)
}

#[test]
fn cards(rt: HostRuntime) -> Result<(), Fail> {
    // a card has no term
    against_layout(&with(0, 2), 42, 8)?;
    // a card is mobile
    against_layout(&[2, 1], 42, 1)?;
    against_layout(&with(1, 3), 42, 1)
}

#[test]
fn sums_terms_and_days(rt: HostRuntime) -> Result<(), Fail> {
    // 1,000,000 is 0x0F4240
    against_layout(&[1, 2, 0, 7, 0, 15, 66, 65], 42, 4)?;
    against_layout(&with(8, 61), 42, 8)?;
    against_layout(&[1, 2, 0, 7, 0, 15, 66, 64, 60, 255, 255], 42, 9)?;
    against_layout(&[1, 2, 0, 7, 0, 15, 66, 64, 60, 0, 2, 0, 1], 42, 11)
}

#[test]
fn counts(rt: HostRuntime) -> Result<(), Fail> {
    against_layout(&with(13, 0), 42, 13)?;
    against_layout(&with(13, 25), 42, 13)?;
    against_layout(&with(16, 0), 42, 16)?;
    against_layout(&with(16, 65), 42, 16)?;
    against_layout(&with(18, 41), 42, 18)?;
    against_layout(&with(24, 9), 42, 24)
}

#[test]
fn a_bad_byte_of_a_text(rt: HostRuntime) -> Result<(), Fail> {
    against_layout(&with(14, 31), 42, 14)?;
    against_layout(&with(15, 127), 42, 15)?;
    against_layout(&with(17, 128), 42, 17)?;
    // at itself, even where the sheet then ends early
    against_layout(&[1, 2, 0, 7, 0, 0, 0, 0, 0, 0, 0, 0, 0, 3, 31], 42, 14)
}

#[test]
fn bytes_behind_the_last_section(rt: HostRuntime) -> Result<(), Fail> {
    against_layout(
        &[1, 2, 0, 7, 0, 0, 0, 0, 0, 0, 0, 0, 0, 1, 65, 1, 65, 0, 0, 9],
        44,
        19,
    )?;
    // with no price, the same entries would be refused as a plan: the bytes left come first
    against_layout(
        &[
            1, 2, 0, 7, 0, 0, 0, 0, 0, 0, 0, 0, 0, 1, 65, 1, 65, 0, 1, 5, 0, 0, 0, 1, 1, 1, 9,
        ],
        44,
        26,
    )
}
