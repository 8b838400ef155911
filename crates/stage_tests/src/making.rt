//! Lines for tests.
use catalogue_tests::making::check_count;
use stages::Line;
use std::test::Fail;

/// A line of a total in hundredths.
pub fn line(place: usize, hundredths: u32) -> Line {
    Line {
        total: 100_000 * u64::from(hundredths),
        place,
    }
}

/// A line that no list writes.
pub fn stale() -> Line {
    line(99, 99)
}

/// Whether the memory holds these lines.
pub fn check_lines(memory: &[Line], wanted: &[Line]) -> Result<(), Fail> {
    check_count(memory.len(), wanted.len(), "lines")?;
    for (at, (line, other)) in memory.iter().zip(wanted).enumerate() {
        if line != other {
            return Err(Fail::new(format_args!("{line:?} and not {other:?} at {at}")));
        }
    }
    Ok(())
}
