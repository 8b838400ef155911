//! One group.
ghost use Rattle.std.specs.Prelude.{◌≤◌};

use crate::seats::Seats;

/// The largest number of units of a group.
pub const MOST_UNITS: u32 = 1_600_000;

/// A group: whole units included for several seats together, and the group's order in its tariff.
#[derive(Clone, Copy)]
pub struct Group {
    pub(crate) members: Seats,
    pub(crate) units: u32,
    pub(crate) order: u8,
    ghost few: { units ≤ 1600000 },
}
