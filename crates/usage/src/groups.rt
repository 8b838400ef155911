//! The groups of one plan or option.
ghost use Rattle.std.specs.Prelude.{◌≡◌, ◌≤◌, true, length, take};
ghost use Rattle.ordered.specs.Ascending.{ascending};
ghost use Rattle.usage.specs.Orders.{lower};

use crate::group::Group;

/// The largest number of groups of one plan or option.
pub const MOST_GROUPS: usize = 8;

/// The groups of one plan or option: at most 8, by ascending order, no two orders alike.
// Groups are copied with the tables and drafts that hold them, so they are an array and allocate nothing.
#[derive(Clone, Copy)]
pub struct Groups {
    pub(crate) entries: [Group; 8],
    pub(crate) count: usize,
    ghost room: { length entries ≡ 8 },
    ghost few: { count ≤ 8 },
    ghost rising: { ascending lower (take count entries) ≡ true },
}
