//! The service tree's table.
ghost use Rattle.std.specs.Prelude.{◌≡◌, ◌≤◌, length, take};
ghost use Rattle.tree.specs.Trees.{Lower, ends_below};

/// The most nodes of a tree.
pub const MOST_NODES: usize = 40;

/// The most end services of a tree: each has a seat of its own.
pub const MOST_SEATS: usize = 16;

/// What stands in the place of a parent where a node has none: the lists that trees are made of say it by this number.
pub const NO_PARENT: u8 = 255;

// The table is of fixed size: a tree is a plain value, copied into each draft, and nothing is allocated.

/// A service tree: the parent of each node, which is numbered lower than the node, or 255 for none.
#[derive(Clone, Copy)]
pub struct ServiceTree {
    pub(crate) parents: [u8; 40],
    pub(crate) count: usize,
    ghost room: { length parents ≡ 40 },
    ghost some: { 1 ≤ count },
    ghost few: { count ≤ 40 },
    ghost lower: { Lower (take count parents) },
    ghost seats: { ends_below count (take count parents) ≤ 16 },
}
