//! A block or none for each seat.
ghost use Rattle.std.specs.Prelude.{◌≡◌, length};

use crate::block::Block;

/// A block or none for each of the 16 seats.
#[derive(Clone, Copy)]
pub struct BlockTable {
    pub(crate) entries: [Option<Block>; 16],
    ghost seats: { length entries ≡ 16 },
}
