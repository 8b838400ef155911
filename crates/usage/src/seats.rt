//! Sets of seats.
ghost use Rattle.std.specs.Prelude.{◌≡◌, length};

/// A set of seats.
#[derive(Clone, Copy)]
pub struct Seats {
    pub(crate) flags: [bool; 16],
    ghost sixteen: { length flags ≡ 16 },
}
