//! The first stage of a listing.

/// Lines are gathered into the line memory, and none is read yet.
#[derive(Drop)]
pub struct Gathering {
    pub(crate) wanted: usize,
    pub(crate) held: usize,
}
