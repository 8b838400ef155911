//! The second stage of a listing.

/// The cut is made: no line comes in any more, and those shown may be read.
#[derive(Drop)]
pub struct Cut {
    pub(crate) shown: usize,
}
