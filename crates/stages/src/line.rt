//! A line of a listing.
ghost use Rattle.stages.specs.Lines.{earlier};

use ordered::Ranked;

/// A line of a listing: the total of an offer, in ten-millionths, and its place of the catalogue.
#[derive(Clone, Copy, Debug, PartialEq, Eq, PartialOrd, Ord)]
pub struct Line {
    pub total: u64,
    pub place: usize,
}

impl Ranked for Line {
    ghost before = { earlier };

    fn is_before(&self, other: &Line) -> bool {
        // This is `self < other`, compiled with one jump less at each line that a search goes past.
        !(other <= self)
    }
}
