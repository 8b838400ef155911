//! Offers that wait to be costed.
ghost use Rattle.ranking.specs.Queues.{sooner};

use ordered::Ranked;

// A floor is no total: a type of its own beside `stages::Line`, of the same shape.
/// An offer that waits to be costed: its floor, in ten-millionths, and its place of the catalogue.
#[derive(Clone, Copy, Debug, PartialEq, Eq, PartialOrd, Ord)]
pub struct Queued {
    pub floor: u64,
    pub place: usize,
}

impl Ranked for Queued {
    ghost before = { sooner };

    fn is_before(&self, other: &Queued) -> bool {
        // This is `self < other`, compiled with one jump less at each offer that a search goes past.
        !(other <= self)
    }
}
