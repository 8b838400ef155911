//! End services and their seats.
ghost use Rattle.std.specs.Prelude.{◌≡◌, ℕ, ◌≤◌, not, length, filter, slice_get, Decides, MatchOption};
ghost use Rattle.std.specs.List.{range_with_len};
ghost use Rattle.tree.specs.Trees.{EndService, Seat, Seating, among, is_end, ends_below, seat_of, end_at};
ghost use Rattle.tree.specs.Held.{parents_of};

use crate::tree::ServiceTree;

impl ServiceTree {
    /// Whether a node is an end service: one without children.
    pub fn is_end_service(&self, node: u8) -> bool
        ensures is { result ≡ is_end (parents_of self.now) node }
        ensures means { Decides result (EndService (parents_of self.now) node) }
    {
        let count = self.count;
        (node as usize) < count && !has_child(self.parents(), node)
    }

    /// How many seats are taken: one for each end service, by ascending number.
    pub fn seats(&self) -> usize
        ensures is { result ≡ ends_below (length (parents_of self.now)) (parents_of self.now) }
        ensures few { result ≤ 16 }
        ensures seating { Seating (parents_of self.now) result }
    {
        let count = self.count as u8;
        end_count(self.parents(), count)
    }

    /// The seat of an end service; none for any other number.
    pub fn seat(&self, node: u8) -> Option<u8>
        ensures is { result ≡ seat_of (parents_of self.now) node }
        ensures means { MatchOption result (EndService (parents_of self.now) node → ⊥) (Seat (parents_of self.now) node) }
    {
        if !self.is_end_service(node) {
            return None;
        }
        Some(end_count(self.parents(), node) as u8)
    }

    /// The end service of a seat, if the seat is taken.
    pub fn end_service(&self, seat: u8) -> Option<u8>
        ensures is { result ≡ end_at (parents_of self.now) seat }
        ensures means { MatchOption result ((e : ℕ) → Seat (parents_of self.now) e seat → ⊥) (λ e. Seat (parents_of self.now) e seat) }
    {
        let count = self.count as u8;
        end_at_place(self.parents(), count, seat)
    }
}

// Whether a node is the parent of another.
fn has_child(parents: &[u8], node: u8) -> bool
    ensures { result ≡ among node parents.now }
{
    parents.contains(&node)
}

// How many of the nodes numbered below `upto` are end services.
pub(crate) fn end_count(parents: &[u8], upto: u8) -> usize
    ensures is { result ≡ ends_below upto parents.now }
    ensures few { result ≤ upto }
{
    (0..upto).filter(|node| !has_child(parents, *node)).count()
}

// The end service at a place among those of the nodes numbered below `upto`, if there are so many.
fn end_at_place(parents: &[u8], upto: u8, place: u8) -> Option<u8>
    ensures { result ≡ slice_get (filter (λ k. not (among k parents.now)) (range_with_len 0 upto)) place }
{
    (0..upto)
        .filter(|node| !has_child(parents, *node))
        .nth(usize::from(place))
}
