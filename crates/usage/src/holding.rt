//! The groups of one plan or option: how one is added, and how all are drawn.
ghost use Rattle.std.specs.Prelude.{◌≡◌, ◌≤◌, ◌==◌, [], map, take, length, Some, None, MatchResult};
ghost use Rattle.std.specs.Option.{option_map};
ghost use Rattle.std.specs.List.{list_any};
ghost use Rattle.usage.specs.Orders.{lower};
ghost use Rattle.usage.specs.Groups.{group_data, data_of, group_cause, with_group, drawn_all, group_at, InOrder};
ghost use Rattle.usage.specs.Held.{held};
ghost use Rattle.usage.specs.declared.refusing.Refusal.TheVariants.{NinthGroup};

use crate::group::Group;
use crate::groups::{Groups, MOST_GROUPS};
use crate::refusing::Refusal;
use crate::seats::Seats;
use crate::uses::Uses;
use ordered::{Full, Ranked, put};

// By one field of three: a derived order would compare members, and two groups of one order would not be equal.
impl Ranked for Group {
    ghost before = { lower };

    fn is_before(&self, other: &Group) -> bool {
        self.order < other.order
    }
}

impl From<Full> for Refusal {
    ghost from_gives = { λ _ r. r ≡ NinthGroup };

    fn from(_full: Full) -> Refusal {
        Refusal::NinthGroup
    }
}

impl Groups {
    /// No groups.
    pub fn none() -> Groups
        ensures { held result ≡ [] }
    {
        let nobody = Seats { flags: [false; 16] };
        let unused = Group {
            members: nobody,
            units: 0,
            order: 0,
        };
        Groups {
            entries: [unused; 8],
            count: 0,
        }
    }

    /// These groups and one more, in its place by order; or the topmost cause that refuses it.
    pub fn add(self, members: Seats, units: u32, order: u8) -> Result<Groups, Refusal>
        ensures { MatchResult result (λ gs. (group_cause (held self) (group_data members.flags units order) ≡ None) × (held gs ≡ with_group (group_data members.flags units order) (held self))) (λ e. group_cause (held self) (group_data members.flags units order) ≡ Some e) }
    {
        let group = Group::new(members, units, order)?;
        if self.count >= MOST_GROUPS {
            return Err(Refusal::NinthGroup);
        }
        if uses_order(self.entries(), order) {
            return Err(Refusal::OrderUsed);
        }
        let mut entries = self.entries;
        put(&mut entries, self.count, group)?;
        Ok(Groups {
            entries,
            count: self.count + 1,
        })
    }

    /// How many groups there are: at most 8, by ascending order, no two orders alike.
    pub fn count(&self) -> usize
        ensures many { result ≡ length (held self.now) }
        ensures few { result ≤ 8 }
        ensures ascending { InOrder (held self.now) }
    {
        self.count
    }

    /// The group at a place, counted from 0 by ascending order.
    pub fn group(&self, at: usize) -> Option<Group>
        ensures { option_map data_of result ≡ group_at (held self.now) at }
    {
        self.entries().get(at).copied()
    }

    /// The list of uses after all groups were drawn, by ascending order.
    pub fn draw(&self, uses: Uses) -> Uses
        ensures { result.parts ≡ drawn_all (held self.now) uses.parts }
    {
        draw_each(self.entries(), uses)
    }

    /// The groups, by ascending order.
    pub fn entries(&self) -> &[Group]
        ensures is { result.now ≡ take self.now.count self.now.entries }
        ensures data { map data_of result.now ≡ held self.now }
    {
        let count = self.count;
        &self.entries[0..count]
    }
}

// Whether one of these groups has this order.
fn uses_order(groups: &[Group], order: u8) -> bool
    ensures { result ≡ list_any (λ g. g.order == order) groups.now }
{
    groups.iter().any(|group| group.order == order)
}

// The list of uses after these groups were drawn, one after the other.
fn draw_each(groups: &[Group], uses: Uses) -> Uses
    ensures { result.parts ≡ drawn_all (map data_of groups.now) uses.parts }
{
    let mut left = uses;
    for group in groups {
        left = group.draw(left);
    }
    left
}
