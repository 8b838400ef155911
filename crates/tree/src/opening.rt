//! Service trees from raw lists of parents.
ghost use Rattle.std.specs.Prelude.{◌≡◌, ◌<◌, ◌≤◌, length, take, Decides, MatchResult};
ghost use Rattle.std.specs.List.{list_all, enumerate_from};
ghost use Rattle.tree.specs.declared.refusing.Refusal.TheVariants.{BadTree};
ghost use Rattle.tree.specs.Trees.{TreeRule, lower_at, parent, parent_of};
ghost use Rattle.tree.specs.Held.{parents_of};

use crate::refusing::Refusal;
use crate::seating::end_count;
use crate::tree::{MOST_NODES, MOST_SEATS, NO_PARENT, ServiceTree};

impl ServiceTree {
    /// The tree of a list of parents: refused with 36 where the list is against the rule.
    pub fn new(parents: &[u8]) -> Result<ServiceTree, Refusal>
        ensures { MatchResult result (λ t. TreeRule parents.now × (parents_of t ≡ parents.now)) (λ e. (e ≡ BadTree) × (TreeRule parents.now → ⊥)) }
    {
        let count = parents.len();
        if count == 0 || count > MOST_NODES {
            return Err(Refusal::BadTree);
        }
        if !are_lower(parents) {
            return Err(Refusal::BadTree);
        }
        if end_count(parents, count as u8) > MOST_SEATS {
            return Err(Refusal::BadTree);
        }
        Ok(ServiceTree {
            parents: filled_up(parents),
            count,
        })
    }

    /// How many nodes there are.
    pub fn nodes(&self) -> usize
        ensures is { result ≡ length (parents_of self.now) }
        ensures rule { TreeRule (parents_of self.now) }
    {
        self.count
    }

    /// The parent of a node, if there is such a node and it has one.
    pub fn parent(&self, node: u8) -> Option<u8>
        ensures { result ≡ parent_of (parents_of self.now) node }
    {
        self.parents()
            .get(usize::from(node))
            .copied()
            .filter(|parent| *parent != NO_PARENT)
    }

    // The list of parents.
    pub(crate) fn parents(&self) -> &[u8]
        ensures { result.now ≡ parents_of self.now }
    {
        let count = self.count;
        &self.parents[0..count]
    }
}

// Whether each parent is numbered lower than its node, or is 255.
fn are_lower(parents: &[u8]) -> bool
    ensures { result ≡ list_all lower_at (enumerate_from 0 parents.now) }
{
    parents.iter().enumerate().all(|(node, parent)| *parent == NO_PARENT
        || usize::from(*parent) < node)
}

// The list in a table, filled up with 255.
fn filled_up(given: &[u8]) -> [u8; 40]
    requires { length given.now ≤ 40 }
    ensures { take (length given.now) result ≡ given.now }
{
    let mut parents = [NO_PARENT; 40];
    parents[0..given.len()].copy_from_slice(given);
    parents
}
