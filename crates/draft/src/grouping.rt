//! The groups of a draft, at nodes.
ghost use Rattle.std.specs.Prelude.{◌≡◌, ℕ, ◌<◌, ◌&&◌, false, length, is_some, Decides, slice_index_or};
ghost use Rattle.refusal.specs.Lowest.{lowest};
ghost use Rattle.tree.specs.Trees.{among, end_at, share_branch};
ghost use Rattle.tree.specs.Held.{parents_of};
ghost use Rattle.draft.specs.Drafts.{draft_data, flagged, under_some, if_there, members_of, Member};
ghost use Rattle.draft.specs.Rules.{map_ok, strays, meets, shares, enter_group};
ghost use Rattle.draft.specs.Rows.{GroupAnswer};

use crate::draft::Draft;
use crate::refusing::Refusal;
use std::array;
use tree::ServiceTree;
use usage::Seats;

impl Draft {
    /// The draft with one group more, of this order and so many units at these nodes, or the topmost cause that refuses it.
    pub fn group(self, order: u8, units: u32, nodes: &[u8]) -> Result<Draft, Refusal>
        ensures is { map_ok draft_data result ≡ enter_group (draft_data self) order units nodes.now }
        ensures means { GroupAnswer (draft_data self) order units nodes.now (map_ok draft_data result) }
        ensures members { (s : ℕ) → Decides (slice_index_or (members_of (parents_of self.tree) nodes.now) s false) (Member (parents_of self.tree) nodes.now s) }
    {
        self.with_group(order, units, nodes)
    }

    // By its first clause; the others follow from it once, and not at each exit.
    fn with_group(self, order: u8, units: u32, nodes: &[u8]) -> Result<Draft, Refusal>
        ensures { map_ok draft_data result ≡ enter_group (draft_data self) order units nodes.now }
    {
        if strays(nodes, self.tree.nodes()) {
            return Err(Refusal::NoSuchNode);
        }
        let members = members(&self.tree, nodes);
        let groups = self.groups.add(members, units, order)?;
        let grouped = flag(nodes, self.grouped);
        if let Some(node) = sharer(&self.tree, &grouped, nodes) {
            return Err(Refusal::BranchShared(node));
        }
        Ok(Draft {
            tree: self.tree,
            prices: self.prices,
            grouped,
            groups,
        })
    }
}

// Whether one of these numbers is no node of a tree with so many nodes.
fn strays(nodes: &[u8], count: usize) -> bool
    ensures { result ≡ strays count nodes.now }
{
    nodes.iter().any(|node| usize::from(*node) >= count)
}

// The flags, and those of these nodes set besides.
fn flag(nodes: &[u8], flags: [bool; 40]) -> [bool; 40]
    requires { strays 40 nodes.now ≡ false }
    ensures { result ≡ flagged nodes.now flags }
{
    let mut all = flags;
    for node in nodes {
        all[*node as usize] = true;
    }
    all
}

// The seats under these nodes.
fn members(tree: &ServiceTree, nodes: &[u8]) -> Seats
    ensures { result.flags ≡ members_of (parents_of tree.now) nodes.now }
{
    let flags = array::from_fn(|seat| is_member(tree, nodes, seat as u8));
    Seats::new(flags)
}

// Whether the seat has an end service, and that is under one of these nodes.
fn is_member(tree: &ServiceTree, nodes: &[u8], seat: u8) -> bool
    ensures { result ≡ if_there false (under_some (parents_of tree.now) nodes.now) (end_at (parents_of tree.now) seat) }
{
    tree.end_service(seat)
        .is_some_and(|end| is_under_some(tree, nodes, end))
}

// Whether a node is under one of these.
fn is_under_some(tree: &ServiceTree, nodes: &[u8], end: u8) -> bool
    ensures { result ≡ under_some (parents_of tree.now) nodes.now end }
{
    nodes.iter().any(|node| tree.is_under(end, *node))
}

// The lowest of these nodes that shares a branch with another flagged node.
fn sharer(tree: &ServiceTree, flags: &[bool; 40], nodes: &[u8]) -> Option<u8>
    ensures { result ≡ lowest (shares (parents_of tree.now) flags.now nodes.now) (length (parents_of tree.now)) }
{
    tree.lowest(|node| holds(nodes, node) && meets_another(tree, flags, node))
}

// Whether a node is one of these.
fn holds(nodes: &[u8], node: u8) -> bool
    ensures { result ≡ among node nodes.now }
{
    nodes.contains(&node)
}

// Whether a node shares a branch with another flagged node.
fn meets_another(tree: &ServiceTree, flags: &[bool; 40], node: u8) -> bool
    ensures { result ≡ is_some (lowest (meets (parents_of tree.now) flags.now node) (length (parents_of tree.now))) }
{
    tree.lowest(|other| meets(tree, flags, node, other))
        .is_some()
}

// Whether another node is flagged and shares a branch with this one.
fn meets(tree: &ServiceTree, flags: &[bool; 40], node: u8, other: u8) -> bool
    ensures { result ≡ meets (parents_of tree.now) flags.now node other }
{
    other != node && is_flagged(flags, other) && tree.share_branch(node, other)
}

// Whether a node is flagged; a number that is no node is not.
fn is_flagged(flags: &[bool; 40], node: u8) -> bool
    ensures { result ≡ slice_index_or flags.now node false }
{
    flags.get(usize::from(node)).copied().unwrap_or(false)
}
