//! Which nodes are under which, and which share a branch.
ghost use Rattle.std.specs.Prelude.{◌≡◌, ◌<◌, ◌≤◌, length, Decides};
ghost use Rattle.tree.specs.Trees.{Lower, Leads, Under, OnBranch, ShareBranch, is_under, share_branch};
ghost use Rattle.tree.specs.Held.{parents_of};

use crate::tree::{NO_PARENT, ServiceTree};

impl ServiceTree {
    /// Whether `node` is `above` itself, or under it.
    pub fn is_under(&self, node: u8, above: u8) -> bool
        ensures is { result ≡ is_under (parents_of self.now) node above }
        ensures means { Decides result (Under (parents_of self.now) node above) }
    {
        let count = self.count;
        if node as usize >= count || above as usize >= count {
            return false;
        }
        climbs_to(self.parents(), node, above)
    }

    /// Whether a node is on the branch of an end service.
    pub fn is_on_branch(&self, node: u8, end: u8) -> bool
        ensures { Decides result (OnBranch (parents_of self.now) node end) }
    {
        self.is_end_service(end) && self.is_under(end, node)
    }

    /// Whether two nodes are on one branch.
    pub fn share_branch(&self, a: u8, b: u8) -> bool
        ensures is { result ≡ share_branch (parents_of self.now) a b }
        ensures means { Decides result (ShareBranch (parents_of self.now) a b) }
    {
        self.is_under(a, b) || self.is_under(b, a)
    }
}

// Whether a climb from the node leads to the one above.
fn climbs_to(parents: &[u8], node: u8, above: u8) -> bool
    requires lower { Lower parents.now }
    requires few { length parents.now ≤ 40 }
    requires node { node < length parents.now }
    requires above { above < length parents.now }
    ensures { Decides result (Leads parents.now node above) }
{
    let mut at = node;
    while at > above {
        let p = parents[at as usize];
        if p == NO_PARENT {
            return false;
        }
        at = p;
    }
    at == above
}
