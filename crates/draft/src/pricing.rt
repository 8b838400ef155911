//! Drafts, and their prices at nodes.
ghost use Rattle.std.specs.Prelude.{◌≡◌, length, None, slice_index_or};
ghost use Rattle.refusal.specs.Lowest.{lowest};
ghost use Rattle.prices.specs.Tables.{price_of};
ghost use Rattle.tree.specs.Held.{parents_of};
ghost use Rattle.draft.specs.Apart.{Apart};
ghost use Rattle.draft.specs.Drafts.{draft_data, empty_draft};
ghost use Rattle.draft.specs.Rules.{map_ok, priced_on_branch, enter_price};
ghost use Rattle.draft.specs.Rows.{PriceAnswer};

use crate::draft::Draft;
use crate::refusing::Refusal;
use prices::UnitPrice;
use tree::ServiceTree;
use usage::Groups;

impl Draft {
    /// A draft with nothing in it, on a tree that it keeps.
    pub fn new(tree: ServiceTree) -> Draft
        ensures is { draft_data result ≡ empty_draft (parents_of tree) }
        ensures keeps { result.tree ≡ tree }
    {
        Draft {
            tree,
            prices: [None; 40],
            grouped: [false; 40],
            groups: Groups::none(),
        }
    }

    /// The tree that the draft is on.
    pub fn tree(&self) -> &ServiceTree
        ensures { result.now ≡ self.now.tree }
    {
        &self.tree
    }

    /// The price at a node, or none. No branch has two priced nodes.
    pub fn price_at(&self, node: u8) -> Option<UnitPrice>
        ensures is { price_of result ≡ slice_index_or (draft_data self.now).prices node None }
        ensures apart { Apart (draft_data self.now).parents (draft_data self.now).prices }
    {
        self.prices.get(usize::from(node)).copied().flatten()
    }

    /// The draft with one price more, or the topmost cause that refuses it.
    pub fn price(self, node: u8, price: u32) -> Result<Draft, Refusal>
        ensures is { map_ok draft_data result ≡ enter_price (draft_data self) node price }
        ensures means { PriceAnswer (draft_data self) node price (map_ok draft_data result) }
    {
        self.with_price(node, price)
    }

    // By its first clause; the second follows from it once, and not at each exit.
    fn with_price(self, node: u8, price: u32) -> Result<Draft, Refusal>
        ensures { map_ok draft_data result ≡ enter_price (draft_data self) node price }
    {
        if node as usize >= self.tree.nodes() {
            return Err(Refusal::NoSuchNode);
        }
        let amount = UnitPrice::new(price)?;
        if let Some(other) = self.priced_on_branch(node) {
            return Err(Refusal::BranchPriced(other));
        }
        let mut prices = self.prices;
        prices[node as usize] = Some(amount);
        Ok(Draft {
            tree: self.tree,
            prices,
            grouped: self.grouped,
            groups: self.groups,
        })
    }

    // The lowest priced node on one of the branches of a node.
    fn priced_on_branch(&self, node: u8) -> Option<u8>
        ensures { result ≡ lowest (priced_on_branch (draft_data self.now) node) (length (parents_of self.now.tree)) }
    {
        self.tree.lowest(|other| self.price_at(other).is_some()
            && self.tree.share_branch(other, node))
    }
}
