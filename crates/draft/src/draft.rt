//! A draft on a service tree.
ghost use Rattle.std.specs.Prelude.{◌≡◌, length};
ghost use Rattle.tree.specs.Held.{parents_of};
ghost use Rattle.prices.specs.Tables.{price_data};
ghost use Rattle.usage.specs.Held.{held};
ghost use Rattle.draft.specs.Apart.{Apart, Seated};

use prices::UnitPrice;
use tree::ServiceTree;
use usage::Groups;

/// A draft: prices and groups at the nodes of its service tree. No branch has two priced nodes.
///
/// The draft keeps each group as the seats under its nodes, as it will be drawn, and besides the nodes of all its groups.
#[derive(Clone, Copy)]
pub struct Draft {
    pub(crate) tree: ServiceTree,
    pub(crate) prices: [Option<UnitPrice>; 40],
    pub(crate) grouped: [bool; 40],
    pub(crate) groups: Groups,
    ghost room: { length prices ≡ 40 },
    ghost flags: { length grouped ≡ 40 },
    ghost apart: { Apart (parents_of tree) (price_data prices) },
    ghost seated: { Seated (parents_of tree) (held groups) },
}
