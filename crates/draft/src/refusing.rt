//! Why an entry of a draft, or saving it, is declined.
use usage::Refusal as TariffRefusal;

/// Why an entry of a draft, or saving it, is declined.
#[derive(Clone, Copy, Debug, PartialEq)]
pub enum Refusal {
    /// There is no such node.
    NoSuchNode,
    /// A price, sum or unit count outside its range, an empty or a ninth group, or an order used already.
    Tariff(TariffRefusal),
    /// A node on one of the node's branches, or the node itself, is priced: the lowest such node.
    BranchPriced(u8),
    /// A node of the group shares a branch with another node of this or an earlier group: the lowest such node of the group.
    BranchShared(u8),
    /// An end service under a group has no price: the lowest such node.
    NoPrice(u8),
}
