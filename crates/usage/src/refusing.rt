//! Why numbers are no list of uses, group, price, sum or block.

/// Why a list of uses, a group, or an amount of a tariff is refused.
#[derive(Clone, Copy, Debug, PartialEq)]
pub enum Refusal {
    /// Uses not 16, or one too large.
    BadUses,
    /// A group with no member.
    EmptyGroup,
    /// A price, sum, block or unit count outside its range.
    OutOfRange,
    /// A ninth group.
    NinthGroup,
    /// The order is used already.
    OrderUsed,
}
