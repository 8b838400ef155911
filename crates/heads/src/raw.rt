//! Heads as a caller has them.

/// The values of a head, tested by no rule yet: codes are numbers here, and kinds in a `Head`.
#[derive(Drop)]
pub struct RawHead {
    /// The supplier's number.
    pub supplier: u16,
    /// The name, a byte text of any length.
    pub name: Vec<u8>,
    /// 1 for fixed, 2 for mobile.
    pub network: u8,
    /// 1 for a subscription, 2 for a card.
    pub contract: u8,
    /// The minimum term in months.
    pub term: u8,
    /// The first day.
    pub first: u16,
    /// The last day; 65,535 means open.
    pub last: u16,
}
