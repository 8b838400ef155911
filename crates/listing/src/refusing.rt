//! Why a list call is declined.

/// Why a list call is declined.
#[derive(Clone, Copy, Debug, PartialEq)]
pub enum Refusal {
    /// The list length is 0 or over 20.
    ListLength,
    /// A day over 65,534, a network or contract over 2, or a term over 60.
    BadEnquiry,
    /// The line memory has fewer lines than the catalogue has places.
    ShortMemory,
    /// Uses not 16, or one too large.
    BadUses,
}
