//! What a buyer asks for.

/// What a buyer asks for, tested by no rule yet: codes are numbers here, and kinds once they are in range.
#[derive(Drop)]
pub struct Enquiry {
    /// The day that an offer must be on.
    pub day: u16,
    /// 1 for fixed, 2 for mobile, 0 for either.
    pub network: u8,
    /// 1 for a subscription, 2 for a card, 0 for either.
    pub contract: u8,
    /// The longest minimum term accepted, in months.
    pub term: u8,
    /// How many different totals the list is to show.
    pub length: usize,
    /// The estimate: parts by seat.
    pub estimate: Vec<u32>,
}
