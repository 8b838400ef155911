//! The head of a sheet.
use heads::{Contract, Network};

/// The values in the first 13 bytes of a sheet.
#[derive(Clone, Copy)]
pub struct SheetHead {
    /// The kind of contract.
    pub contract: Contract,
    /// The network.
    pub network: Network,
    /// The supplier's number.
    pub supplier: u16,
    /// The fixed sum, in hundredths of the currency.
    pub sum: u32,
    /// The minimum term in months.
    pub term: u8,
    /// The first day.
    pub first: u16,
    /// The last day; 65,535 means open.
    pub last: u16,
}
