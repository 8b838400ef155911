//! Amounts within their ranges, and the tables of prices and blocks that tariffs hold.
#![tactic(auto)]

pub mod amounts;
pub mod block;
pub mod blocks;
pub mod charges;
pub mod over_seats;
pub mod ranges;
pub mod sizes;
pub mod starts;
pub mod table;

pub use amounts::{FixedSum, UnitPrice};
pub use block::Block;
pub use blocks::BlockTable;
pub use over_seats::SeatCharge;
pub use table::PriceTable;
