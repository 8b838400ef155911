//! What every kind of tariff means, and an offer's total.
#![tactic(auto)]

pub mod offer;
pub mod tariff;

pub use offer::total;
pub use tariff::Tariff;
