//! The worked examples, proved of the definitions that the contracts cite, and the offer of the first of them.
#![tactic(auto)]

pub mod offer;
pub mod table;

pub use offer::{worked_estimate, worked_offer};
pub use table::worked_examples;
