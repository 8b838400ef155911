//! Which offers a list shows, and how many are costed, over a plain list of offers.
#![tactic(auto)]

pub mod ending;
pub mod queued;
pub mod theorems;

pub use ending::{different_totals, taking_ends};
pub use queued::Queued;
