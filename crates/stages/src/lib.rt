//! A listing in two stages: lines are gathered, then cut, and only then read.
#![tactic(auto)]

pub mod cut;
pub mod cutting;
pub mod gathering;
pub mod line;
pub mod numbers;
pub mod reading;
pub mod refusing;
pub mod staging;

pub use cut::Cut;
pub use gathering::Gathering;
pub use line::Line;
pub use refusing::Refusal;
