//! The service tree: nodes, branches, end services and their seats.
#![tactic(auto)]

pub mod branches;
pub mod lowest;
pub mod numbers;
pub mod opening;
pub mod refusing;
pub mod seating;
pub mod tree;

pub use refusing::Refusal;
pub use tree::ServiceTree;
