//! Drafts of plans and options: prices and groups at the nodes of a service tree.
#![tactic(auto)]

pub mod draft;
pub mod grouping;
pub mod laws;
pub mod numbers;
pub mod pricing;
pub mod refusing;
pub mod saving;

pub use draft::Draft;
pub use refusing::Refusal;
