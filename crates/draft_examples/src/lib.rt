//! Worked examples of drafts, proved of the definitions that the contracts cite.
#![tactic(auto)]

pub mod table;

pub use table::drafted_examples;
