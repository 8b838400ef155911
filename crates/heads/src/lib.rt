//! Heads of offers: their values, the rules for them, and how two heads compare.
#![tactic(auto)]

pub mod head;
pub mod heading;
pub mod kinds;
pub mod name;
pub mod naming;
pub mod raw;
pub mod values;

pub use head::Head;
pub use kinds::{Contract, Network, UnknownCode};
pub use name::Name;
pub use raw::RawHead;
