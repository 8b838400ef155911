//! The catalogue of offers: opening it, and the calls that enter, publish, amend and delete.
#![tactic(auto)]

pub mod amending;
pub mod deleting;
pub mod entering;
pub mod memory;
pub mod numbers;
pub mod offers;
pub mod opening;
pub mod publishing;
pub mod refusing;
pub mod rivals;
pub mod slot;
pub mod slots;

pub use memory::Catalogue;
pub use opening::Unopened;
pub use refusing::Refusal;
pub use slot::{Slot, State};
