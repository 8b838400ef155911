//! The list: the cheapest fitting offers of a catalogue, for one enquiry.
#![tactic(auto)]

pub mod asked;
pub mod enquiry;
pub mod fitting;
pub mod listing;
pub mod numbers;
pub mod queueing;
pub mod refusing;
pub mod request;

pub use enquiry::Enquiry;
pub use listing::list;
pub use refusing::Refusal;
