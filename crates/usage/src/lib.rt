//! Lists of uses, groups of seats, and drawing: what the units of groups leave of the uses.
#![tactic(auto)]

pub mod clearing;
pub mod drawing;
pub mod group;
pub mod groups;
pub mod holding;
pub mod listing;
pub mod numbers;
pub mod refusing;
pub mod seats;
pub mod uses;

pub use group::Group;
pub use groups::Groups;
pub use refusing::Refusal;
pub use seats::Seats;
pub use uses::Uses;
