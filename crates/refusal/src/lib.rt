//! Rows of the table of refusals: a number, and the values that go with it.
#![tactic(auto)]

pub mod printed;
pub mod row;
pub mod value;

pub use printed::Printed;
pub use row::{Row, number_in};
pub use value::{Layer, Value};
