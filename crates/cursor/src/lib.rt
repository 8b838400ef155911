//! A cursor over the bytes of a sheet, and reading of numbers and texts.
#![tactic(auto)]

pub mod cursor;
pub mod fault;
pub mod fields;
pub mod moving;
pub mod numbers;
pub mod part;
pub mod texts;
pub mod unsigned;

pub use cursor::Cursor;
pub use fault::Fault;
pub use part::Part;
pub use unsigned::Number;
