//! Plan sheets: their layout in bytes, read section by section or whole.
#![tactic(auto)]

pub mod convert;
pub mod encodings;
pub mod entries;
pub mod fault;
pub mod front;
pub mod head;
pub mod numbers;
pub mod plan_sheet;
pub mod reader;
pub mod reading;
pub mod sections;
pub mod whole;

pub use fault::Fault;
pub use head::SheetHead;
pub use plan_sheet::PlanSheet;
pub use reader::Reader;
pub use whole::read;
