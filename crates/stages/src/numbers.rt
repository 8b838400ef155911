//! The number of each refusal.
ghost use Rattle.stages.specs.Refusals.{row_of};

use crate::refusing::Refusal;
use refusal::{Row, Value};

impl Row for Refusal {
    ghost row = { row_of };

    fn number(&self) -> u16 {
        match *self {
            Refusal::ListLength => 20,
            Refusal::ShortMemory => 24,
            Refusal::NoSuchLine => 26,
        }
    }

    fn value(&self, at: usize) -> Option<Value> {
        None
    }
}
