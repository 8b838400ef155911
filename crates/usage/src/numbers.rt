//! The number of each refusal.
ghost use Rattle.usage.specs.Refusals.{row_of};

use crate::refusing::Refusal;
use refusal::{Row, Value};

impl Row for Refusal {
    ghost row = { row_of };

    fn number(&self) -> u16 {
        match *self {
            Refusal::BadUses => 30,
            Refusal::EmptyGroup => 34,
            Refusal::OutOfRange => 32,
            Refusal::NinthGroup => 38,
            Refusal::OrderUsed => 115,
        }
    }

    fn value(&self, at: usize) -> Option<Value> {
        None
    }
}
