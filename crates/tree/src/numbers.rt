//! The number of the refusal.
ghost use Rattle.tree.specs.Refusals.{row_of};

use crate::refusing::Refusal;
use refusal::{Row, Value};

impl Row for Refusal {
    ghost row = { row_of };

    fn number(&self) -> u16 {
        match *self {
            Refusal::BadTree => 36,
        }
    }

    fn value(&self, at: usize) -> Option<Value> {
        None
    }
}
