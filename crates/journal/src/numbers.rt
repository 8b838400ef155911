//! The number of each refusal, and the values that go with it.
ghost use Rattle.journal.specs.Refusals.{row_of};

use crate::refusing::Refusal;
use refusal::{Row, Value};

impl Row for Refusal {
    ghost row = { row_of };

    fn number(&self) -> u16 {
        match *self {
            Refusal::Catalogue(refusal) => refusal.number(),
            Refusal::List(refusal) => refusal.number(),
        }
    }

    fn value(&self, at: usize) -> Option<Value> {
        match *self {
            Refusal::Catalogue(refusal) => refusal.value(at),
            Refusal::List(refusal) => refusal.value(at),
        }
    }
}
