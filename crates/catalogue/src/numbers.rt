//! The number of each refusal, and the place that goes with it.
ghost use Rattle.catalogue.specs.Refusals.{row_of};

use crate::refusing::Refusal;
use refusal::{Row, Value};

impl Row for Refusal {
    ghost row = { row_of };

    fn number(&self) -> u16 {
        match *self {
            Refusal::NotOpened => 8,
            Refusal::NoSuchPlace => 10,
            Refusal::BadHead => 12,
            Refusal::EmptyPlace => 16,
            Refusal::LastBeforeFirst => 14,
            Refusal::AlreadyPublished => 200,
            Refusal::StillPublished => 18,
            Refusal::SharesDay(_) => 210,
        }
    }

    fn value(&self, at: usize) -> Option<Value> {
        match *self {
            Refusal::SharesDay(place) => (at == 0).then_some(Value::Place(place as u64)),
            _ => None,
        }
    }
}
