//! The number of each refusal.
ghost use Rattle.listing.specs.Refusals.{row_of};

use crate::refusing::Refusal;
use refusal::{Row, Value};

impl Row for Refusal {
    ghost row = { row_of };

    fn number(&self) -> u16 {
        match *self {
            Refusal::ListLength => 20,
            Refusal::BadEnquiry => 22,
            Refusal::ShortMemory => 24,
            Refusal::BadUses => 30,
        }
    }

    fn value(&self, at: usize) -> Option<Value> {
        None
    }
}
