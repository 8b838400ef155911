//! The number of each fault, with its byte and the layout's layer.
ghost use Rattle.cursor.specs.Faults.{row_of};

use crate::fault::Fault;
use refusal::{Layer, Row, Value};

impl Row for Fault {
    ghost row = { row_of };

    fn number(&self) -> u16 {
        match *self {
            Fault::EndsEarly(_) => 40,
            Fault::AgainstRule(_) => 42,
            Fault::BytesLeft(_) => 44,
        }
    }

    fn value(&self, at: usize) -> Option<Value> {
        let (Fault::EndsEarly(byte) | Fault::AgainstRule(byte) | Fault::BytesLeft(byte)) = *self;
        [Value::Byte(byte as u64), Value::Layer(Layer::Layout)]
            .get(at)
            .copied()
    }
}
