//! The number of each fault, and its values: those of the draft's refusal, the byte and the layer.
ghost use Rattle.std.specs.Prelude.{◌≡◌};
ghost use Rattle.refusal.specs.Rows.{value_at};
ghost use Rattle.sheet.specs.Faults.{row_of};
ghost use Rattle.sheet.specs.declared.fault.Fault.TheVariants.{Draft};

use crate::fault::Fault;
use draft::Refusal;
use refusal::{Layer, Row, Value};

impl Row for Fault {
    ghost row = { row_of };

    fn number(&self) -> u16 {
        match *self {
            Fault::Layout(fault) => fault.number(),
            Fault::Draft(refusal, _) => refusal.number(),
        }
    }

    fn value(&self, at: usize) -> Option<Value> {
        match *self {
            Fault::Layout(fault) => fault.value(at),
            Fault::Draft(refusal, byte) => draft_value(refusal, byte, at),
        }
    }
}

// The value at a place of a draft's refusal: its node if it has one, the byte, the layer.
fn draft_value(refusal: Refusal, byte: usize, at: usize) -> Option<Value>
    ensures { result ≡ value_at (row_of (Draft refusal byte)).values at }
{
    let byte = Value::Byte(byte as u64);
    let layer = Value::Layer(Layer::Draft);
    match refusal.value(0) {
        Some(node) => [node, byte, layer].get(at).copied(),
        None => [byte, layer].get(at).copied(),
    }
}
