//! The values that may stand beside a refusal's number.
ghost use Rattle.std.specs.Prelude.{◌≡◌, Some};
ghost use Rattle.refusal.specs.Layers.{layer_number};
ghost use Rattle.refusal.specs.Texts.{value_text};

use std::fmt;

/// A value that goes with a refusal's number.
#[derive(Clone, Copy, Debug, PartialEq)]
pub enum Value {
    /// A place of the catalogue.
    Place(u64),
    /// A node of the service tree.
    Node(u64),
    /// A byte of a sheet, counted from 0.
    Byte(u64),
    /// Whose rule a sheet is against.
    Layer(Layer),
}

/// Whose rule a sheet is against.
#[derive(Clone, Copy, Debug, PartialEq)]
pub enum Layer {
    /// Layer 1: the sheet's layout.
    Layout,
    /// Layer 2: the draft.
    Draft,
}

impl From<Layer> for u8 {
    ghost from_gives = { λ l n. n ≡ layer_number l };

    fn from(layer: Layer) -> u8 {
        match layer {
            Layer::Layout => 1,
            Layer::Draft => 2,
        }
    }
}

impl fmt::Display for Value {
    ghost output = { λ v. Some (value_text v) };

    fn fmt<W: fmt::Write>(&self, f: &mut fmt::Formatter<W>) -> fmt::Result {
        match *self {
            Value::Place(place) => write!(f, "place {place}"),
            Value::Node(node) => write!(f, "node {node}"),
            Value::Byte(byte) => write!(f, "byte {byte}"),
            Value::Layer(layer) => write!(f, "layer {}", u8::from(layer)),
        }
    }
}
