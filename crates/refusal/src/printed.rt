//! Refusals as a person reads them.
ghost use Rattle.std.specs.Prelude.{Some};
ghost use Rattle.refusal.specs.Texts.{behind_blank, row_text};

use crate::row::Row;
use crate::value::Value;
use std::fmt;

/// A refusal as it is printed: its number, and each value that goes with it. No refusal has more than three.
#[derive(Clone, Copy)]
pub struct Printed<'a, R>(pub &'a R);

// A value behind a blank, or nothing.
#[derive(Clone, Copy)]
struct Behind(Option<Value>);

impl<'a, R: Row> fmt::Display for Printed<'a, R> {
    ghost output = { λ p. Some (row_text (R.Row.row p.0.now)) };

    fn fmt<W: fmt::Write>(&self, f: &mut fmt::Formatter<W>) -> fmt::Result {
        let row = self.0;
        write!(f, "{}", row.number())?;
        write!(f, "{}", Behind(row.value(0)))?;
        write!(f, "{}", Behind(row.value(1)))?;
        write!(f, "{}", Behind(row.value(2)))
    }
}

impl fmt::Display for Behind {
    ghost output = { λ b. Some (behind_blank b.0) };

    fn fmt<W: fmt::Write>(&self, f: &mut fmt::Formatter<W>) -> fmt::Result {
        match self.0 {
            Some(value) => write!(f, " {value}"),
            None => Ok(()),
        }
    }
}
