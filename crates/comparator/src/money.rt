//! Totals as a person reads them.
use std::fmt;

/// A total as it is printed: in the currency, with its seven decimals.
#[derive(Clone, Copy)]
pub struct Money(pub u64);

impl fmt::Display for Money {
    fn fmt<W: fmt::Write>(&self, f: &mut fmt::Formatter<W>) -> fmt::Result {
        let whole = self.0 / 10_000_000;
        let rest = self.0 % 10_000_000;
        write!(f, "{whole}.{rest:07}")
    }
}
