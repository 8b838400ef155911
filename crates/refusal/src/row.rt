//! What every refusal tells its caller.
ghost use Rattle.std.specs.Prelude.{◌≡◌, MatchResult};
ghost use Rattle.refusal.specs.Rows.{RowData, value_at};

use crate::value::Value;

/// A refusal: a row of the table. Each enum of refusals answers from rows of its own.
pub trait Row {
    // the row's number and values: the one definition for each case
    ghost row: { Self → RowData };

    /// The number in the table.
    fn number(&self) -> u16
        ensures { result ≡ (row self.now).number };

    /// The value at a place among those that go with the number, counted from 0.
    fn value(&self, at: usize) -> Option<Value>
        ensures { result ≡ value_at (row self.now).values at };
}

/// The number of the refusal in an answer, or 0 where there is none.
pub fn number_in<T: Drop, R: Row + Drop>(answer: Result<T, R>) -> u16
    ensures { MatchResult answer (λ _. result ≡ 0) (λ e. result ≡ (R.Row.row e).number) }
{
    answer.err().map_or(0, |refusal| refusal.number())
}
