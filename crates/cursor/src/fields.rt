//! Fields of a sheet that hold numbers.
ghost use Rattle.cursor.specs.Readings.{field, ranged};
ghost use Rattle.cursor.specs.Cursors.{TookAs};

use crate::cursor::Cursor;
use crate::fault::Fault;
use crate::unsigned::Number;

impl<'a> Cursor<'a> {
    /// The number in the next bytes.
    pub fn number<N: Number>(&mut self) -> Result<N, Fault>
        ensures { TookAs N.number (field N.WIDTH) self.old result self.new }
    {
        let number = N::first_in(&self.bytes[self.at..]).ok_or(Fault::EndsEarly(self.bytes.len()))?;
        self.at += N::WIDTH;
        Ok(number)
    }

    /// The number in the next bytes, if it is in a range.
    pub fn number_in<N: Number>(&mut self, low: N, high: N) -> Result<N, Fault>
        ensures { TookAs N.number (ranged N.WIDTH (N.number low) (N.number high)) self.old result self.new }
    {
        let mut scan = *self;
        let number = scan.number()?;
        if !(low..=high).contains(&number) {
            return Err(Fault::AgainstRule(self.at));
        }
        *self = scan;
        Ok(number)
    }
}
