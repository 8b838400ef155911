//! Texts and runs of bytes, which are handed out as parts of the sheet itself.
ghost use Rattle.std.specs.Prelude.{◌≡◌, take};
ghost use Rattle.std.specs.List.{position};
ghost use Rattle.cursor.specs.Readings.{text, run, unprinted};
ghost use Rattle.cursor.specs.Cursors.{TookPart};

use crate::cursor::Cursor;
use crate::fault::Fault;
use crate::part::Part;

impl<'a> Cursor<'a> {
    /// A text: a count from 1 to the most, and so many bytes from 32 to 126.
    pub fn text(&mut self, most: u8) -> Result<&'a [u8], Fault>
        ensures { TookPart (text most) self.old result self.new }
    {
        let mut scan = *self;
        let count = scan.number_in(1, most)?;
        if let Some(bad) = unprinted(&scan.bytes[scan.at..], count) {
            return Err(Fault::AgainstRule(scan.at + bad));
        }
        let text = scan.run(count)?;
        *self = scan;
        Ok(text)
    }

    /// So many bytes, whatever they hold.
    pub fn run(&mut self, count: u8) -> Result<&'a [u8], Fault>
        ensures { TookPart (run count) self.old result self.new }
    {
        let part = Part {
            start: self.at,
            len: usize::from(count),
        };
        let run = part
            .of(self.bytes)
            .ok_or(Fault::EndsEarly(self.bytes.len()))?;
        self.at += part.len;
        Ok(run)
    }
}

// The place of the first of so many bytes, as far as there are any, that is not from 32 to 126.
fn unprinted(bytes: &[u8], count: u8) -> Option<usize>
    ensures { result ≡ position unprinted (take count bytes.now) }
{
    bytes
        .iter()
        .take(usize::from(count))
        .position(|byte| !(32..=126).contains(byte))
}
