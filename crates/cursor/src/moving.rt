//! Cursors at the start of a sheet, where they stand, and the test that a sheet has ended.
ghost use Rattle.std.specs.Prelude.{◌≡◌, length};
ghost use Rattle.cursor.specs.Readings.{Answers, ended};

use crate::cursor::Cursor;
use crate::fault::Fault;

impl<'a> Cursor<'a> {
    /// A cursor at the first byte of a sheet.
    pub fn new(sheet: &'a [u8]) -> Cursor<'a>
        ensures bytes { result.bytes ≡ sheet.entry }
        ensures at { result.at ≡ 0 }
    {
        Cursor {
            bytes: sheet,
            at: 0,
        }
    }

    /// The place of the next byte to be read.
    pub fn place(&self) -> usize
        ensures { result ≡ self.now.at }
    {
        self.at
    }

    /// The length of the whole sheet.
    pub fn length(&self) -> usize
        ensures { result ≡ length self.now.bytes.now }
    {
        self.bytes.len()
    }

    /// Declines what stands behind the place.
    pub fn end(&self) -> Result<(), Fault>
        ensures { Answers result (ended self.now.bytes.now self.now.at) }
    {
        if self.at < self.bytes.len() {
            return Err(Fault::BytesLeft(self.at));
        }
        Ok(())
    }
}
