//! Sections of entries, each behind its count.
ghost use Rattle.cursor.specs.Readings.{Reading};
ghost use Rattle.draft.specs.Drafts.{DraftData};
ghost use Rattle.sheet.specs.declared.fault.Fault.{Fault};
ghost use Rattle.sheet.specs.Layout.{entries};
ghost use Rattle.sheet.specs.Readers.{EachEntered, ReadEntries};

use crate::fault::Fault;
use crate::reader::Reader;

impl<'a> Reader<'a> {
    // A count from 0 to the most, and so many entries.
    pub(crate) fn section<F: Fn(Reader<'a>) -> Result<Reader<'a>, Fault>>(
        &mut self,
        most: u8,
        entry: F,
    ) -> Result<(), Fault>
        requires { F.IsAlwaysCallable entry }
        ensures { (reads : DraftData → Reading Fault DraftData) → EachEntered reads (F.post entry) → ReadEntries (entries most reads) self.old result self.new }
    {
        let mut reader = *self;
        let count = reader.cursor.number_in(0, most)?;
        for _i in 0..count {
            reader = entry(reader)?;
        }
        *self = reader;
        Ok(())
    }
}
