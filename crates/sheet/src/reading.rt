//! Reading of a sheet, section by section. A section that is refused leaves the reader as it was.
ghost use Rattle.std.specs.Prelude.{◌≡◌};
ghost use Rattle.cursor.specs.Readings.{ended, Answers};
ghost use Rattle.tree.specs.Held.{parents_of};
ghost use Rattle.draft.specs.Drafts.{draft_data, empty_draft};
ghost use Rattle.draft.specs.Rules.{map_ok};
ghost use Rattle.draft.specs.Plans.{plan_table};
ghost use Rattle.sheet.specs.Layout.{laid, front, prices, groups, saved};
ghost use Rattle.sheet.specs.Sheets.{head_values};
ghost use Rattle.sheet.specs.Readers.{ReadHead, ReadText, ReadEntries};

use crate::convert::with_byte;
use crate::fault::Fault;
use crate::front::front;
use crate::head::SheetHead;
use crate::reader::Reader;
use cursor::Cursor;
use draft::Draft;
use heads::name::MOST_BYTES;
use kinds::Plan;
use tree::ServiceTree;

// The most bytes of a name: as many as an offer's name may have.
pub(crate) const LONGEST_NAME: u8 = MOST_BYTES as u8;

// The most bytes of a link.
pub(crate) const LONGEST_LINK: u8 = 64;

impl<'a> Reader<'a> {
    /// A reader at the first byte of a sheet, with an empty draft on a tree.
    pub fn new(sheet: &'a [u8], tree: ServiceTree) -> Reader<'a>
        ensures sheet { result.cursor.bytes ≡ sheet.entry }
        ensures start { result.cursor.at ≡ 0 }
        ensures draft { draft_data result.draft ≡ empty_draft (parents_of tree) }
    {
        Reader {
            cursor: Cursor::new(sheet),
            draft: Draft::new(tree),
        }
    }

    /// The head: the first 13 bytes.
    pub fn head(&mut self) -> Result<SheetHead, Fault>
        ensures { ReadHead self.old (map_ok head_values result) self.new }
    {
        Ok(front(&mut self.cursor)?)
    }

    /// The name: 1 to 24 bytes of the sheet itself.
    pub fn name(&mut self) -> Result<&'a [u8], Fault>
        ensures { ReadText 24 self.old result self.new }
    {
        self.text(LONGEST_NAME)
    }

    /// The link: 1 to 64 bytes of the sheet itself.
    pub fn link(&mut self) -> Result<&'a [u8], Fault>
        ensures { ReadText 64 self.old result self.new }
    {
        self.text(LONGEST_LINK)
    }

    /// The prices: 0 to 40 entries, which go to the draft.
    pub fn prices(&mut self) -> Result<(), Fault>
        ensures { ReadEntries prices self.old result self.new }
    {
        self.section(40, Reader::price_entry)
    }

    /// The groups: 0 to 8 entries, which go to the draft.
    pub fn groups(&mut self) -> Result<(), Fault>
        ensures { ReadEntries groups self.old result self.new }
    {
        self.section(8, Reader::group_entry)
    }

    /// Declines what stands behind the last section.
    pub fn end(&self) -> Result<(), Fault>
        ensures { Answers result (laid ended self.now.cursor.bytes.now self.now.cursor.at) }
    {
        self.cursor.end()?;
        Ok(())
    }

    /// The draft saved as a plan, with a fixed sum.
    pub fn save(&self, sum: u32) -> Result<Plan, Fault>
        ensures { Answers (map_ok plan_table result) (saved sum (draft_data self.now.draft) self.now.cursor.bytes.now self.now.cursor.at) }
    {
        with_byte(self.draft.save_plan(sum), self.cursor.length())
    }

    /// The draft that the entries read so far have made.
    pub fn draft(&self) -> &Draft
        ensures { result.now ≡ self.now.draft }
    {
        &self.draft
    }

    // A text of at most so many bytes, as a part of the sheet itself.
    pub(crate) fn text(&mut self, most: u8) -> Result<&'a [u8], Fault>
        ensures { ReadText most self.old result self.new }
    {
        Ok(self.cursor.text(most)?)
    }
}
