//! Reading of a whole sheet.
ghost use Rattle.std.specs.Prelude.{◌≡◌, ◌-◌, IfOk};
ghost use Rattle.cursor.specs.Encodings.{Bytes};
ghost use Rattle.cursor.specs.Readings.{Answers};
ghost use Rattle.tree.specs.Held.{parents_of};
ghost use Rattle.draft.specs.Drafts.{draft_data, empty_draft};
ghost use Rattle.draft.specs.Rules.{map_ok};
ghost use Rattle.draft.specs.Plans.{plan_table};
ghost use Rattle.sheet.specs.Layout.{plan, whole};
ghost use Rattle.sheet.specs.Records.{Written};
ghost use Rattle.sheet.specs.Sheets.{contents};
ghost use Rattle.sheet.specs.Readers.{ReadPlace};

use crate::fault::Fault;
use crate::plan_sheet::PlanSheet;
use crate::reader::Reader;
use crate::reading::{LONGEST_LINK, LONGEST_NAME};
use cursor::Part;
use kinds::Plan;
use tree::ServiceTree;

/// What a sheet says for a tree, or the first fault met in reading it.
///
/// Where there is none, the bytes are the encoding of a record of fields, and head, texts and plan are what that record means.
pub fn read(sheet: &[u8], tree: &ServiceTree) -> Result<PlanSheet, Fault>
    ensures is { Answers (map_ok contents result) (whole (empty_draft (parents_of tree.now)) sheet.now 0) }
    ensures written { IfOk (map_ok contents result) (Written (empty_draft (parents_of tree.now)) sheet.now) }
{
    are_bytes(sheet);
    read_all(sheet, tree)
}

fn read_all(sheet: &[u8], tree: &ServiceTree) -> Result<PlanSheet, Fault>
    ensures { Answers (map_ok contents result) (whole (empty_draft (parents_of tree.now)) sheet.now 0) }
{
    Reader::new(sheet, *tree).whole()
}

// A `u8` is below 256: told of each byte, for the theorem on the encoding. Nothing is tested.
fn are_bytes(sheet: &[u8])
    ensures { Bytes sheet.now }
{
    for byte in sheet {
        let _byte = *byte;
    }
}

impl<'a> Reader<'a> {
    // Every section from here on, and the end.
    fn whole(&mut self) -> Result<PlanSheet, Fault>
        ensures { Answers (map_ok contents result) (whole (draft_data self.old.draft) self.old.cursor.bytes.now self.old.cursor.at) }
    {
        let head = self.head()?;
        let name = self.text_place(LONGEST_NAME)?;
        let link = self.text_place(LONGEST_LINK)?;
        let plan = self.plan(head.sum)?;
        Ok(PlanSheet {
            head,
            name,
            link,
            plan,
        })
    }

    // Both sections of entries, the end, and the plan that the entries make.
    fn plan(&mut self, sum: u32) -> Result<Plan, Fault>
        ensures { Answers (map_ok plan_table result) (plan sum (draft_data self.old.draft) self.old.cursor.bytes.now self.old.cursor.at) }
    {
        self.prices()?;
        self.groups()?;
        self.end()?;
        self.save(sum)
    }

    // The place of a text of at most so many bytes.
    fn text_place(&mut self, most: u8) -> Result<Part, Fault>
        ensures { ReadPlace most self.old result self.new }
    {
        let text = self.text(most)?;
        Ok(self.behind(text.len()))
    }

    // The part of so many bytes that ends where the reader stands.
    fn behind(&self, len: usize) -> Part
        ensures { (result.start ≡ self.now.cursor.at - len) × (result.len ≡ len) }
    {
        Part {
            start: self.cursor.place().saturating_sub(len),
            len,
        }
    }
}
