//! What a whole sheet says.
ghost use Rattle.std.specs.Prelude.{◌+◌, ◌<◌, length, MatchOption};
ghost use Rattle.cursor.specs.Parts.{CutOut};

use crate::head::SheetHead;
use cursor::Part;
use kinds::Plan;

/// What a whole sheet says: the head, the places of name and link, and the plan.
#[derive(Clone, Copy)]
pub struct PlanSheet {
    /// The values of the first 13 bytes.
    pub head: SheetHead,
    /// The name's bytes, as a part of the sheet.
    pub name: Part,
    /// The link's bytes, as a part of the sheet.
    pub link: Part,
    /// The plan that the entries make.
    pub plan: Plan,
}

impl PlanSheet {
    /// The name, cut out of the sheet's own bytes; none if the sheet is shorter than the one that was read.
    pub fn name_in<'a>(&self, sheet: &'a [u8]) -> Option<&'a [u8]>
        ensures { MatchOption result (length sheet.now < self.now.name.start + self.now.name.len) (λ part. CutOut self.now.name sheet.entry part) }
    {
        self.name.of(sheet)
    }

    /// The link, cut out of the sheet's own bytes; none if the sheet is shorter than the one that was read.
    pub fn link_in<'a>(&self, sheet: &'a [u8]) -> Option<&'a [u8]>
        ensures { MatchOption result (length sheet.now < self.now.link.start + self.now.link.len) (λ part. CutOut self.now.link sheet.entry part) }
    {
        self.link.of(sheet)
    }
}
