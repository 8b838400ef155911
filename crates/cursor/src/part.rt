//! Parts of a sheet.
ghost use Rattle.std.specs.Prelude.{◌+◌, ◌<◌, length, MatchOption};
ghost use Rattle.cursor.specs.Parts.{CutOut};

/// A part of a sheet: so many bytes from a place on.
#[derive(Clone, Copy, Debug, PartialEq)]
pub struct Part {
    /// The place of its first byte.
    pub start: usize,
    /// How many bytes there are.
    pub len: usize,
}

impl Part {
    /// The part, cut out of a sheet's own bytes, if the sheet is long enough.
    pub fn of<'a>(self, sheet: &'a [u8]) -> Option<&'a [u8]>
        ensures { MatchOption result (length sheet.now < self.start + self.len) (λ part. CutOut self sheet.entry part) }
    {
        let end = self
            .start
            .checked_add(self.len)
            .filter(|end| *end <= sheet.len())?;
        // `sheet.get(..)` does not promise that the part lies in the sheet's own memory.
        Some(&sheet[self.start..end])
    }
}
