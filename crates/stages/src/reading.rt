//! Reading the lines of a listing that is cut.
ghost use Rattle.std.specs.Prelude.{◌≡◌};
ghost use Rattle.stages.specs.Stages.{Reads};

use crate::cut::Cut;
use crate::line::Line;
use crate::refusing::Refusal;

impl Cut {
    /// The line at a place of the list, counted from 0.
    ///
    /// Refused with 24 where the memory is shorter than the lines shown, else with 26 where no such line is shown.
    pub fn line(&self, memory: &[Line], at: usize) -> Result<Line, Refusal>
        ensures { Reads self.now memory.now at result }
    {
        let lines = memory.get(..self.shown).ok_or(Refusal::ShortMemory)?;
        lines.get(at).copied().ok_or(Refusal::NoSuchLine)
    }

    /// How many lines are shown.
    pub fn shown(&self) -> usize
        ensures { result ≡ self.now.shown }
    {
        self.shown
    }
}
