//! Gathering lines, and the cut that ends it.
//!
//! A stage is moved from call to call and holds no memory: the line memory is the caller's, and lent at each call.
ghost use Rattle.std.specs.Prelude.{◌≡◌};
ghost use Rattle.stages.specs.Stages.{Begins, PutsLine, Cuts};

use crate::cut::Cut;
use crate::cutting::leading;
use crate::gathering::Gathering;
use crate::line::Line;
use crate::refusing::Refusal;
use ordered::put;

/// The longest list: this many different totals.
pub const MOST_TOTALS: usize = 20;

impl Gathering {
    /// Begins a listing of so many different totals: refused with 20 where that is 0 or over 20.
    pub fn begin(length: usize) -> Result<Gathering, Refusal>
        ensures { Begins length result }
    {
        if !(1..=MOST_TOTALS).contains(&length) {
            return Err(Refusal::ListLength);
        }
        Ok(Gathering {
            wanted: length,
            held: 0,
        })
    }

    /// Puts a line before the first held one with a greater total, or an equal total and a greater place.
    ///
    /// Where the memory holds no line more than are held, this is refused with 24 and the stage comes back.
    pub fn put(self, memory: &mut [Line], line: Line) -> Result<Gathering, (Refusal, Gathering)>
        ensures { PutsLine self line memory.old result memory.new }
    {
        if put(memory, self.held, line).is_ok() {
            Ok(Gathering {
                held: self.held + 1,
                ..self
            })
        } else {
            Err((Refusal::ShortMemory, self))
        }
    }

    /// Keeps the leading lines up to where one different neighbouring total too many would begin, and clears all memory behind them.
    ///
    /// Where the memory is shorter than the held lines, this is refused with 24 and the stage comes back.
    pub fn cut(self, memory: &mut [Line]) -> Result<Cut, (Refusal, Gathering)>
        ensures { Cuts self memory.old result memory.new }
    {
        let held = self.held;
        if held > memory.len() {
            return Err((Refusal::ShortMemory, self));
        }
        let shown = leading(&memory[..held], self.wanted);
        memory[shown..].fill(Line { total: 0, place: 0 });
        Ok(Cut { shown })
    }

    /// The list length: how many different totals are wanted.
    pub fn length(&self) -> usize
        ensures { result ≡ self.now.wanted }
    {
        self.wanted
    }

    /// How many lines are held.
    pub fn held(&self) -> usize
        ensures { result ≡ self.now.held }
    {
        self.held
    }
}
