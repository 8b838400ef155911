//! The search for published namesakes that share a day.
ghost use Rattle.std.specs.Prelude.{◌≡◌, map};
ghost use Rattle.heads.specs.Heads.{head_data};
ghost use Rattle.catalogue.specs.Slots.{slot_data};
ghost use Rattle.catalogue.specs.Search.{rivals, bars_slot, first_other};

use crate::slot::{Slot, State};
use heads::Head;

// Whether two heads are namesakes that share a day.
fn meet(head: &Head, other: &Head) -> bool
    ensures { result ≡ rivals (head_data head.now) (head_data other.now) }
{
    head.is_namesake(other) && head.shares_day(other)
}

impl Slot {
    // Whether the slot is published, for a namesake of `head` that shares a day with it.
    fn bars(&self, head: &Head) -> bool
        ensures { result ≡ bars_slot (head_data head.now) (slot_data self.now) }
    {
        self.state == State::Published && meet(head, &self.head)
    }
}

// The lowest published place but `place` whose head is a namesake of `head` and shares a day with it.
pub(crate) fn clashing(slots: &[Slot], place: usize, head: &Head) -> Option<usize>
    ensures { result ≡ first_other (bars_slot (head_data head.now)) (map slot_data slots.now) 0 place }
{
    slots
        .iter()
        .enumerate()
        .position(|(i, slot)| i != place && slot.bars(head))
}
