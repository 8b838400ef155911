//! What the catalogue's memory holds of a place, besides its tariff.
ghost use Rattle.std.specs.Prelude.{◌≡◌};
ghost use Rattle.heads.specs.Rules.{blank};
ghost use Rattle.catalogue.specs.Slots.{slot_data, slot_of};
ghost use Rattle.catalogue.specs.declared.slot.State.TheVariants.{Empty};

use heads::Head;

/// The state of a place.
#[derive(Clone, Copy, Debug, PartialEq)]
pub enum State {
    /// Nothing is entered; what the memory still holds does not matter.
    Empty,
    /// A head and a tariff are entered.
    InWork,
    /// The offer is published.
    Published,
}

/// The state of a place, and its head unless it is empty.
// Opening and deleting change the state alone, so the memory of an empty place still holds a head.
#[derive(Clone, Copy)]
pub struct Slot {
    pub(crate) state: State,
    pub(crate) head: Head,
}

impl Slot {
    /// An empty slot, to make memory of.
    pub fn empty() -> Slot
        ensures { slot_data result ≡ slot_of Empty blank }
    {
        Slot {
            state: State::Empty,
            head: Head::blank(),
        }
    }
}
