//! Why a catalogue declines a call.

/// Why a catalogue is not opened, or a call on it is declined.
#[derive(Clone, Copy, Debug, PartialEq)]
pub enum Refusal {
    /// No places, over 256, or head and tariff memories of unequal length.
    NotOpened,
    /// No such place.
    NoSuchPlace,
    /// A head value against its rule.
    BadHead,
    /// Publish, amend or delete at an empty place.
    EmptyPlace,
    /// Amend with a last day before the first.
    LastBeforeFirst,
    /// Enter or publish at a published place.
    AlreadyPublished,
    /// Delete at a published place.
    StillPublished,
    /// A published namesake at this other place would share a day; no lower place has one.
    SharesDay(usize),
}
