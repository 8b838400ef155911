//! Calls on a catalogue, and their answers.
use crate::refusing::Refusal;
use heads::RawHead;
use listing::Enquiry;
use stages::Line;

/// A call on a catalogue, with what it hands over.
#[derive(Drop)]
pub enum Call<T> {
    /// Enter this head and tariff at a place.
    Enter(usize, RawHead, T),
    /// Publish a place.
    Publish(usize),
    /// Set the last day of a place.
    Amend(usize, u16),
    /// Empty a place.
    Delete(usize),
    /// List the cheapest offers, into this line memory.
    List(Enquiry, Vec<Line>),
}

/// What a call that is not declined gives back.
#[derive(Drop)]
pub enum Granted {
    /// The call took its step.
    Done,
    /// So many lines are shown and so many offers were costed; the line memory comes back.
    Shown(usize, usize, Vec<Line>),
}

/// A declined call, with all that it handed over.
#[derive(Drop)]
pub struct Declined<T> {
    /// Why.
    pub refusal: Refusal,
    /// The call, as it was.
    pub call: Call<T>,
}

/// The answer to a call.
pub type Answer<T> = Result<Granted, Declined<T>>;
