//! What a replay is given, and what it gives back.
use crate::call::{Answer, Call};
use catalogue::{Catalogue, Refusal, Slot};

/// What a replay is given: the catalogue's two memories, the calls, and room for their answers.
#[derive(Drop)]
pub struct Given<T> {
    /// The memory for the heads.
    pub slots: Vec<Slot>,
    /// The memory for the tariffs.
    pub tariffs: Vec<T>,
    /// The calls, in their order.
    pub calls: Vec<Call<T>>,
    /// The answers go behind what this holds.
    pub answers: Vec<Answer<T>>,
}

/// The catalogue after the calls, and the answers.
#[derive(Drop)]
pub struct Replayed<T> {
    pub catalogue: Catalogue<T>,
    pub answers: Vec<Answer<T>>,
}

/// Why a replay made no call: everything comes back as it was given.
#[derive(Drop)]
pub enum Stopped<T> {
    /// There is room for fewer answers than there are calls.
    NoRoom(Given<T>),
    /// No catalogue opens over the memories, and why.
    NotOpened(Refusal, Given<T>),
}
