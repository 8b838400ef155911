//! Why a stage of a listing declines a call.

/// Why a stage of a listing declines a call.
#[derive(Clone, Copy, Debug, PartialEq)]
pub enum Refusal {
    /// The list length is 0 or over 20.
    ListLength,
    /// The line memory is too short for the stage.
    ShortMemory,
    /// No such line is shown.
    NoSuchLine,
}
