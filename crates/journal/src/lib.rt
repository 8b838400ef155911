//! Calls on a catalogue, one after another, and the promise over every run of them.
#![tactic(auto)]

pub mod call;
pub mod making;
pub mod numbers;
pub mod refusing;
pub mod replaying;
pub mod run;

pub use call::{Answer, Call, Declined, Granted};
pub use making::answer;
pub use refusing::Refusal;
pub use replaying::replay;
pub use run::{Given, Replayed, Stopped};
