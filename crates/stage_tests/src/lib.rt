//! Tests of the stages of a listing, and of when taking ends; the lines that tests are made of.
#![tactic(auto)]

#[cfg(test)]
mod calls;
#[cfg(test)]
mod endings;
pub mod making;
