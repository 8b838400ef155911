//! Tests of heads and of the catalogue; the heads and catalogues that tests are made of.
#![tactic(auto)]

#[cfg(test)]
mod calls;
#[cfg(test)]
mod heading;
pub mod making;
#[cfg(test)]
mod namesakes;
#[cfg(test)]
mod opening;
