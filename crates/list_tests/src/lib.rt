//! Tests of the list.
#![tactic(auto)]

#[cfg(test)]
mod fits;
#[cfg(test)]
mod lists;
#[cfg(test)]
mod making;
#[cfg(test)]
mod refusals;
