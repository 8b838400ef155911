//! Tests of uses, groups, prices and tariffs: the edges of every range, and small bills.
#![tactic(auto)]

#[cfg(test)]
mod bills;
#[cfg(test)]
mod ranges;
