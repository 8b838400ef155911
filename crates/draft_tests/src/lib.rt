//! Tests of service trees and drafts: the examples of the rules, and the edges of each.
#![tactic(auto)]

#[cfg(test)]
mod entries;
#[cfg(test)]
mod saving;
#[cfg(test)]
mod trees;
