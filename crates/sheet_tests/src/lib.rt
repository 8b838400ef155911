//! Tests of plan sheets: one good sheet, and one for each fault, at the first and the last byte where it can come.
#![tactic(auto)]

#[cfg(test)]
mod entries;
#[cfg(test)]
mod layout;
#[cfg(test)]
mod sections;
#[cfg(test)]
mod sheets;
