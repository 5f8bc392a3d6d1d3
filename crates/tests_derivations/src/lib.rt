//! Tests of derivations from records, from outside.
//!
//! It has tests alone, apart from the crates that they test, so that these are proved once.
#![tactic(auto)]

#[cfg(test)]
mod derivations;
#[cfg(test)]
mod known;
#[cfg(test)]
mod sources;
#[cfg(test)]
mod stitching;
#[cfg(test)]
mod texts;
