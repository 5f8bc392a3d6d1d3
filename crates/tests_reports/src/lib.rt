//! Tests of report lines, from outside.
//!
//! It has tests alone, apart from the crates that they test, so that these are proved once.
#![tactic(auto)]

#[cfg(test)]
mod lines;
#[cfg(test)]
mod refused;
#[cfg(test)]
mod spelled;
