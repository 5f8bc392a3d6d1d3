//! Tests of values, indexes, plans, trees of runs and transports, from outside.
//!
//! It has tests alone, apart from the crates that they test, so that these are proved once.
#![tactic(auto)]

#[cfg(test)]
mod base;
#[cfg(test)]
mod index;
#[cfg(test)]
mod transport;
#[cfg(test)]
mod tree;
