//! Tests of the evaluation of tests, methods and single bodies, from outside.
//!
//! It has tests alone, apart from the crates that they test, so that these are proved once.
#![tactic(auto)]

#[cfg(test)]
mod bodies;
#[cfg(test)]
mod large;
#[cfg(test)]
mod methods;
#[cfg(test)]
mod sources;
#[cfg(test)]
mod texts;
#[cfg(test)]
mod values;
