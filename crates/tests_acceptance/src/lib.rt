//! Tests of graphs of calls and of what is accepted, from outside.
//!
//! It has tests alone, apart from the crates that they test, so that these are proved once.
#![tactic(auto)]

#[cfg(test)]
mod calls;
#[cfg(test)]
mod graph;
#[cfg(test)]
mod kept;
#[cfg(test)]
mod refusals;
