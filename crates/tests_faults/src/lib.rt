//! Tests of fault files and of the list of pending plans, from outside.
//!
//! It has tests alone, apart from the crates that they test, so that these are proved once.
#![tactic(auto)]

#[cfg(test)]
mod chosen;
#[cfg(test)]
mod limits;
#[cfg(test)]
mod refused;
#[cfg(test)]
mod shop;
#[cfg(test)]
mod waiting;
