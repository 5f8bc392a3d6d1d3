//! Tests of the values of expressions and of recorded invocations, from outside.
//!
//! It has tests alone, apart from the crates that they test, so that these are proved once.
#![tactic(auto)]

#[cfg(test)]
mod agreeing;
#[cfg(test)]
mod expressions;
#[cfg(test)]
mod many;
#[cfg(test)]
mod recorded;
#[cfg(test)]
mod store;
#[cfg(test)]
mod stored;
#[cfg(test)]
mod tables;
