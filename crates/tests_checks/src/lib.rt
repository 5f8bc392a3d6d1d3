//! Tests of the checker of reports, from outside.
//!
//! It has tests alone, apart from the crates that they test, so that these are proved once.
#![tactic(auto)]

#[cfg(test)]
mod checking;
#[cfg(test)]
mod forged;
#[cfg(test)]
mod orders;
#[cfg(test)]
mod owners;
#[cfg(test)]
mod pieces;
#[cfg(test)]
mod reports;
#[cfg(test)]
mod rules;
#[cfg(test)]
mod sources;
#[cfg(test)]
mod spellings;
#[cfg(test)]
mod texts;
#[cfg(test)]
mod versions;
