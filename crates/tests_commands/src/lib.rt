//! Tests of the outside and of whole commands over files in memory.
//!
//! It has tests alone, apart from the crates that they test, so that these are proved once.
#![tactic(auto)]

#[cfg(test)]
mod campaigns;
#[cfg(test)]
mod checks;
#[cfg(test)]
mod commands;
#[cfg(test)]
mod examples;
#[cfg(test)]
mod fault_files;
#[cfg(test)]
mod files;
#[cfg(test)]
mod fronts;
#[cfg(test)]
mod outside;
#[cfg(test)]
mod printing;
#[cfg(test)]
mod replays;
#[cfg(test)]
mod reports;
#[cfg(test)]
mod running;
#[cfg(test)]
mod texts;
#[cfg(test)]
mod trials;
