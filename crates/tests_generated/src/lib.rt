//! Tests of generated programs, from outside.
#![tactic(auto)]

#[cfg(test)]
mod generated;
