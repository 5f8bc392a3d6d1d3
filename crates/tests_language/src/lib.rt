//! Tests of tokens, grammar, trees and canonical texts, from outside.
//!
//! It has tests alone, apart from the crates that they test, so that these are proved once.
#![tactic(auto)]

#[cfg(test)]
mod expressions;
#[cfg(test)]
mod grammar;
#[cfg(test)]
mod lexing;
#[cfg(test)]
mod printing;
#[cfg(test)]
mod trees;
