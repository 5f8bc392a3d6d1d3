//! Which methods call which: the ranks of the methods, and the first cycle.
//!
//! Contracts see a graph as a list of lists: for each method, by its number from 0, the methods that it calls.
#![tactic(auto)]

mod cycle;
mod distances;
mod graph;
mod laws;
mod levels;
mod ranks;
mod reversed;

pub use cycle::Cycle;
pub use graph::CallGraph;
pub use laws::{chains_are_tested, chains_end, first_cycle_is_first, ranks_fall};
