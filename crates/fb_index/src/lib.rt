//! Indexes and plans: where a call stands in a run, and which calls a run answers with faults.
//!
//! Contracts see an index as a list of entries and a plan as a list of faults, both shared in memory, and each has
//! a text that is read back to the same list. It stands on fb_base for the replies of faults.
#![tactic(auto)]

mod chain;
mod entry;
mod error;
mod fault;
mod index;
mod laws;
mod pieces;
mod plan;
mod scanner;
mod spelling;
mod value;

pub use entry::Entry;
pub use error::{IndexError, PlanError};
pub use fault::Fault;
pub use index::Index;
pub use laws::{index_of_text, index_order, plan_of_text, refusals_have_one_offset};
pub use plan::Plan;
