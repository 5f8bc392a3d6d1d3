//! What the lines of a report are judged by: whether the record of an inv line is true and new, and which tree the uses of a
//! plan line spell.
//!
//! `Grounds::add_record` answers whether a line's record is a new true one, and then adds it to the store; it evaluates the
//! record's own body at most once. `Grounds::tree_of` gives the calls and the outcome of the tree that uses spell under a
//! plan, exactly where they spell one, and evaluates no service's body. It stands on fb_eval for one body by its replies, on
//! fb_stitch for trees of records, on fb_meaning for the laws of both, and on fb_valid for the rules on lines.
#![tactic(auto)]

mod adding;
mod fitting;
mod grounds;
mod making;
mod spelling;

pub use grounds::Grounds;
pub use spelling::Spelled;
