//! What a checker of reports keeps of the lines that it has read: places, totals, and who owns the records.
//!
//! `Tally` is seen as what `tally_of` counts in the lines so far, and tells whether the next line stands in its place;
//! `Owners` is related to them by `AreOwnersOf`, and finds the first record that nobody owns and the first run line that
//! owns none. The rules are those of fb_valid, and lines are fb_report's.
#![tactic(auto)]

mod laws;
mod owners;
mod owning;
mod rows;
mod tally;

pub use laws::{end_lines_own_nothing, ends_are_tallied, lines_are_more_than_tallied};
pub use owners::Owners;
pub use tally::{Tally, Totals};
