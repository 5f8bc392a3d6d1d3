//! The lines of a report, judged one by one.
//!
//! An `Audit` takes the lines that are read of a report, the header first. `take` answers with the first rule that a line
//! breaks by itself and the lines above it, and `conclude` with the first rule that all lines together break, or with their
//! totals. What an audit has taken is the relation `StandsFor`, and `concluded_lines_are_valid` is the law that bytes which
//! are read as such lines are a valid report. It stands on fb_tally for places, totals and owners, on fb_book for plans and
//! their extensions, on fb_evidence for records and trees, and on fb_valid for the rules.
#![tactic(auto)]

mod audit;
mod below;
mod ending;
mod judge;
mod known;
mod laws;
mod taken;
mod told;
mod verdict;

pub use audit::Audit;
pub use laws::concluded_lines_are_valid;
pub use verdict::{Break, Conclusion, Rule};
