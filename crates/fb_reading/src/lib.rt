//! Lines of reports, read.
//!
//! `read_line` answers the line whose JSON serde_json reads from some bytes, or the first reason why they are those of no
//! line (`IsAnswer`). It stands on fb_report for lines and their JSON, on fb_tree, fb_index and fb_base for their parts, and
//! on serde_json, which reads.
#![tactic(auto)]

mod fields;
mod key;
mod laws;
mod read;
mod read_lines;
mod read_parts;
mod read_values;
mod readable;
mod sort;
mod texts;

pub use key::{Key, LineError};
pub use laws::{answers_are_unique, written_lines_are_answers};
pub use read::read_line;
