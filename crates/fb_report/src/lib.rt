//! The lines of a report: plain data, their JSON and bytes, and bytes cut into lines.
//!
//! What `line_bytes` writes is the compact text of the line's JSON (`line_tree`) and a line feed, and serde_json reads the
//! same JSON from it again. It stands on fb_tree, fb_index and fb_base for the parts of lines, on fb_check for the names
//! of methods, and on serde_json, which writes.
#![tactic(auto)]

mod cut;
mod laws;
mod line;
mod named;
mod parts;
mod send_line;
mod shaped;
mod split;
mod totals;
mod write;

pub use laws::{written_lines_are_read_again, written_lines_stay_whole};
pub use line::{Cause, Line};
pub use named::{NamedAsked, NamedRecord, find_record, name_record};
pub use parts::{method_text, outcome_text};
pub use split::{Piece, Split, split_lines};
pub use totals::Totals;
pub use write::{line_bytes, value_text};
