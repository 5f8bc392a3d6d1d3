//! Runs as trees: which calls a body made, how each was answered, and what is recorded of it.
//!
//! The trees share their parts; contracts speak of them by their plain data (`Tree`, `CallList`, `TestRun`). It stands
//! on fb_base for values and replies and on fb_index for the indexes of calls.
#![tactic(auto)]

mod asked;
mod injected;
mod node;
mod outcome;
mod preorder;
mod recorded;
mod visit;

pub use asked::Asked;
pub use injected::injected_of;
pub use node::{How, Made, Node, TestNode};
pub use outcome::Outcome;
pub use preorder::Preorder;
pub use recorded::{Record, record_of, same_record};
pub use visit::Visit;
