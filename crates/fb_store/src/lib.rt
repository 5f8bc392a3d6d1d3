//! Records of invocations that are known, and what follows in them once some of their calls are answered.
//!
//! A store is seen as the list of its different records, any two of which agree. It stands on fb_tree for records and
//! when they agree, and on fb_base for values and replies.
#![tactic(auto)]

mod cursor;
mod next;
mod place;
mod store;
mod tables;
mod trees;

pub use cursor::Cursor;
pub use next::Next;
pub use store::Store;
