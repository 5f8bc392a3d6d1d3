//! What is kept of the plan lines that a check has read.
//!
//! `Book` has a row for each plan line: its place, its plan, and the calls at which the plan is extended, found by index;
//! and which extensions have a line. By it each further plan line's parent and plan are found, and at the end the first
//! extension without a line. It stands on fb_valid for what lines have to keep, on fb_meaning and fb_functest for spelled
//! runs and lawful ones, on fb_config for the choices, and on fb_tree and fb_index for calls and plans.
#![tactic(auto)]

mod book;
mod call;
mod calls;
mod child;
mod children;
mod key;
mod laws;
mod missing;
mod row;

pub use book::Book;
pub use laws::other_lines_change_no_book;
pub use missing::Missing;
