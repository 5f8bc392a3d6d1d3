//! The canonical text of services and tests.
//!
//! `print_services` and `print_test` write a tree as the one text that the layout's rules give it, with parentheses
//! exactly where the grammar needs them; the text of a parsed tree parses to the same tree. The crate stands on
//! fb_syntax for the trees, and on fb_base for names and texts.
#![tactic(auto)]

mod expr_printer;
mod laws;
mod print;
mod printer;
mod services_printer;
mod stmt_printer;

pub use laws::{
    canonical_texts_are_read_back, canonical_texts_have_their_trees, parentheses_are_needed,
};
pub use print::{print_services, print_test};
