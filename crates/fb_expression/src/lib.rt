//! The values of expressions, over the variables in scope and, in a test, the callees that have been injected so far.
//!
//! `value_of` and `values_of` give what the meaning of expressions gives, or its fault. The crate stands on fb_meaning
//! for the definitions, on fb_check for accepted services, on fb_syntax for trees and on fb_base for values.
#![tactic(auto)]

mod environment;
mod expressions;
mod injected;
mod items;
mod laws;
mod parameters;
mod questions;
mod variable;
mod variables;

pub use environment::Environment;
pub use expressions::{value_of, values_of};
pub use injected::InjectedCallees;
pub use items::item_at;
pub use laws::parameters_differ;
pub use variables::Variables;
