//! The evaluation of methods and tests, over any transport.
//!
//! `eval_method` and `eval_body_test` end exactly as methods and tests mean with what the transport gives, and
//! `eval_local` gives the record of one body by a script. It stands on fb_meaning for the definitions, on fb_expression
//! for values and variables, on fb_check for what is kept of sources, on fb_transport and on fb_tree.
#![tactic(auto)]

mod body;
mod calling;
mod calls;
mod decides;
mod eval;
mod evaluate;
mod flow;
mod fuel;
mod plain;
mod progress;
mod stop;
mod walk;

pub use eval::{eval_body_test, eval_local, eval_method};
pub use fuel::Fuel;
pub use stop::Stop;
