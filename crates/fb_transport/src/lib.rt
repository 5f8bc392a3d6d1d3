//! Who decides what a call is answered: the callee itself, a fault, or a reply that is known.
//!
//! A transport's decisions are those of one source, which nothing changes (`gives`). It stands on fb_base for values and
//! replies and on fb_index for indexes and plans.
#![tactic(auto)]

mod decision;
mod injecting;
mod request;
mod scripted;
mod tracing;
mod transport;

pub use decision::{Decision, Halt};
pub use injecting::Injecting;
pub use request::Request;
pub use scripted::Scripted;
pub use tracing::Tracing;
pub use transport::Transport;
