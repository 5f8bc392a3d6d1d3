//! One plan, run once more to be looked at.
//!
//! `replay` gives the text of the plan's run where the run injects exactly the plan: each call with its reply, and how the
//! test ended. Else it names the first fault that isn't met. It stands on fb_functest for the run, and on fb_report for
//! the texts of values and outcomes.
#![tactic(auto)]

mod calls;
mod replaying;
mod texts;
mod unmet;

pub use replaying::{ReplayError, Replayed, replay};
