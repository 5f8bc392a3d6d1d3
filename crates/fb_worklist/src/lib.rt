//! The plans of a campaign that still have to be run, first in, first out.
//!
//! `Worklist` is seen as a list of pending plans: `push_extensions` adds the extensions of a plan at its end, and
//! `pop_first` takes the first. The crate stands on `fb_campaign`, which says what the extensions of a plan are, on
//! `fb_config` for the choices, on `fb_tree` for the calls of a run, on `fb_index` for plans, and on `fb_base`.
#![tactic(auto)]

mod extending;
mod pending;
mod worklist;

pub use pending::Pending;
pub use worklist::Worklist;
