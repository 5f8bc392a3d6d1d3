//! Fault files: which replies are injected into calls of which methods.
//!
//! `read_faults` reads a file of either version, and answers Ok exactly where nothing is refused, with the choices for each
//! method: the codes and values of all items that mean it, in file order, each once. The crate stands on `fb_check`,
//! whose services the items name, on `fb_base`, on `fb_campaign` for what a campaign asks of choices, and on `toml`.
#![tactic(auto)]

mod choices;
mod document;
mod error;
mod fault_file;
mod fault_item;
mod faults;
mod keys;
mod read_file;
mod read_item;
mod read_replies;
mod read_value;
mod reply_set;

pub use error::{FaultsError, FaultsWhy};
pub use faults::{Faults, read_faults};
