//! The checker of reports: whether bytes are those of a valid report, and else the first line that breaks a rule.
//!
//! `verify` answers by the whole bytes (`IsVerdict`), and a `Checker` takes them piece by piece, however they are cut, and
//! keeps what stands behind the last line feed alone (`StandsFor`). The crate stands on fb_audit, which judges lines and keeps
//! what later rules need, on fb_reading, which reads them, on fb_report, which cuts bytes at line feeds, and on fb_valid for
//! what a valid report is.
#![tactic(auto)]

mod checker;
mod laws;
mod reading;
mod unread;
mod verdict;
mod verifying;
mod whole;

pub use checker::{Checker, Fed};
pub use fb_audit::Rule;
pub use fb_tally::Totals;
pub use laws::verdicts_are_exact;
pub use verdict::Verdict;
pub use verifying::verify;
