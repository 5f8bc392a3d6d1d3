//! Derivations of runs from the records of invocations that are known.
//!
//! `Stitching` answers each call of a test with what the store's records tell of its callee under a plan, and evaluates no
//! service's body. `derive` gives the run of a plan exactly where the store covers it. It stands on fb_store for walks
//! through records, on fb_eval for the test's body, and on fb_meaning for what makes a run.
#![tactic(auto)]

mod derivation;
mod found;
mod laws;
mod stitching;
mod walks;

pub use derivation::{Derived, NotDerived, derive};
pub use laws::derived_plans_are_covered;
pub use stitching::Stitching;
