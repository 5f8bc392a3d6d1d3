//! What a campaign goes by.

use fb_check::{CheckedTest, Program};
use fb_config::Faults;
use std::alloc::Global;

/// What a campaign goes by.
#[derive(Drop)]
pub(crate) struct Explorer<'a> {
    pub alloc: Global,
    pub program: &'a Program,
    pub test: &'a CheckedTest,
    pub faults: &'a Faults,
    /// The units of each run.
    pub fuel: u64,
    /// How many plans may be run.
    pub budget: u64,
    /// Whether covered plans are pruned.
    pub reduction: bool,
}
