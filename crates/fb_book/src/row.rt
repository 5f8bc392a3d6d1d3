use crate::calls::Calls;
use fb_index::Plan;

/// A plan line: its place among the lines, its plan, and the calls at which the plan is extended.
#[derive(Drop)]
pub struct Row {
    pub at: u64,
    pub plan: Plan,
    pub calls: Calls,
}
