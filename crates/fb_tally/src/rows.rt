//! What is kept of a line that tells a record, and of one that tells a plan.

/// An inv line: how many lines stand above it, the number of the plan line that it names as owner, and whether that is a
/// run line, read by now, that uses it.
#[derive(Drop, Clone, Copy)]
pub struct RecordRow {
    pub at: u64,
    pub owner: u64,
    pub owned: bool,
}

/// A plan line: how many lines stand above it, and whether it is run.
#[derive(Drop, Clone, Copy)]
pub struct PlanRow {
    pub at: u64,
    pub run: bool,
}
