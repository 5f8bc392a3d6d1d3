/// What a report counts: its plan lines, those that were run, pruned and failed, and its recorded invocations.
#[derive(Debug, Drop, Clone, Copy, PartialEq, Eq)]
pub struct Totals {
    pub plans: u64,
    pub run: u64,
    pub pruned: u64,
    pub failed: u64,
    pub invs: u64,
    /// The number of the first failed plan, none exactly where none failed.
    pub first_failed: Option<u64>,
}
