use fb_index::Plan;

/// A plan that has to be run.
#[derive(Drop)]
pub struct Pending {
    pub plan: Plan,
    /// The number of the plan that it extends.
    pub parent: u64,
}
