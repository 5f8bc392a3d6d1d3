use fb_base::{MethodId, Reply};
use fb_index::Index;

/// A call of a run, without its arguments.
#[derive(Drop)]
pub struct Visit {
    pub index: Index,
    pub callee: MethodId,
    /// The reply that was injected, none exactly where no fault was.
    pub fault: Option<Reply>,
}
