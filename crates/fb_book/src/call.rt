use fb_base::MethodId;
use fb_index::Index;

/// A call of a run at which its plan is extended.
#[derive(Drop)]
pub struct Call {
    pub index: Index,
    pub callee: MethodId,
}
