use crate::scope::Scope;

/// How far the check of a body is.
#[derive(Drop)]
pub struct Walk {
    pub scope: Scope,
    /// The number of the statement that began last, or 0.
    pub number: u32,
}
