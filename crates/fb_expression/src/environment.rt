use crate::injected::InjectedCallees;
use crate::variables::Variables;
use fb_check::Program;

/// What an expression reads.
#[derive(Drop)]
pub struct Environment<'a> {
    pub program: &'a Program,
    pub variables: &'a Variables,
    /// The callees that have been injected so far; none in a method, which can't ask for them.
    pub injected: Option<&'a InjectedCallees>,
}
