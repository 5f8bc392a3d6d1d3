use crate::outcome::Outcome;
use fb_base::{List, MethodId, Reply, Value};
use fb_index::Entry;
use std::rc::Rc;

/// An invocation: the evaluation of a method on arguments, with what its calls did.
#[cycle(node)]
#[derive(Drop)]
pub struct Node {
    pub method: MethodId,
    pub args: List<Value>,
    /// The first one first.
    pub calls: Vec<Made>,
    pub reply: Reply,
    /// The units of fuel of its own body, without those of its calls.
    pub steps: u64,
}

/// A call that a body made.
#[cycle(node)]
#[derive(Drop)]
pub struct Made {
    pub entry: Entry,
    pub callee: MethodId,
    pub args: List<Value>,
    pub how: How,
    pub reply: Reply,
}

/// How a call got its reply.
#[cycle(node)]
#[derive(Drop)]
pub enum How {
    /// A fault was injected.
    Fault,
    /// The callee was evaluated.
    Ran(Rc<Node>),
    /// It was known, with all steps below it and the callees of the calls below it that were injected.
    Known {
        steps: u64,
        injected: List<MethodId>,
    },
}

/// The evaluation of a test, which is no invocation.
#[derive(Drop)]
pub struct TestNode {
    /// The first one first.
    pub calls: Vec<Made>,
    pub outcome: Outcome,
    /// The units of fuel of its own body.
    pub steps: u64,
}
