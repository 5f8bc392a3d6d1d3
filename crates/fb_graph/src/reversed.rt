//! The calls seen from the callees.
ghost use Rattle.std.specs.Prelude.{◌≡◌, [], length, IfOk, OnOk, All};
ghost use Rattle.fb_graph.specs.Reverse.{IsReverse, AddsCaller};

use crate::graph::CallGraph;
use fb_base::List;
use std::alloc::{AllocError, Global};

impl CallGraph {
    /// The graph with each call turned round, so that a method's callees are its callers.
    pub(crate) fn reversed(&self, alloc: Global) -> Result<CallGraph, AllocError>
        ensures { IfOk result (IsReverse self.now) }
    {
        let mut callers = empty_lists(alloc, self.len())?;
        for caller in 0..self.len() {
            add_caller(&mut callers, self.callees(caller), caller)?;
        }
        Ok(CallGraph::of(List::of(callers)))
    }
}

fn empty_lists(alloc: Global, count: u32) -> Result<Vec<List<u32>>, AllocError>
    ensures len { IfOk result (λ lists. length lists.items ≡ count) }
    ensures empty { IfOk result (λ lists. All (λ list. list ≡ []) lists.items) }
{
    let mut lists = Vec::with_capacity(alloc, count as usize)?;
    for _ in 0..count {
        lists.push(List::new(alloc))?;
    }
    Ok(lists)
}

/// Adds the caller to the list of each of its callees.
fn add_caller(callers: &mut Vec<List<u32>>, callees: &[u32], caller: u32) -> Result<(), AllocError>
    ensures { OnOk result (AddsCaller callees.now caller callers.old.items callers.new.items) }
{
    for callee in callees {
        let callee = *callee as usize;
        if callee < callers.len() {
            callers[callee].push(caller)?;
        }
    }
    Ok(())
}
