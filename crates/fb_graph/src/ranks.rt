//! The longest chains of calls.
ghost use Rattle.std.specs.Prelude.{◌≡◌, ◌+◌, ◌<◌, ◌^◌, EachIndex, length, slice_index, IfOk};
ghost use Rattle.fb_graph.specs.Chain.{AreRanksUpTo, IsJustAbove};
ghost use Rattle.fb_graph.specs.Graph.{callees};

use crate::graph::CallGraph;
use fb_base::List;
use std::alloc::{AllocError, Global};

impl CallGraph {
    /// The length of the longest chain of calls below each method, by its number, or the limit where there is a chain
    /// of that length.
    pub fn ranks(&self, alloc: Global, limit: u32) -> Result<List<u32>, AllocError>
        ensures len { IfOk result (λ ranks. length ranks ≡ length self.now) }
        ensures ranks { IfOk result (AreRanksUpTo limit self.now) }
    {
        let mut ranks = List::of(vec![in alloc; 0; self.len() as usize]?);
        for _ in 0..limit {
            ranks = self.deeper(alloc, ranks.as_slice())?;
        }
        Ok(ranks)
    }

    /// The ranks up to a limit, made of those up to one less.
    fn deeper(&self, alloc: Global, ranks: &[u32]) -> Result<List<u32>, AllocError>
        requires { EachIndex ranks.now (λ m. slice_index ranks.now m + 1 < 2 ^ 32) }
        ensures len { IfOk result (λ deeper. length deeper ≡ length self.now) }
        ensures above { IfOk result (λ deeper. EachIndex deeper (λ m.
            IsJustAbove ranks.now (callees self.now m) (slice_index deeper m))) }
    {
        let mut deeper = List::new(alloc);
        for method in 0..self.len() {
            deeper.push(just_above(ranks, self.callees(method)))?;
        }
        Ok(deeper)
    }
}

/// One more than the largest rank of the callees, and 0 without callees.
fn just_above(ranks: &[u32], callees: &[u32]) -> u32
    requires { EachIndex ranks.now (λ m. slice_index ranks.now m + 1 < 2 ^ 32) }
    ensures { IsJustAbove ranks.now callees.now result }
{
    let mut above = 0;
    for callee in callees {
        above = above.max(rank_of(ranks, *callee) + 1);
    }
    above
}

/// The rank of a method, 0 for a number beyond the last one.
fn rank_of(ranks: &[u32], method: u32) -> u32
    ensures { result ≡ slice_index ranks.now method }
{
    ranks.get(method as usize).copied().unwrap_or(0)
}
