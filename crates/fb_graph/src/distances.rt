//! How far methods are from one of them, in calls.
ghost use Rattle.std.specs.Prelude.{◌≡◌, ◌+◌, ◌<◌, ◌≤◌, ◌↔◌, length, IfOk, OnOk, IsTrue, MatchBool, slice_index_or};
ghost use Rattle.fb_graph.specs.Distances.{AreDistances, Reaches, IsWithin};

use crate::graph::CallGraph;
use std::alloc::{AllocError, Global};

impl CallGraph {
    /// The least number of calls that lead from a method to each, by its number, where any do.
    pub(crate) fn distances_from(
        &self,
        alloc: Global,
        start: u32,
    ) -> Result<Vec<Option<usize>>, AllocError>
        requires { start < length self.now }
        ensures { IfOk result (λ distances. AreDistances self.now start distances.items) }
    {
        let mut distances = vec![in alloc; None; self.len() as usize]?;
        distances[start as usize] = Some(0);
        // in the order of their distances, so that each is reached by a shortest way at once
        let mut reached = Vec::new(alloc);
        reached.push(start)?;
        let mut taken = 0;
        while taken < reached.len() {
            let method = reached[taken];
            if let Some(distance) = distance_of(&distances, method) {
                reach(
                    self.callees(method),
                    distance + 1,
                    &mut distances,
                    &mut reached,
                )?;
            }
            taken += 1;
        }
        Ok(distances)
    }
}

/// Notes the distance of each of these methods that isn't known to be so near, and that it is reached.
fn reach(
    methods: &[u32],
    distance: usize,
    distances: &mut Vec<Option<usize>>,
    reached: &mut Vec<u32>,
) -> Result<(), AllocError>
    requires { distance ≤ length reached.old.items }
    ensures { OnOk result (Reaches methods.now distance distances.old.items distances.new.items
        reached.old.items reached.new.items) }
{
    for method in methods {
        if is_farther(distances, *method, distance) {
            distances[*method as usize] = Some(distance);
            reached.push(*method)?;
        }
    }
    Ok(())
}

/// Whether a method is there and not known to be so near.
fn is_farther(distances: &[Option<usize>], method: u32, distance: usize) -> bool
    ensures known { method < length distances.now → MatchBool result
        (¬ (IsWithin distances.now method distance)) (IsWithin distances.now method distance) }
    ensures within { IsTrue result → method < length distances.now }
{
    if method as usize >= distances.len() {
        return false;
    }
    match distances[method as usize] {
        Some(known) => distance < known,
        None => true,
    }
}

/// The distance of a method, where it is known.
pub(crate) fn distance_of(distances: &[Option<usize>], method: u32) -> Option<usize>
    ensures { result ≡ slice_index_or distances.now method None }
{
    if method as usize >= distances.len() {
        return None;
    }
    distances[method as usize]
}
