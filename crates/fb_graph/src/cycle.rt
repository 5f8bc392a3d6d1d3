//! The first cycle, by a search from the first method that may be on one.
ghost use Rattle.std.specs.Prelude.{◌≡◌, ◌<◌, ℕ, length, All, IfOk, IfNone, IfSome, MatchBool, MatchOption, ◌⊎◌};
ghost use Rattle.fb_graph.specs.Cycle.{IsFirstCycle, IsOnNoCycle, TellsFirstCycle};
ghost use Rattle.fb_graph.specs.FirstCycle.{first_cycle};
ghost use Rattle.fb_graph.specs.Distances.{AreUnknown, IsNearest, IsNotFarther};
ghost use Rattle.fb_graph.specs.Reverse.{IsReverse};

use crate::distances::distance_of;
use crate::graph::CallGraph;
use fb_base::List;
use std::alloc::{AllocError, Global};

/// A method that calls itself through others.
#[derive(Drop)]
pub struct Cycle {
    /// The method.
    pub first: u32,
    /// Those that it calls itself through, from the one that it calls to the one that calls it; none where it calls
    /// itself.
    pub through: List<u32>,
}

/// A callee, and how far it is from the end of a cycle.
#[derive(Clone, Copy)]
struct Step {
    callee: u32,
    distance: usize,
}

impl CallGraph {
    /// The first method by its number that is on a cycle, with its shortest cycle, of several the first in dictionary
    /// order; none where no method is on one.
    pub fn first_cycle(&self, alloc: Global) -> Result<Option<Cycle>, AllocError>
        ensures told { IfOk result (λ found. found ≡ first_cycle self.now) }
        ensures first { IfOk result (TellsFirstCycle self.now) }
        ensures within { IfOk result (λ found. IfSome found (λ cycle.
            (cycle.first < length self.now) × All (λ m. m < length self.now) cycle.through)) }
    {
        let reversed = self.reversed(alloc)?;
        let levels = self.levels(alloc, &reversed)?;
        for method in 0..self.len() {
            // a walk from it never comes back to its level
            if self.all_below(&levels, method) {
                continue;
            }
            if let Some(through) = self.cycle_of(alloc, &reversed, method)? {
                return Ok(Some(Cycle {
                    first: method,
                    through,
                }));
            }
        }
        Ok(None)
    }

    /// The shortest cycle of a method, of several the first in dictionary order.
    fn cycle_of(
        &self,
        alloc: Global,
        reversed: &CallGraph,
        method: u32,
    ) -> Result<Option<List<u32>>, AllocError>
        requires reversed { IsReverse self.now reversed.now }
        requires within { method < length self.now }
        ensures none { IfOk result (λ found. IfNone found (IsOnNoCycle self.now method)) }
        ensures first { IfOk result (λ found. IfSome found (IsFirstCycle self.now method)) }
    {
        let distances = reversed.distances_from(alloc, method)?;
        let Some(mut step) = nearest(&distances, self.callees(method)) else {
            return Ok(None);
        };
        let mut through = List::new(alloc);
        while step.distance > 0 {
            through.push(step.callee)?;
            // a method on the way has a nearer callee
            step = nearest(&distances, self.callees(step.callee)).unwrap();
        }
        Ok(Some(through))
    }
}

/// The nearest of some methods, of several the one with the least number.
fn nearest(distances: &[Option<usize>], methods: &[u32]) -> Option<Step>
    ensures { MatchOption result (AreUnknown distances.now methods.now)
        (IsNearest distances.now methods.now) }
{
    let mut nearest = None;
    for method in methods {
        if let Some(distance) = distance_of(distances, *method) {
            let step = Step {
                callee: *method,
                distance,
            };
            nearest = Some(nearer(nearest, step));
        }
    }
    nearest
}

/// The nearer of two, of two that are as near the one with the lesser number.
fn nearer(known: Option<Step>, step: Step) -> Step
    ensures one { (result ≡ step) ⊎ (known ≡ Some result) }
    ensures known { IfSome known (IsNotFarther result) }
    ensures step { IsNotFarther result step }
{
    match known {
        Some(known) if is_before(known, step) => known,
        _ => step,
    }
}

/// Whether the first is nearer, or as near with a lesser number.
fn is_before(known: Step, step: Step) -> bool
    ensures { MatchBool result (IsNotFarther known step) (IsNotFarther step known) }
{
    known.distance < step.distance || known.distance == step.distance && known.callee < step.callee
}
