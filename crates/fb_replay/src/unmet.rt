//! The first fault of a plan that a run doesn't meet.
ghost use Rattle.std.specs.Prelude.{◌≡◌, ◌↔◌, IsTrue, map, MatchOption};
ghost use Rattle.fb_base.specs.Front.{IsFrontOf};
ghost use Rattle.fb_replay.specs.Replays.{IsFirstUnmet};

use fb_index::{Fault, Index};

/// Whether both faults are the same.
fn same(fault: &Fault, other: &Fault) -> bool
    ensures { IsTrue result ↔ (fault.now ≡ other.now) }
{
    fault.index.same(&other.index) && fault.reply.same(&other.reply)
}

/// The index of the first fault that wasn't injected in its place, none where all were.
pub(crate) fn first_unmet<'a>(planned: &[&'a Fault], injected: &[&Fault]) -> Option<&'a Index>
    ensures { MatchOption result (IsFrontOf (map (λ f. f.now) planned.now) (map (λ f. f.now) injected.now))
        (λ index. IsFirstUnmet (map (λ f. f.now) planned.now) (map (λ f. f.now) injected.now) index.now) }
{
    let mut left = planned;
    let mut others = injected;
    while let [fault, rest @ ..] = left {
        let [other, behind @ ..] = others else {
            return Some(&fault.index);
        };
        if !same(fault, other) {
            return Some(&fault.index);
        }
        left = rest;
        others = behind;
    }
    None
}
