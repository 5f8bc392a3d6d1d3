//! A walk through the calls of a run.
ghost use Rattle.std.specs.Prelude.{◌≡◌, ◌++◌, [], ◌∷◌, IfOk, IfNone, OnOk, MatchOption};
ghost use Rattle.fb_tree.specs.Calls.{visits_of, fault_of};
ghost use Rattle.fb_tree.specs.Views.{view_how, view_run};
ghost use Rattle.fb_tree.specs.Walk.{GivesNext, visits_left, visits_of_frames, visit_at, visits_below};

use crate::node::{How, Made, TestNode};
use crate::visit::Visit;
use fb_base::Reply;
use fb_index::Index;
use std::alloc::{AllocError, Global};
use std::marker::Model;

/// What is left of a body's calls.
#[derive(Drop)]
struct Frame<'a> {
    /// Where the body stands.
    index: Index,
    calls: &'a [Made],
}

/// A walk through the calls of a run, the test's own too, in the order in which they begin.
///
/// Each step takes one call and makes one index. It keeps as many places as bodies are open, and copies no calls.
#[derive(Drop)]
pub struct Preorder<'a> {
    alloc: Global,
    /// The innermost body last.
    frames: Vec<Frame<'a>>,
}

impl<'a> Model for Preorder<'a> {
    ghost use Rattle.std.specs.Prelude.{List};
    ghost use Rattle.fb_tree.specs.declared.visit.Visit.{Visit as VisitOf};
    ghost use Rattle.fb_tree.specs.Walk.{visits_of_frames};

    ghost Value = { List VisitOf };

    ghost view = { λ p. visits_of_frames p.frames.items };
}

impl<'a> Preorder<'a> {
    #[tactic(auto, unfolding(crate::specs::Walk::visits_of_frames))]
    pub fn new(alloc: Global, run: &'a TestNode) -> Result<Preorder<'a>, AllocError>
        ensures { IfOk result (λ left. left ≡ visits_of (view_run run.now)) }
    {
        let mut frames = Vec::new(alloc);
        frames.push(Frame {
            index: Index::root(),
            calls: run.calls.as_slice(),
        })?;
        Ok(Preorder { alloc, frames })
    }

    /// The next call, none exactly where no call is left. After want of memory none is.
    #[tactic(auto, unfolding(crate::specs::Walk::visits_of_frames))]
    pub fn next(&mut self) -> Option<Result<Visit, AllocError>>
        ensures { GivesNext self.old result self.new }
    {
        let Some((made, behind)) = take_call(&mut self.frames) else {
            return None;
        };
        match enter(self.alloc, &mut self.frames, made, behind) {
            Ok(visit) => Some(Ok(visit)),
            Err(error) => {
                self.frames.clear();
                Some(Err(error))
            }
        }
    }
}

/// Takes the next call of the innermost body that has one, and what is left of that body behind it.
fn take_call<'a>(frames: &mut Vec<Frame<'a>>) -> Option<(&'a Made, Frame<'a>)>
    ensures next { MatchOption result (visits_of_frames frames.old.items ≡ [])
        (λ call. visits_of_frames frames.old.items ≡ visit_at call.1.index call.0.now
        ∷ (visits_below (call.1.index ++ call.0.now.entry ∷ []) call.0.now.how ++ (visits_left call.1 ++ visits_of_frames frames.new.items))) }
    ensures ended { IfNone result (visits_of_frames frames.new.items ≡ []) }
{
    while let Some(frame) = frames.pop() {
        if let Some(call) = split(frame) {
            return Some(call);
        }
    }
    None
}

/// The first of a body's calls, and what is left behind it.
fn split<'a>(frame: Frame<'a>) -> Option<(&'a Made, Frame<'a>)>
    ensures { MatchOption result (visits_left frame.entry ≡ [])
        (λ call. visits_left frame.entry ≡ visit_at call.1.index call.0.now
        ∷ (visits_below (call.1.index ++ call.0.now.entry ∷ []) call.0.now.how ++ visits_left call.1)) }
{
    let [made, calls @ ..] = frame.calls else {
        return None;
    };
    let index = frame.index;
    Some((made, Frame { index, calls }))
}

/// The visit of a call. The calls below it come next, then those behind it.
#[tactic(auto, using(crate::proofs::Steps::visits_of_frames_one))]
fn enter<'a>(
    alloc: Global,
    frames: &mut Vec<Frame<'a>>,
    made: &'a Made,
    behind: Frame<'a>,
) -> Result<Visit, AllocError>
    ensures visit { IfOk result (λ visit. visit ≡ visit_at behind.entry.index made.now) }
    ensures left { IfOk result (λ visit. visits_of_frames frames.new.items
        ≡ visits_below (behind.entry.index ++ made.now.entry ∷ []) made.now.how ++ (visits_left behind.entry ++ visits_of_frames frames.old.items)) }
{
    let index = behind.index.child(alloc, made.entry)?;
    let fault = injected_reply(alloc, made)?;
    frames.push(behind)?;
    open_body(frames, index.copy()?, &made.how)?;
    Ok(Visit {
        index,
        callee: made.callee,
        fault,
    })
}

/// The reply of a call that was injected.
#[tactic(auto, unfolding(crate::specs::Views::view_how))]
fn injected_reply(alloc: Global, made: &Made) -> Result<Option<Reply>, AllocError>
    ensures { IfOk result (λ fault. fault ≡ fault_of made.now.reply (view_how made.now.how)) }
{
    match &made.how {
        How::Fault => Ok(Some(made.reply.copy(alloc)?)),
        How::Ran(_) => Ok(None),
        How::Known { .. } => Ok(None),
    }
}

/// The calls below a call at this index come next.
#[tactic(auto, using(crate::proofs::Steps::visits_of_frames_one, crate::proofs::Steps::calls_below_ran), unfolding(crate::specs::Views::view_how, crate::specs::Calls::calls_below))]
fn open_body<'a>(frames: &mut Vec<Frame<'a>>, index: Index, how: &'a How) -> Result<(), AllocError>
    ensures { OnOk result (visits_of_frames frames.new.items ≡ visits_below index how.now ++ visits_of_frames frames.old.items) }
{
    match how {
        How::Fault => Ok(()),
        How::Ran(node) => {
            frames.push(Frame {
                index,
                calls: node.calls.as_slice(),
            })?;
            Ok(())
        }
        How::Known { .. } => Ok(()),
    }
}
