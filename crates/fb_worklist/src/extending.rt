//! The extensions of a plan.
ghost use Rattle.std.specs.Prelude.{◌≡◌, ◌++◌, All, flat_map, map, IfOk, OnOk};
ghost use Rattle.fb_index.specs.Index.{same_index};
ghost use Rattle.fb_campaign.specs.Plans.{begun_after, begun_after_plan};
ghost use Rattle.fb_worklist.specs.Worklists.{HasMethod, pending_at, pending_by, pending_of};

use crate::pending::Pending;
use fb_base::Reply;
use fb_config::Faults;
use fb_index::{Index, Plan};
use fb_tree::Visit;
use std::alloc::{AllocError, Global};
use std::collections::VecDeque;

/// Whether the call is at this index.
fn is_at(call: &Visit, index: &Index) -> bool
    ensures { result ≡ same_index call.now.index index.now }
{
    call.index.same(index)
}

/// The calls that begin after the one at this index.
fn begun_after<'a>(calls: &'a [Visit], index: &Index) -> &'a [Visit]
    ensures { result.now ≡ begun_after index.now calls.now }
{
    let mut left = calls;
    while let [call, rest @ ..] = left {
        if is_at(call, index) {
            return rest;
        }
        left = rest;
    }
    left
}

/// The calls that begin after the plan's last fault.
fn begun_after_plan<'a>(calls: &'a [Visit], plan: &Plan) -> &'a [Visit]
    ensures { result.now ≡ begun_after_plan plan.now calls.now }
{
    match plan.last() {
        Some((index, _)) => begun_after(calls, index),
        None => calls,
    }
}

/// Adds the plan with each of the choices for a call at its end.
fn push_choices(
    found: &mut VecDeque<Pending>,
    alloc: Global,
    plan: &Plan,
    number: u64,
    index: &Index,
    choices: &[Reply],
) -> Result<(), AllocError>
    ensures { OnOk result (found.new.items ≡ found.old.items ++ map (pending_at plan.now number index.now) choices.now) }
{
    for choice in choices {
        let longer = plan.with(alloc, index.copy()?, choice.copy(alloc)?)?;
        found.push_back(Pending {
            plan: longer,
            parent: number,
        })?;
    }
    Ok(())
}

/// Adds the extensions at a call, which the test's own calls haven't.
fn push_call(
    found: &mut VecDeque<Pending>,
    alloc: Global,
    plan: &Plan,
    number: u64,
    call: &Visit,
    faults: &Faults,
) -> Result<(), AllocError>
    requires { HasMethod faults.now call.now }
    ensures { OnOk result (found.new.items ≡ found.old.items ++ pending_by faults.now plan.now number call.now) }
{
    if 1 < call.index.len() {
        let choices = faults.choices_for(call.callee);
        return push_choices(found, alloc, plan, number, &call.index, choices);
    }
    Ok(())
}

/// The extensions at all of these calls.
fn extensions_at(
    alloc: Global,
    plan: &Plan,
    number: u64,
    calls: &[Visit],
    faults: &Faults,
) -> Result<VecDeque<Pending>, AllocError>
    requires { All (HasMethod faults.now) calls.now }
    ensures { IfOk result (λ found. found.items ≡ flat_map (pending_by faults.now plan.now number) calls.now) }
{
    let mut found = VecDeque::new(alloc);
    for call in calls {
        push_call(&mut found, alloc, plan, number, call, faults)?;
    }
    Ok(found)
}

/// The extensions of a plan by the calls of its run, each with the plan's number.
pub fn extensions_of(
    alloc: Global,
    plan: &Plan,
    number: u64,
    calls: &[Visit],
    faults: &Faults,
) -> Result<VecDeque<Pending>, AllocError>
    requires { All (HasMethod faults.now) calls.now }
    ensures { IfOk result (λ found. found.items ≡ pending_of faults.now plan.now number calls.now) }
{
    let later = begun_after_plan(calls, plan);
    extensions_at(alloc, plan, number, later, faults)
}
