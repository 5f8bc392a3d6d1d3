//! The records and the calls of a run.
ghost use Rattle.std.specs.Prelude.{◌≡◌, ◌++◌, IfOk, OnOk};
ghost use Rattle.fb_tree.specs.Calls.{visits_of};
ghost use Rattle.fb_tree.specs.Records.{records_below, records_in, records_of};
ghost use Rattle.fb_tree.specs.Views.{view_calls, view_how, view_node, view_run};

use fb_base::List;
use fb_tree::{How, Made, Node, Preorder, Record, TestNode, Visit, record_of};
use std::alloc::{AllocError, Global};
use std::collections::VecDeque;

/// Adds the record of an invocation, and those of all below it.
#[cycle(records)]
fn add_node(found: &mut VecDeque<Record>, alloc: Global, node: &Node) -> Result<(), AllocError>
    ensures { OnOk result (found.new.items ≡ found.old.items ++ records_of (view_node node.now)) }
{
    found.push_back(record_of(alloc, node)?)?;
    for made in &node.calls {
        add_below(found, alloc, made)?;
    }
    Ok(())
}

/// Adds the records of what a call invoked.
#[cycle(records)]
#[tactic(auto, unfolding(fb_tree::specs::Views::view_how, fb_tree::specs::Records::records_of))]
fn add_below(found: &mut VecDeque<Record>, alloc: Global, made: &Made) -> Result<(), AllocError>
    ensures { OnOk result (found.new.items ≡ found.old.items ++ records_below (view_how made.now.how)) }
{
    match &made.how {
        How::Fault => Ok(()),
        How::Ran(node) => add_node(found, alloc, node),
        How::Known { .. } => Ok(()),
    }
}

/// Adds the records of what all these calls invoked.
fn add_calls(found: &mut VecDeque<Record>, alloc: Global, calls: &[Made]) -> Result<(), AllocError>
    ensures { OnOk result (found.new.items ≡ found.old.items ++ records_in (view_calls calls.now)) }
{
    for made in calls {
        add_below(found, alloc, made)?;
    }
    Ok(())
}

/// The records of all invocations of a run, in the order in which they begin.
pub(crate) fn records_of_run(alloc: Global, run: &TestNode) -> Result<VecDeque<Record>, AllocError>
    ensures { IfOk result (λ found. found.items ≡ records_in (view_run run.now).calls) }
{
    let mut found = VecDeque::new(alloc);
    add_calls(&mut found, alloc, run.calls.as_slice())?;
    Ok(found)
}

/// The calls of a run, in the order in which they begin.
pub(crate) fn calls_of_run(alloc: Global, run: &TestNode) -> Result<List<Visit>, AllocError>
    ensures { IfOk result (λ calls. calls ≡ visits_of (view_run run.now)) }
{
    let mut left = Preorder::new(alloc, run)?;
    let mut calls = List::new(alloc);
    while let Some(call) = left.next() {
        calls.push(call?)?;
    }
    Ok(calls)
}
