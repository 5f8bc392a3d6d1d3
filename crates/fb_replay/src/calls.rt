//! The calls of a run, a line each.
ghost use Rattle.std.specs.Prelude.{◌≡◌, ◌++◌, [], ◌∷◌, IfOk, OnOk, string_bytes};
ghost use Rattle.fb_tree.specs.Calls.{calls_below, calls_within};
ghost use Rattle.fb_tree.specs.Runs.{Ran};
ghost use Rattle.fb_tree.specs.Views.{view_calls, view_how, view_node, view_run};
ghost use Rattle.fb_replay.specs.Callees.{AreCallsOf, calls_from};
ghost use Rattle.fb_replay.specs.ReplayText.{calls_text, replay_text};

use crate::texts::{call_text, ended_text};
use fb_check::Program;
use fb_index::Index;
use fb_tree::{How, Made, Node, TestNode};
use std::alloc::{AllocError, Global};

/// Adds the lines of a body's calls and of all below them.
#[cycle(calls)]
fn add_below(
    alloc: Global,
    program: &Program,
    index: &Index,
    node: &Node,
    text: &mut String,
) -> Result<(), AllocError>
    requires { AreCallsOf program.now.tree (calls_below index.now (Ran (view_node node.now))) }
    ensures { OnOk result (string_bytes text.new ≡ string_bytes text.old ++ calls_text program.now.tree (calls_below index.now (Ran (view_node node.now)))) }
{
    for made in &node.calls {
        add_call(alloc, program, index, made, text)?;
    }
    Ok(())
}

/// Adds the line of a call, and those of all calls below it.
#[cycle(calls)]
#[tactic(auto, unfolding(fb_tree::specs::Views::view_how, fb_tree::specs::Calls::calls_below))]
fn add_call(
    alloc: Global,
    program: &Program,
    index: &Index,
    made: &Made,
    text: &mut String,
) -> Result<(), AllocError>
    requires { AreCallsOf program.now.tree (calls_from index.now made.now) }
    ensures { OnOk result (string_bytes text.new ≡ string_bytes text.old ++ calls_text program.now.tree (calls_from index.now made.now)) }
{
    let at = index.child(alloc, made.entry)?;
    let line = call_text(alloc, program, &at, made)?;
    text.push_str(line.as_str())?;
    match &made.how {
        How::Fault => Ok(()),
        How::Ran(node) => add_below(alloc, program, &at, node, text),
        How::Known { .. } => Ok(()),
    }
}

/// Adds the lines of the calls that the test makes, and of all below them.
fn add_calls(
    alloc: Global,
    program: &Program,
    calls: &[Made],
    text: &mut String,
) -> Result<(), AllocError>
    requires { AreCallsOf program.now.tree (calls_within [] (view_calls calls.now)) }
    ensures { OnOk result (string_bytes text.new ≡ string_bytes text.old ++ calls_text program.now.tree (calls_within [] (view_calls calls.now))) }
{
    let root = Index::root();
    for made in calls {
        add_call(alloc, program, &root, made, text)?;
    }
    Ok(())
}

/// The text of a run.
#[tactic(auto, unfolding(crate::specs::ReplayText::replay_text))]
pub(crate) fn replay_text(
    alloc: Global,
    program: &Program,
    run: &TestNode,
) -> Result<String, AllocError>
    requires { AreCallsOf program.now.tree (calls_within [] (view_calls run.now.calls.items)) }
    ensures { IfOk result (λ text. string_bytes text ≡ replay_text program.now.tree (view_run run.now)) }
{
    let mut text = String::new(alloc);
    add_calls(alloc, program, run.calls.as_slice(), &mut text)?;
    let ended = ended_text(alloc, &run.outcome)?;
    text.push_str(ended.as_str())?;
    Ok(text)
}
