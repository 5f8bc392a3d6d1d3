//! Whom the injected calls of a tree would have called.
ghost use Rattle.std.specs.Prelude.{◌≡◌, ◌++◌, IfOk, OnOk};
ghost use Rattle.fb_tree.specs.Calls.{injected_by, injected_in, injected_of};
ghost use Rattle.fb_tree.specs.Views.{view_calls, view_how, view_node};

use crate::node::{How, Made, Node};
use fb_base::{List, MethodId};
use std::alloc::{AllocError, Global};

/// The callees of the injected calls, in the order in which they begin. A known call has its own list.
pub fn injected_of(alloc: Global, node: &Node) -> Result<List<MethodId>, AllocError>
    ensures { IfOk result (λ callees. callees ≡ injected_of (view_node node.now)) }
{
    let mut callees = List::new(alloc);
    add_below(&mut callees, node)?;
    Ok(callees)
}

/// Adds the callees of an invocation's injected calls.
#[cycle(injected)]
fn add_below(callees: &mut List<MethodId>, node: &Node) -> Result<(), AllocError>
    ensures { OnOk result (callees.new ≡ callees.old ++ injected_of (view_node node.now)) }
{
    for made in &node.calls {
        add_injected(callees, made)?;
    }
    Ok(())
}

/// Adds the callee of a call that was injected, or those below it.
#[cycle(injected)]
#[tactic(auto, unfolding(crate::specs::Calls::injected_by, crate::specs::Views::view_how))]
fn add_injected(callees: &mut List<MethodId>, made: &Made) -> Result<(), AllocError>
    ensures { OnOk result (callees.new ≡ callees.old ++ injected_by made.now.callee (view_how made.now.how)) }
{
    match &made.how {
        How::Fault => callees.push(made.callee),
        How::Ran(node) => add_below(callees, node),
        How::Known { injected, .. } => add_all(callees, injected.as_slice()),
    }
}

fn add_all(callees: &mut List<MethodId>, more: &[MethodId]) -> Result<(), AllocError>
    ensures { OnOk result (callees.new ≡ callees.old ++ more.now) }
{
    for callee in more {
        callees.push(*callee)?;
    }
    Ok(())
}
