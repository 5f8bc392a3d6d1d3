//! The list of pending plans.
ghost use Rattle.std.specs.Prelude.{◌≡◌, ◌<◌, length, All, IfSome};
ghost use Rattle.fb_worklist.specs.Worklists.{HasMethod};

use crate::shop::shop;
use fb_base::MethodId;
use fb_config::{Faults, read_faults};
use fb_index::{Index, Plan};
use fb_tree::Visit;
use fb_worklist::Worklist;
use std::alloc::Global;

/// The choices for `price.get` and for both methods of `stock`, but none for the other ones.
const FAULTS: &str =
    "version = 2\nfault = [{callee = \"price\", method = \"get\", codes = [\"b\", \"a\"], values = [7]}, {callee = \"stock\", codes = [\"c\"]}]";

/// The calls of a run in the order in which they begin, each by its index and the number of its callee.
const CALLS: &[(&str, u32)] = &[
    ("1.1", 0),
    ("1.1/1.1", 0),
    ("1.1/1.1/4.1", 4),
    ("1.1/3.1", 2),
    ("1.1/3.1/1.1", 1),
    ("1.1/2.1", 3),
    ("1.2", 2),
    ("1.2/1.1", 3),
];

/// The call at that index, with a callee of the faults' program.
fn visit(alloc: Global, index: &str, callee: u32) -> Option<Visit>
    ensures { IfSome result (λ visit. visit.callee.0 ≡ callee) }
{
    let Ok(index) = Index::read_text(alloc, index.as_bytes()) else {
        return None;
    };
    Some(Visit {
        index,
        callee: MethodId(callee),
        fault: None,
    })
}

/// These calls, whose callees have to be methods of the faults' program.
fn visits(alloc: Global, calls: &[(&str, u32)], faults: &Faults) -> Option<Vec<Visit>>
    requires { 4 < length faults.now.kinds }
    ensures { IfSome result (λ visits. All (HasMethod faults.now) visits.items) }
{
    let mut visits = Vec::new(alloc);
    for (index, callee) in calls {
        if 4 < *callee {
            return None;
        }
        let made = visit(alloc, index, *callee)?;
        if visits.push(made).is_err() {
            return None;
        }
    }
    Some(visits)
}

/// Adds the extensions of the plan with this text by the calls, and says whether they were added.
fn push(alloc: Global, waiting: &mut Worklist, plan: &str, number: u64, faults: &Faults) -> bool
    requires { 4 < length faults.now.kinds }
{
    let Ok(plan) = Plan::read_text(alloc, plan.as_bytes()) else {
        return false;
    };
    let Some(calls) = visits(alloc, CALLS, faults) else {
        return false;
    };
    waiting
        .push_extensions(&plan, number, calls.as_slice(), faults)
        .is_ok()
}

/// Whether this plan is taken, with the number of its parent.
fn comes(alloc: Global, waiting: &mut Worklist, plan: &str, parent: u64) -> bool {
    let Some(first) = waiting.pop_first() else {
        return false;
    };
    let Ok(text) = first.plan.text(alloc) else {
        return false;
    };
    text.as_str() == plan && first.parent == parent
}

/// What is done to a list of pending plans.
#[derive(Clone, Copy)]
enum Turn {
    /// The plan, which has that number, is extended.
    Extends(&'static str, u64),
    /// That plan is taken, with the number of its parent.
    Takes(&'static str, u64),
    /// No plan is left.
    Ends,
}

/// Whether the turn goes so.
fn goes(alloc: Global, waiting: &mut Worklist, turn: Turn, faults: &Faults) -> bool
    requires { 4 < length faults.now.kinds }
{
    match turn {
        Turn::Extends(plan, number) => push(alloc, waiting, plan, number, faults),
        Turn::Takes(plan, parent) => comes(alloc, waiting, plan, parent),
        Turn::Ends => waiting.pop_first().is_none(),
    }
}

/// The test's own calls are not extended, and a plan is extended at the calls that begin after its last fault.
const IN_ORDER: &[Turn] = &[
    Turn::Ends,
    Turn::Extends("none", 0),
    Turn::Extends("1.1/3.1=c", 4),
    Turn::Extends("1.1/1.1=a,1.1/2.1=c", u64::MAX),
    Turn::Extends("1.2/1.1=c", 6),
    Turn::Takes("1.1/1.1=b", 0),
    Turn::Takes("1.1/1.1=a", 0),
    Turn::Takes("1.1/1.1=ok:7", 0),
    Turn::Takes("1.1/3.1=c", 0),
    Turn::Takes("1.1/2.1=c", 0),
    Turn::Takes("1.2/1.1=c", 0),
    Turn::Takes("1.1/3.1=c,1.1/2.1=c", 4),
    Turn::Takes("1.1/3.1=c,1.2/1.1=c", 4),
    Turn::Takes("1.1/1.1=a,1.1/2.1=c,1.2/1.1=c", u64::MAX),
    Turn::Ends,
    Turn::Ends,
];

/// A list takes plans while others wait, and again when it is empty.
const IN_TURNS: &[Turn] = &[
    Turn::Extends("1.1/2.1=c", 1),
    Turn::Takes("1.1/2.1=c,1.2/1.1=c", 1),
    Turn::Ends,
    Turn::Extends("1.1/3.1=c", 2),
    Turn::Takes("1.1/3.1=c,1.1/2.1=c", 2),
    Turn::Extends("1.1/2.1=c", 3),
    Turn::Takes("1.1/3.1=c,1.2/1.1=c", 2),
    Turn::Takes("1.1/2.1=c,1.2/1.1=c", 3),
    Turn::Ends,
];

/// Without choices no plan is extended.
const IN_VAIN: &[Turn] = &[Turn::Extends("none", 0), Turn::Ends];

/// The place of the first turn that goes otherwise.
fn first_other(alloc: Global, turns: &[Turn], faults: &Faults) -> Option<usize>
    requires { 4 < length faults.now.kinds }
{
    let mut waiting = Worklist::new(alloc);
    for (place, turn) in turns.iter().enumerate() {
        if !goes(alloc, &mut waiting, *turn, faults) {
            return Some(place);
        }
    }
    None
}

/// The first turn that goes otherwise with the faults of that file.
fn first_with(alloc: Global, file: &str, turns: &[Turn]) -> Option<usize> {
    let Some(program) = shop(alloc) else {
        return Some(0);
    };
    let Ok(faults) = read_faults(alloc, file.as_bytes(), &program) else {
        return Some(0);
    };
    if program.kinds().len() != 5 {
        return Some(0);
    }
    first_other(alloc, turns, &faults)
}

#[test]
fn plans_come_in_the_order_in_which_they_were_added(rt: HostRuntime) {
    assert_eq!(rt; first_with(rt.alloc(), FAULTS, IN_ORDER), None);
    assert_eq!(rt; first_with(rt.alloc(), FAULTS, IN_TURNS), None);
    assert_eq!(rt; first_with(rt.alloc(), "", IN_VAIN), None);
}
