//! What is told of derivations.

use fb_index::Plan;
use fb_stitch::{Derived, NotDerived};
use fb_tree::{Outcome, Visit};
use std::alloc::Global;

fn outcome_text(alloc: Global, outcome: Outcome) -> Option<String> {
    match outcome {
        Outcome::Passed => format!(in alloc; "passed").ok(),
        Outcome::AssertFailed(number) => format!(in alloc; "assert {number} failed").ok(),
        Outcome::CallFailed(site, code) => {
            format!(in alloc; "call {site} failed with {}", code.as_str()).ok()
        }
        Outcome::Fault(number) => format!(in alloc; "statement {number} faulted").ok(),
    }
}

/// Numbers of records, each after a blank.
fn uses_text(alloc: Global, uses: &[u64]) -> Option<String> {
    let mut text = String::new(alloc);
    for number in uses {
        let word = format!(in alloc; " {}", *number).ok()?;
        text.push_str(word.as_str()).ok()?;
    }
    Some(text)
}

/// A call's index after a blank, and a `!` where it was injected.
fn call_text(alloc: Global, call: &Visit) -> Option<String> {
    let index = call.index.text(alloc).ok()?;
    match &call.fault {
        Some(_) => format!(in alloc; " {}!", index.as_str()).ok(),
        None => format!(in alloc; " {}", index.as_str()).ok(),
    }
}

fn calls_text(alloc: Global, calls: &[Visit]) -> Option<String> {
    let mut text = String::new(alloc);
    for call in calls {
        let word = call_text(alloc, call)?;
        text.push_str(word.as_str()).ok()?;
    }
    Some(text)
}

/// A run, as `passed by 12; uses 9 8; calls 1.1 1.1/1.1!; injects 1.1/1.1=timeout`.
fn run_text(alloc: Global, run: &Derived) -> Option<String> {
    let outcome = outcome_text(alloc, run.outcome)?;
    let uses = uses_text(alloc, run.uses.as_slice())?;
    let calls = calls_text(alloc, run.calls.as_slice())?;
    let injected = run.injected.text(alloc).ok()?;
    format!(in alloc;
        "{} by {}; uses{}; calls{}; injects {}",
        outcome.as_str(),
        run.steps,
        uses.as_str(),
        calls.as_str(),
        injected.as_str()
    )
    .ok()
}

pub(crate) fn derivation_text(
    alloc: Global,
    derived: Result<Derived, NotDerived>,
) -> Option<String> {
    match derived {
        Ok(run) => run_text(alloc, &run),
        Err(NotDerived::NotCovered) => format!(in alloc; "not covered").ok(),
        Err(NotDerived::Memory) => None,
    }
}
