//! What calls are answered by records.
ghost use Rattle.fb_stitch.specs.Sources.{AreTrueOf};

use crate::known::{FRONT, TEN, store_of};
use crate::sources::program;
use fb_base::{MethodId, Reply, Value};
use fb_check::Program;
use fb_index::{Index, Plan};
use fb_stitch::Stitching;
use fb_store::Store;
use fb_transport::{Decision, Halt, Transport};
use std::alloc::Global;

/// An index, the number of a method that is called there, a plan, the limit of steps, and what is told.
type Case<'a> = (&'a str, u32, &'a str, u64, &'a str);

const ANSWERS: [Case<'static>; 7] = [
    ("1.1", 0, "none", 13, "ok 2 by 13, 0 injected"),
    ("1.1", 0, "1.1/1.1=timeout", 10, "ok 1 by 10, 1 injected"),
    ("1.1", 0, "1.1/1.1=timeout", 9, "missing"),
    (
        "1.1",
        0,
        "1.1/1.1/1.1=timeout,1.1/2.1=timeout",
        100,
        "ok 0 by 9, 2 injected",
    ),
    ("1.1/1.1", 1, "1.1/1.1=timeout", 100, "fault err timeout"),
    ("1.1", 0, "1.1/1.1=ok:7", 100, "missing"),
    ("1.1", 5, "none", 100, "missing"),
];

fn reply_text(alloc: Global, reply: &Reply) -> Option<String> {
    match reply {
        Reply::Ok(Value::Int(n)) => format!(in alloc; "ok {n}").ok(),
        Reply::Ok(_) => None,
        Reply::Err(code) => format!(in alloc; "err {}", code.as_str()).ok(),
    }
}

fn decision_text(alloc: Global, decision: &Decision) -> Option<String> {
    match decision {
        Decision::Forward => format!(in alloc; "forward").ok(),
        Decision::Fault(reply) => {
            let reply = reply_text(alloc, reply)?;
            format!(in alloc; "fault {}", reply.as_str()).ok()
        }
        Decision::Known {
            reply,
            steps,
            injected,
        } => {
            let reply = reply_text(alloc, reply)?;
            let count = injected.len();
            format!(in alloc; "{} by {}, {count} injected", reply.as_str(), *steps).ok()
        }
    }
}

/// What is told of the answer to a call without arguments.
fn told(alloc: Global, program: &Program, store: &Store, case: &Case) -> Option<String>
    requires { AreTrueOf program.now.tree store.now }
{
    let (at, callee, plan, limit, _) = *case;
    if limit > 1_000_000 {
        return None;
    }
    let at = Index::read_text(alloc, at.as_bytes()).ok()?;
    let plan = Plan::read_text(alloc, plan.as_bytes()).ok()?;
    let mut stitching = Stitching::new(program, store, &plan, limit);
    match stitching.begin(alloc, &at, MethodId(callee), &[]) {
        Ok(decision) => decision_text(alloc, &decision),
        Err(Halt::Missing) => format!(in alloc; "missing").ok(),
        Err(Halt::Memory) => None,
    }
}

fn tells_it(alloc: Global, program: &Program, store: &Store, case: &Case) -> bool
    requires { AreTrueOf program.now.tree store.now }
{
    match told(alloc, program, store, case) {
        Some(text) => text.as_str() == case.4,
        None => false,
    }
}

/// Whether all answers are as told here.
fn are_told(alloc: Global) -> Option<bool> {
    let program = program(alloc, FRONT)?;
    let store = store_of(alloc, &program, &TEN)?;
    let mut all = true;
    for case in &ANSWERS {
        all = all && tells_it(alloc, &program, &store, case);
    }
    Some(all)
}

#[test]
fn calls_are_answered_by_records(rt: HostRuntime) {
    assert_eq!(rt; are_told(rt.alloc()), Some(true));
}
