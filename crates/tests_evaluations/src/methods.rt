//! How methods and single bodies are evaluated.
ghost use Rattle.std.specs.Prelude.{◌≡◌, ◌<◌, length, IfSome};
ghost use Rattle.fb_check.specs.Programs.{methods_of};

use crate::bodies::scripted_ending;
use crate::sources::{SHOP, program};
use crate::texts::{record_text, request_text, requests_text, stop_text};
use fb_base::{MethodId, Name, Reply, Steps, Value};
use fb_check::Program;
use fb_eval::{Fuel, Stop, eval_local, eval_method};
use fb_index::{Entry, Fault, Index, Plan};
use fb_transport::{Injecting, Scripted, Tracing, Transport};
use fb_tree::{Node, Record, record_of};
use std::alloc::Global;
use std::marker::Brand;
use std::rc::Rc;
use std::sync::ledger::{Blank, Ledger};

/// A service and its method that is called on 2, an index, a plan, the units of fuel, and what is told.
type Case<'a> = (&'a str, &'a str, &'a str, &'a str, u64, &'a str);

const METHODS: [Case<'static>; 4] = [
    (
        "cart",
        "total",
        "3.2",
        "none",
        4,
        "3.2/1.1 price.get 2; cart.total 2: 1.1 price.get 2 ok 20; ok 20 by 3, 0 left",
    ),
    (
        "cart",
        "total",
        "3.2",
        "none",
        3,
        "3.2/1.1 price.get 2; spent",
    ),
    (
        "cart",
        "total",
        "3.2",
        "3.2/1.1=timeout",
        5,
        "3.2/1.1 price.get 2; cart.total 2: 1.1 price.get 2 err timeout; ok 5 by 4, 1 left",
    ),
    // at the root's index a call is one of a test, which is never injected
    (
        "shop",
        "buy",
        "",
        "1.1=unavailable",
        8,
        "1.1 price.get 2; shop.buy 2: 1.1 price.get 2 ok 20; ok 20 by 7, 0 left",
    ),
];

/// Replies by a plan's text, of which the entries count.
const BODIES: [Case<'static>; 6] = [
    (
        "cart",
        "total",
        "",
        "none",
        100,
        "missing, wants 1.1 price.get 2; ",
    ),
    (
        "cart",
        "total",
        "",
        "1.1=timeout",
        4,
        "cart.total 2: 1.1 price.get 2 err timeout; ok 5 by 4, 0 left",
    ),
    ("cart", "total", "", "1.1=timeout", 3, "spent"),
    (
        "cart",
        "total",
        "",
        "1.1=ok:7,1.1=timeout",
        100,
        "cart.total 2: 1.1 price.get 2 ok 7; ok 7 by 3, 97 left",
    ),
    (
        "shop",
        "buy",
        "",
        "1.1=unavailable",
        100,
        "missing, wants 1.2 price.get 2; ",
    ),
    (
        "shop",
        "buy",
        "",
        "1.1=unavailable,1.2=ok:20",
        100,
        "shop.buy 2: 1.1 price.get 2 err unavailable; 1.2 price.get 2 ok 20; ok 20 by 12, 88 left",
    ),
];

fn method_named(program: &Program, service: &str, method: &str) -> Option<MethodId>
    ensures { IfSome result (λ m. m.0 < length (methods_of program.now.tree)) }
{
    let service = Name::read(service.as_bytes()).ok()?;
    let method = Name::read(method.as_bytes()).ok()?;
    program.method_named(&service, &method)
}

/// An evaluation of a method on 2, and the units that are left.
fn invoked<T: Transport, L: Ledger>(
    alloc: Global,
    program: &Program,
    method: MethodId,
    at: &Index,
    transport: &mut T,
    fuel: u64,
    blank: Blank,
) -> Option<(Result<Rc<Node>, Stop>, u64)>
    requires name { blank.name ≡ L.name }
    requires parts { blank.parts ≡ L.parts }
    requires some { 0 < L.parts }
    requires method { method.0 < length (methods_of program.now.tree) }
{
    if fuel > 1_000_000 {
        return None;
    }
    let mut left = Fuel::of(fuel);
    let mut evals = Steps::<L>::new(blank);
    let args = [Value::Int(2)];
    let node = eval_method(
        alloc, program, method, &args, at, transport, &mut left, &mut evals,
    );
    Some((node, left.left()))
}

/// The record of an evaluation, or why it stopped.
fn end_text(
    alloc: Global,
    program: &Program,
    item: Result<Record, Stop>,
    left: u64,
) -> Option<String> {
    match item {
        Ok(item) => {
            let record = record_text(alloc, program, &item)?;
            format!(in alloc; "{}, {left} left", record.as_str()).ok()
        }
        Err(stop) => format!(in alloc; "{}", stop_text(stop)?).ok(),
    }
}

fn node_text(
    alloc: Global,
    program: &Program,
    node: Result<Rc<Node>, Stop>,
    left: u64,
) -> Option<String> {
    match node {
        Ok(node) => {
            let item = record_of(alloc, &node).ok()?;
            end_text(alloc, program, Ok(item), left)
        }
        Err(stop) => end_text(alloc, program, Err(stop), left),
    }
}

/// What is told of a method under a plan.
fn told_of_method(alloc: Global, program: &Program, case: &Case) -> Option<String> {
    let (service, method, at, plan, fuel, _) = *case;
    let method = method_named(program, service, method)?;
    let at = Index::read_text(alloc, at.as_bytes()).ok()?;
    let plan = Plan::read_text(alloc, plan.as_bytes()).ok()?;
    let injecting = Injecting::new(program.kinds(), plan);
    let mut transport = Tracing::new(alloc, injecting);
    let (node, left) = invoked::<_, Brand>(
        alloc,
        program,
        method,
        &at,
        &mut transport,
        fuel,
        Blank::new(1),
    )?;
    let requests = requests_text(alloc, program, transport.requests())?;
    let end = node_text(alloc, program, node, left)?;
    format!(in alloc; "{}{}", requests.as_str(), end.as_str()).ok()
}

/// The reply of a fault, at the last entry of its index.
fn scripted(alloc: Global, fault: &Fault) -> Option<(Entry, Reply)> {
    let entry = fault.index.last().copied()?;
    Some((entry, fault.reply.copy(alloc).ok()?))
}

fn script(alloc: Global, text: &str) -> Option<Scripted> {
    let plan = Plan::read_text(alloc, text.as_bytes()).ok()?;
    let mut replies = Vec::new(alloc);
    for fault in plan.faults(alloc).ok()?.as_slice() {
        replies.push(scripted(alloc, fault)?).ok()?;
    }
    Scripted::new(alloc, replies).ok()
}

/// The record of a body on 2, and the units that are left.
fn local<L: Ledger>(
    alloc: Global,
    program: &Program,
    method: MethodId,
    script: &mut Scripted,
    fuel: u64,
    blank: Blank,
) -> Option<(Result<Record, Stop>, u64)>
    requires name { blank.name ≡ L.name }
    requires parts { blank.parts ≡ L.parts }
    requires some { 0 < L.parts }
    requires method { method.0 < length (methods_of program.now.tree) }
{
    if fuel > 1_000_000 {
        return None;
    }
    let mut left = Fuel::of(fuel);
    let mut evals = Steps::<L>::new(blank);
    let args = [Value::Int(2)];
    let item = eval_local(alloc, program, method, &args, script, &mut left, &mut evals);
    Some((item, left.left()))
}

/// What is told of one body by a script: what it wanted, or its record.
fn told_of_body(alloc: Global, program: &Program, case: &Case) -> Option<String> {
    let (service, method, _, replies, fuel, _) = *case;
    let method = method_named(program, service, method)?;
    let mut script = script(alloc, replies)?;
    let (item, left) = local::<Brand>(alloc, program, method, &mut script, fuel, Blank::new(1))?;
    let end = end_text(alloc, program, item, left)?;
    match script.wanted() {
        None => Some(end),
        Some(request) => {
            let wanted = request_text(alloc, program, request)?;
            format!(in alloc; "{}, wants {}", end.as_str(), wanted.as_str()).ok()
        }
    }
}

fn is_told(told: Option<String>, case: &Case) -> bool {
    match told {
        Some(text) => text.as_str() == case.5,
        None => false,
    }
}

/// The first method of which something else is told.
fn first_unlike(alloc: Global) -> Option<Option<usize>> {
    let program = program(alloc, SHOP)?;
    Some(METHODS.iter().position(|case| !is_told(told_of_method(alloc, &program, case), case)))
}

/// The first body of which something else is told.
fn first_body_unlike(alloc: Global) -> Option<Option<usize>> {
    let program = program(alloc, SHOP)?;
    Some(
        BODIES
            .iter()
            .position(|case| !is_told(told_of_body(alloc, &program, case), case)),
    )
}

#[test]
fn a_method_is_evaluated_at_its_index(rt: HostRuntime) {
    assert_eq!(rt; first_unlike(rt.alloc()), Some(None));
}

#[test]
fn one_body_is_evaluated_by_replies(rt: HostRuntime) {
    assert_eq!(rt; first_body_unlike(rt.alloc()), Some(None));
}

fn ends_by(alloc: Global, replies: &str, wanted: &str) -> bool {
    let Some(script) = script(alloc, replies) else {
        return false;
    };
    let test = "test cart { let r = 0; call r = cart.total(2); assert r == 7; }";
    match scripted_ending(alloc, SHOP, test, script) {
        Some(end) => end.as_str() == wanted,
        None => false,
    }
}

#[test]
fn a_test_is_evaluated_by_replies(rt: HostRuntime) {
    assert!(rt; ends_by(rt.alloc(), "none", "missing"));
    assert!(rt; ends_by(rt.alloc(), "1.1=ok:7", "passed by 3, 97 left"));
}
