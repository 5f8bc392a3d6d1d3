//! How tests are evaluated, and whom they ask.
ghost use Rattle.std.specs.Prelude.{◌≡◌, ◌<◌};

use crate::sources::{SHOP, program, test};
use crate::texts::{outcome_text, requests_text, stop_text};
use fb_base::Steps;
use fb_check::{CheckedTest, Program};
use fb_eval::{Fuel, Stop, eval_body_test};
use fb_index::Plan;
use fb_transport::{Injecting, Scripted, Tracing, Transport};
use fb_tree::TestNode;
use std::alloc::Global;
use std::marker::Brand;
use std::sync::ledger::{Blank, Ledger};

/// A test, a plan, the units of fuel, and what is told: each request, then the end.
type Case<'a> = (&'a str, &'a str, u64, &'a str);

/// An evaluation of a test whose invocations this counter counts, and the units that are left.
fn counted<T: Transport, L: Ledger>(
    alloc: Global,
    program: &Program,
    test: &CheckedTest,
    transport: &mut T,
    fuel: u64,
    blank: Blank,
) -> Option<(Result<TestNode, Stop>, u64)>
    requires name { blank.name ≡ L.name }
    requires parts { blank.parts ≡ L.parts }
    requires some { 0 < L.parts }
{
    if fuel > 1_000_000 {
        return None;
    }
    let mut left = Fuel::of(fuel);
    let mut evals = Steps::<L>::new(blank);
    let run = eval_body_test(alloc, program, test, transport, &mut left, &mut evals);
    Some((run, left.left()))
}

/// The same where nobody counts.
fn evaluated<T: Transport>(
    alloc: Global,
    program: &Program,
    test: &CheckedTest,
    transport: &mut T,
    fuel: u64,
) -> Option<(Result<TestNode, Stop>, u64)> {
    counted::<T, Brand>(alloc, program, test, transport, fuel, Blank::new(1))
}

/// How an evaluation ended, as `passed by 3, 0 left`, with the test's own steps.
fn end_text(alloc: Global, run: Result<TestNode, Stop>, left: u64) -> Option<String> {
    match run {
        Ok(run) => {
            let outcome = outcome_text(alloc, run.outcome)?;
            format!(in alloc; "{} by {}, {left} left", outcome.as_str(), run.steps).ok()
        }
        Err(stop) => format!(in alloc; "{}", stop_text(stop)?).ok(),
    }
}

/// What is told of the evaluation of a test under a plan.
fn told(alloc: Global, program: &Program, case: &Case) -> Option<String> {
    let (text, plan, fuel, _) = *case;
    let test = test(alloc, program, text)?;
    let plan = Plan::read_text(alloc, plan.as_bytes()).ok()?;
    let injecting = Injecting::new(program.kinds(), plan);
    let mut transport = Tracing::new(alloc, injecting);
    let (run, left) = evaluated(alloc, program, &test, &mut transport, fuel)?;
    let requests = requests_text(alloc, program, transport.requests())?;
    let end = end_text(alloc, run, left)?;
    format!(in alloc; "{}{}", requests.as_str(), end.as_str()).ok()
}

/// How the evaluation of a test ends where nothing is injected.
pub(crate) fn ending(alloc: Global, services: &str, text: &str, fuel: u64) -> Option<String> {
    let program = program(alloc, services)?;
    let test = test(alloc, &program, text)?;
    let mut transport = Injecting::new(program.kinds(), Plan::empty());
    let (run, left) = evaluated(alloc, &program, &test, &mut transport, fuel)?;
    end_text(alloc, run, left)
}

/// How the evaluation of a test ends where calls get the replies of a script.
pub(crate) fn scripted_ending(
    alloc: Global,
    services: &str,
    text: &str,
    mut script: Scripted,
) -> Option<String> {
    let program = program(alloc, services)?;
    let test = test(alloc, &program, text)?;
    let (run, left) = evaluated(alloc, &program, &test, &mut script, 100)?;
    end_text(alloc, run, left)
}

fn tells_it(alloc: Global, program: &Program, case: &Case) -> bool {
    match told(alloc, program, case) {
        Some(text) => text.as_str() == case.3,
        None => false,
    }
}

/// The first test of these services of which something else is told.
fn first_unlike(alloc: Global, services: &str, cases: &[Case<'_>]) -> Option<Option<usize>> {
    let program = program(alloc, services)?;
    Some(
        cases
            .iter()
            .position(|case| !tells_it(alloc, &program, case)),
    )
}

const CART: &str = "test cart { let r = 0; call r = cart.total(2); assert r == 20 or injected; }";

const TWICE: &str =
    "test twice { let r = 0; call r = cart.total(2); assert not injected; call r = cart.total(2); assert r == 20 or injected; }";

const BUY: &str = "test buy { let r = 0; call r = shop.buy(2); assert r == 20; }";

const OF_SHOP: [Case<'static>; 10] = [
    (
        CART,
        "none",
        7,
        "1.1 cart.total 2; 1.1/1.1 price.get 2; passed by 3, 0 left",
    ),
    (
        CART,
        "none",
        6,
        "1.1 cart.total 2; 1.1/1.1 price.get 2; spent",
    ),
    (
        CART,
        "1.1/1.1=timeout",
        7,
        "1.1 cart.total 2; 1.1/1.1 price.get 2; passed by 3, 0 left",
    ),
    (
        CART,
        "1.1/1.1=ok:7",
        7,
        "1.1 cart.total 2; 1.1/1.1 price.get 2; passed by 3, 1 left",
    ),
    (
        CART,
        "1.1=timeout",
        7,
        "1.1 cart.total 2; 1.1/1.1 price.get 2; passed by 3, 0 left",
    ),
    (
        BUY,
        "1.1/1.1=unavailable",
        16,
        "1.1 shop.buy 2; 1.1/1.1 price.get 2; 1.1/1.2 price.get 2; passed by 3, 0 left",
    ),
    (
        BUY,
        "1.1/1.1=unavailable,1.1/1.2=unavailable",
        100,
        "1.1 shop.buy 2; 1.1/1.1 price.get 2; 1.1/1.2 price.get 2; call 1 failed with unavailable by 2, 85 left",
    ),
    (
        BUY,
        "1.1/1.1=timeout",
        100,
        "1.1 shop.buy 2; 1.1/1.1 price.get 2; call 1 failed with timeout by 2, 93 left",
    ),
    (
        TWICE,
        "1.1/1.1=timeout",
        100,
        "1.1 cart.total 2; 1.1/1.1 price.get 2; assert 1 failed by 3, 93 left",
    ),
    (
        TWICE,
        "2.1/1.1=timeout",
        100,
        "1.1 cart.total 2; 1.1/1.1 price.get 2; 2.1 cart.total 2; 2.1/1.1 price.get 2; passed by 5, 87 left",
    ),
];

const FRONT: &str = "service front { method go() -> int {
  let x = 0;
  let y = 0;
  call x = b.get() on any { x = 0; }
  call y = c.get() on any { y = 0; }
  return x + y;
} }
service b { method get() -> int { let v = 0; call v = d.get(); return v; } }
service c { method get() -> int { let v = 0; call v = e.get(); return v; } }
service d { method get() -> int { return 1; } }
service e { method get() -> int { return 1; } }";

const BOTH: &str = "test both { let r = 0; call r = front.go(); assert r == 2 or injected; }";

const ON_D: &str = "test both { let r = 0; call r = front.go(); assert r == 2 or injected_on d; }";

const ON_GET: &str =
    "test both { let r = 0; call r = front.go(); assert injected_on c; assert injected_on d.get; }";

const OF_FRONT: [Case<'static>; 6] = [
    (
        BOTH,
        "1.1/1.1=timeout",
        13,
        "1.1 front.go; 1.1/1.1 b.get; 1.1/2.1 c.get; 1.1/2.1/1.1 e.get; passed by 3, 0 left",
    ),
    (
        ON_D,
        "1.1/1.1=timeout",
        13,
        "1.1 front.go; 1.1/1.1 b.get; 1.1/2.1 c.get; 1.1/2.1/1.1 e.get; assert 1 failed by 3, 0 left",
    ),
    (
        ON_D,
        "1.1/1.1/1.1=timeout",
        15,
        "1.1 front.go; 1.1/1.1 b.get; 1.1/1.1/1.1 d.get; 1.1/2.1 c.get; 1.1/2.1/1.1 e.get; passed by 3, 0 left",
    ),
    (
        ON_GET,
        "1.1/1.1/1.1=timeout,1.1/2.1=timeout",
        100,
        "1.1 front.go; 1.1/1.1 b.get; 1.1/1.1/1.1 d.get; 1.1/2.1 c.get; passed by 4, 87 left",
    ),
    (
        ON_GET,
        "1.1/2.1=timeout",
        100,
        "1.1 front.go; 1.1/1.1 b.get; 1.1/1.1/1.1 d.get; 1.1/2.1 c.get; assert 2 failed by 4, 86 left",
    ),
    (
        ON_GET,
        "1.1/1.1/1.1=timeout",
        100,
        "1.1 front.go; 1.1/1.1 b.get; 1.1/1.1/1.1 d.get; 1.1/2.1 c.get; 1.1/2.1/1.1 e.get; assert 1 failed by 3, 85 left",
    ),
];

const PARTS: &str = "service a {
  method echo(n: int) -> int { return n; }
  method bad() -> int { fail timeout; }
  method div(n: int) -> int { return 1 / n; }
}
service b {
  method find(n: int) -> int {
    for x in list<int>[1, 2, 3] { repeat 2 { if x == n { return x; } } }
    fail absent;
  }
  method two(n: int) -> int {
    let r = 0;
    repeat 2 { call r = a.echo(n); }
    return r;
  }
}";

const ENDS: [Case<'static>; 11] = [
    ("test t {}", "none", 1, "passed by 0, 1 left"),
    (
        "test t { if true { assert true; } else { assert false; } repeat 2 { assert true; } assert 1 == 2; assert false; }",
        "none",
        100,
        "assert 4 failed by 8, 92 left",
    ),
    (
        "test t { let r = 0; call r = a.bad() on other { call r = a.bad(); } on timeout { r = 1; } call r = a.bad() on other { r = 2; } }",
        "none",
        100,
        "1.1 a.bad; 3.1 a.bad; call 3 failed with timeout by 4, 94 left",
    ),
    (
        "test t { let r = 1 / 0; }",
        "none",
        100,
        "statement 1 faulted by 1, 99 left",
    ),
    (
        "test t { let r = 0; if r == 0 { r = 1 / r; } }",
        "none",
        100,
        "statement 3 faulted by 3, 97 left",
    ),
    (
        "test t { let r = 0; if 1 / r == 1 { r = 1; } else { r = 2; } }",
        "none",
        100,
        "statement 2 faulted by 2, 98 left",
    ),
    (
        "test t { for x in list<int>[1 / 0] { assert true; } }",
        "none",
        100,
        "statement 1 faulted by 1, 99 left",
    ),
    (
        "test t { let r = 0; call r = a.echo(1 / r) on internal { r = 1; } }",
        "none",
        100,
        "statement 2 faulted by 2, 98 left",
    ),
    (
        "test t { assert 1 / 0 == 1; }",
        "none",
        100,
        "statement 1 faulted by 1, 99 left",
    ),
    (
        "test t { let r = 2; repeat 3 { let q = 2 / r; r = r - 1; } }",
        "none",
        100,
        "statement 3 faulted by 10, 90 left",
    ),
    (
        "test t { let r = 0; call r = a.div(0) on internal { r = 7; } assert r == 7; call r = a.div(0); }",
        "none",
        100,
        "1.1 a.div 0; 2.1 a.div 0; call 2 failed with internal by 5, 93 left",
    ),
];

const LOOPS: [Case<'static>; 8] = [
    (
        "test t { let s = 0; for x in list<int>[1, 2, 3] { let y = 0; call y = a.echo(x); s = s + y; } assert s == 6; }",
        "none",
        100,
        "1.1 a.echo 1; 1.2 a.echo 2; 1.3 a.echo 3; passed by 15, 82 left",
    ),
    (
        "test t { let r = 1; repeat 2 { repeat 3 { call r = a.bad() on any { break; } } call r = a.echo(r); } }",
        "none",
        100,
        "1.1 a.bad; 2.1 a.echo 1; 1.2 a.bad; 2.2 a.echo 1; passed by 14, 82 left",
    ),
    (
        "test t { let r = 0; for x in list<int>[1, 2] { x = x + 1; call r = a.echo(x); } }",
        "none",
        100,
        "1.1 a.echo 2; 1.2 a.echo 3; passed by 8, 90 left",
    ),
    (
        "test t { let l = list<int>[4, 5]; let r = 0; for x in l { l = l ++ list<int>[x]; call r = a.echo(x); } assert len(l) == 4; }",
        "none",
        100,
        "1.1 a.echo 4; 1.2 a.echo 5; passed by 10, 88 left",
    ),
    (
        "test t { for x in list<text>[] { assert false; } repeat 0 { assert false; } }",
        "none",
        100,
        "passed by 2, 98 left",
    ),
    (
        "test t { let r = 0; for x in list<int>[1, 2] { for y in list<int>[10, 20] { if x * y == 20 { break; } call r = a.echo(x * y); } } }",
        "none",
        100,
        "1.1 a.echo 10; passed by 15, 84 left",
    ),
    (
        "test t { let r = 0; call r = b.find(2); assert r == 2; call r = b.find(4) on absent { r = 9; } assert r == 9; }",
        "none",
        100,
        "1.1 b.find 2; 2.1 b.find 4; passed by 6, 62 left",
    ),
    (
        "test t { let r = 0; repeat 2 { call r = b.two(5); } }",
        "none",
        100,
        "1.1 b.two 5; 1.1/1.1 a.echo 5; 1.1/1.2 a.echo 5; 1.2 b.two 5; 1.2/1.1 a.echo 5; 1.2/1.2 a.echo 5; passed by 6, 76 left",
    ),
];

const HANDLERS: [Case<'static>; 5] = [
    (
        "test t { let r = 0; call r = a.bad() on other { r = 1; } on timeout { call r = a.bad() on any { call r = a.echo(7); } } on any { r = 9; } assert r == 7; }",
        "none",
        100,
        "1.1 a.bad; 2.1 a.bad; 3.1 a.echo 7; passed by 5, 92 left",
    ),
    (
        "test t { let r = 0; call r = a.bad() on any { r = 1; } on timeout { r = 2; } assert r == 1; }",
        "none",
        100,
        "1.1 a.bad; passed by 4, 95 left",
    ),
    (
        "test t { let r = 0; call r = a.bad() on timeout { call r = a.bad() on other { r = 1; } } on any { r = 9; } }",
        "none",
        100,
        "1.1 a.bad; 2.1 a.bad; call 2 failed with timeout by 3, 95 left",
    ),
    (
        "test t { let r = 0; call r = a.bad() on any { let x = 1; r = x; } let x = 2; assert r + x == 3; }",
        "none",
        100,
        "1.1 a.bad; passed by 6, 93 left",
    ),
    (
        "test t { let r = 0; call r = b.two(1) on unavailable { r = 2; } assert r == 2; }",
        "1.1/1.2=unavailable",
        100,
        "1.1 b.two 1; 1.1/1.1 a.echo 1; 1.1/1.2 a.echo 1; passed by 4, 89 left",
    ),
];

#[test]
fn calls_are_asked_or_injected_by_a_plan(rt: HostRuntime) {
    assert_eq!(rt; first_unlike(rt.alloc(), SHOP, &OF_SHOP), Some(None));
}

#[test]
fn questions_tell_whose_calls_were_injected(rt: HostRuntime) {
    assert_eq!(rt; first_unlike(rt.alloc(), FRONT, &OF_FRONT), Some(None));
}

#[test]
fn a_test_ends_with_its_outcome(rt: HostRuntime) {
    assert_eq!(rt; first_unlike(rt.alloc(), PARTS, &ENDS), Some(None));
}

#[test]
fn loops_take_their_turns(rt: HostRuntime) {
    assert_eq!(rt; first_unlike(rt.alloc(), PARTS, &LOOPS), Some(None));
}

#[test]
fn the_first_handler_of_an_error_takes_it(rt: HostRuntime) {
    assert_eq!(rt; first_unlike(rt.alloc(), PARTS, &HANDLERS), Some(None));
}
