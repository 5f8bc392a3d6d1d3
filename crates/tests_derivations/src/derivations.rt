//! Runs that are derived from records.
ghost use Rattle.std.specs.Prelude.{◌≡◌, ◌<◌};
ghost use Rattle.fb_stitch.specs.Sources.{AreTrueOf};

use crate::known::{FRONT, Row, TEN, store_of};
use crate::sources::{program, test};
use crate::texts::derivation_text;
use fb_base::Steps;
use fb_check::{CheckedTest, Program};
use fb_index::Plan;
use fb_stitch::{Derived, NotDerived, derive};
use fb_store::Store;
use std::alloc::Global;
use std::marker::Brand;
use std::sync::ledger::{Blank, Ledger};

const BOTH: &str = "test both { let r = 0; call r = front.go(); assert r == 2 or injected; }";

const ON_D: &str = "test both { let r = 0; call r = front.go(); assert r == 2 or injected_on d; }";

/// A test, a plan, the units of fuel, and what is told.
type Case<'a> = (&'a str, &'a str, u64, &'a str);

const OF_TEN: [Case<'static>; 12] = [
    (
        BOTH,
        "1.1/1.1=timeout,1.1/2.1/1.1=timeout",
        12,
        "passed by 12; uses 9 8; calls 1.1 1.1/1.1! 1.1/2.1 1.1/2.1/1.1!; injects 1.1/1.1=timeout,1.1/2.1/1.1=timeout",
    ),
    (
        BOTH,
        "1.1/1.1=timeout,1.1/2.1/1.1=timeout",
        11,
        "not covered",
    ),
    (
        BOTH,
        "none",
        16,
        "passed by 16; uses 0 1 2 3 4; calls 1.1 1.1/1.1 1.1/1.1/1.1 1.1/2.1 1.1/2.1/1.1; injects none",
    ),
    (BOTH, "none", 15, "not covered"),
    (
        BOTH,
        "1.1/1.1/1.1=timeout,1.1/2.1/1.1=timeout",
        1_000_000,
        "passed by 14; uses 9 6 8; calls 1.1 1.1/1.1 1.1/1.1/1.1! 1.1/2.1 1.1/2.1/1.1!; injects 1.1/1.1/1.1=timeout,1.1/2.1/1.1=timeout",
    ),
    // where b is answered with a fault, d isn't called
    (
        BOTH,
        "1.1/1.1=timeout,1.1/1.1/1.1=timeout",
        100,
        "passed by 13; uses 5 3 4; calls 1.1 1.1/1.1! 1.1/2.1 1.1/2.1/1.1; injects 1.1/1.1=timeout",
    ),
    (
        BOTH,
        "1.1=timeout",
        100,
        "passed by 16; uses 0 1 2 3 4; calls 1.1 1.1/1.1 1.1/1.1/1.1 1.1/2.1 1.1/2.1/1.1; injects none",
    ),
    (
        BOTH,
        "1.1/2.1=ok:1",
        100,
        "passed by 12; uses 0 1 2; calls 1.1 1.1/1.1 1.1/1.1/1.1 1.1/2.1!; injects 1.1/2.1=ok:1",
    ),
    (BOTH, "1.1/2.1=ok:2", 100, "not covered"),
    (
        BOTH,
        "1.1/2.1=ok:true",
        100,
        "passed by 16; uses 0 1 2 3 4; calls 1.1 1.1/1.1 1.1/1.1/1.1 1.1/2.1 1.1/2.1/1.1; injects none",
    ),
    (
        ON_D,
        "1.1/1.1/1.1=timeout",
        100,
        "passed by 15; uses 5 6 3 4; calls 1.1 1.1/1.1 1.1/1.1/1.1! 1.1/2.1 1.1/2.1/1.1; injects 1.1/1.1/1.1=timeout",
    ),
    (
        ON_D,
        "1.1/1.1=timeout",
        100,
        "assert 1 failed by 13; uses 5 3 4; calls 1.1 1.1/1.1! 1.1/2.1 1.1/2.1/1.1; injects 1.1/1.1=timeout",
    ),
];

/// The same records but number 8.
const NINE: [Row<'static>; 9] = [
    ("front.go()", "none"),
    ("b.get()", "none"),
    ("d.get()", "none"),
    ("c.get()", "none"),
    ("e.get()", "none"),
    ("front.go()", "1.1/1.1=timeout"),
    ("b.get()", "1.1/1.1=timeout"),
    ("front.go()", "1.1/2.1=timeout"),
    ("front.go()", "1.1/1.1=timeout,1.1/2.1=timeout"),
];

const OF_NINE: [Case<'static>; 3] = [
    (
        BOTH,
        "1.1/1.1=timeout,1.1/2.1/1.1=timeout",
        12,
        "not covered",
    ),
    (
        BOTH,
        "1.1/1.1=timeout,1.1/2.1/1.1=timeout",
        1_000_000,
        "not covered",
    ),
    (
        BOTH,
        "1.1/1.1=timeout,1.1/2.1=timeout",
        100,
        "passed by 10; uses 8; calls 1.1 1.1/1.1! 1.1/2.1!; injects 1.1/1.1=timeout,1.1/2.1=timeout",
    ),
];

/// The ten records, the last first.
const BACKWARDS: [Row<'static>; 10] = [
    ("front.go()", "1.1/1.1=timeout,1.1/2.1=timeout"),
    ("c.get()", "1.1/1.1=timeout"),
    ("front.go()", "1.1/2.1=timeout"),
    ("b.get()", "1.1/1.1=timeout"),
    ("front.go()", "1.1/1.1=timeout"),
    ("e.get()", "none"),
    ("c.get()", "none"),
    ("d.get()", "none"),
    ("b.get()", "none"),
    ("front.go()", "none"),
];

const OF_BACKWARDS: [Case<'static>; 2] = [
    (
        BOTH,
        "1.1/1.1=timeout,1.1/2.1/1.1=timeout",
        12,
        "passed by 12; uses 0 1; calls 1.1 1.1/1.1! 1.1/2.1 1.1/2.1/1.1!; injects 1.1/1.1=timeout,1.1/2.1/1.1=timeout",
    ),
    (
        ON_D,
        "1.1/1.1/1.1=timeout",
        100,
        "passed by 15; uses 4 3 6 5; calls 1.1 1.1/1.1 1.1/1.1/1.1! 1.1/2.1 1.1/2.1/1.1; injects 1.1/1.1/1.1=timeout",
    ),
];

const SHOP: &str = "service price { method get(id: int) -> int { return id * 10; } }
service shop { method buy(id: int) -> int {
  let p = 0;
  repeat 2 {
    let ok = true;
    call p = price.get(id) on unavailable { ok = false; }
    if ok { return p; }
  }
  fail unavailable;
} }";

const PRICES: [Row<'static>; 5] = [
    ("price.get(2)", "none"),
    ("price.get(3)", "none"),
    ("shop.buy(2)", "none"),
    ("shop.buy(2)", "1.1/1.1=unavailable"),
    ("shop.buy(2)", "1.1/1.1=unavailable,1.1/1.2=unavailable"),
];

const BUY: &str = "test buy { let r = 0; call r = shop.buy(2); assert r == 20; }";

const TWICE: &str =
    "test twice { let r = 0; call r = shop.buy(2); assert not injected; call r = shop.buy(2); assert injected; }";

const OF_PRICES: [Case<'static>; 5] = [
    (
        BUY,
        "1.1/1.1=unavailable",
        16,
        "passed by 16; uses 3 0; calls 1.1 1.1/1.1! 1.1/1.2; injects 1.1/1.1=unavailable",
    ),
    (
        BUY,
        "1.1/1.1=unavailable,1.1/1.2=unavailable",
        100,
        "call 1 failed with unavailable by 15; uses 4; calls 1.1 1.1/1.1! 1.1/1.2!; injects 1.1/1.1=unavailable,1.1/1.2=unavailable",
    ),
    (BUY, "1.1/1.1=timeout", 100, "not covered"),
    (
        TWICE,
        "2.1/1.1=unavailable",
        100,
        "passed by 26; uses 2 0 3 0; calls 1.1 1.1/1.1 2.1 2.1/1.1! 2.1/1.2; injects 2.1/1.1=unavailable",
    ),
    (
        "test other { let r = 0; call r = shop.buy(3); }",
        "none",
        100,
        "not covered",
    ),
];

/// The derivation of a plan's run by a test.
fn derived_counted<L: Ledger>(
    alloc: Global,
    program: &Program,
    test: &CheckedTest,
    store: &Store,
    plan: &Plan,
    fuel: u64,
    blank: Blank,
) -> Option<Result<Derived, NotDerived>>
    requires name { blank.name ≡ L.name }
    requires parts { blank.parts ≡ L.parts }
    requires some { 0 < L.parts }
    requires known { AreTrueOf program.now.tree store.now }
{
    if fuel > 1_000_000 {
        return None;
    }
    let mut evals = Steps::<L>::new(blank);
    Some(derive(alloc, program, test, store, plan, fuel, &mut evals))
}

/// What is told of a derivation from these records.
fn told(alloc: Global, program: &Program, store: &Store, case: &Case) -> Option<String>
    requires { AreTrueOf program.now.tree store.now }
{
    let (text, plan, fuel, _) = *case;
    let test = test(alloc, program, text)?;
    let plan = Plan::read_text(alloc, plan.as_bytes()).ok()?;
    let derived = derived_counted::<Brand>(
        alloc,
        program,
        &test,
        store,
        &plan,
        fuel,
        Blank::new(1),
    )?;
    derivation_text(alloc, derived)
}

fn tells_it(alloc: Global, program: &Program, store: &Store, case: &Case) -> bool
    requires { AreTrueOf program.now.tree store.now }
{
    match told(alloc, program, store, case) {
        Some(text) => text.as_str() == case.3,
        None => false,
    }
}

/// Whether all that is told of derivations from the records of these rows is as told here.
fn are_told(alloc: Global, services: &str, rows: &[Row<'_>], cases: &[Case<'_>]) -> Option<bool> {
    let program = program(alloc, services)?;
    let store = store_of(alloc, &program, rows)?;
    let mut all = store.len() == rows.len() as u64;
    for case in cases {
        all = all && tells_it(alloc, &program, &store, case);
    }
    Some(all)
}

#[test]
fn records_make_the_run_of_a_plan(rt: HostRuntime) {
    assert_eq!(rt; are_told(rt.alloc(), FRONT, &TEN, &OF_TEN), Some(true));
}

#[test]
fn one_record_less_covers_less(rt: HostRuntime) {
    assert_eq!(rt; are_told(rt.alloc(), FRONT, &NINE, &OF_NINE), Some(true));
}

#[test]
fn another_order_gives_other_numbers(rt: HostRuntime) {
    assert_eq!(rt;
        are_told(rt.alloc(), FRONT, &BACKWARDS, &OF_BACKWARDS),
        Some(true)
    );
}

#[test]
fn a_site_that_is_called_again_is_another_call(rt: HostRuntime) {
    assert_eq!(rt; are_told(rt.alloc(), SHOP, &PRICES, &OF_PRICES), Some(true));
}
