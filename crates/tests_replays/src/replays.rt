//! What is told of plans that are met, and of plans that aren't.

use fb_check::{check_services, check_test};
use fb_index::Plan;
use fb_replay::{ReplayError, replay};
use fb_syntax::{parse_services, parse_test};
use std::alloc::Global;

const CART: &str = "service price { method get(id: int) -> int { return id * 10; } }
service cart { method total(id: int) -> int {
  let p = 0;
  call p = price.get(id) on any { p = 5; }
  return p;
} }";

const CART_TEST: &str =
    "test cart { let r = 0; call r = cart.total(2); assert r == 20 or injected; }";

const FRONT: &str = "service front { method go() -> int {
  let x = 0;
  let y = 0;
  call x = b.get() on any { x = 0; }
  call y = c.get() on any { y = 0; }
  return x + y;
} }
service b { method get() -> int { let v = 0; call v = d.get(); return v; } }
service c { method get() -> int { let v = 0; call v = e.get(); return v; } }
service d { method get() -> int { return 1; } }
service e { method get() -> int { return 1; } }";

const FRONT_TEST: &str = "test both { let r = 0; call r = front.go(); assert r == 2 or injected; }";

const SHOP: &str = "service price { method get(id: int) -> int { return id * 10; } }
service shop { method buy(id: int) -> int {
  let p = 0;
  repeat 2 {
    let ok = true;
    call p = price.get(id) on unavailable { ok = false; }
    if ok { return p; }
  }
  fail unavailable;
} }
service words { method of(n: int) -> text { if n > 0 { return \"a \\\"b\\\"\"; } return \"\"; } }";

const SHOP_TEST: &str = "test buy { let r = 0; call r = shop.buy(2); assert r == 20; }";

const WORDS_TEST: &str =
    "test say { let t = \"\"; call t = words.of(1); assert t == \"\"; assert true; }";

/// Services, a test of them, a plan, the units of fuel, and what is told.
type Case<'a> = (&'a str, &'a str, &'a str, u64, &'a str);

const MET: [Case<'static>; 6] = [
    (
        CART,
        CART_TEST,
        "1.1/1.1=timeout",
        100_000,
        "1.1 cart.total ok 5\n1.1/1.1 price.get fault timeout\noutcome passed\n",
    ),
    (
        CART,
        CART_TEST,
        "1.1/1.1=ok:7",
        100_000,
        "1.1 cart.total ok 7\n1.1/1.1 price.get fault ok 7\noutcome passed\n",
    ),
    (
        CART,
        CART_TEST,
        "none",
        7,
        "1.1 cart.total ok 20\n1.1/1.1 price.get ok 20\noutcome passed\n",
    ),
    (
        SHOP,
        SHOP_TEST,
        "1.1/1.1=unavailable,1.1/1.2=unavailable",
        100_000,
        "1.1 shop.buy err unavailable\n1.1/1.1 price.get fault unavailable\n1.1/1.2 price.get fault unavailable\noutcome call_failed 1 unavailable\n",
    ),
    (
        SHOP,
        WORDS_TEST,
        "none",
        100_000,
        "1.1 words.of ok \"a \\\"b\\\"\"\noutcome assert_failed 1\n",
    ),
    (
        FRONT,
        FRONT_TEST,
        "1.1/1.1/1.1=timeout",
        100_000,
        "1.1 front.go ok 1\n1.1/1.1 b.get err timeout\n1.1/1.1/1.1 d.get fault timeout\n1.1/2.1 c.get ok 1\n1.1/2.1/1.1 e.get ok 1\noutcome passed\n",
    ),
];

/// The first fault of each that isn't injected in its place.
const UNMET: [Case<'static>; 7] = [
    (
        SHOP,
        SHOP_TEST,
        "1.1/1.2=unavailable",
        100_000,
        "not met 1.1/1.2",
    ),
    (
        SHOP,
        SHOP_TEST,
        "1.1/1.1=timeout,1.1/1.2=unavailable",
        100_000,
        "not met 1.1/1.2",
    ),
    (
        CART,
        CART_TEST,
        "1.1/1.1=ok:true",
        100_000,
        "not met 1.1/1.1",
    ),
    (CART, CART_TEST, "1.1=timeout", 100_000, "not met 1.1"),
    (
        FRONT,
        FRONT_TEST,
        "1.1/2.1=timeout,1.1/1.1=timeout",
        100_000,
        "not met 1.1/2.1",
    ),
    (
        FRONT,
        FRONT_TEST,
        "1.1/1.1=timeout,1.1/1.1/1.1=timeout",
        100_000,
        "not met 1.1/1.1/1.1",
    ),
    (CART, CART_TEST, "none", 6, "spent"),
];

/// What a replay tells, none where a text is refused or there is no memory.
fn told(alloc: Global, case: &Case) -> Option<String> {
    let (services, test, plan, fuel, _) = *case;
    if services.len() > 1_048_576 || test.len() > 1_048_576 || fuel > 1_000_000 {
        return None;
    }
    let services = parse_services(alloc, services.as_bytes()).ok()?;
    let program = check_services(alloc, services).ok()?;
    let test = parse_test(alloc, test.as_bytes()).ok()?;
    let test = check_test(alloc, &program, test).ok()?;
    let plan = Plan::read_text(alloc, plan.as_bytes()).ok()?;
    match replay(alloc, &program, &test, &plan, fuel) {
        Ok(replayed) => Some(replayed.text),
        Err(ReplayError::NotMet(index)) => {
            let index = index.text(alloc).ok()?;
            format!(in alloc; "not met {}", index.as_str()).ok()
        }
        Err(ReplayError::Spent) => format!(in alloc; "spent").ok(),
        Err(ReplayError::Memory) => None,
    }
}

/// Whether a replay tells what is wanted.
fn tells_it(alloc: Global, case: &Case) -> bool {
    match told(alloc, case) {
        Some(text) => text.as_str() == case.4,
        None => false,
    }
}

#[test]
fn a_met_plan_is_told_call_by_call(rt: HostRuntime) {
    assert_eq!(rt;
        MET.iter().position(|case| !tells_it(rt.alloc(), case)),
        None
    );
}

#[test]
fn the_first_fault_that_is_not_met_is_told(rt: HostRuntime) {
    assert_eq!(rt;
        UNMET.iter().position(|case| !tells_it(rt.alloc(), case)),
        None
    );
}
