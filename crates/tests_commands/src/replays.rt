//! Replays over files in memory: their words, and each way in which one ends.
use crate::running::{BEFORE, Done, carried_out, is_usage};
use crate::texts::{CART, CART_TEST, PRICE, RETRY, RETRY_TEST};
use std::alloc::{AllocError, Global};
use std::test::Fail;

/// A method that calls another from two places.
const TWICE: &[u8] =
    b"service price { method get(id: int) -> int { return id * 10; } } service cart { method total(id: int) -> int { let p = 0; call p = price.get(id) on any { p = 1; } call p = price.get(id) on any { p = 2; } return p; } }";

const STRICT_TEST: &[u8] = b"test cart { let r = 0; call r = cart.total(2); assert r == 20; }";

const FAULT_TEST: &[u8] = b"test one { assert 1 / 0 == 1; }";

/// Services, a test and a plan: the exit code, and what is told.
const REPLAYED: &[(&[u8], &[u8], &str, u8, &str)] = &[
    (
        CART,
        CART_TEST,
        "1.1/1.1=timeout",
        0,
        "1.1 cart.total ok 5\n1.1/1.1 price.get fault timeout\noutcome passed\n",
    ),
    (
        CART,
        CART_TEST,
        "none",
        0,
        "1.1 cart.total ok 20\n1.1/1.1 price.get ok 20\noutcome passed\n",
    ),
    (
        CART,
        CART_TEST,
        "1.1/1.1=ok:7",
        0,
        "1.1 cart.total ok 7\n1.1/1.1 price.get fault ok 7\noutcome passed\n",
    ),
    (
        TWICE,
        CART_TEST,
        "1.1/1.1=timeout,1.1/2.1=timeout",
        0,
        "1.1 cart.total ok 2\n1.1/1.1 price.get fault timeout\n1.1/2.1 price.get fault timeout\noutcome passed\n",
    ),
    (
        CART,
        STRICT_TEST,
        "1.1/1.1=timeout",
        1,
        "1.1 cart.total ok 5\n1.1/1.1 price.get fault timeout\noutcome assert_failed 1\n",
    ),
    (
        RETRY,
        RETRY_TEST,
        "1.1/1.1=unavailable,1.1/1.2=unavailable",
        1,
        "1.1 shop.buy err unavailable\n1.1/1.1 price.get fault unavailable\n1.1/1.2 price.get fault unavailable\noutcome call_failed 1 unavailable\n",
    ),
    (PRICE, FAULT_TEST, "none", 1, "outcome fault 1\n"),
    (PRICE, b"test none { }", "none", 0, "outcome passed\n"),
];

/// Services, a test and a plan of which this fault isn't met.
const NOT_MET: &[(&[u8], &[u8], &str, &str)] = &[
    (
        RETRY,
        RETRY_TEST,
        "1.1/1.2=unavailable",
        "not met 1.1/1.2\n",
    ),
    // A value of another kind than the callee gives.
    (CART, CART_TEST, "1.1/1.1=ok:true", "not met 1.1/1.1\n"),
    // The second of two faults, and the first.
    (
        CART,
        CART_TEST,
        "1.1/1.1=timeout,1.1/1.2=timeout",
        "not met 1.1/1.2\n",
    ),
    (
        CART,
        CART_TEST,
        "1.1/1.2=timeout,1.1/1.1=timeout",
        "not met 1.1/1.2\n",
    ),
    // The test's own call.
    (CART, CART_TEST, "1.1=timeout", "not met 1.1\n"),
    // Both are met, in the other order.
    (
        TWICE,
        CART_TEST,
        "1.1/2.1=timeout,1.1/1.1=timeout",
        "not met 1.1/2.1\n",
    ),
    // The callee of an injected call isn't run.
    (
        CART,
        CART_TEST,
        "1.1/1.1=timeout,1.1/1.1/1.1=timeout",
        "not met 1.1/1.1/1.1\n",
    ),
];

/// Replays a plan of these sources.
fn replayed(alloc: Global, sources: &[&[u8]], plan: &str) -> Result<Done, AllocError> {
    let words = [
        "replay",
        "--services",
        "s.fb",
        "--test",
        "t.fb",
        "--plan",
        plan,
    ];
    carried_out(alloc, &[&words], sources, &[], false)
}

#[test]
fn the_run_of_a_met_plan_is_printed(rt: HostRuntime) -> Result<(), Fail> {
    for (services, test, plan, code, text) in REPLAYED {
        let done = replayed(rt.alloc(), &[*services, *test], plan)?;
        assert!(rt; done.tells(*code, text) && done.leaves(&[BEFORE]), "{plan}");
        assert_eq!(rt; done.loads, 2);
    }
    Ok(())
}

#[test]
fn the_first_fault_that_is_not_met_is_told(rt: HostRuntime) -> Result<(), Fail> {
    for (services, test, plan, text) in NOT_MET {
        let done = replayed(rt.alloc(), &[*services, *test], plan)?;
        assert!(rt; done.tells(10, text) && done.leaves(&[BEFORE]), "{plan}");
        assert_eq!(rt; done.loads, 2);
    }
    Ok(())
}

/// Texts that are no plan's, and what is told.
const NO_PLANS: &[(&str, &str)] = &[
    ("1.1", "refused plan BadPlan 3\n"),
    ("1.1/1.1=ok:07", "refused plan BadPlan 11\n"),
    ("", "refused plan BadPlan 0\n"),
];

// It is refused before any load.
fn is_no_plan(alloc: Global, plan: &str, text: &str) -> Result<bool, AllocError> {
    let done = replayed(alloc, &[], plan)?;
    Ok(done.tells(3, text) && done.leaves(&[BEFORE]) && done.loads == 0)
}

#[test]
fn a_text_that_is_no_plan_is_refused(rt: HostRuntime) -> Result<(), Fail> {
    for (plan, text) in NO_PLANS {
        assert!(rt; is_no_plan(rt.alloc(), plan, text)?, "{plan}");
    }
    let mut plan = "1".repeat(rt.alloc(), 65_536)?;
    assert!(rt; is_no_plan(rt.alloc(), &plan, "refused plan BadPlan 10\n")?);
    plan.push('1')?;
    assert!(rt; is_no_plan(rt.alloc(), &plan, "refused plan TooLong\n")?);
    Ok(())
}

const PASSED: &str = "1.1 cart.total ok 5\n1.1/1.1 price.get fault timeout\noutcome passed\n";

/// Options of the fuel, for a run that takes seven units: the exit code, and what is told.
const FUELS: &[(&str, u8, &str)] = &[
    ("--fuel=7", 0, PASSED),
    ("--fuel=007", 0, PASSED),
    ("--fuel=1000000", 0, PASSED),
    ("--fuel=6", 6, "fuel spent at 1.1/1.1=timeout\n"),
    ("--fuel=1", 6, "fuel spent at 1.1/1.1=timeout\n"),
];

#[test]
fn a_run_ends_within_its_fuel_or_is_spent(rt: HostRuntime) -> Result<(), Fail> {
    for (fuel, code, text) in FUELS {
        let words: [&[&str]; 3] = [
            &["replay", fuel, "--plan=1.1/1.1=timeout"],
            &["--test", "t.fb"],
            &["--services=s.fb"],
        ];
        let done = carried_out(rt.alloc(), &words, &[CART, CART_TEST], &[], false)?;
        assert!(rt; done.tells(*code, text), "{fuel}");
    }
    Ok(())
}

/// Words that say no replay.
const NO_REPLAYS: &[&[&str]] = &[
    &["replay"],
    &["replay", "--services=s.fb", "--test=t.fb"],
    &["replay", "--services=s.fb", "--plan=none"],
    &["replay", "--test=t.fb", "--plan=none"],
    &["replay", "--services=s.fb", "--test=t.fb", "--plan"],
    &[
        "replay",
        "--services=s.fb",
        "--test=t.fb",
        "--plan=none",
        "--plan=none",
    ],
    &[
        "replay",
        "--services=s.fb",
        "--test=t.fb",
        "--plan=none",
        "--report=r.jsonl",
    ],
    &[
        "replay",
        "--services=s.fb",
        "--test=t.fb",
        "--plan=none",
        "none",
    ],
    &[
        "replay",
        "--services=s.fb",
        "--test=t.fb",
        "--plan=none",
        "--help",
    ],
    &["replay", "-h"],
    &[
        "replay",
        "--services=s.fb",
        "--test=t.fb",
        "--plan=none",
        "--fuel",
    ],
    &[
        "replay",
        "--services=s.fb",
        "--test=t.fb",
        "--plan=none",
        "--fuel=7",
        "--fuel=7",
    ],
    &[
        "replay",
        "--services=s.fb",
        "--test=t.fb",
        "--plan=none",
        "--fuel=",
    ],
    &["Replay", "--services=s.fb", "--test=t.fb", "--plan=none"],
    &[
        "replay",
        "--services=s.fb",
        "--test=t.fb",
        "--plan=none",
        "--faults=f.toml",
    ],
    &[
        "replay",
        "--services=s.fb",
        "--test=t.fb",
        "--plan=none",
        "--no-reduction",
    ],
];

/// Numbers that are no units of fuel.
const NO_FUELS: &[&str] = &[
    "0",
    "000",
    "1000001",
    "+5",
    " 5",
    "5 ",
    "0x5",
    "1000000000000000000000000000000000000000",
];

#[test]
fn words_that_are_no_replay_are_refused(rt: HostRuntime) -> Result<(), Fail> {
    for words in NO_REPLAYS {
        assert!(rt; is_usage(rt.alloc(), &[*words])?);
    }
    for fuel in NO_FUELS {
        let words = [
            "replay",
            "--services=s.fb",
            "--test=t.fb",
            "--plan=none",
            "--fuel",
            fuel,
        ];
        assert!(rt; is_usage(rt.alloc(), &[&words])?, "{fuel}");
    }
    Ok(())
}
