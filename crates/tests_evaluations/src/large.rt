//! Tests and services of great size.

use crate::bodies::ending;
use std::alloc::{AllocError, Global};
use std::test::Fail;

/// A test whose loop passes over so many statements before an `else`, and over as many in a handler that isn't taken.
fn passing_over(alloc: Global, count: u32) -> Result<String, AllocError> {
    let mut passed = String::new(alloc);
    for _ in 0..count {
        passed.push_str("r = r + 1; ")?;
    }
    format!(in alloc;
        "test t {{ let r = 0; repeat 1000 {{ if r > 0 {{ {} }} else {{ r = 0; }} call r = s.echo(r) on any {{ {} }} }} r = 1 / r; }}",
        passed.as_str(),
        passed.as_str()
    )
}

#[test]
fn what_is_passed_over_takes_no_fuel_and_is_counted(rt: HostRuntime) -> Result<(), Fail> {
    let alloc = rt.alloc();
    let services = "service s { method echo(n: int) -> int { return n; } }";
    let test = passing_over(alloc, 10_000)?;
    let end = ending(alloc, services, test.as_str(), 6_000);
    assert!(rt; end.is_some_and(|end| end.as_str() == "statement 20006 faulted by 4003, 997 left"));
    Ok(())
}

const OPEN: &str = "if true { if true { if true { if true { if true { if true { if true { ";

const CLOSE: &str = "} } } } } } } ";

/// The method of service number `place` calls that of the next in a handler, with 16 blocks open.
fn add_service(alloc: Global, text: &mut String, place: u32) -> Result<(), AllocError> {
    let head = format!(in alloc; "service s{place} {{ method m() -> int {{ let x = 0; ")?;
    let call = format!(in alloc; "call x = s{}.m(); ", place.wrapping_add(1))?;
    for part in [
        head.as_str(),
        OPEN,
        "call x = last.bad() on any { ",
        OPEN,
        call.as_str(),
        CLOSE,
        "} ",
        CLOSE,
        "return x; } } ",
    ] {
        text.push_str(part)?;
    }
    Ok(())
}

/// What has 32 expressions open, and is 33.
const DEEP: &str =
    "(1 + (1 + (1 + (1 + (1 + (1 + (1 + (1 + (1 + (1 + (1 + (1 + (1 + (1 + (1 + (1 + (1 + (1 + (1 + (1 + (1 + (1 + (1 + (1 + (1 + (1 + (1 + (1 + (1 + (1 + (1 + (1 + 1))))))))))))))))))))))))))))))))";

/// 32 methods, each of which calls the next, and the last of which has 32 blocks open.
fn chain(alloc: Global) -> Result<String, AllocError> {
    let mut text = String::new(alloc);
    for place in 0..31 {
        add_service(alloc, &mut text, place)?;
    }
    let last = format!(in alloc;
        "service s31 {{ method m() -> int {{ {OPEN}{OPEN}{OPEN}{OPEN}if true {{ if true {{ if true {{ return {DEEP}; }} }} }} {CLOSE}{CLOSE}{CLOSE}{CLOSE}return 0; }} }} service last {{ method bad() -> int {{ fail timeout; }} }}"
    )?;
    text.push_str(last.as_str())?;
    Ok(text)
}

#[test]
fn calls_are_open_32_deep_in_open_blocks_and_handlers(rt: HostRuntime) -> Result<(), Fail> {
    let alloc = rt.alloc();
    let services = chain(alloc)?;
    let test = "test t { let r = 0; call r = s0.m(); assert r == 33; }";
    let end = ending(alloc, services.as_str(), test, 624);
    assert!(rt; end.is_some_and(|end| end.as_str() == "passed by 3, 0 left"));
    Ok(())
}
