//! Tests of cycles of calls, chains of calls and ranks.

use crate::refusals::{checked_services, is_refused, name};
use fb_base::{List, MethodId, MethodName};
use fb_check::*;
use std::alloc::{AllocError, Global};

/// Services `s0`, `s1` and so on, each with one method `m`, by the services that each calls, and the first cycle.
#[derive(Clone, Copy)]
struct Case<'a> {
    callees: &'a [&'a [u32]],
    cycle: &'a [u32],
}

fn add_service(
    alloc: Global,
    text: &mut String,
    number: usize,
    callees: &[u32],
) -> Result<(), AllocError> {
    let begin = format!(in alloc; "service s{number} {{ method m() -> int {{ let x = 0; ")?;
    text.push_str(begin.as_str())?;
    for callee in callees {
        let call = format!(in alloc; "call x = s{callee}.m(); ")?;
        text.push_str(call.as_str())?;
    }
    text.push_str("return x; } } ")?;
    Ok(())
}

fn services(alloc: Global, callees: &[&[u32]]) -> Result<String, AllocError> {
    let mut text = String::new(alloc);
    for (number, called) in callees.iter().enumerate() {
        add_service(alloc, &mut text, number, called)?;
    }
    Ok(text)
}

/// The cycle of the methods of these services.
fn cycle_of(alloc: Global, services: &[u32]) -> Result<Option<CheckRule>, AllocError> {
    let mut names = List::new(alloc);
    for service in services {
        let text = format!(in alloc; "s{service}")?;
        let (Some(service), Some(method)) = (name(text.as_str()), name("m")) else {
            return Ok(None);
        };
        names.push(MethodName { service, method })?;
    }
    Ok(Some(CheckRule::Cycle(names)))
}

/// Whether the cycle of these services is told, at the method of the first.
fn is_cycle(alloc: Global, text: &str, cycle: &[u32]) -> Result<bool, AllocError> {
    let Some(told) = cycle_of(alloc, cycle)? else {
        return Ok(false);
    };
    let first = cycle.get(0).copied().unwrap_or(0).wrapping_add(1);
    Ok(is_refused(checked_services(alloc, text), &told, (first, 1, 0)))
}

fn is_as_told(alloc: Global, case: &Case) -> Result<bool, AllocError> {
    let text = services(alloc, case.callees)?;
    is_cycle(alloc, text.as_str(), case.cycle)
}

#[test]
fn refuses_cycles(rt: HostRuntime) {
    let alloc = rt.alloc();
    let cases = [
        // two methods that call each other
        Case {
            callees: &[&[1], &[0]],
            cycle: &[0, 1],
        },
        // a self call
        Case {
            callees: &[&[1], &[1]],
            cycle: &[1],
        },
        // of two cycles of one length the first by its callees, not by its calls
        Case {
            callees: &[&[2, 1], &[0], &[0]],
            cycle: &[0, 1],
        },
        // a shorter one by a later callee
        Case {
            callees: &[&[1, 3], &[2], &[0], &[0]],
            cycle: &[0, 3],
        },
        // one that isn't through the first method
        Case {
            callees: &[&[1], &[2], &[1]],
            cycle: &[1, 2],
        },
    ];
    assert_eq!(rt;
        cases
            .iter()
            .position(|case| !matches!(is_as_told(alloc, case), Ok(true))),
        None
    );
}

const TWO_SERVICES: &str =
    "service a { method k() -> int { return 1; } method m() -> int { let x = 0; call x = a.k() on any { call x = b.n(); } return x; } } service b { method n() -> int { let x = 0; call x = a.m(); return x; } }";

fn tells_methods(alloc: Global) -> Result<bool, AllocError> {
    let mut names = List::new(alloc);
    for (service, method) in [("a", "m"), ("b", "n")] {
        let (Some(service), Some(method)) = (name(service), name(method)) else {
            return Ok(false);
        };
        names.push(MethodName { service, method })?;
    }
    let found = checked_services(alloc, TWO_SERVICES);
    Ok(is_refused(found, &CheckRule::Cycle(names), (1, 2, 0)))
}

#[test]
fn tells_cycles_of_methods(rt: HostRuntime) {
    assert!(rt; matches!(tells_methods(rt.alloc()), Ok(true)));
}

/// No service.
const NONE: u32 = u32::MAX;

/// What the method of each of so many services calls.
#[derive(Clone, Copy)]
enum Rule {
    /// That of the next.
    Chain,
    /// Diamonds one below another: each third service calls two, and both call the next third.
    Ladder,
    /// That of the next, but for the first, which calls none.
    Later,
    /// That of the next, and the last of 35 its own.
    Tail,
}

fn callees_by(rule: Rule, number: u32) -> [u32; 2] {
    let next = number.wrapping_add(1);
    match rule {
        Rule::Chain => [next, NONE],
        Rule::Ladder => ladder(number),
        Rule::Later => {
            if number == 0 {
                [NONE, NONE]
            } else {
                [next, NONE]
            }
        }
        Rule::Tail => [next.min(34), NONE],
    }
}

fn ladder(number: u32) -> [u32; 2] {
    let next = number.wrapping_add(1);
    let second = number.wrapping_add(2);
    match number % 3 {
        0 => [next, second],
        1 => [second, NONE],
        _ => [next, NONE],
    }
}

fn services_by(alloc: Global, rule: Rule, len: u32) -> Result<String, AllocError> {
    let mut text = String::new(alloc);
    for number in 0..len {
        let called = called_of(alloc, callees_by(rule, number), len)?;
        add_service(alloc, &mut text, number as usize, called.as_slice())?;
    }
    Ok(text)
}

/// Those that are services.
fn called_of(alloc: Global, callees: [u32; 2], len: u32) -> Result<List<u32>, AllocError> {
    let mut called = List::new(alloc);
    for callee in callees {
        if callee < len {
            called.push(callee)?;
        }
    }
    Ok(called)
}

fn rank_of_first(alloc: Global, text: &str) -> Option<u32> {
    let Some(Ok(program)) = checked_services(alloc, text) else {
        return None;
    };
    if program.count() == 0 {
        return None;
    }
    Some(program.rank(MethodId(0)))
}

fn has_short_chains(alloc: Global) -> Result<bool, AllocError> {
    let one = services(alloc, &[&[]])?;
    let diamond = services(alloc, &[&[1, 2, 1], &[3], &[3], &[]])?;
    let chain = services_by(alloc, Rule::Chain, 32)?;
    let ladder = services_by(alloc, Rule::Ladder, 46)?;
    Ok(
        rank_of_first(alloc, one.as_str()) == Some(0)
            && rank_of_first(alloc, diamond.as_str()) == Some(2)
            && rank_of_first(alloc, chain.as_str()) == Some(31)
            && rank_of_first(alloc, ladder.as_str()) == Some(30),
    )
}

#[test]
fn accepts_short_chains(rt: HostRuntime) {
    assert!(rt; matches!(has_short_chains(rt.alloc()), Ok(true)));
}

/// Whether so many services are refused at the method of this one.
fn is_too_deep(alloc: Global, rule: Rule, len: u32, service: u32) -> Result<bool, AllocError> {
    let text = services_by(alloc, rule, len)?;
    Ok(is_refused(
        checked_services(alloc, text.as_str()),
        &CheckRule::TooDeepCalls,
        (service, 1, 0),
    ))
}

#[test]
fn refuses_deep_chains(rt: HostRuntime) {
    let alloc = rt.alloc();
    let cases = [
        (Rule::Chain, 33, 1),
        (Rule::Chain, 34, 1),
        (Rule::Ladder, 91, 1),
        (Rule::Later, 34, 2),
    ];
    assert_eq!(rt;
        cases.iter().position(|(rule, len, service)| {
            !matches!(is_too_deep(alloc, *rule, *len, *service), Ok(true))
        }),
        None
    );
}

/// A cycle behind a chain that is too deep, then also a fault in a body, and then also a name that is there twice.
fn keeps_order(alloc: Global) -> Result<bool, AllocError> {
    let mut text = services_by(alloc, Rule::Tail, 35)?;
    let cycle = is_cycle(alloc, text.as_str(), &[34])?;
    text.push_str("service t { method m() -> int { return y; } } ")?;
    let body = checked_services(alloc, text.as_str());
    let body = is_refused(body, &CheckRule::UnknownName, (36, 1, 1));
    text.push_str("service t {}")?;
    let named = checked_services(alloc, text.as_str());
    let named = is_refused(named, &CheckRule::DuplicateName, (37, 0, 0));
    Ok(cycle && body && named)
}

#[test]
fn refuses_in_order(rt: HostRuntime) {
    assert!(rt; matches!(keeps_order(rt.alloc()), Ok(true)));
}
