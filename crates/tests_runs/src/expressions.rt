//! Tests of variables, injected callees and the values of expressions.

use fb_base::{MethodId, Name, OpError, Text, Value, list_of};
use fb_check::{Program, check_services};
use fb_expression::*;
use fb_syntax::{Stmt, parse_services, parse_test};
use std::alloc::Global;

const SERVICES: &str =
    "service a { method m(p: int) -> int { return 1; } method n() -> int { return 1; } } service b { method m() -> int { return 1; } }";

/// What is true where `x` is 3, `long` has 65,534 bytes, and `a.m` and `b.m` have been injected.
const TRUE: [&str; 28] = [
    "x == 3 and 2 < x and x <= 3 and 4 > x and x >= 3 and x != 4",
    "1 + 2 * 3 == 7",
    "10 - 3 - 2 == 5",
    "100 / 7 / 2 * 3 % 5 == 1",
    "-(2) - -x == 1",
    "-7 / 2 == -3 and -7 % 2 == -1",
    "not false",
    "\"ab\" ++ \"c\" ++ \"d\" == \"abcd\"",
    "len(\"abc\") == 3",
    "len(list<int>[4, 5]) == 2",
    "list<int>[4, 5][0] == 4",
    "list<text>[\"a\", \"b\"][1] == \"b\"",
    "list<bool>[true, 1 < 2] == list<bool>[true, true]",
    "list<int>[x, x + 1] ++ list<int>[5] == list<int>[3, 4, 5]",
    "list<int>[] == list<text>[]",
    "true or 1 / 0 == 1",
    "false or true or 1 / 0 == 1",
    "not (false and 1 / 0 == 1)",
    "not (true and false and y == 1)",
    "not (false or false)",
    "len(long ++ \"a\") == 65535",
    "injected",
    "injected_on a",
    "injected_on a.m",
    "not injected_on a.n",
    "injected_on b.m",
    "not injected_on b.n",
    "not injected_on c",
];

/// What faults there.
const FAULTS: [&str; 16] = [
    "y == 1",
    "1 / 0 == 1",
    "1 % 0 == 1",
    "9223372036854775807 + 1 == 0",
    "-(0 - 9223372036854775807 - 1) == 0",
    "false or 1 / 0 == 1",
    "true and 1 / 0 == 1",
    "1 / 0 == 1 or true",
    "1 and true",
    "list<int>[4, 5][2] == 0",
    "list<int>[4, 5][-1] == 0",
    "list<int>[1, 1 / 0, 2] == list<int>[]",
    "list<int>[1, true] == list<int>[]",
    "1 == true",
    "len(1) == 1",
    "long ++ \"ab\" == \"\"",
];

fn name(text: &str) -> Option<Name> {
    Name::read(text.as_bytes()).ok()
}

fn program(alloc: Global) -> Option<Program> {
    let services = parse_services(alloc, SERVICES.as_bytes()).ok()?;
    check_services(alloc, services).ok()
}

/// What the first statement, a `let`, gives its variable.
fn evaluated(
    alloc: Global,
    here: &Environment<'_>,
    source: &str,
) -> Option<Result<Value, OpError>> {
    let text = format!(in alloc; "test t {{ let v = {source}; }}").ok()?;
    if text.len() > 1_048_576 {
        return None;
    }
    let test = parse_test(alloc, text.as_bytes()).ok()?;
    match test.body.stmts.first() {
        Some(Stmt::Let { name: _, value }) => Some(value_of(alloc, here, value)),
        _ => None,
    }
}

fn is_true(alloc: Global, here: &Environment<'_>, source: &str) -> bool {
    matches!(evaluated(alloc, here, source), Some(Ok(Value::Bool(true))))
}

fn faults(alloc: Global, here: &Environment<'_>, source: &str) -> bool {
    matches!(evaluated(alloc, here, source), Some(Err(OpError::Fault)))
}

fn variables(alloc: Global) -> Option<Variables> {
    let long = Text::of(alloc, vec![in alloc; b'a'; 65_534].ok()?.as_slice()).ok()?;
    let mut variables = Variables::new(alloc);
    variables.declare(name("x")?, Value::Int(3)).ok()?;
    variables.declare(name("long")?, Value::Text(long)).ok()?;
    Some(variables)
}

fn injected(alloc: Global) -> Option<InjectedCallees> {
    let mut callees = InjectedCallees::new(alloc);
    for callee in [0, 2, 0] {
        callees.add(MethodId(callee)).ok()?;
    }
    Some(callees)
}

/// The first source that isn't true, or that doesn't fault where it has to.
fn first_unlike(alloc: Global, sources: &[&str], faulting: bool) -> Option<Option<usize>> {
    let (program, variables, callees) = (program(alloc)?, variables(alloc)?, injected(alloc)?);
    let injected = Some(&callees);
    let here = Environment {
        program: &program,
        variables: &variables,
        injected,
    };
    Some(
        sources.iter().position(|source| {
            if faulting {
                !faults(alloc, &here, source)
            } else {
                !is_true(alloc, &here, source)
            }
        }),
    )
}

#[test]
fn expressions_have_their_values(rt: HostRuntime) {
    assert_eq!(rt; first_unlike(rt.alloc(), &TRUE, false), Some(None));
}

#[test]
fn faults_end_an_expression(rt: HostRuntime) {
    assert_eq!(rt; first_unlike(rt.alloc(), &FAULTS, true), Some(None));
}

fn asks_at_first(alloc: Global) -> Option<bool> {
    let (program, variables) = (program(alloc)?, Variables::new(alloc));
    let callees = InjectedCallees::new(alloc);
    let injected = Some(&callees);
    let here = Environment {
        program: &program,
        variables: &variables,
        injected,
    };
    Some(is_true(alloc, &here, "not injected and not injected_on a"))
}

#[test]
fn nothing_is_injected_at_first(rt: HostRuntime) {
    assert_eq!(rt; asks_at_first(rt.alloc()), Some(true));
}

fn is_int(value: Option<&Value>, wanted: i64) -> bool {
    match value {
        Some(Value::Int(n)) => *n == wanted,
        _ => false,
    }
}

fn variables_change(alloc: Global) -> Option<bool> {
    let (x, y, z) = (name("x")?, name("y")?, name("z")?);
    let mut variables = Variables::new(alloc);
    let declared = variables.declare(x, Value::Int(1)).ok()?
        && variables.declare(y, Value::Int(2)).ok()?
        && !variables.declare(x, Value::Int(3)).ok()?;
    let assigned = variables.assign(&y, Value::Int(4)) && !variables.assign(&z, Value::Int(5));
    let held = is_int(variables.get(&x), 1)
        && is_int(variables.get(&y), 4)
        && variables.get(&z).is_none()
        && variables.len() == 2;
    variables.leave(1);
    let left = is_int(variables.get(&x), 1) && variables.get(&y).is_none();
    Some(declared && assigned && held && left && variables.declare(y, Value::Int(6)).ok()?)
}

#[test]
fn variables_are_declared_assigned_and_ended(rt: HostRuntime) {
    assert_eq!(rt; variables_change(rt.alloc()), Some(true));
}

fn items_are_found(alloc: Global) -> Option<bool> {
    let value = list_of(alloc, vec![in alloc; Value::Int(4), Value::Int(5)].ok()?).ok()?;
    let Value::List(items) = value else {
        return None;
    };
    let second = item_at(alloc, &items, 1).ok()?;
    Some(is_int(second.as_ref(), 5) && item_at(alloc, &items, 2).ok()?.is_none())
}

#[test]
fn items_are_counted_from_0(rt: HostRuntime) {
    assert_eq!(rt; items_are_found(rt.alloc()), Some(true));
}
