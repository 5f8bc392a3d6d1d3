//! Tests of what is refused, and where.

use fb_base::Name;
use fb_check::*;
use fb_syntax::{parse_services, parse_test};
use std::alloc::{AllocError, Global};

/// Sources of services, the rule that each breaks first, and where.
const SERVICES: [(&str, CheckRule, (u32, u32, u32)); 14] = [
    (
        "service a {} service a {}",
        CheckRule::DuplicateName,
        (2, 0, 0),
    ),
    (
        "service a {} service b {} service b {} service a {}",
        CheckRule::DuplicateName,
        (3, 0, 0),
    ),
    (
        "service a { method m() -> int { return x; } method m() -> int { return 1; } }",
        CheckRule::DuplicateName,
        (1, 2, 0),
    ),
    (
        "service a { method m() -> int { return x; } method n(p: int, q: int, p: text) -> int { return 1; } }",
        CheckRule::DuplicateName,
        (1, 2, 0),
    ),
    (
        "service a { method m(p: int, p: int) -> int { return 1; } method m() -> int { return 1; } } service a {}",
        CheckRule::DuplicateName,
        (1, 1, 0),
    ),
    (
        "service a { method m() -> int { return 1; } } service a { method m() -> int { return 1; } method m() -> int { return 1; } }",
        CheckRule::DuplicateName,
        (2, 0, 0),
    ),
    (
        "service b { method m() -> int { return 1; } } service a { method m() -> int { let x = 0; call x = b.m(1); return x; } }",
        CheckRule::WrongCount,
        (2, 1, 2),
    ),
    (
        "service b { method m(p: int, q: bool) -> int { return 1; } } service a { method m() -> int { let x = 0; call x = b.m(true); return x; } }",
        CheckRule::WrongCount,
        (2, 1, 2),
    ),
    (
        "service b { method m(p: int) -> bool { return true; } } service a { method m() -> int { let x = 0; call y = b.m(true); return x; } }",
        CheckRule::WrongKind,
        (2, 1, 2),
    ),
    (
        "service b { method m(p: int) -> bool { return true; } } service a { method m() -> int { let x = 0; call y = b.m(z); return x; } }",
        CheckRule::UnknownName,
        (2, 1, 2),
    ),
    (
        "service b { method m(p: int) -> bool { return true; } } service a { method m() -> int { let x = 0; call x = b.m(1) on any { break; } return x; } }",
        CheckRule::WrongKind,
        (2, 1, 2),
    ),
    (
        "service b { method m() -> int { return 1; } } service a { method m() -> int { let x = 0; call x = b.m() on timeout { x = 1; } on any { let y = x; x = true; } return x; } }",
        CheckRule::WrongKind,
        (2, 1, 5),
    ),
    (
        "service a { method m() -> int { return 1; } method n(p: list<bool>) -> int { for b in p { if b { return 1; } } } }",
        CheckRule::MissingEnd,
        (1, 2, 0),
    ),
    (
        "service a { method m(t: text) -> int { return t; } method n() -> int { } }",
        CheckRule::WrongKind,
        (1, 1, 1),
    ),
];

/// Bodies of a method that gives an int, the rule that each breaks first, and the number of the statement.
const BODIES: [(&str, CheckRule, u32); 45] = [
    ("return x;", CheckRule::UnknownName, 1),
    (
        "let x = 0; call x = b.m(); return x;",
        CheckRule::UnknownCallee,
        2,
    ),
    (
        "let x = 0; call x = a.n(y); return x;",
        CheckRule::UnknownCallee,
        2,
    ),
    ("return true;", CheckRule::WrongKind, 1),
    ("let x = 0;", CheckRule::MissingEnd, 0),
    ("break; return 1;", CheckRule::BreakOutside, 1),
    ("assert true; return 1;", CheckRule::TestOnly, 1),
    ("assert x; return 1;", CheckRule::TestOnly, 1),
    ("let x = injected; return 1;", CheckRule::TestOnly, 1),
    ("if injected_on a { } return 1;", CheckRule::TestOnly, 1),
    ("if injected_on z.z { } return 1;", CheckRule::TestOnly, 1),
    (
        "let x = 1; let x = 2; return x;",
        CheckRule::DuplicateName,
        2,
    ),
    ("let x = 1; let x = y; return x;", CheckRule::UnknownName, 2),
    (
        "let x = 1; if true { let x = 2; } return x;",
        CheckRule::DuplicateName,
        3,
    ),
    (
        "if true { let x = 2; } return x;",
        CheckRule::UnknownName,
        3,
    ),
    (
        "for x in list<int>[1] { } return x;",
        CheckRule::UnknownName,
        2,
    ),
    (
        "let x = 1; for x in list<int>[1] { } return x;",
        CheckRule::DuplicateName,
        2,
    ),
    (
        "let x = 1; for x in 2 { } return x;",
        CheckRule::WrongKind,
        2,
    ),
    ("for x in y { } return 1;", CheckRule::UnknownName, 1),
    (
        "for x in list<text>[\"a\"] { return x; } return 1;",
        CheckRule::WrongKind,
        2,
    ),
    ("x = 1; return 1;", CheckRule::UnknownName, 1),
    ("x = true + 1; return 1;", CheckRule::WrongKind, 1),
    ("let x = 1; x = true; return 1;", CheckRule::WrongKind, 2),
    ("if 1 { return x; } return 1;", CheckRule::WrongKind, 1),
    ("if x + true == 1 { } return 1;", CheckRule::UnknownName, 1),
    ("if 1 + true == x { } return 1;", CheckRule::WrongKind, 1),
    ("return -true + x;", CheckRule::WrongKind, 1),
    ("return 1 - true + x;", CheckRule::WrongKind, 1),
    ("return 1 - 2 + x;", CheckRule::UnknownName, 1),
    ("let b = 1 and x; return 1;", CheckRule::UnknownName, 1),
    (
        "let b = true or 1 or x; return 1;",
        CheckRule::UnknownName,
        1,
    ),
    (
        "let b = true or 1 or false; return 1;",
        CheckRule::WrongKind,
        1,
    ),
    (
        "let l = list<int>[true, x]; return 1;",
        CheckRule::UnknownName,
        1,
    ),
    (
        "let l = list<int>[true, 1]; return 1;",
        CheckRule::WrongKind,
        1,
    ),
    (
        "let l = list<int>[1][true]; return 1;",
        CheckRule::WrongKind,
        1,
    ),
    ("return len(1);", CheckRule::WrongKind, 1),
    (
        "let b = list<int>[] == list<text>[]; return 1;",
        CheckRule::WrongKind,
        1,
    ),
    (
        "let t = \"a\" ++ list<text>[]; return 1;",
        CheckRule::WrongKind,
        1,
    ),
    ("let b = \"a\" < \"b\"; return 1;", CheckRule::WrongKind, 1),
    ("repeat 2 { } break; return 1;", CheckRule::BreakOutside, 2),
    (
        "repeat 2 { if true { x = 1; break; } } return 1;",
        CheckRule::UnknownName,
        3,
    ),
    ("if true { return 1; }", CheckRule::MissingEnd, 0),
    (
        "if true { return 1; } else { let x = 1; }",
        CheckRule::MissingEnd,
        0,
    ),
    ("repeat 1 { return 1; }", CheckRule::MissingEnd, 0),
    (
        "let x = 1; return y; return true;",
        CheckRule::UnknownName,
        2,
    ),
];

/// Bodies of a method that gives an int, all accepted.
const ACCEPTED: [&str; 14] = [
    "return 1;",
    "fail refused;",
    "return 1; let x = 2; return x;",
    "if true { return 1; } else { fail no_way; }",
    "let x = 1; if x < 2 { let y = x; x = y + 1; } else { let y = true; } let y = \"\"; return x;",
    "repeat 3 { break; } return 1;",
    "repeat 3 { if true { break; } else { } } return 1;",
    "for x in list<text>[\"a\"] { x = x ++ \"b\"; break; } for x in list<bool>[] { if x { } } return 1;",
    "let l = list<int>[1, 2] ++ list<int>[]; return l[0] * len(l) - -1;",
    "let b = not (1 == 2) and \"a\" != \"b\" or list<int>[1] == list<int>[]; if b { } return 1;",
    "let t = \"a\" ++ \"b\"; return len(t) / 2 % 3;",
    "let a = 0; let m = 1; let fail_code = 2; return a + m + fail_code;",
    "let x = 0; call x = a.n(); return x;",
    "repeat 2 { let x = 0; call x = a.n() on timeout { break; } on any { x = 1; } } return 1;",
];

/// Bodies of a test, the rule that each breaks first, and the number of the statement.
const TESTS: [(&str, CheckRule, u32); 14] = [
    ("return 1;", CheckRule::MethodOnly, 1),
    ("return x;", CheckRule::MethodOnly, 1),
    ("let x = 1; fail timeout;", CheckRule::MethodOnly, 2),
    ("assert 1;", CheckRule::WrongKind, 1),
    ("assert x;", CheckRule::UnknownName, 1),
    ("assert injected_on z;", CheckRule::UnknownCallee, 1),
    ("assert injected_on price.z;", CheckRule::UnknownCallee, 1),
    (
        "assert 1 == injected or injected_on z;",
        CheckRule::WrongKind,
        1,
    ),
    (
        "assert (injected_on price or x) and 1;",
        CheckRule::UnknownName,
        1,
    ),
    (
        "let r = 0; call r = price.total(1);",
        CheckRule::UnknownCallee,
        2,
    ),
    (
        "let r = 0; call r = price.get(1, 2);",
        CheckRule::WrongCount,
        2,
    ),
    (
        "let r = true; call r = price.get(1);",
        CheckRule::WrongKind,
        2,
    ),
    (
        "call r = price.get(1) on any { assert y; }",
        CheckRule::UnknownName,
        1,
    ),
    (
        "let r = 0; call r = price.get(1) on any { break; } assert y;",
        CheckRule::BreakOutside,
        3,
    ),
];

const SHOP: &str =
    "service price { method get(id: int) -> int { return id * 10; } } service empty {} service cart { method total(id: int) -> int { let p = 0; call p = price.get(id) on any { call p = cart.none(true); p = 5; } call p = price.get(p); return p; } method none(b: bool) -> int { return 0; } }";

/// What the check of services says, where the text parses.
pub(crate) fn checked_services(alloc: Global, text: &str) -> Option<Result<Program, CheckError>> {
    if text.len() > 1_048_576 {
        return None;
    }
    match parse_services(alloc, text.as_bytes()) {
        Ok(services) => Some(check_services(alloc, services)),
        Err(_) => None,
    }
}

pub(crate) fn checked_test(
    alloc: Global,
    program: &Program,
    text: &str,
) -> Option<Result<CheckedTest, CheckError>> {
    if text.len() > 1_048_576 {
        return None;
    }
    match parse_test(alloc, text.as_bytes()) {
        Ok(test) => Some(check_test(alloc, program, test)),
        Err(_) => None,
    }
}

/// Whether this rule is the first that is broken, and this its place.
pub(crate) fn is_refused<T: Drop>(
    found: Option<Result<T, CheckError>>,
    told: &CheckRule,
    at: (u32, u32, u32),
) -> bool {
    match found {
        Some(Err(CheckError::Refused { place, rule })) => {
            rule == *told && (place.service, place.method, place.statement) == at
        }
        _ => false,
    }
}

fn refuses_body(alloc: Global, case: &(&str, CheckRule, u32)) -> Result<bool, AllocError> {
    let (body, rule, statement) = case;
    let text = format!(in alloc; "service a {{ method m() -> int {{ {body} }} }}")?;
    let found = checked_services(alloc, text.as_str());
    Ok(is_refused(found, rule, (1, 1, *statement)))
}

fn accepts_body(alloc: Global, body: &str) -> Result<bool, AllocError> {
    let text = format!(in alloc;
        "service a {{ method m() -> int {{ {body} }} method n() -> int {{ return 1; }} }}"
    )?;
    Ok(matches!(checked_services(alloc, text.as_str()), Some(Ok(_))))
}

fn refuses_test(
    alloc: Global,
    program: &Program,
    case: &(&str, CheckRule, u32),
) -> Result<bool, AllocError> {
    let (body, rule, statement) = case;
    let text = format!(in alloc; "test t {{ {body} }}")?;
    let found = checked_test(alloc, program, text.as_str());
    Ok(is_refused(found, rule, (0, 0, *statement)))
}

#[test]
fn refuses_services(rt: HostRuntime) {
    let alloc = rt.alloc();
    assert_eq!(rt;
        SERVICES.iter().position(|(text, rule, place)| {
            !is_refused(checked_services(alloc, text), rule, *place)
        }),
        None
    );
}

#[test]
fn refuses_bodies(rt: HostRuntime) {
    let alloc = rt.alloc();
    assert_eq!(rt;
        BODIES
            .iter()
            .position(|case| !matches!(refuses_body(alloc, case), Ok(true))),
        None
    );
}

#[test]
fn accepts_bodies(rt: HostRuntime) {
    let alloc = rt.alloc();
    assert_eq!(rt;
        ACCEPTED
            .iter()
            .position(|body| !matches!(accepts_body(alloc, body), Ok(true))),
        None
    );
}

/// The accepted services of `SHOP`.
pub(crate) fn shop(alloc: Global) -> Option<Program> {
    match checked_services(alloc, SHOP) {
        Some(Ok(program)) => Some(program),
        _ => None,
    }
}

/// The first test that isn't refused as told.
fn first_not_refused(alloc: Global) -> Option<usize> {
    let Some(program) = shop(alloc) else {
        return Some(0);
    };
    TESTS.iter().position(|case| !matches!(refuses_test(alloc, &program, case), Ok(true)))
}

#[test]
fn refuses_tests(rt: HostRuntime) {
    assert_eq!(rt; first_not_refused(rt.alloc()), None);
}

pub(crate) fn name(text: &str) -> Option<Name> {
    Name::read(text.as_bytes()).ok()
}
