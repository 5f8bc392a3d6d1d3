//! Values at their limits, and what faults beyond.

use crate::bodies::ending;
use std::alloc::Global;

/// What faults where `t` is a text of 32,768 bytes, `l` a list of 7, and `low` the least int.
const FAULTS: [&str; 13] = [
    "9223372036854775807 + 1",
    "low - 1",
    "3037000500 * 3037000500",
    "-low",
    "1 / 0",
    "low / -1",
    "1 % 0",
    "low % -1",
    "l[1]",
    "l[-1]",
    "t ++ t",
    "list<text>[t, t]",
    "list<text>[t] ++ list<text>[t]",
];

fn faults(alloc: Global, source: &str) -> bool {
    let text = format!(in alloc;
        "test t {{ let t = \"a\"; repeat 15 {{ t = t ++ t; }} let l = list<int>[7]; let low = -9223372036854775807 - 1; let v = {source}; }}"
    );
    let Ok(text) = text else {
        return false;
    };
    match ending(alloc, "", text.as_str(), 100) {
        Some(end) => end.as_str() == "statement 6 faulted by 35, 65 left",
        None => false,
    }
}

/// Whether it faults in a method, which answers so.
fn answers_internal(alloc: Global, source: &str) -> bool {
    let text = format!(in alloc;
        "service f {{ method m() -> int {{ let t = \"a\"; repeat 15 {{ t = t ++ t; }} let l = list<int>[7]; let low = -9223372036854775807 - 1; let v = {source}; return 1; }} }}"
    );
    let Ok(text) = text else {
        return false;
    };
    let test = "test t { let r = 0; call r = f.m() on internal { r = 2; } assert r == 2; }";
    match ending(alloc, text.as_str(), test, 100) {
        Some(end) => end.as_str() == "passed by 4, 61 left",
        None => false,
    }
}

#[test]
fn each_fault_ends_a_test(rt: HostRuntime) {
    assert_eq!(rt;
        FAULTS.iter().position(|source| !faults(rt.alloc(), source)),
        None
    );
}

#[test]
fn each_fault_answers_a_call(rt: HostRuntime) {
    assert_eq!(rt;
        FAULTS
            .iter()
            .position(|source| !answers_internal(rt.alloc(), source)),
        None
    );
}

/// Services, a test, and how it ends with 100 units: an int that is too great, texts at the limit of a value's weight and
/// beyond it, and a list.
const VALUES: [(&str, &str, &str); 3] = [
    (
        "service big { method next(n: int) -> int { return n + 1; } } service top { method ask(n: int) -> int { let v = 0; call v = big.next(n) on internal { v = 7; } return v; } }",
        "test e { let r = 0; call r = top.ask(9223372036854775807); assert r == 7; }",
        "passed by 3, 92 left",
    ),
    (
        "service w { method big(n: int) -> int { let t = \"\"; repeat 16 { t = t ++ t ++ \"a\"; } if n > 0 { t = t ++ \"a\"; } return len(t); } }",
        "test f { let r = 0; call r = w.big(0); assert r == 65535; call r = w.big(1) on internal { r = 1; } assert r == 1; }",
        "passed by 6, 22 left",
    ),
    (
        "service sum { method all(xs: list<int>) -> int { let t = 0; for x in xs { t = t + x; } return t; } }",
        "test i { let r = 0; call r = sum.all(list<int>[1, 2, 3]); assert r == 6; assert len(list<text>[]) == 0; }",
        "passed by 4, 87 left",
    ),
];

fn ends_so(alloc: Global, case: &(&str, &str, &str)) -> bool {
    match ending(alloc, case.0, case.1, 100) {
        Some(end) => end.as_str() == case.2,
        None => false,
    }
}

#[test]
fn values_are_carried_to_their_limits(rt: HostRuntime) {
    assert_eq!(rt;
        VALUES.iter().position(|case| !ends_so(rt.alloc(), case)),
        None
    );
}
