//! Tests of canonical texts.

use fb_print::*;
use fb_syntax::{parse_services, parse_test};
use std::alloc::{AllocError, Global};
use std::process::Abort;
use std::test::*;

/// Services, and their canonical text.
const SERVICES: [(&str, &str); 6] = [
    ("", ""),
    (" # nothing\n", ""),
    (
        "service price{method get(id:int)->int{return id*10;}} # x",
        "service price {\n  method get(id: int) -> int {\n    return id * 10;\n  }\n}\n",
    ),
    (
        "service a{method m()->int{if 1<2{return 1;}else{return (1+2)*3;}}}",
        "service a {\n  method m() -> int {\n    if 1 < 2 {\n      return 1;\n    } else {\n      return (1 + 2) * 3;\n    }\n  }\n}\n",
    ),
    (
        "service a {}\n\n\nservice b { method m() -> bool { } method n() -> text { } }",
        "service a {\n}\nservice b {\n  method m() -> bool {\n  }\n  method n() -> text {\n  }\n}\n",
    ),
    (
        "service cart { method total(ids: list<int>, names: list<text>, open: bool) -> list<bool> { for id in ids { let p = 0; call p = price.get(id, not open) on timeout { p = 5; break; } on any { fail refused; } call p = stock.take(); repeat 0010 { } } return list<bool>[]; } }",
        "service cart {\n  method total(ids: list<int>, names: list<text>, open: bool) -> list<bool> {\n    for id in ids {\n      let p = 0;\n      call p = price.get(id, not open) on timeout {\n        p = 5;\n        break;\n      } on any {\n        fail refused;\n      }\n      call p = stock.take();\n      repeat 10 {\n      }\n    }\n    return list<bool>[];\n  }\n}\n",
    ),
];

/// Expressions, and their canonical text.
const EXPRESSIONS: [(&str, &str); 26] = [
    ("(((1)))", "1"),
    ("007+9223372036854775807", "7 + 9223372036854775807"),
    ("(1+2)*3", "(1 + 2) * 3"),
    ("1+(2*3)", "1 + 2 * 3"),
    ("(1*2)*3", "(1 * 2) * 3"),
    ("1*2*3", "1 * 2 * 3"),
    ("(a-b)-(c-d)", "(a - b) - (c - d)"),
    ("a/(b%c)++d", "a / (b % c) ++ d"),
    ("- - 1", "--1"),
    ("-(-1)", "--1"),
    ("1 - -2", "1 - -2"),
    ("-1*2", "-1 * 2"),
    ("-(1*2)", "-(1 * 2)"),
    ("-x[0]", "-x[0]"),
    ("(-x)[0]", "(-x)[0]"),
    ("(x[0])[(1)]", "(x[0])[1]"),
    ("(1<2)==(3>=4)", "(1 < 2) == (3 >= 4)"),
    ("(1+2)!=(3)", "1 + 2 != 3"),
    ("not(not a)", "not not a"),
    ("not(a==b)", "not a == b"),
    ("(not a)==b", "(not a) == b"),
    ("not(a and b)or c", "not (a and b) or c"),
    ("(a and b)or(c and(d or e))", "a and b or c and (d or e)"),
    ("(a and b)and c", "(a and b) and c"),
    (
        "list<text>[\"\\\"\\\\\\n\\té\",(t)]==list<text>[]",
        "list<text>[\"\\\"\\\\\\n\\té\", t] == list<text>[]",
    ),
    (
        "len((x))<=1 or injected or injected_on s or injected_on s . m",
        "len(x) <= 1 or injected or injected_on s or injected_on s.m",
    ),
];

/// Tests, and their canonical text.
const TESTS: [(&str, &str); 9] = [
    (
        "test one { let r = 0; call r = price.get(2); assert r == 20; }",
        "test one {\n  let r = 0;\n  call r = price.get(2);\n  assert r == 20;\n}\n",
    ),
    (
        "test cart { let r = 0; call r = cart.total(2); assert r == 20 or injected; }",
        "test cart {\n  let r = 0;\n  call r = cart.total(2);\n  assert r == 20 or injected;\n}\n",
    ),
    (
        "test both { let r = 0; call r = front.go(); assert r == 2 or injected; }",
        "test both {\n  let r = 0;\n  call r = front.go();\n  assert r == 2 or injected;\n}\n",
    ),
    (
        "test buy { let r = 0; call r = shop.buy(2); assert r == 20; }",
        "test buy {\n  let r = 0;\n  call r = shop.buy(2);\n  assert r == 20;\n}\n",
    ),
    (
        "test e { let r = 0; call r = top.ask(9223372036854775807); assert r == 7; }",
        "test e {\n  let r = 0;\n  call r = top.ask(9223372036854775807);\n  assert r == 7;\n}\n",
    ),
    (
        "test f { let r = 0; call r = w.big(0); assert r == 65535; call r = w.big(1) on internal { r = 1; } assert r == 1; }",
        "test f {\n  let r = 0;\n  call r = w.big(0);\n  assert r == 65535;\n  call r = w.big(1) on internal {\n    r = 1;\n  }\n  assert r == 1;\n}\n",
    ),
    (
        "test i { let r = 0; call r = sum.all(list<int>[1, 2, 3]); assert r == 6; assert len(list<text>[]) == 0; }",
        "test i {\n  let r = 0;\n  call r = sum.all(list<int>[1, 2, 3]);\n  assert r == 6;\n  assert len(list<text>[]) == 0;\n}\n",
    ),
    (
        "test shop { let r = 0; call r = web.checkout(7, 1, 2) on any { r = -1; } assert r > 0 or injected; }",
        "test shop {\n  let r = 0;\n  call r = web.checkout(7, 1, 2) on any {\n    r = -1;\n  }\n  assert r > 0 or injected;\n}\n",
    ),
    (
        "test trial { let r = 0; call r = s1.m(1); assert r > 0 or injected; }",
        "test trial {\n  let r = 0;\n  call r = s1.m(1);\n  assert r > 0 or injected;\n}\n",
    ),
];

fn printed_services(rt: &impl Abort, alloc: Global, text: &str) -> Result<String, AllocError> {
    assert!(rt; text.len() <= 1_048_576);
    match parse_services(alloc, text.as_bytes()) {
        Ok(services) => print_services(alloc, &services),
        Err(why) => panic!(rt; "{why:?}"),
    }
}

fn printed_test(rt: &impl Abort, alloc: Global, text: &str) -> Result<String, AllocError> {
    assert!(rt; text.len() <= 1_048_576);
    match parse_test(alloc, text.as_bytes()) {
        Ok(test) => print_test(alloc, &test),
        Err(why) => panic!(rt; "{why:?}"),
    }
}

#[test]
fn prints_services(rt: HostRuntime) -> Result<(), Fail> {
    for (source, text) in SERVICES {
        assert_eq!(rt; printed_services(&rt, rt.alloc(), source)?.as_str(), text);
        assert_eq!(rt; printed_services(&rt, rt.alloc(), text)?.as_str(), text);
    }
    Ok(())
}

#[test]
fn prints_tests(rt: HostRuntime) -> Result<(), Fail> {
    for (source, text) in TESTS {
        assert_eq!(rt; printed_test(&rt, rt.alloc(), source)?.as_str(), text);
        assert_eq!(rt; printed_test(&rt, rt.alloc(), text)?.as_str(), text);
    }
    Ok(())
}

#[test]
fn keeps_the_parentheses_that_are_needed(rt: HostRuntime) -> Result<(), Fail> {
    for (source, text) in EXPRESSIONS {
        let test = format!(in rt.alloc(); "test t{{assert {source};}}")?;
        let canonical = format!(in rt.alloc(); "test t {{\n  assert {text};\n}}\n")?;
        assert_eq!(rt;
            printed_test(&rt, rt.alloc(), test.as_str())?.as_str(),
            canonical.as_str()
        );
        assert_eq!(rt;
            printed_test(&rt, rt.alloc(), canonical.as_str())?.as_str(),
            canonical.as_str()
        );
    }
    Ok(())
}
