//! Tests of texts that the grammar reads or refuses, and of its limits.

use crate::expressions::{is_refused, repeated};
use fb_base::Kind;
use fb_syntax::*;
use std::alloc::{AllocError, Global};
use std::process::Abort;
use std::test::*;

/// What a text is read as.
#[derive(Clone, Copy)]
enum File {
    Services,
    Test,
}

const METHOD: &[u8] = b"service s { method m() -> int { ";

const TEST: &[u8] = b"test t { ";

/// What stands before and behind the statements of a body.
const BODIES: [(File, &[u8], &[u8]); 2] = [
    (File::Services, METHOD, b"}}"),
    (File::Test, TEST, b"}"),
];

/// No services: a front that fits, and what begins with a token that doesn't, or the end.
const SERVICES: [(&[u8], &[u8]); 26] = [
    (b"", b"method m() -> int { }"),
    (b"", b"test t { }"),
    (b"service s { } ", b"}"),
    (b"service ", b"list { }"),
    (b"service s ", b"( )"),
    (b"service s { ", b"let x = 1;"),
    (b"service s { ", b"service t { }"),
    (b"service s { # open", b""),
    (b"service s { method ", b"any() -> int { }"),
    (b"service s { method m ", b"-> int { }"),
    (b"service s { method m(", b", p: int)"),
    (b"service s { method m(", b"int: int)"),
    (b"service s { method m(p ", b"int)"),
    (b"service s { method m(p: ", b"number)"),
    (b"service s { method m(p: int ", b"q: int)"),
    (b"service s { method m(p: int, ", b") -> int { }"),
    (b"service s { method m() ", b"- > int { }"),
    (b"service s { method m() ", b"{ }"),
    (b"service s { method m() -> ", b"{ }"),
    (b"service s { method m() -> list ", b"{ }"),
    (b"service s { method m() -> list<", b"list<int>> { }"),
    (b"service s { method m() -> list<text", b">= { }"),
    (b"service s { method m() -> int ", b"; }"),
    (b"service s { method m() -> int { } ", b"{ }"),
    (b"service s { method m() -> int { } ", b""),
    (b"service s { method m() -> int { }} ", b"method n() { }"),
];

/// No tests, in the same way.
const TESTS: [(&[u8], &[u8]); 9] = [
    (b"", b""),
    (b"", b"service s { }"),
    (b"test ", b"test { }"),
    (b"test ", b"\"t\" { }"),
    (b"test t ", b"() { }"),
    (b"test t", b""),
    (b"test t { } ", b"{ }"),
    (b"test t { } ", b"test u { }"),
    (b"test t { }", b"}"),
];

/// No statements of a body, in the same way.
const STATEMENTS: [(&[u8], &[u8]); 46] = [
    (b"", b""),
    (b"", b"{ }"),
    (b"", b"1;"),
    (b"", b"else { }"),
    (b"", b"int = 1;"),
    (b"break; ", b")"),
    (b"let ", b"= 1;"),
    (b"let x ", b"1;"),
    (b"let x = ", b";"),
    (b"let x = 1 ", b"}"),
    (b"x ", b"== 1;"),
    (b"x = 1", b", 2;"),
    (b"if ", b"{ }"),
    (b"if a ", b"b { }"),
    (b"if a { b = 1; ", b""),
    (b"if a { } else ", b"if b { }"),
    (b"if a { } else { } ", b"else { }"),
    (b"repeat ", b"n { }"),
    (b"repeat 2 ", b"x = 1;"),
    (b"for ", b"1 in x { }"),
    (b"for x ", b"= y;"),
    (b"for x in ", b"{ }"),
    (b"for x in y ", b";"),
    (b"break ", b"1;"),
    (b"return ", b";"),
    (b"return 1 ", b"}"),
    (b"fail ", b"any;"),
    (b"fail late", b".x;"),
    (b"call ", b"= s.m();"),
    (b"call x", b".m();"),
    (b"call x = ", b"len(x);"),
    (b"call x = s ", b"(1);"),
    (b"call x = s.", b"len(x);"),
    (b"call x = s.m", b";"),
    (b"call x = s.m(", b", 1);"),
    (b"call x = s.m(1 ", b"2);"),
    (b"call x = s.m(1, ", b");"),
    (b"call x = s.m() ", b"}"),
    (b"call x = s.m(); ", b"on any { }"),
    (b"call x = s.m() on any { } ", b";"),
    (b"call x = s.m() on ", b"{ }"),
    (b"call x = s.m() on late", b"; x = 1;"),
    (b"call x = s.m() on any ", b"late { }"),
    (b"call x = s.m() on late { ", b""),
    (b"assert ", b";"),
    (b"assert a", b", b;"),
];

/// Texts that are no text or no tokens, behind a token that no file begins with.
const NO_TOKENS: [(&[u8], ParseWhy); 5] = [
    (b"} \xff", ParseWhy::NotText { offset: 2 }),
    (b"} @ \xe2\x82", ParseWhy::NotText { offset: 6 }),
    (b"} @", ParseWhy::BadToken { offset: 2 }),
    (b"} ) \"open", ParseWhy::BadToken { offset: 4 }),
    (b"} 9223372036854775808", ParseWhy::BadToken { offset: 2 }),
];

/// What opens a block, and where.
const OPENED: [(&[u8], usize); 5] = [
    (b"if a {", 5),
    (b"if a { } else {", 5),
    (b"repeat 2 {", 9),
    (b"for x in y {", 11),
    (b"call x = s.m() on any {", 22),
];

/// Three calls, the second in a handler of the first.
const CALLS: &[u8] =
    b"if a { call x = s.m() on any { call x = s.m(); } } else { for y in z { call x = s.m(); } } ";

const SERVICE: &[u8] = b"service s { ";

const PARAM: &[u8] = b"service s { method m(p: int";

const ARGUMENT: &[u8] = b"test t { call x = s.m(1";

const CALL: &[u8] = b"test t { call x = s.m()";

/// A front, what may follow it so many times, an end, the times, and where the thing stands in it that is then too much.
const LIMITS: [(File, &[u8], &[u8], &[u8], usize, usize); 8] = [
    (File::Services, b"", b"service s { } ", b"", 256, 0),
    (File::Services, SERVICE, b"method m() -> int{}", b"}", 64, 0),
    (File::Services, PARAM, b", p: int", b") -> int { }}", 15, 2),
    (File::Services, METHOD, CALLS, b"}}", 341, 31),
    (File::Test, TEST, CALLS, b"}", 341, 31),
    (File::Test, TEST, b"call x = s.m(); ", b"}", 1024, 0),
    (File::Test, ARGUMENT, b", 1", b"); }", 15, 2),
    (File::Test, CALL, b" on any { }", b"}", 16, 1),
];

/// What stands before 15 further things, one of them, what comes behind the next comma, and whether a thing begins so.
const FURTHER: [(File, &[u8], &[u8], &[u8], bool); 9] = [
    (File::Services, PARAM, b", p: int", b"p: int", true),
    (File::Services, PARAM, b", p: int", b"int: int", false),
    (File::Services, PARAM, b", p: int", b")", false),
    (File::Test, ARGUMENT, b", 1", b"x", true),
    (File::Test, ARGUMENT, b", 1", b"-1", true),
    (File::Test, ARGUMENT, b", 1", b"(", true),
    (File::Test, ARGUMENT, b", 1", b")", false),
    (File::Test, ARGUMENT, b", 1", b"int", false),
    (File::Test, ARGUMENT, b", 1", b"", false),
];

/// Reads a text, and keeps no tree.
fn read(alloc: Global, file: File, text: &[u8]) -> Result<(), ParseError> {
    if 1_048_576 < text.len() {
        return Err(ParseError::Memory);
    }
    match file {
        File::Services => parse_services(alloc, text).map(|_services| ()),
        File::Test => parse_test(alloc, text).map(|_test| ()),
    }
}

/// Whether the rest isn't wanted behind what stands before it.
fn stops_at(
    alloc: Global,
    file: File,
    before: &[u8],
    front: &[u8],
    rest: &[u8],
) -> Result<bool, AllocError> {
    let text = repeated(alloc, before, front, rest, b"", 1)?;
    let offset = (before.len() + front.len()) as u64;
    let parsed = read(alloc, file, text.as_slice());
    Ok(is_refused(parsed, ParseWhy::Unexpected { offset }))
}

#[test]
fn refuses_files(rt: HostRuntime) -> Result<(), Fail> {
    for (front, rest) in SERVICES {
        assert!(rt; stops_at(rt.alloc(), File::Services, b"", front, rest)?);
    }
    for (front, rest) in TESTS {
        assert!(rt; stops_at(rt.alloc(), File::Test, b"", front, rest)?);
    }
    Ok(())
}

#[test]
fn refuses_statements(rt: HostRuntime) -> Result<(), Fail> {
    for (file, before, _) in BODIES {
        for (front, rest) in STATEMENTS {
            assert!(rt; stops_at(rt.alloc(), file, before, front, rest)?);
        }
    }
    Ok(())
}

#[test]
fn refuses_what_is_no_token_first(rt: HostRuntime) {
    for (text, why) in NO_TOKENS {
        assert!(rt; is_refused(read(rt.alloc(), File::Services, text), why));
        assert!(rt; is_refused(read(rt.alloc(), File::Test, text), why));
    }
}

#[test]
fn opens_32_blocks_at_most(rt: HostRuntime) -> Result<(), Fail> {
    for (file, front, end) in BODIES {
        for (open, at) in OPENED {
            let mut fits = repeated(rt.alloc(), front, open, b"", b"}", 31)?;
            fits.extend_from_slice(end)?;
            assert!(rt; read(rt.alloc(), file, fits.as_slice()).is_ok());
            let deep = repeated(rt.alloc(), front, open, b"", b"", 32)?;
            let offset = (front.len() + 31 * open.len() + at) as u64;
            let parsed = read(rt.alloc(), file, deep.as_slice());
            assert!(rt; is_refused(parsed, ParseWhy::TooDeep { offset }));
        }
    }
    Ok(())
}

#[test]
fn counts_things(rt: HostRuntime) -> Result<(), Fail> {
    for (file, front, more, end, times, at) in LIMITS {
        let fits = repeated(rt.alloc(), front, more, end, b"", times)?;
        assert!(rt; read(rt.alloc(), file, fits.as_slice()).is_ok());
        let many = repeated(rt.alloc(), front, more, end, b"", times + 1)?;
        let offset = (front.len() + times * more.len() + at) as u64;
        let parsed = read(rt.alloc(), file, many.as_slice());
        assert!(rt; is_refused(parsed, ParseWhy::TooMany { offset }));
    }
    Ok(())
}

#[test]
fn counts_calls_anew_in_each_method(rt: HostRuntime) -> Result<(), Fail> {
    let next = b"} method n() -> int { ";
    let mut text = repeated(rt.alloc(), METHOD, CALLS, next, CALLS, 341)?;
    let mut many = Vec::from_slice(rt.alloc(), text.as_slice())?;
    let offset = (text.len() + 31) as u64;
    text.extend_from_slice(b"}}")?;
    assert!(rt; read(rt.alloc(), File::Services, text.as_slice()).is_ok());
    many.extend_from_slice(CALLS)?;
    let parsed = read(rt.alloc(), File::Services, many.as_slice());
    assert!(rt; is_refused(parsed, ParseWhy::TooMany { offset }));
    Ok(())
}

#[test]
fn a_further_thing_is_refused_by_what_it_is(rt: HostRuntime) -> Result<(), Fail> {
    for (file, front, more, rest, begins) in FURTHER {
        let mut text = repeated(rt.alloc(), front, more, b", ", b"", 15)?;
        let offset = text.len() as u64;
        text.extend_from_slice(rest)?;
        let why = match begins {
            true => ParseWhy::TooMany { offset },
            false => ParseWhy::Unexpected { offset },
        };
        assert!(rt; is_refused(read(rt.alloc(), file, text.as_slice()), why));
    }
    Ok(())
}

#[test]
fn repeats_1000_times_at_most(rt: HostRuntime) {
    let most = read(rt.alloc(), File::Test, b"test t { repeat 1000 { } }");
    assert!(rt; most.is_ok());
    let more = read(rt.alloc(), File::Test, b"test t { repeat 1001 { } }");
    assert!(rt; is_refused(more, ParseWhy::TooMany { offset: 16 }));
}
