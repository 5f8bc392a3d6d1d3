//! Tests of expressions.

use fb_base::{Kind, Op2};
use fb_syntax::*;
use std::alloc::{AllocError, Global};
use std::process::Abort;
use std::test::*;

/// Texts of expressions, and how their trees are drawn.
const READ: [(&[u8], &[u8]); 18] = [
    (b"1 + 2 * 3", b"(1 + (2 * 3))"),
    (b"(1 + 2) * 3", b"((1 + 2) * 3)"),
    (b"a - b - c", b"(a - b - c)"),
    (b"a / b % c ++ d", b"((a / b % c) ++ d)"),
    (b"not a and b or c", b"(((not a) and b) or c)"),
    (b"a or b and c or d", b"(a or (b and c) or d)"),
    (b"not not a == b", b"(not (not (a == b)))"),
    (b"-x[0]", b"(- x[0])"),
    (b"- - 1", b"(- (- 1))"),
    (b"(1 < 2) == true", b"((1 < 2) == true)"),
    (b"1 - -2 >= 3", b"((1 - (- 2)) >= 3)"),
    (b"list<int>[]", b"list<int>[]"),
    (b"list<text>[\"a\", t ++ \"#\"]", b"list<text>[a, (t ++ #)]"),
    (b"list<bool>[false]", b"list<bool>[false]"),
    (b"len(t)[0]", b"len(t)[0]"),
    (b"(x[0])[1]", b"x[0][1]"),
    (b"injected_on s.m", b"injected_on s.m"),
    (b"injected_on s or injected", b"(injected_on s or injected)"),
];

/// Texts that are no expression, and where they are refused behind `BEFORE`, which has 17 bytes.
const REFUSED: [(&[u8], ParseWhy); 14] = [
    (b"", ParseWhy::Unexpected { offset: 17 }),
    (b"1 < 2 < 3", ParseWhy::Unexpected { offset: 23 }),
    (b"-not a", ParseWhy::Unexpected { offset: 18 }),
    (b"x[0][1]", ParseWhy::Unexpected { offset: 21 }),
    (b"(1 # open\n", ParseWhy::Unexpected { offset: 27 }),
    (b"1 +", ParseWhy::Unexpected { offset: 20 }),
    (b"list<list>[]", ParseWhy::Unexpected { offset: 22 }),
    (b"list<int>[1,]", ParseWhy::Unexpected { offset: 29 }),
    (b"list<int>[1 2]", ParseWhy::Unexpected { offset: 29 }),
    (b"len t", ParseWhy::Unexpected { offset: 21 }),
    (b"injected_on 1", ParseWhy::Unexpected { offset: 29 }),
    (b"injected_on s.len", ParseWhy::Unexpected { offset: 31 }),
    (b"a and or b", ParseWhy::Unexpected { offset: 23 }),
    (b"if", ParseWhy::Unexpected { offset: 17 }),
];

/// What opens an operand, what closes it, and where the token stands that opens.
const OPENED: [(&[u8], &[u8], usize); 6] = [
    (b"(", b")", 0),
    (b"-", b"", 0),
    (b"not ", b"", 0),
    (b"x[", b"]", 1),
    (b"list<int>[", b"]", 9),
    (b"len(", b")", 3),
];

/// What stands before an expression in a test, and behind it.
const BEFORE: &[u8] = b"test t { let e = ";

const BEHIND: &[u8] = b"; }";

/// A test that has the text as its one expression.
fn parse(alloc: Global, text: &[u8]) -> Result<Test, ParseError> {
    let mut whole = Vec::from_slice(alloc, BEFORE)?;
    whole.extend_from_slice(text)?;
    whole.extend_from_slice(BEHIND)?;
    if 1_048_576 < whole.len() {
        return Err(ParseError::Memory);
    }
    parse_test(alloc, whole.as_slice())
}

/// The expression of such a test.
fn expression(test: &Test) -> Option<&Expr> {
    match test.body.stmts.as_slice() {
        [Stmt::Let { value, .. }] => Some(value),
        _ => None,
    }
}

/// Draws a tree: each operator between its operands, all in parentheses.
#[cycle(draw)]
fn draw(out: &mut Vec<u8>, expr: &Expr) -> Result<(), AllocError> {
    match expr {
        Expr::Int(number) => out.extend_from_slice(digit(*number)),
        Expr::Text(text) => out.extend_from_slice(text.bytes()),
        Expr::Bool(true) => out.extend_from_slice(b"true"),
        Expr::Bool(false) => out.extend_from_slice(b"false"),
        Expr::Var(name) => out.extend_from_slice(name.bytes()),
        Expr::List { base, items } => {
            out.extend_from_slice(base_name(*base))?;
            draw_all(out, items.as_slice(), b", ")?;
            out.extend_from_slice(b"]")
        }
        Expr::Len(inner) => {
            out.extend_from_slice(b"len(")?;
            draw(out, inner)?;
            out.extend_from_slice(b")")
        }
        Expr::At { list, place } => {
            draw(out, list)?;
            out.extend_from_slice(b"[")?;
            draw(out, place)?;
            out.extend_from_slice(b"]")
        }
        Expr::Neg(inner) => {
            out.extend_from_slice(b"(- ")?;
            draw(out, inner)?;
            out.extend_from_slice(b")")
        }
        Expr::Not(inner) => {
            out.extend_from_slice(b"(not ")?;
            draw(out, inner)?;
            out.extend_from_slice(b")")
        }
        Expr::Compare { op, left, right } => {
            out.extend_from_slice(b"(")?;
            draw(out, left)?;
            out.extend_from_slice(op_name(*op))?;
            draw(out, right)?;
            out.extend_from_slice(b")")
        }
        Expr::Chain { first, rest } => {
            out.extend_from_slice(b"(")?;
            draw(out, first)?;
            draw_links(out, rest.as_slice())?;
            out.extend_from_slice(b")")
        }
        Expr::All(items) => {
            out.extend_from_slice(b"(")?;
            draw_all(out, items.as_slice(), b" and ")?;
            out.extend_from_slice(b")")
        }
        Expr::Any(items) => {
            out.extend_from_slice(b"(")?;
            draw_all(out, items.as_slice(), b" or ")?;
            out.extend_from_slice(b")")
        }
        Expr::Injected => out.extend_from_slice(b"injected"),
        Expr::InjectedOn { service, method } => {
            out.extend_from_slice(b"injected_on ")?;
            out.extend_from_slice(service.bytes())?;
            if let Some(method) = method {
                out.extend_from_slice(b".")?;
                out.extend_from_slice(method.bytes())?;
            }
            Ok(())
        }
    }
}

#[cycle(draw)]
fn draw_all(out: &mut Vec<u8>, items: &[Expr], between: &[u8]) -> Result<(), AllocError> {
    let mut first = true;
    for item in items {
        if !first {
            out.extend_from_slice(between)?;
        }
        first = false;
        draw(out, item)?;
    }
    Ok(())
}

#[cycle(draw)]
fn draw_links(out: &mut Vec<u8>, links: &[Link]) -> Result<(), AllocError> {
    for link in links {
        out.extend_from_slice(op_name(link.op))?;
        draw(out, &link.right)?;
    }
    Ok(())
}

fn digit(number: i64) -> &'static [u8] {
    match number {
        0 => b"0",
        1 => b"1",
        2 => b"2",
        3 => b"3",
        _ => b"?",
    }
}

fn base_name(base: Kind) -> &'static [u8] {
    match base {
        Kind::Int => b"list<int>[",
        Kind::Bool => b"list<bool>[",
        Kind::Text => b"list<text>[",
        _ => b"?",
    }
}

fn op_name(op: Op2) -> &'static [u8] {
    match op {
        Op2::Add => b" + ",
        Op2::Sub => b" - ",
        Op2::Mul => b" * ",
        Op2::Div => b" / ",
        Op2::Rem => b" % ",
        Op2::Join => b" ++ ",
        Op2::Eq => b" == ",
        Op2::Ne => b" != ",
        Op2::Lt => b" < ",
        Op2::Le => b" <= ",
        Op2::Gt => b" > ",
        Op2::Ge => b" >= ",
        Op2::At => b"?",
    }
}

/// A text, so many times another, and a last one so many times.
pub fn repeated(
    alloc: Global,
    front: &[u8],
    open: &[u8],
    middle: &[u8],
    close: &[u8],
    count: usize,
) -> Result<Vec<u8>, AllocError> {
    let mut text = Vec::new(alloc);
    text.extend_from_slice(front)?;
    for _ in 0..count {
        text.extend_from_slice(open)?;
    }
    text.extend_from_slice(middle)?;
    for _ in 0..count {
        text.extend_from_slice(close)?;
    }
    Ok(text)
}

pub fn is_refused<T: Drop>(parsed: Result<T, ParseError>, wanted: ParseWhy) -> bool {
    match parsed {
        Err(ParseError::Refused(why)) => why == wanted,
        _ => false,
    }
}

#[test]
fn reads_expressions(rt: HostRuntime) -> Result<(), Fail> {
    for (text, wanted) in READ {
        match parse(rt.alloc(), text) {
            Ok(test) => {
                let mut drawn = Vec::new(rt.alloc());
                if let Some(expr) = expression(&test) {
                    draw(&mut drawn, expr)?;
                }
                assert!(rt; drawn.as_slice() == wanted);
            }
            Err(error) => panic!(rt; "{error:?}"),
        }
    }
    Ok(())
}

#[test]
fn refuses_other_texts(rt: HostRuntime) {
    for (text, why) in REFUSED {
        assert!(rt; is_refused(parse(rt.alloc(), text), why));
    }
}

#[test]
fn opens_32_at_most(rt: HostRuntime) -> Result<(), Fail> {
    for (open, close, at) in OPENED {
        let fits = repeated(rt.alloc(), b"", open, b"x", close, 32)?;
        assert!(rt; parse(rt.alloc(), fits.as_slice()).is_ok());
        let deep = repeated(rt.alloc(), b"", open, b"x", close, 33)?;
        let offset = (BEFORE.len() + 32 * open.len() + at) as u64;
        assert!(rt;
            is_refused(
                parse(rt.alloc(), deep.as_slice()),
                ParseWhy::TooDeep { offset }
            )
        );
    }
    Ok(())
}

#[test]
fn chains_and_lists_have_1024_at_most(rt: HostRuntime) -> Result<(), Fail> {
    let limits: [(&[u8], &[u8], &[u8], u64); 3] = [
        (b"x", b"+x", b"", 2064),
        (b"x", b"*x", b"", 2064),
        (b"list<int>[x", b",x", b"]", 2075),
    ];
    for (front, open, end, offset) in limits {
        let fits = repeated(rt.alloc(), front, open, end, b"", 1023)?;
        assert!(rt; parse(rt.alloc(), fits.as_slice()).is_ok());
        let many = repeated(rt.alloc(), front, open, end, b"", 1024)?;
        assert!(rt;
            is_refused(
                parse(rt.alloc(), many.as_slice()),
                ParseWhy::TooMany { offset }
            )
        );
    }
    let joined = repeated(rt.alloc(), b"x", b" or x", b"", b"", 2000)?;
    assert!(rt; parse(rt.alloc(), joined.as_slice()).is_ok());
    Ok(())
}

#[test]
fn a_further_item_is_refused_by_what_it_is(rt: HostRuntime) -> Result<(), Fail> {
    // 31 are open around the list, whose brackets are the 32nd.
    let mut text = repeated(rt.alloc(), b"", b"(", b"list<int>[", b"", 31)?;
    for _ in 0..1024 {
        text.extend_from_slice(b"x,")?;
    }
    for (item, why) in [
        (b"x".as_slice(), ParseWhy::TooMany { offset: 2106 }),
        (b"-x".as_slice(), ParseWhy::TooDeep { offset: 2106 }),
        (b"]".as_slice(), ParseWhy::Unexpected { offset: 2106 }),
    ] {
        let mut whole = Vec::from_slice(rt.alloc(), text.as_slice())?;
        whole.extend_from_slice(item)?;
        assert!(rt; is_refused(parse(rt.alloc(), whole.as_slice()), why));
    }
    Ok(())
}
