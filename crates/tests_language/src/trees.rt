//! Tests of the trees of whole texts.

use fb_base::Kind;
use fb_syntax::*;
use std::alloc::Global;
use std::process::Abort;
use std::test::*;

const STOCK: &[u8] =
    b"service stock { method all(a: list<int>, b: text) -> list<bool> { return b; } method none() -> list<text> { } } service empty { }";

const ORDER: &[u8] =
    b"test order { let x = 0; if x == 1 { x = 2; } else { break; } for y in z { repeat 3 { assert y; } } call x = s.m(y, 2) on late { fail late; } on any { return x; } }";

/// Whether it has this name, parameters of these kinds, and gives this kind.
fn is_method(method: &Method, name: &[u8], kinds: &[Kind], gives: Kind) -> bool {
    method.name.bytes() == name
        && method.gives == gives
        && method.params.len() == kinds.len()
        && method
            .params
            .iter()
            .zip(kinds)
            .all(|(param, kind)| param.kind == *kind)
}

fn is_stock(services: &Services) -> bool {
    match services.list.as_slice() {
        [stock, empty] => match stock.methods.as_slice() {
            [all, none] => {
                stock.name.bytes() == b"stock".as_slice()
                    && empty.name.bytes() == b"empty".as_slice()
                    && empty.methods.is_empty()
                    && is_method(all, b"all", &[Kind::Ints, Kind::Text], Kind::Bools)
                    && is_method(none, b"none", &[], Kind::Texts)
            }
            _ => false,
        },
        _ => false,
    }
}

fn is_choice(stmt: &Stmt) -> bool {
    match stmt {
        Stmt::If {
            cond: Expr::Compare { .. },
            yes,
            no: Some(no),
        } => {
            matches!(yes.stmts.as_slice(), [Stmt::Assign { .. }])
                && matches!(no.stmts.as_slice(), [Stmt::Break])
        }
        _ => false,
    }
}

fn is_loop(stmt: &Stmt) -> bool {
    let Stmt::For { name, body, .. } = stmt else {
        return false;
    };
    match body.stmts.as_slice() {
        [Stmt::Repeat { times, body }] => {
            name.bytes() == b"y".as_slice()
                && *times == 3
                && matches!(body.stmts.as_slice(), [Stmt::Assert { .. }])
        }
        _ => false,
    }
}

fn is_call(stmt: &Stmt) -> bool {
    let Stmt::Call {
        service,
        method,
        args,
        handlers,
        ..
    } = stmt
    else {
        return false;
    };
    match handlers.as_slice() {
        [
            Handler {
                code: Some(late),
                body: first,
            },
            Handler {
                code: None,
                body: last,
            },
        ] => {
            service.bytes() == b"s".as_slice()
                && method.bytes() == b"m".as_slice()
                && matches!(args.as_slice(), [Expr::Var(_), Expr::Int(2)])
                && late.bytes() == b"late".as_slice()
                && matches!(first.stmts.as_slice(), [Stmt::Fail { .. }])
                && matches!(last.stmts.as_slice(), [Stmt::Return { .. }])
        }
        _ => false,
    }
}

fn is_order(test: &Test) -> bool {
    match test.body.stmts.as_slice() {
        [Stmt::Let { name, .. }, choice, each, call] => {
            test.name.bytes() == b"order".as_slice()
                && name.bytes() == b"x".as_slice()
                && is_choice(choice)
                && is_loop(each)
                && is_call(call)
        }
        _ => false,
    }
}

#[test]
fn reads_services(rt: HostRuntime) {
    assert!(rt; parse_services(rt.alloc(), STOCK).is_ok_and(|services| is_stock(&services)));
}

#[test]
fn reads_a_test(rt: HostRuntime) {
    assert!(rt; parse_test(rt.alloc(), ORDER).is_ok_and(|test| is_order(&test)));
}
