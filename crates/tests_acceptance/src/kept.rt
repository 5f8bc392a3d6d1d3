//! Tests of what is kept of accepted sources.

use crate::refusals::{checked_services, checked_test, name, shop};
use fb_base::{Kind, MethodId};
use fb_check::*;
use std::alloc::Global;

/// Whether what is told of each method by its number is found by its name.
fn all_join(program: &Program) -> bool {
    for id in 0..program.count() {
        let method = MethodId(id);
        let named = program.name_of(method);
        let tree = program.method_tree(method);
        if program.method_named(&named.service, &named.method) != Some(method)
            || program.service_named(&named.service) != Some(program.service_of(method))
            || tree.name != named.method
            || tree.params.len() != program.params(method).len()
            || program.gives(method) != Kind::Int
        {
            return false;
        }
    }
    true
}

fn finds_by_name(alloc: Global) -> Option<bool> {
    let (cart, none) = (name("cart")?, name("none")?);
    let (empty, get) = (name("empty")?, name("get")?);
    let program = shop(alloc)?;
    if program.count() != 3 {
        return Some(false);
    }
    Some(
        program.params(MethodId(2)) == [Kind::Bool].as_slice()
            && program.service_named(&empty) == Some(2)
            && program.service_named(&cart) == Some(3)
            && program.service_named(&none) == None
            && program.method_named(&cart, &none) == Some(MethodId(2))
            && program.method_named(&none, &cart) == None
            && program.method_named(&cart, &get) == None
            && all_join(&program),
    )
}

#[test]
fn finds_services_and_methods(rt: HostRuntime) {
    assert_eq!(rt; finds_by_name(rt.alloc()), Some(true));
}

fn finds_by_site(alloc: Global) -> Option<bool> {
    let program = shop(alloc)?;
    if program.count() != 3 {
        return Some(false);
    }
    let callees = [None, Some(0), Some(2), Some(0), None];
    for (site, callee) in callees.iter().enumerate() {
        if program.callee_at(MethodId(1), site as u32).map(|m| m.0) != *callee {
            return Some(false);
        }
    }
    Some(program.callee_at(MethodId(0), 1) == None)
}

#[test]
fn finds_callees(rt: HostRuntime) {
    assert_eq!(rt; finds_by_site(rt.alloc()), Some(true));
}

const ASKING: &str =
    "test t { let r = 0; call r = cart.total(2) on any { r = 1; } assert r == 20 or injected or injected_on price or injected_on price.get; }";

fn keeps_test(alloc: Global) -> Option<bool> {
    let wanted = name("t")?;
    let program = shop(alloc)?;
    let Some(Ok(test)) = checked_test(alloc, &program, ASKING) else {
        return None;
    };
    Some(
        test.tree().name == wanted
            && test.tree().body.stmts.len() == 3
            && test.callee_at(0) == None
            && test.callee_at(1) == Some(MethodId(1))
            && test.callee_at(2) == None,
    )
}

#[test]
fn keeps_a_checked_test(rt: HostRuntime) {
    assert_eq!(rt; keeps_test(rt.alloc()), Some(true));
}

/// How many statements, blocks, call sites and asserts an entry has.
type Told = (u32, u32, u32, u32);

fn are_counts(entries: &[Counts], told: &[Told]) -> bool {
    entries.len() == told.len()
        && entries.iter().zip(told).all(|(counts, told)| {
            (
                counts.statements,
                counts.blocks,
                counts.sites,
                counts.asserts,
            ) == *told
        })
}

/// One statement of each kind that a test may have, with what is inside it.
const COUNTED: &str =
    "test t { let x = 0; x = 1; if x == 1 { assert true; } if x == 1 { x = 2; } else { call x = price.get(1); } repeat 2 { for i in list<int>[1] { break; } } call x = price.get(1) on timeout { x = 3; assert true; } on any { } }";

const COUNTS: [Told; 20] = [
    (1, 0, 0, 0), // let
    (1, 0, 0, 0), // x = 1
    (2, 1, 0, 1), // if
    (1, 1, 0, 1), // its block
    (1, 0, 0, 1), // assert
    (3, 2, 1, 0), // if with else
    (1, 1, 0, 0), // its block
    (1, 0, 0, 0), // x = 2
    (1, 1, 1, 0), // its else
    (1, 0, 1, 0), // call
    (3, 2, 0, 0), // repeat
    (2, 2, 0, 0), // its block
    (2, 1, 0, 0), // for
    (1, 1, 0, 0), // its block
    (1, 0, 0, 0), // break
    (3, 2, 1, 1), // call with handlers
    (2, 1, 0, 1), // the first
    (1, 0, 0, 0), // x = 3
    (1, 0, 0, 1), // assert
    (0, 1, 0, 0), // the second
];

/// The statements that only a method may have.
const ANSWERING: &str =
    "service a { method m() -> int { if true { return 1; } else { fail no_way; } } }";

const ANSWERS: [Told; 5] = [
    (3, 2, 0, 0), // if with else
    (1, 1, 0, 0), // its block
    (1, 0, 0, 0), // return
    (1, 1, 0, 0), // its else
    (1, 0, 0, 0), // fail
];

fn counts_bodies(alloc: Global) -> Option<bool> {
    let program = shop(alloc)?;
    let Some(Ok(test)) = checked_test(alloc, &program, COUNTED) else {
        return None;
    };
    let Some(Ok(answering)) = checked_services(alloc, ANSWERING) else {
        return None;
    };
    if answering.count() == 0 {
        return None;
    }
    let counts = answering.counts(MethodId(0));
    Some(are_counts(test.counts(), &COUNTS) && are_counts(counts, &ANSWERS))
}

#[test]
fn counts_what_stands_in_bodies(rt: HostRuntime) {
    assert_eq!(rt; counts_bodies(rt.alloc()), Some(true));
}
