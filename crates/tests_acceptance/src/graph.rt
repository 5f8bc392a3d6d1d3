//! Tests over small graphs, and over some long and large ones.
ghost use Rattle.std.specs.Prelude.{◌≡◌};

use fb_base::List;
use fb_graph::*;
use std::alloc::{AllocError, Global};

/// A graph, its first cycle with the first method at the front, none where that is empty, and its ranks up to 32.
#[derive(Clone, Copy)]
struct Case<'a> {
    callees: &'a [&'a [u32]],
    cycle: &'a [u32],
    ranks: &'a [u32],
}

fn graph_of(alloc: Global, callees: &[&[u32]]) -> Result<CallGraph, AllocError> {
    let mut lists = List::new(alloc);
    for called in callees {
        lists.push(List::of(Vec::from_slice(alloc, called)?))?;
    }
    numbered(lists)
}

fn numbered(callees: List<List<u32>>) -> Result<CallGraph, AllocError> {
    if callees.len() > u32::MAX as usize {
        return Err(AllocError);
    }
    Ok(CallGraph::of(callees))
}

fn has_cycle(alloc: Global, graph: &CallGraph, cycle: &[u32]) -> Result<bool, AllocError> {
    let found = graph.first_cycle(alloc)?;
    Ok(match (found, cycle) {
        (None, []) => true,
        (Some(found), [first, through @ ..]) => {
            found.first == *first && found.through.as_slice() == through
        }
        _ => false,
    })
}

fn is_as_told(alloc: Global, case: &Case) -> Result<bool, AllocError> {
    let graph = graph_of(alloc, case.callees)?;
    let ranks = graph.ranks(alloc, 32)?;
    Ok(ranks.as_slice() == case.ranks && has_cycle(alloc, &graph, case.cycle)?)
}

#[test]
fn small_graphs(rt: HostRuntime) {
    let alloc = rt.alloc();
    let cases = [
        // no methods, and one
        Case {
            callees: &[],
            cycle: &[],
            ranks: &[],
        },
        Case {
            callees: &[&[]],
            cycle: &[],
            ranks: &[0],
        },
        // a self call
        Case {
            callees: &[&[0]],
            cycle: &[0],
            ranks: &[32],
        },
        // a diamond
        Case {
            callees: &[&[1, 2, 1], &[3], &[3], &[]],
            cycle: &[],
            ranks: &[2, 1, 1, 0],
        },
        // two cycles of one length, apart at once and only later
        Case {
            callees: &[&[3, 1, 2], &[0], &[0], &[0]],
            cycle: &[0, 1],
            ranks: &[32, 32, 32, 32],
        },
        Case {
            callees: &[&[1, 1], &[3, 2], &[0], &[0]],
            cycle: &[0, 1, 2],
            ranks: &[32, 32, 32, 32],
        },
        // a shorter one later
        Case {
            callees: &[&[1, 3], &[2], &[0], &[0]],
            cycle: &[0, 3],
            ranks: &[32, 32, 32, 32],
        },
        // a cycle not through the first method, and one of a later method
        Case {
            callees: &[&[2, 3], &[], &[3], &[2], &[4]],
            cycle: &[2, 3],
            ranks: &[32, 0, 32, 32, 32],
        },
        // a method between two cycles
        Case {
            callees: &[&[2], &[0, 1], &[3], &[2]],
            cycle: &[1],
            ranks: &[32, 32, 32, 32],
        },
        // a number beyond the last method
        Case {
            callees: &[&[1], &[7]],
            cycle: &[],
            ranks: &[2, 1],
        },
    ];
    assert_eq!(rt;
        cases
            .iter()
            .position(|case| !matches!(is_as_told(alloc, case), Ok(true))),
        None
    );
}

/// So many that a search from each would take minutes.
const LARGE: u32 = 131_072;

/// No method.
const NONE: u32 = u32::MAX;

/// What each of so many methods calls.
#[derive(Clone, Copy)]
enum Rule {
    /// The next.
    Chain,
    /// Diamonds one below another: each third method calls two, and both call the next third.
    Ladder,
    /// Four of those behind it, as if by chance.
    Web,
    /// The next, and the last the first.
    Ring,
    /// The next, and the last itself.
    Tail,
    /// The next, the last but two and the last the last, and the last but one itself and the first.
    Between,
}

fn callees_by(rule: Rule, method: u32) -> [u32; 4] {
    let next = method.wrapping_add(1);
    match rule {
        Rule::Chain => [next, NONE, NONE, NONE],
        Rule::Ladder => ladder(method),
        Rule::Web => [
            later(method, 0),
            later(method, 4_099),
            later(method, 8_209),
            later(method, 12_289),
        ],
        Rule::Ring => [next % LARGE, NONE, NONE, NONE],
        Rule::Tail => [next.min(LARGE - 1), NONE, NONE, NONE],
        Rule::Between => between(method),
    }
}

fn ladder(method: u32) -> [u32; 4] {
    let next = method.wrapping_add(1);
    let second = method.wrapping_add(2);
    match method % 3 {
        0 => [next, second, NONE, NONE],
        1 => [second, NONE, NONE, NONE],
        _ => [next, NONE, NONE, NONE],
    }
}

/// One of the methods behind this one.
fn later(method: u32, seed: u32) -> u32 {
    let behind = LARGE.saturating_sub(method);
    if behind < 2 {
        return NONE;
    }
    let chance = method.wrapping_mul(7_919).wrapping_add(seed) % (behind - 1);
    method.wrapping_add(1).wrapping_add(chance)
}

fn between(method: u32) -> [u32; 4] {
    match LARGE.wrapping_sub(method) {
        2 => [method, 0, NONE, NONE],
        1 | 3 => [LARGE - 1, NONE, NONE, NONE],
        _ => [method.wrapping_add(1), NONE, NONE, NONE],
    }
}

fn graph_by(alloc: Global, rule: Rule, len: u32) -> Result<CallGraph, AllocError> {
    let mut lists = List::new(alloc);
    for method in 0..len {
        lists.push(called_of(alloc, callees_by(rule, method), len)?)?;
    }
    numbered(lists)
}

/// Those that are methods.
fn called_of(alloc: Global, callees: [u32; 4], len: u32) -> Result<List<u32>, AllocError> {
    let mut called = List::new(alloc);
    for callee in callees {
        if callee < len {
            called.push(callee)?;
        }
    }
    Ok(called)
}

/// A rule for so many methods, the first method on a cycle and how many others its cycle has, and the rank up to 32 of
/// the first method.
#[derive(Clone, Copy)]
struct LongCase {
    rule: Rule,
    len: u32,
    cycle: Option<(u32, usize)>,
    rank: u32,
}

fn is_long_as_told(alloc: Global, case: &LongCase) -> Result<bool, AllocError> {
    let graph = graph_by(alloc, case.rule, case.len)?;
    let ranks = graph.ranks(alloc, 32)?;
    let cycle = graph.first_cycle(alloc)?;
    let told = cycle.map(|cycle| (cycle.first, cycle.through.len()));
    Ok(told == case.cycle && ranks.get(0).copied() == Some(case.rank))
}

fn long(rule: Rule, len: u32, cycle: Option<(u32, usize)>, rank: u32) -> LongCase {
    LongCase {
        rule,
        len,
        cycle,
        rank,
    }
}

#[test]
fn long_graphs(rt: HostRuntime) {
    let cases = [
        long(Rule::Chain, 32, None, 31),
        long(Rule::Chain, 33, None, 32),
        long(Rule::Chain, 34, None, 32),
        long(Rule::Ladder, 46, None, 30),
        long(Rule::Ladder, 91, None, 32),
        long(Rule::Web, LARGE, None, 32),
        long(Rule::Ring, LARGE, Some((0, 131_071)), 32),
        // a long way to a cycle, and between two
        long(Rule::Tail, LARGE, Some((131_071, 0)), 32),
        long(Rule::Between, LARGE, Some((131_070, 0)), 32),
    ];
    let alloc = rt.alloc();
    assert_eq!(rt;
        cases
            .iter()
            .position(|case| !matches!(is_long_as_told(alloc, case), Ok(true))),
        None
    );
}
