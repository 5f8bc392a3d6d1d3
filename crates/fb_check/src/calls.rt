//! The check of calls: no method calls itself through calls, and no chain of calls is too deep.
ghost use Rattle.std.specs.Prelude.{◌≡◌, ◌==◌, ◌<◌, ◌^◌, [], ◌∷◌, ◌++◌, length, map, slice_get, IfOk, OnOk};
ghost use Rattle.std.specs.List.{position_from};
ghost use Rattle.fb_graph.specs.FirstCycle.{first_cycle};
ghost use Rattle.fb_check.specs.declared.error.CheckError.TheVariants.{Refused};
ghost use Rattle.fb_check.specs.Calls.{rank_limit, known_callees, first_deep, AreRanks};
ghost use Rattle.fb_check.specs.FirstRefusal.{Tells, place_of, names_of, cycle_check};

use crate::body_tables::BodyTables;
use crate::declarations::Declarations;
use crate::error::{CheckError, CheckRule};
use crate::place::Place;
use fb_base::{List, MethodName};
use fb_graph::{CallGraph, Cycle, chains_are_tested, chains_end, first_cycle_is_first};
use std::alloc::{AllocError, Global};

/// The rank of each method of accepted services is below this.
const RANK_LIMIT: u32 = 32;

fn known_callees(alloc: Global, callees: &[Option<u32>]) -> Result<List<u32>, AllocError>
    ensures { IfOk result (λ known. known ≡ known_callees callees.now) }
{
    let mut known = List::new(alloc);
    for callee in callees {
        if let Some(callee) = callee {
            known.push(*callee)?;
        }
    }
    Ok(known)
}

/// The graph of the calls that bodies make.
pub fn graph_of(alloc: Global, bodies: &[BodyTables]) -> Result<CallGraph, AllocError>
    requires { length bodies.now < 2 ^ 32 }
    ensures { IfOk result (λ graph. graph ≡ map (λ body. known_callees body.callees) bodies.now) }
{
    let mut graph = List::new(alloc);
    for body in bodies {
        graph.push(known_callees(alloc, body.callees.as_slice())?)?;
    }
    Ok(CallGraph::of(graph))
}

/// The first method whose rank isn't below the limit.
fn first_at_limit(ranks: &[u32]) -> Option<usize>
    ensures { result ≡ position_from (λ rank. rank == rank_limit) 0 ranks.now }
{
    ranks.iter().position(|rank| *rank == RANK_LIMIT)
}

/// A rule that is broken at a method, by its number.
fn refused_at(declared: &Declarations, method: usize, rule: CheckRule) -> CheckError
    ensures { result ≡ Refused (place_of (slice_get declared.now.methods method)) rule }
{
    let place = match declared.methods.as_slice().get(method) {
        Some(signature) => Place {
            service: signature.service,
            method: signature.method,
            statement: 0,
        },
        None => Place {
            service: 0,
            method: 0,
            statement: 0,
        },
    };
    CheckError::Refused { place, rule }
}

fn add_name(
    declared: &Declarations,
    method: u32,
    names: &mut List<MethodName>,
) -> Result<(), AllocError>
    ensures { OnOk result (names.new ≡ names.old ++ names_of declared.now (method ∷ [])) }
{
    match declared.methods.get(method) {
        Some(signature) => names.push(signature.name),
        None => Ok(()),
    }
}

/// The names of the methods on a cycle.
fn names_of(
    alloc: Global,
    declared: &Declarations,
    cycle: &Cycle,
) -> Result<List<MethodName>, AllocError>
    ensures { IfOk result (λ names. names ≡ names_of declared.now (cycle.now.first ∷ cycle.now.through)) }
{
    let mut names = List::new(alloc);
    add_name(declared, cycle.first, &mut names)?;
    for method in cycle.through.as_slice() {
        add_name(declared, *method, &mut names)?;
    }
    Ok(names)
}

/// The rank of each method, where there is no cycle and no chain of calls is too deep.
///
/// A cycle is only sought where some rank isn't below the limit: elsewhere there is none.
pub fn calls_check(
    alloc: Global,
    declared: &Declarations,
    graph: &CallGraph,
) -> Result<List<u32>, CheckError>
    ensures told { Tells result (cycle_check declared.now (first_cycle graph.now) (first_deep graph.now)) }
    ensures ranks { IfOk result (AreRanks graph.now) }
{
    chains_are_tested();
    chains_end();
    first_cycle_is_first();
    let ranks = graph.ranks(alloc, RANK_LIMIT)?;
    let Some(deep) = first_at_limit(ranks.as_slice()) else {
        return Ok(ranks);
    };
    if let Some(cycle) = graph.first_cycle(alloc)? {
        let names = names_of(alloc, declared, &cycle)?;
        let rule = CheckRule::Cycle(names);
        return Err(refused_at(declared, cycle.first as usize, rule));
    }
    Err(refused_at(declared, deep, CheckRule::TooDeepCalls))
}
