//! What the store tells of the calls of a plan's run.
ghost use Rattle.std.specs.Prelude.{◌≡◌, ◌≤◌, false};
ghost use Rattle.fb_transport.specs.Sources.{Answers, MayForward};
ghost use Rattle.fb_eval.specs.Units.{most_units};
ghost use Rattle.fb_stitch.specs.Sources.{AreTrueOf, stitched_source};
ghost use Rattle.fb_stitch.specs.Finding.{stitched_by};

use crate::found::Found;
use crate::walks::Walks;
use fb_base::{MethodId, Value};
use fb_check::Program;
use fb_index::{Index, Plan};
use fb_meaning::{calls_are_decided, decisions_make_the_run, more_fuel_same_run};
use fb_store::Store;
use fb_transport::{Decision, Halt, Transport};
use std::alloc::Global;
use std::marker::Model;

/// Answers each call by the records of a store, and evaluates nothing.
///
/// Where the plan has a fault, that is the answer. Elsewhere it is the reply of the callee under the plan, where all its
/// invocations are recorded and take no more steps than the limit.
#[derive(Drop)]
pub struct Stitching<'a> {
    program: &'a Program,
    store: &'a Store,
    plan: &'a Plan,
    limit: u64,
}

impl<'a> Model for Stitching<'a> {
    ghost use Rattle.std.specs.Prelude.{◌≤◌};
    ghost use Rattle.fb_eval.specs.Units.{most_units};
    ghost use Rattle.fb_stitch.specs.Sources.{AreTrueOf, Stitches};

    ghost Value = { Stitches };

    ghost use Rattle.std.specs.Coded.{codes};
    ghost use Rattle.fb_syntax.specs.TreeCodes.{coded_services};

    ghost coded = { Prim.hlevel (codes, coded_services) };

    ghost view = { λ s. record { services = s.program.now.tree; records = s.store.now; limit = s.limit; plan = s.plan.now } };

    ghost invariant = { λ s. AreTrueOf s.program.now.tree s.store.now × (s.limit ≤ most_units) };
}

impl<'a> Stitching<'a> {
    /// The answers under a plan, each of at most so many units of fuel.
    pub fn new(program: &'a Program, store: &'a Store, plan: &'a Plan, limit: u64) -> Stitching<'a>
        requires known { AreTrueOf program.now.tree store.now }
        requires small { limit ≤ most_units }
        ensures gives { ⟦<Stitching<'a> as Transport>⟧.gives result ≡ stitched_source program.now.tree store.now limit plan.now }
    {
        Stitching {
            program,
            store,
            plan,
            limit,
        }
    }
}

/// The answer to a call.
fn decide(walks: &Walks, at: &Index, callee: MethodId, args: &[Value]) -> Result<Decision, Halt>
    requires known { AreTrueOf walks.now.program.now.tree walks.now.store.now }
    requires small { walks.now.limit ≤ most_units }
    ensures answers { Answers (stitched_by walks.now at.now callee.0 args.now) result }
    ensures evaluates { MayForward false result }
{
    calls_are_decided();
    decisions_make_the_run();
    more_fuel_same_run();
    walks.proper();
    if let Some(reply) = walks.fault(at, callee, args)? {
        return Ok(Decision::Fault(reply));
    }
    let Some(rank) = walks.rank(callee) else {
        return Err(Halt::Missing);
    };
    let mut found = Found::new(walks.alloc);
    match walks.invocation(&mut found, callee, args, at, rank)? {
        None => Err(Halt::Missing),
        Some(reply) => Ok(Decision::Known {
            reply,
            steps: found.steps,
            injected: found.injected,
        }),
    }
}

impl<'a> Transport for Stitching<'a> {
    ghost use Rattle.std.specs.Prelude.{false};
    ghost use Rattle.fb_stitch.specs.Sources.{stitched_source};

    ghost gives = { λ s. stitched_source s.services s.records s.limit s.plan };

    ghost forwards = { λ s. false };

    fn begin(
        &mut self,
        alloc: Global,
        at: &Index,
        callee: MethodId,
        args: &[Value],
    ) -> Result<Decision, Halt> {
        let walks = Walks {
            alloc,
            program: self.program,
            store: self.store,
            plan: self.plan,
            limit: self.limit,
        };
        decide(&walks, at, callee, args)
    }
}
