//! How far a body has come.
ghost use Rattle.std.specs.Prelude.{◌≡◌, ◌+◌, ◌<◌, ◌≤◌, ◌++◌, ◌∷◌, [], None, length, ℕ, Some, if◌then◌else◌, IfOk, OnOk};
ghost use Rattle.std.specs.BTreeMap.{get};
ghost use Rattle.std.specs.Ordering.{is_eq, nat_cmp};
ghost use Rattle.fb_check.specs.Programs.{methods_of};
ghost use Rattle.fb_tree.specs.Calls.{calls_at, injected_by};
ghost use Rattle.fb_tree.specs.Views.{view_calls, view_how};
ghost use Rattle.fb_eval.specs.States.{Begins, BeginsMethod, CountsSites, KeepsCall, told_with};

use fb_base::{MethodId, Value};
use fb_check::Program;
use fb_expression::{InjectedCallees, Variables, parameters_differ};
use fb_index::Entry;
use fb_tree::{How, Made, injected_of};
use std::alloc::{AllocError, Global};
use std::collections::BTreeMap;

/// What changes while a body is evaluated.
#[derive(Drop)]
pub(crate) struct Progress {
    pub(crate) variables: Variables,
    /// The first one first.
    pub(crate) calls: Vec<Made>,
    /// How often each site has called, by its number.
    pub(crate) sites: BTreeMap<u32, u32>,
    /// The callees injected so far; none in a method, which can't ask for them.
    pub(crate) injected: Option<InjectedCallees>,
    /// The units that its own statements and turns took.
    pub(crate) steps: u64,
}

impl Progress {
    /// A body that begins with these variables.
    pub(crate) fn new(
        alloc: Global,
        variables: Variables,
        injected: Option<InjectedCallees>,
    ) -> Progress
        ensures { Begins variables injected result }
    {
        Progress {
            variables,
            calls: Vec::new(alloc),
            sites: BTreeMap::new(alloc),
            injected,
            steps: 0,
        }
    }

    /// A method's body that begins with these arguments, which are copied.
    pub(crate) fn of_method(
        alloc: Global,
        program: &Program,
        method: MethodId,
        args: &[Value],
    ) -> Result<Progress, AllocError>
        requires { method.0 < length (methods_of program.now.tree) }
        ensures { IfOk result (λ progress. BeginsMethod program.now.tree method args.now progress) }
    {
        parameters_differ();
        let params = program.method_tree(method).params.as_slice();
        let variables = Variables::of_parameters(alloc, params, args)?;
        Ok(Progress::new(alloc, variables, None))
    }

    /// How often a site has called.
    pub(crate) fn calls_at(&self, site: u32) -> u32
        requires { CountsSites self.now }
        ensures { result ≡ calls_at site (view_calls self.now.calls.items) }
    {
        match self.sites.get(&site) {
            Some(count) => *count,
            None => 0,
        }
    }

    /// Keeps a call that has returned.
    pub(crate) fn keep(&mut self, alloc: Global, made: Made) -> Result<(), AllocError>
        requires sites { CountsSites self.old }
        requires count { made.entry.count ≡ calls_at made.entry.site (view_calls self.old.calls.items) + 1 }
        ensures kept { OnOk result (KeepsCall self.old made self.new) }
        ensures sites { OnOk result (CountsSites self.new) }
    {
        add_injected(alloc, &mut self.injected, &made)?;
        count_call(&mut self.sites, made.entry)?;
        self.calls.push(made)?;
        Ok(())
    }
}

/// A site has called so often.
fn count_call(sites: &mut BTreeMap<u32, u32>, entry: Entry) -> Result<(), AllocError>
    ensures { OnOk result ((site : ℕ) → get nat_cmp sites.new site
        ≡ (if is_eq (nat_cmp entry.site site) then Some entry.count else get nat_cmp sites.old site)) }
{
    sites.insert(entry.site, entry.count)?;
    Ok(())
}

/// Adds the callees of the calls that were injected in a call, where they are asked for.
fn add_injected(
    alloc: Global,
    told: &mut Option<InjectedCallees>,
    made: &Made,
) -> Result<(), AllocError>
    ensures { OnOk result (told.new ≡ told_with told.old made.now) }
{
    match told {
        None => Ok(()),
        Some(injected) => add_by(alloc, injected, made),
    }
}

#[tactic(auto, unfolding(fb_tree::specs::Calls::injected_by, fb_tree::specs::Views::view_how))]
fn add_by(alloc: Global, injected: &mut InjectedCallees, made: &Made) -> Result<(), AllocError>
    ensures { OnOk result (injected.new ≡ injected.old ++ injected_by made.now.callee (view_how made.now.how)) }
{
    match &made.how {
        How::Fault => injected.add(made.callee),
        How::Ran(node) => {
            let below = injected_of(alloc, node)?;
            add_all(injected, below.as_slice())
        }
        How::Known {
            injected: below,
            ..
        } => add_all(injected, below.as_slice()),
    }
}

fn add_all(injected: &mut InjectedCallees, callees: &[MethodId]) -> Result<(), AllocError>
    ensures { OnOk result (injected.new ≡ injected.old ++ callees.now) }
{
    for callee in callees {
        injected.add(*callee)?;
    }
    Ok(())
}
