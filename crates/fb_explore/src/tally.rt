//! What the plan lines of a campaign come to.
ghost use Rattle.std.specs.Prelude.{◌≡◌, ◌+◌, ◌<◌, ◌≤◌, ◌^◌, OnOk, None, Some, if◌then◌else◌};
ghost use Rattle.std.specs.Option.{option_or};
ghost use Rattle.fb_explore.specs.Tallies.{no_plans, totals_by, with_line};

use fb_report::Totals;
use std::alloc::{AllocError, Global};
use std::marker::Model;

/// How many plan lines there are so far, of which sorts, and which failed first.
///
/// It keeps a byte for each line, so that no count passes the end of its type.
#[derive(Drop)]
pub(crate) struct Tally {
    /// Of each line, whether its plan's test has passed.
    passed: Vec<bool>,
    run: u64,
    failed: u64,
    first_failed: Option<u64>,
}

impl Model for Tally {
    ghost use Rattle.std.specs.Prelude.{◌≤◌, length};
    ghost use Rattle.fb_explore.specs.Tallies.{Tallied};

    ghost Value = { Tallied };

    ghost view = { λ t. record { plans = length t.passed.items; run = t.run; failed = t.failed; first_failed = t.first_failed } };

    ghost invariant = { λ t. (t.run ≤ length t.passed.items) × (t.failed ≤ length t.passed.items) };
}

/// The next count where something holds.
fn with_one_if(count: u64, holds: bool) -> u64
    requires { count + 1 < 2 ^ 64 }
    ensures { result ≡ count + (if holds then 1 else 0) }
{
    if holds { count + 1 } else { count }
}

/// The number of the first failed line, once that of another one is known.
fn first_failed(first: Option<u64>, number: u64, passed: bool) -> Option<u64>
    ensures { result ≡ option_or first (if passed then None else Some number) }
{
    match first {
        Some(first) => Some(first),
        None => { if passed { None } else { Some(number) } }
    }
}

impl Tally {
    /// No line yet.
    pub(crate) fn new(alloc: Global) -> Tally
        ensures { result ≡ no_plans }
    {
        Tally {
            passed: Vec::new(alloc),
            run: 0,
            failed: 0,
            first_failed: None,
        }
    }

    /// The number of lines.
    pub(crate) fn plans(&self) -> u64
        ensures { result ≡ self.now.plans }
    {
        self.passed.len() as u64
    }

    /// The number of those whose plans were run.
    pub(crate) fn run(&self) -> u64
        ensures run { result ≡ self.now.run }
        ensures few { self.now.run ≤ self.now.plans }
    {
        self.run
    }

    /// Counts the next line.
    #[tactic(auto, unfolding(crate::specs::Tallies::with_line))]
    pub(crate) fn add(&mut self, is_run: bool, passed: bool) -> Result<(), AllocError>
        ensures { OnOk result (self.new ≡ with_line self.old is_run passed) }
    {
        let number = self.plans();
        self.passed.push(passed)?;
        self.run = with_one_if(self.run, is_run);
        self.failed = with_one_if(self.failed, !passed);
        self.first_failed = first_failed(self.first_failed, number, passed);
        Ok(())
    }

    /// The totals, with so many records.
    pub(crate) fn totals(&self, invs: u64) -> Totals
        ensures { result ≡ totals_by self.now invs }
    {
        let plans = self.plans();
        Totals {
            plans,
            run: self.run,
            pruned: plans - self.run,
            failed: self.failed,
            invs,
            first_failed: self.first_failed,
        }
    }
}
