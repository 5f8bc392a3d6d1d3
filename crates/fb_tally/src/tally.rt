//! Counts of the lines read so far.
ghost use Rattle.std.specs.Prelude.{◌≡◌, ◌+◌, ◌-◌, ◌^◌, ◌<◌, ◌≤◌, ℕ, [], ◌∷◌, ◌++◌, List, Bool, not, is_none};
ghost use Rattle.fb_campaign.specs.Reports.{has_passed};
ghost use Rattle.fb_report.specs.declared.line.Line.{Line as LineOf};
ghost use Rattle.fb_valid.specs.Rules.{IsInPlace};
ghost use Rattle.fb_tally.specs.Decisions.{Decides};
ghost use Rattle.fb_tally.specs.Tallied.{Tallied, tally_of, is_completed, are_totals, is_numbered, one_if, with_line};

use fb_report::{Cause, Line};
use fb_tree::Outcome;
use std::marker::Model;

/// How many plan lines there are, how many of them were run, pruned and failed, and how many inv lines.
#[derive(Debug, Drop, Clone, Copy, PartialEq, Eq)]
pub struct Totals {
    pub plans: u64,
    pub run: u64,
    pub pruned: u64,
    pub failed: u64,
    pub records: u64,
}

/// What the lines read so far tell of places and totals, by the header's version.
#[derive(Drop, Clone, Copy)]
pub struct Tally {
    version: u32,
    plans: u64,
    run: u64,
    failed: u64,
    records: u64,
    ended: bool,
}

impl Model for Tally {
    ghost use Rattle.std.specs.Prelude.{◌≤◌};
    ghost use Rattle.fb_tally.specs.Tallied.{Tallied};

    ghost Value = { Tallied };

    ghost view = { λ t. record { version = t.version; plans = t.plans; run = t.run; failed = t.failed; records = t.records; ended = t.ended } };

    ghost invariant = { λ t. (t.run ≤ t.plans) × (t.failed ≤ t.plans) };

    ghost inverse = { λ t. record { version = t.version; plans = t.plans; run = t.run; failed = t.failed; records = t.records; ended = t.ended } };
}

fn is_completed(cause: Cause) -> bool
    ensures { result ≡ is_completed cause }
{
    match cause {
        Cause::Completed => true,
        Cause::Fuel => false,
        Cause::Budget => false,
    }
}

fn has_failed(outcome: &Outcome) -> bool
    ensures { result ≡ not (has_passed outcome.now) }
{
    match outcome {
        Outcome::Passed => false,
        Outcome::AssertFailed(_) => true,
        Outcome::CallFailed(_, _) => true,
        Outcome::Fault(_) => true,
    }
}

fn one_if(counts: bool) -> u64
    ensures { result ≡ one_if counts }
{
    if counts { 1 } else { 0 }
}

impl Tally {
    /// Of no lines below a header with this version.
    pub fn new(version: u32) -> Tally
        ensures { result ≡ tally_of version [] }
    {
        Tally {
            version,
            plans: 0,
            run: 0,
            failed: 0,
            records: 0,
            ended: false,
        }
    }

    pub fn plans(&self) -> u64
        ensures { result ≡ self.now.plans }
    {
        self.plans
    }

    pub fn records(&self) -> u64
        ensures { result ≡ self.now.records }
    {
        self.records
    }

    /// Whether a line was an end line.
    pub fn has_ended(&self) -> bool
        ensures { result ≡ self.now.ended }
    {
        self.ended
    }

    pub fn totals(&self) -> Totals
        ensures plans { result.plans ≡ self.now.plans }
        ensures run { result.run ≡ self.now.run }
        ensures pruned { result.pruned ≡ self.now.plans - self.now.run }
        ensures failed { result.failed ≡ self.now.failed }
        ensures records { result.records ≡ self.now.records }
    {
        Totals {
            plans: self.plans,
            run: self.run,
            pruned: self.plans - self.run,
            failed: self.failed,
            records: self.records,
        }
    }

    fn are_totals(&self, plans: u64, run: u64, pruned: u64, failed: u64, invs: u64) -> bool
        ensures { result ≡ are_totals self.now plans run pruned failed invs }
    {
        0 < self.plans
            && plans == self.plans
            && run == self.run
            && pruned == self.plans - self.run
            && failed == self.failed
            && invs == self.records
    }

    #[tactic(auto, unfolding(crate::specs::Tallied::is_numbered))]
    fn is_numbered(&self, line: &Line) -> bool
        ensures { result ≡ is_numbered self.now line.now }
    {
        match line {
            Line::Header { .. } => false,
            Line::Inv { id, .. } => *id == self.records,
            Line::Plan { version, id, .. } => *version == self.version && *id == self.plans,
            Line::End {
                cause,
                plans,
                run,
                pruned,
                failed,
                invs,
                stopped,
            } => {
                if is_completed(*cause) && stopped.is_none() {
                    self.are_totals(*plans, *run, *pruned, *failed, *invs)
                } else {
                    false
                }
            }
        }
    }

    /// Whether the line is in its place behind the lines so far.
    pub fn has_place(&self, line: &Line) -> bool
        ensures { (version : ℕ) (lines : List LineOf) → self.now ≡ tally_of version lines → Decides (IsInPlace version lines line.now) result }
    {
        if self.ended {
            return false;
        }
        self.is_numbered(line)
    }

    /// With a line more.
    #[tactic(auto, unfolding(crate::specs::Tallied::with_line))]
    fn with(self, line: &Line) -> Tally
        requires { self.plans + self.records < 2 ^ 64 - 1 }
        ensures { result ≡ with_line self line.now }
    {
        match line {
            Line::Header { .. } => self,
            Line::Inv { .. } => Tally {
                version: self.version,
                plans: self.plans,
                run: self.run,
                failed: self.failed,
                records: self.records + 1,
                ended: self.ended,
            },
            Line::Plan { run, outcome, .. } => Tally {
                version: self.version,
                plans: self.plans + 1,
                run: self.run + one_if(*run),
                failed: self.failed + one_if(has_failed(outcome)),
                records: self.records,
                ended: self.ended,
            },
            Line::End { .. } => Tally {
                version: self.version,
                plans: self.plans,
                run: self.run,
                failed: self.failed,
                records: self.records,
                ended: true,
            },
        }
    }

    /// Counts the next line. The sum that needs room rises by one at most, so a count of all lines bounds it.
    pub fn add(&mut self, line: &Line)
        requires { self.old.plans + self.old.records < 2 ^ 64 - 1 }
        ensures counted { (version : ℕ) (lines : List LineOf) → self.old ≡ tally_of version lines → self.new ≡ tally_of version (lines ++ line.now ∷ []) }
        ensures by_one { self.new.plans + self.new.records ≤ self.old.plans + self.old.records + 1 }
    {
        *self = self.with(line);
    }
}
