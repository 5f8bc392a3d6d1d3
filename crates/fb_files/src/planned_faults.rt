//! Which calls of an object in memory fail.
ghost use Rattle.std.specs.Prelude.{◌≡◌};
ghost use Rattle.fb_base.specs.Count.{NeverFell};
ghost use Rattle.fb_files.specs.PlannedFaults.{unused, fails_next, counted, noted, part_at};

use crate::faults::faults_after;

/// Counts the calls of an object from 1, has those fail whose numbers it was given, and counts the failures. Both
/// counts stand still at u64's greatest value.
#[derive(Drop)]
pub struct PlannedFaults {
    fails: Vec<u64>,
    calls: u64,
    faults: u64,
}

impl PlannedFaults {
    /// No call was made yet.
    pub fn new(fails: Vec<u64>) -> Self
        ensures { result ≡ unused fails }
    {
        PlannedFaults {
            fails,
            calls: 0,
            faults: 0,
        }
    }

    /// Counts a call, and says whether its number is one of those that fail.
    pub fn next_fails(&mut self) -> bool
        ensures answer { result ≡ fails_next self.old }
        ensures count { self.new ≡ counted self.old }
    {
        self.calls = self.calls.saturating_add(1);
        self.fails.contains(&self.calls)
    }

    /// Counts a failure, where the call failed.
    pub fn note(&mut self, failed: bool)
        ensures counted { self.new ≡ noted failed self.old }
        ensures never_fell { NeverFell self.old.faults self.new.faults }
    {
        self.faults = faults_after(self.faults, failed);
    }

    /// How many calls were made.
    pub fn calls(&self) -> u64
        ensures { result ≡ self.now.calls }
    {
        self.calls
    }

    /// How many calls have failed.
    pub fn faults(&self) -> u64
        ensures { result ≡ self.now.faults }
    {
        self.faults
    }
}

/// The number beside this call's: how many of its bytes it adds before it fails. Of two pairs with one number the
/// first counts.
pub(crate) fn part_at(parts: &[(u64, u64)], call: u64) -> u64
    ensures { result ≡ part_at call parts.now }
{
    match parts.iter().find(|part| part.0 == call) {
        Some(part) => part.1,
        None => 0,
    }
}
