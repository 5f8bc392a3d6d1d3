//! Lines in memory.
ghost use Rattle.std.specs.Prelude.{◌≡◌, ◌↔◌, All, [], ◌∷◌, ◌++◌, Some, IfOk, IsErrOf, IsTrue, is_ok, if◌then◌else◌};
ghost use Rattle.fb_base.specs.Count.{NeverFell};
ghost use Rattle.fb_files.specs.PlannedFaults.{unused, after_call};
ghost use Rattle.fb_functest.specs.Reading.{bytes_of};
ghost use Rattle.fb_report.specs.Ranges.{IsInRange};
ghost use Rattle.fb_explore.specs.Kept.{next_put_fails};

use crate::error::PutError;
use crate::lines::Lines;
use fb_base::List;
use fb_files::PlannedFaults;
use fb_report::Line;
use std::alloc::{AllocError, Global};
use std::marker::Model;

/// Lines in memory, which tell their bytes. Puts are counted from 1, also those that are refused memory.
#[derive(Drop)]
pub struct KeptLines {
    lines: List<Line>,
    plan: PlannedFaults,
}

impl Model for KeptLines {
    ghost use Rattle.std.specs.Prelude.{All};
    ghost use Rattle.fb_report.specs.Ranges.{IsInRange};
    ghost use Rattle.fb_explore.specs.Kept.{Kept, IsQuiet};

    ghost Value = { Kept };

    ghost view = { λ k. record { lines = k.lines; plan = k.plan } };

    ghost invariant = { λ k. All IsInRange k.lines × IsQuiet k.plan };
}

impl KeptLines {
    /// No line yet. The puts whose numbers are in `fails` fail, and an error adds nothing.
    pub fn new(alloc: Global, fails: Vec<u64>) -> Result<Self, AllocError>
        ensures lines { IfOk result (λ kept. kept.lines ≡ []) }
        ensures plan { IfOk result (λ kept. kept.plan ≡ unused fails) }
    {
        Ok(KeptLines {
            lines: List::new(alloc),
            plan: PlannedFaults::new(fails),
        })
    }

    /// The lines so far.
    pub fn lines(&self) -> &[Line]
        ensures lines { result.now ≡ self.now.lines }
        ensures in_range { All IsInRange self.now.lines }
        ensures written { ⟦<KeptLines as Lines>⟧.written self.now ≡ Some (bytes_of result.now) }
    {
        self.lines.as_slice()
    }

    /// How many puts have failed: none where none is to fail.
    pub fn faults(&self) -> u64
        ensures count { result ≡ ⟦<KeptLines as Lines>⟧.faults self.now }
        ensures quiet { ⟦<KeptLines as Lines>⟧.rest self.now ≡ [] → result ≡ 0 }
    {
        self.plan.faults()
    }
}

impl Lines for KeptLines {
    ghost use Rattle.std.specs.Prelude.{ℕ, List, Some};
    ghost use Rattle.fb_functest.specs.Reading.{bytes_of};

    ghost written = { λ kept. Some (bytes_of kept.lines) };

    ghost faults = { λ kept. kept.plan.faults };

    ghost Rest = { List ℕ };

    ghost rest = { λ kept. kept.plan.fails.items };

    #[tactic(auto, using(crate::proofs::Keeping::all_and_one))]
    fn put(&mut self, _alloc: Global, line: Line) -> Result<(), PutError>
        requires { IsInRange line }
        ensures lines { self.new.lines ≡ (if is_ok result then self.old.lines ++ line ∷ [] else self.old.lines) }
        ensures fails { IsErrOf result PutError.Failed ↔ IsTrue (next_put_fails self.old) }
        ensures plan { self.new.plan ≡ after_call (next_put_fails self.old) self.old.plan }
        ensures count { NeverFell self.old.plan.faults self.new.plan.faults }
    {
        if self.plan.next_fails() {
            self.plan.note(true);
            return Err(PutError::Failed);
        }
        self.lines.push(line)?;
        Ok(())
    }
}
