//! What is kept of the lines below a header.
ghost use Rattle.std.specs.Prelude.{◌≡◌, ◌+◌, ◌≤◌, ◌++◌, length, ◌∷◌, [], ℕ, List, IfOk, OnOk};
ghost use Rattle.fb_eval.specs.Units.{most_units};
ghost use Rattle.fb_report.specs.declared.line.Line.{Line as LineOf};

use crate::known::Known;
use fb_report::Line;
use fb_tally::Tally;
use std::alloc::{AllocError, Global};

/// What is kept of the lines below a header.
#[derive(Drop)]
pub(crate) struct Below {
    /// The units of fuel that the header tells.
    pub fuel: u64,
    /// Whether it tells of reduction.
    pub reduction: bool,
    pub tally: Tally,
    pub known: Known,
    /// A byte for each line, so that no count passes the end of its type.
    pub lines: Vec<u8>,
}

impl Below {
    ghost use Rattle.fb_audit.specs.Kept.{AreCounted, Basis, IsBelow};

    /// No line yet.
    pub(crate) fn new(
        alloc: Global,
        version: u32,
        fuel: u64,
        reduction: bool,
    ) -> Result<Below, AllocError>
        requires { fuel ≤ most_units }
        ensures { IfOk result (λ below. (basis : Basis) → IsBelow basis version fuel reduction [] below) }
    {
        Ok(Below {
            fuel,
            reduction,
            tally: Tally::new(version),
            known: Known::new(alloc)?,
            lines: Vec::new(alloc),
        })
    }

    /// Counts a line.
    pub(crate) fn count(&mut self, line: &Line) -> Result<(), AllocError>
        requires { self.old.tally.plans + self.old.tally.records ≤ length self.old.lines.items }
        ensures counted { OnOk result ((version : ℕ) (above : List LineOf) → AreCounted version above self.old → AreCounted version (above ++ line.now ∷ []) self.new) }
        ensures known { OnOk result (self.new.known ≡ self.old.known) }
        ensures fuel { OnOk result (self.new.fuel ≡ self.old.fuel) }
        ensures reduction { OnOk result (self.new.reduction ≡ self.old.reduction) }
    {
        self.lines.push(0)?;
        self.tally.add(line);
        Ok(())
    }
}
