//! Laws of what is kept. Each is a function that does nothing: what it ensures is the law.
ghost use Rattle.std.specs.Prelude.{◌≡◌, ℕ, ◌+◌, ◌≤◌, true, List, [], ◌∷◌, ◌++◌, length};
ghost use Rattle.fb_report.specs.declared.line.Line.{Line};
ghost use Rattle.fb_valid.specs.Lines.{is_end};
ghost use Rattle.fb_valid.specs.Rules.{IsInPlace};
ghost use Rattle.fb_valid.specs.Valid.{OfEachLine, IsEnded};
ghost use Rattle.fb_tally.specs.Decisions.{Decides};
ghost use Rattle.fb_tally.specs.Owned.{OwnerRows, AreOwnersOf};
ghost use Rattle.fb_tally.specs.Tallied.{tally_of};

/// Lines that stand in their places are ended exactly where one of them is an end line.
pub fn ends_are_tallied()
    ensures { (version : ℕ) (lines : List Line) → OfEachLine (IsInPlace version) lines → Decides (IsEnded lines) (tally_of version lines).ended }
{}

/// Plan lines and inv lines are no more than all lines.
pub fn lines_are_more_than_tallied()
    ensures { (version : ℕ) (lines : List Line) → (tally_of version lines).plans + (tally_of version lines).records ≤ length lines }
{}

/// An end line changes nothing that is kept of owners.
pub fn end_lines_own_nothing()
    ensures { (lines : List Line) (line : Line) (owners : OwnerRows)
        → is_end line ≡ true → AreOwnersOf lines owners → AreOwnersOf (lines ++ line ∷ []) owners }
{}
