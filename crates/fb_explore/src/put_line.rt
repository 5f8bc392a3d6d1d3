//! Lines, put one by one.
ghost use Rattle.std.specs.Prelude.{◌≡◌, [], ◌∷◌};
ghost use Rattle.fb_report.specs.Ranges.{IsInRange};
ghost use Rattle.fb_explore.specs.Puts.{HavePutLines, stop_of};

use crate::error::PutError;
use crate::lines::Lines;
use fb_report::Line;
use std::alloc::Global;

/// Puts the next line.
pub(crate) fn put_line<W: Lines>(alloc: Global, line: Line, lines: &mut W) -> Result<(), PutError>
    requires { IsInRange line }
    ensures put { HavePutLines (line ∷ []) (stop_of result)
        (W.written lines.old) (W.faults lines.old) (W.written lines.new) (W.faults lines.new) }
    ensures rest { W.rest lines.new ≡ W.rest lines.old }
{
    line.proper();
    lines.put(alloc, line)
}
