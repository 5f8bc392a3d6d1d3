//! What takes the lines of a report.
ghost use Rattle.std.specs.Prelude.{◌≡◌, ℕ, List, Option, IsErrOf};
ghost use Rattle.fb_base.specs.Count.{Rose, NeverFell};
ghost use Rattle.fb_files.specs.Told.{BothTold};
ghost use Rattle.fb_report.specs.Bytes.{line_bytes};
ghost use Rattle.fb_report.specs.Ranges.{IsInRange};
ghost use Rattle.fb_explore.specs.Puts.{Puts, stop_of};

use crate::error::PutError;
use fb_report::Line;
use std::alloc::Global;

/// Something that takes lines in order.
pub trait Lines {
    /// The bytes of the lines so far, where the object tells them.
    ghost written: { Self → Option (List ℕ) };

    /// How often the system has failed. It stands still at u64's greatest value.
    ghost faults: { Self → ℕ };

    /// What the object keeps beside, which no put changes.
    ghost Rest: { Type 0 };

    ghost rest: { Self → Rest };

    /// Takes the next line. After an error a front of its bytes may have been written.
    fn put(&mut self, alloc: Global, line: Line) -> Result<(), PutError>
        requires { IsInRange line }
        ensures content { BothTold (Puts (line_bytes line) (stop_of result)) (written self.old) (written self.new) }
        ensures cause { IsErrOf result PutError.Failed → Rose (faults self.old) (faults self.new) }
        ensures count { NeverFell (faults self.old) (faults self.new) }
        ensures rest { rest self.new ≡ rest self.old };
}
