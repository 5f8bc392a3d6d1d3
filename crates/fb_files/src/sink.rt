//! An output, as the program sees it.
ghost use Rattle.std.specs.Prelude.{◌≡◌, ℕ, List, Option, IsErrOf};
ghost use Rattle.fb_base.specs.Count.{Rose, NeverFell};
ghost use Rattle.fb_files.specs.Told.{BothTold};
ghost use Rattle.fb_files.specs.Sink.{Puts};

use crate::WriteError;

/// Something that takes bytes in order.
pub trait Sink {
    /// All bytes so far, where the object tells them.
    ghost sent: { Self → Option (List ℕ) };

    /// How often the system has failed. It stands still at u64's greatest value.
    ghost faults: { Self → ℕ };

    /// Sends the bytes, all of them.
    fn put(&mut self, bytes: &[u8]) -> Result<(), WriteError>
        ensures content { BothTold (Puts bytes.now result) (sent self.old) (sent self.new) }
        ensures cause { IsErrOf result WriteError.Failed → Rose (faults self.old) (faults self.new) }
        ensures count { NeverFell (faults self.old) (faults self.new) };
}
