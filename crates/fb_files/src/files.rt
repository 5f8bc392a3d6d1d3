//! Files by name, as the program sees them.
ghost use Rattle.std.specs.Prelude.{◌≡◌, ◌≤◌, ℕ, List, Option, length, IfOk, IfSome, IsErrOf, IsSome};
ghost use Rattle.fb_base.specs.Count.{Rose, NeverFell};
ghost use Rattle.fb_files.specs.Told.{BothTold};
ghost use Rattle.fb_files.specs.Files.{Held, Asked, Loads, AddsLoad, Creates, created_by, Appends};

use crate::{LoadError, WriteError};
use std::alloc::Global;

/// Named files that can be loaded whole, and one that is being written.
pub trait Files {
    /// The bytes under each name, where the object tells them.
    ghost held: { Self → Option Held };

    /// The name of the file that is being written.
    ghost created: { Self → Option (List ℕ) };

    /// Each load so far, where the object tells them.
    ghost asked: { Self → Option Asked };

    /// How often the system has failed. It stands still at u64's greatest value.
    ghost faults: { Self → ℕ };

    /// All bytes of a file, at most `limit` of them. A missing file is a failure.
    fn load(&mut self, alloc: Global, name: &str, limit: u64) -> Result<Vec<u8>, LoadError>
        ensures content { IfSome (held self.old) (Loads name.now limit result) }
        ensures bound { IfOk result (λ bytes. length bytes.items ≤ limit) }
        ensures cause { IsErrOf result LoadError.Failed → Rose (faults self.old) (faults self.new) }
        ensures count { NeverFell (faults self.old) (faults self.new) }
        ensures asks { BothTold (AddsLoad name.now result) (asked self.old) (asked self.new) }
        ensures held { held self.new ≡ held self.old }
        ensures created { created self.new ≡ created self.old };

    /// Makes the file empty, whether or not there was one, and the one that is being written.
    fn create(&mut self, name: &str) -> Result<(), WriteError>
        ensures content { BothTold (Creates name.now result) (held self.old) (held self.new) }
        ensures created { created self.new ≡ created_by name.now result }
        ensures cause { IsErrOf result WriteError.Failed → Rose (faults self.old) (faults self.new) }
        ensures count { NeverFell (faults self.old) (faults self.new) }
        ensures asked { asked self.new ≡ asked self.old };

    /// Adds bytes at the end of the file that is being written.
    fn append(&mut self, bytes: &[u8]) -> Result<(), WriteError>
        requires { IsSome (created self.old) }
        ensures content { IfSome (created self.old)
            (λ name. BothTold (Appends bytes.now name result) (held self.old) (held self.new)) }
        ensures created { created self.new ≡ created self.old }
        ensures cause { IsErrOf result WriteError.Failed → Rose (faults self.old) (faults self.new) }
        ensures count { NeverFell (faults self.old) (faults self.new) }
        ensures asked { asked self.new ≡ asked self.old };
}
