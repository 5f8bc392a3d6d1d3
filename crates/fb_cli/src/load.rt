//! The load of one input.
ghost use Rattle.std.specs.Prelude.{◌≡◌, ◌≤◌, length, IfOk, IfErr, IfSome};
ghost use Rattle.fb_base.specs.Count.{NeverFell};
ghost use Rattle.fb_files.specs.Told.{BothTold};
ghost use Rattle.fb_cli.specs.Inputs.{limit_of, bytes_of};
ghost use Rattle.fb_cli.specs.Loading.{GivesInput, EndsInput, AsksInput, HasLoadCause};

use crate::status::{Role, Status, Why};
use fb_files::{Files, LoadError};
use fb_job::Word;
use std::alloc::Global;

/// The greatest size of a role's input, in bytes.
pub(crate) fn limit_of(role: Role) -> u64
    ensures { result ≡ limit_of role }
{
    match role {
        Role::Services => 1_048_576,
        Role::Test => 262_144,
        Role::Faults => 65_536,
        Role::Report => 268_435_456,
        Role::Plan => 65_536,
    }
}

/// The bytes of a role's file.
pub(crate) fn load_bytes<F: Files>(
    alloc: Global,
    files: &mut F,
    role: Role,
    name: &Word,
) -> Result<Vec<u8>, Status>
    ensures content { IfSome (F.held files.old) (λ held. GivesInput (λ bytes. bytes.items) result (bytes_of role (held name.now))) }
    ensures bound { IfOk result (λ bytes. length bytes.items ≤ limit_of role) }
    ensures ends { IfErr result (EndsInput role) }
    ensures cause { HasLoadCause (F.faults files.old) (F.faults files.new) result }
    ensures asks { BothTold (AsksInput name.now result) (F.asked files.old) (F.asked files.new) }
    ensures held { F.held files.new ≡ F.held files.old }
    ensures count { NeverFell (F.faults files.old) (F.faults files.new) }
{
    match files.load(alloc, name.as_str(), limit_of(role)) {
        Ok(bytes) => Ok(bytes),
        Err(LoadError::Failed) => Err(Status::ReadFault(role)),
        Err(LoadError::TooLong) => Err(Status::refused(role, Why::TooLong)),
        Err(LoadError::Memory) => Err(Status::Memory),
    }
}
