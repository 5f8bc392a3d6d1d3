//! The report as it is written, line by line.
ghost use Rattle.std.specs.Prelude.{◌≡◌, IfOk, IsErrOf, IsSome};
ghost use Rattle.fb_base.specs.Count.{Rose, NeverFell};
ghost use Rattle.fb_files.specs.Told.{BothTold};
ghost use Rattle.fb_report.specs.Bytes.{line_bytes};
ghost use Rattle.fb_report.specs.Ranges.{IsInRange};
ghost use Rattle.fb_explore.specs.Puts.{Puts, stop_of};
ghost use Rattle.fb_cli.specs.Exploring.{told_beside, written_in};

use fb_explore::{Lines, PutError};
use fb_files::{Files, WriteError};
use fb_report::{Line, line_bytes};
use std::alloc::{AllocError, Global};
use std::marker::Model;

/// The file that was created, which takes lines.
#[derive(Drop)]
pub(crate) struct ReportFile<'a, F: Files> {
    pub(crate) files: &'a mut F,
}

impl<'a, F: Files> Model for ReportFile<'a, F> {
    ghost use Rattle.std.specs.Prelude.{IsSome};
    ghost use Rattle.std.specs.Borrow.{MutBor};

    ghost Value = { MutBor F };

    ghost view = { λ r. r.files };

    ghost invariant = { λ r. IsSome (F.created r.files.now) };
}

/// The bytes of a line.
fn bytes_of(alloc: Global, line: Line) -> Result<Vec<u8>, AllocError>
    requires { IsInRange line }
    ensures { IfOk result (λ bytes. bytes.items ≡ line_bytes line) }
{
    line_bytes(alloc, &line)
}

/// Appends the bytes of a line to the file that was created.
fn append<F: Files>(files: &mut F, bytes: &[u8]) -> Result<(), PutError>
    requires { IsSome (F.created files.old) }
    ensures content { BothTold (Puts bytes.now (stop_of result))
        (written_in (F.created files.old) (F.held files.old)) (written_in (F.created files.new) (F.held files.new)) }
    ensures created { F.created files.new ≡ F.created files.old }
    ensures asked { F.asked files.new ≡ F.asked files.old }
    ensures beside { told_beside (F.created files.new) (F.held files.new) ≡ told_beside (F.created files.old) (F.held files.old) }
    ensures cause { IsErrOf result PutError.Failed → Rose (F.faults files.old) (F.faults files.new) }
    ensures count { NeverFell (F.faults files.old) (F.faults files.new) }
{
    match files.append(bytes) {
        Ok(()) => Ok(()),
        Err(WriteError::Failed) => Err(PutError::Failed),
        Err(WriteError::Memory) => Err(PutError::Memory),
    }
}

impl<'a, F: Files> Lines for ReportFile<'a, F> {
    ghost use Rattle.fb_cli.specs.Exploring.{Beside, written_in, told_beside};

    ghost written = { λ r. written_in (F.created r.now) (F.held r.now) };

    ghost faults = { λ r. F.faults r.now };

    ghost Rest = { Beside };

    ghost rest = { λ r. record {
      reference = r.ghost_name;
      created = F.created r.now;
      asked = F.asked r.now;
      held = told_beside (F.created r.now) (F.held r.now);
    } };

    fn put(&mut self, alloc: Global, line: Line) -> Result<(), PutError> {
        let bytes = bytes_of(alloc, line)?;
        append(self.files, bytes.as_slice())
    }
}
