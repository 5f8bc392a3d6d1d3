//! The last step of a command: its text is put.
ghost use Rattle.std.specs.Prelude.{◌≡◌};
ghost use Rattle.fb_base.specs.Count.{NeverFell};
ghost use Rattle.fb_files.specs.Told.{BothTold};
ghost use Rattle.fb_cli.specs.Texts.{status_text};
ghost use Rattle.fb_cli.specs.Telling.{IsToldByText, AnswersPut, AnswersTell, SendsText, SendsTold, status_told, text_told};

use crate::status::Status;
use crate::texts::status_text;
use fb_files::{Sink, WriteError};
use std::alloc::Global;

/// How the work of a command ended, before its text is put.
#[derive(Drop)]
pub(crate) enum Ending {
    /// With a status, which is told by its own text.
    Told(Status),
    /// With a text that is printed, and whether the command passed.
    Printed { passed: bool, text: String },
}

/// Puts a text, and answers the status that it tells unless the put failed.
fn put_text<O: Sink>(out: &mut O, text: &[u8], status: Status) -> Status
    requires { IsToldByText status }
    ensures answer { AnswersPut (O.faults out.old) (O.faults out.new) status result }
    ensures sent { BothTold (SendsText text.now result) (O.sent out.old) (O.sent out.new) }
    ensures count { NeverFell (O.faults out.old) (O.faults out.new) }
{
    match out.put(text) {
        Ok(()) => status,
        Err(WriteError::Failed) => Status::WriteFault,
        Err(WriteError::Memory) => Status::Memory,
    }
}

/// Puts the text of a status.
fn put_status<O: Sink>(alloc: Global, report: &str, status: Status, out: &mut O) -> Status
    requires { IsToldByText status }
    ensures answer { AnswersPut (O.faults out.old) (O.faults out.new) status result }
    ensures sent { BothTold (SendsText (status_text report.now status) result) (O.sent out.old) (O.sent out.new) }
    ensures count { NeverFell (O.faults out.old) (O.faults out.new) }
{
    match status_text(alloc, report, &status) {
        Ok(text) => put_text(out, text.as_slice(), status),
        Err(_) => Status::Memory,
    }
}

/// Puts the text of a status once, and answers the status.
fn tell_status<O: Sink>(alloc: Global, report: &str, status: Status, out: &mut O) -> Status
    ensures answer { AnswersTell (O.faults out.old) (O.faults out.new) status result }
    ensures sent { BothTold (SendsTold (status_text report.now status) status result) (O.sent out.old) (O.sent out.new) }
    ensures count { NeverFell (O.faults out.old) (O.faults out.new) }
{
    match status {
        Status::Memory => Status::Memory,
        Status::WriteFault => {
            let _ = out.put(b"write fault\n");
            Status::WriteFault
        }
        told => put_status(alloc, report, told, out),
    }
}

/// Ends a command: puts its text once, and answers its status.
pub(crate) fn tell<O: Sink>(alloc: Global, report: &str, ending: Ending, out: &mut O) -> Status
    ensures answer { AnswersTell (O.faults out.old) (O.faults out.new) (status_told ending) result }
    ensures sent { BothTold (SendsTold (text_told report.now ending) (status_told ending) result) (O.sent out.old) (O.sent out.new) }
    ensures count { NeverFell (O.faults out.old) (O.faults out.new) }
{
    match ending {
        Ending::Told(status) => tell_status(alloc, report, status, out),
        Ending::Printed { passed: true, text } => put_text(out, text.as_bytes(), Status::Good),
        Ending::Printed {
            passed: false,
            text,
        } => put_text(out, text.as_bytes(), Status::Failures),
    }
}
