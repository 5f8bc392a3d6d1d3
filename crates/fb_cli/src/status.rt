//! How a command ends.
ghost use Rattle.std.specs.Prelude.{◌≡◌};
ghost use Rattle.fb_cli.specs.Inputs.{refused};
ghost use Rattle.fb_cli.specs.Codes.{code_of, code_without_words, exit_code};

use fb_check::{CheckRule, Place};
use fb_config::FaultsWhy;
use fb_index::{Index, Plan};
use fb_syntax::ParseWhy;
use fb_verify::Rule;
use std::io::{self, ErrorKind};

/// The input of a job that an answer speaks of: a file, or a plan's text.
#[derive(Clone, Copy, Debug, PartialEq, Eq)]
pub enum Role {
    Services,
    Test,
    Faults,
    Report,
    Plan,
}

/// Why an input was refused.
#[derive(Drop, PartialEq, Eq)]
pub enum Why {
    /// It has more bytes than its limit: 1 MiB for services, 256 KiB for a test, 64 KiB for a fault file or a plan,
    /// 256 MiB for a report.
    TooLong,
    /// It isn't spelled as the language is.
    Syntax(ParseWhy),
    /// It breaks a rule of acceptance at this place.
    Check { place: Place, rule: CheckRule },
    /// It is no fault file of these services.
    Faults(FaultsWhy),
    /// It is no plan's text, from this byte on.
    Plan { offset: u64 },
}

/// An input that was refused, and why.
#[derive(Drop, PartialEq, Eq)]
pub struct Refusal {
    pub role: Role,
    pub why: Why,
}

/// How a command ended.
#[derive(Drop)]
pub enum Status {
    /// The campaign completed, and no plan failed; the report is valid; the replayed plan passed; or the services were printed.
    Good,
    /// The campaign completed, and some plan failed; or the replayed plan ended otherwise than passed.
    Failures,
    /// The words say no job.
    Usage,
    /// The report's name is the name of an input.
    SameName,
    /// An input is refused.
    Refused(Refusal),
    /// The system failed while the file of this role was loaded.
    ReadFault(Role),
    /// The system failed while the report was written, or the text was put.
    WriteFault,
    /// The run of this plan needs more units of fuel than it was handed.
    FuelSpent(Plan),
    /// This plan has to be run, after as many runs as there may be.
    BudgetSpent(Plan),
    /// The run of the replayed plan injects something else: this is the index of the first fault that isn't met in its place.
    NotMet(Index),
    /// The report isn't valid: this is the first line that breaks a rule, counted from 1, and the first rule that it breaks.
    No { line: u64, rule: Rule },
    /// Memory was refused.
    Memory,
}

impl Status {
    /// An input of this role is refused.
    pub(crate) fn refused(role: Role, why: Why) -> Status
        ensures { result ≡ refused role why }
    {
        Status::Refused(Refusal { role, why })
    }

    /// The exit code of a command that ended so.
    pub fn code(&self) -> u8
        ensures { result ≡ code_of self.now }
    {
        match self {
            Status::Good => 0,
            Status::Failures => 1,
            Status::Usage | Status::SameName => 2,
            Status::Refused(_) => 3,
            Status::ReadFault(_) => 4,
            Status::WriteFault => 5,
            Status::FuelSpent(_) => 6,
            Status::BudgetSpent(_) => 7,
            Status::No { .. } => 8,
            Status::Memory => 9,
            Status::NotMet(_) => 10,
        }
    }
}

/// The exit code where the words weren't to be had: memory was refused, or the system doesn't give them as text.
fn code_without_words(error: &io::Error) -> u8
    ensures { result ≡ code_without_words error.now }
{
    match error.kind() {
        ErrorKind::OutOfMemory => 9,
        _ => 11,
    }
}

/// The exit code of the process: by the answer of `run`, or by the error with which the system gave no words.
pub fn exit_code(ended: &io::Result<Status>) -> u8
    ensures { result ≡ exit_code ended.now }
{
    match ended {
        Ok(status) => status.code(),
        Err(error) => code_without_words(error),
    }
}
