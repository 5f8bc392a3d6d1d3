//! The services in their canonical form.
ghost use Rattle.std.specs.Prelude.{◌≡◌, ◌≤◌, [], length, IfErr, IfSome, Some, string_bytes};
ghost use Rattle.fb_base.specs.Count.{Rose, NeverFell};
ghost use Rattle.fb_files.specs.Told.{BothTold};
ghost use Rattle.fb_cli.specs.declared.status.Role.TheVariants as role;
ghost use Rattle.fb_job.specs.declared.job.Job.TheVariants.{Fmt};
ghost use Rattle.fb_cli.specs.Inputs.{limit_of, services_input};
ghost use Rattle.fb_cli.specs.Loading.{GivesInput, EndsText};
ghost use Rattle.fb_cli.specs.Printing.{canonical_text, ending_of};
ghost use Rattle.fb_cli.specs.Asking.{AsksFor};
ghost use Rattle.fb_cli.specs.Decision.{status_of_services};
ghost use Rattle.fb_cli.specs.Telling.{status_told, text_told};
ghost use Rattle.fb_cli.specs.Answers.{IsJobEnd, IsDecided, HasReadCause, HasWriteCause, IsTextOf};

use crate::accept::read_services;
use crate::load::load_bytes;
use crate::status::{Role, Status};
use crate::tell::Ending;
use fb_files::Files;
use fb_job::Word;
use fb_print::print_services;
use std::alloc::Global;

/// The canonical text of the services that these bytes spell.
fn canonical_text(alloc: Global, bytes: &[u8]) -> Result<String, Status>
    requires { length bytes.now ≤ limit_of role.Services }
    ensures content { GivesInput string_bytes result (canonical_text bytes.now) }
    ensures ends { IfErr result (EndsText role.Services) }
{
    let services = read_services(alloc, bytes)?;
    match print_services(alloc, &services) {
        Ok(text) => Ok(text),
        Err(_) => Err(Status::Memory),
    }
}

fn ending_of(text: Result<String, Status>) -> Ending
    ensures { result ≡ ending_of text }
{
    match text {
        Ok(text) => Ending::Printed { passed: true, text },
        Err(status) => Ending::Told(status),
    }
}

/// How a `fmt` ends, before its text is put.
pub(crate) fn fmt<F: Files>(alloc: Global, files: &mut F, services: &Word) -> Ending
    ensures ends { IsJobEnd (status_told result) }
    ensures decided { IfSome (F.held files.old) (λ held. IsDecided (status_of_services (services_input held services.now)) (status_told result)) }
    ensures text { IsTextOf (status_told result) (Some (Fmt services.now)) (F.held files.old) (text_told [] result) }
    ensures read_fault { HasReadCause (Rose (F.faults files.old) (F.faults files.new)) (status_told result) }
    ensures write_fault { HasWriteCause ⊥ ⊥ (status_told result) }
    ensures asked { BothTold (AsksFor (Fmt services.now) ⊥ (status_told result)) (F.asked files.old) (F.asked files.new) }
    ensures held { F.held files.new ≡ F.held files.old }
    ensures count { NeverFell (F.faults files.old) (F.faults files.new) }
{
    match load_bytes(alloc, files, Role::Services, services) {
        Ok(bytes) => ending_of(canonical_text(alloc, &bytes)),
        Err(status) => Ending::Told(status),
    }
}
