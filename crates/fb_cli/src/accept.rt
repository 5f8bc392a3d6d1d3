//! What the bytes of an input spell, and whether it is accepted.
ghost use Rattle.std.specs.Prelude.{◌≡◌, ◌≤◌, length, IfOk, IfErr};
ghost use Rattle.fb_check.specs.Programs.{kinds_given};
ghost use Rattle.fb_syntax.specs.Views.{view_services};
ghost use Rattle.fb_syntax.specs.Kept.{KeepsServicesLimits};
ghost use Rattle.fb_cli.specs.declared.status.Role.TheVariants as role;
ghost use Rattle.fb_cli.specs.Inputs.{limit_of, services_read, services_accepted, test_accepted, faults_accepted};
ghost use Rattle.fb_cli.specs.Loading.{IsParsed, IsChecked, IsConfigured, GivesInput, EndsText};

use crate::status::{Role, Status, Why};
use fb_check::{CheckError, CheckedTest, Program, check_services, check_test};
use fb_config::{Faults, FaultsError, read_faults};
use fb_syntax::{ParseError, Services, parse_services, parse_test};
use std::alloc::Global;

/// What a parser of a role's text says, as the end of a command.
fn parsed<T>(role: Role, read: Result<T, ParseError>) -> Result<T, Status>
    ensures { IsParsed role read result }
{
    match read {
        Ok(tree) => Ok(tree),
        Err(ParseError::Refused(why)) => Err(Status::refused(role, Why::Syntax(why))),
        Err(ParseError::Memory) => Err(Status::Memory),
    }
}

/// What a checker of a role's tree says, as the end of a command.
fn checked<T>(role: Role, answer: Result<T, CheckError>) -> Result<T, Status>
    ensures { IsChecked role answer result }
{
    match answer {
        Ok(accepted) => Ok(accepted),
        Err(CheckError::Refused { place, rule }) => Err(Status::refused(
            role,
            Why::Check { place, rule },
        )),
        Err(CheckError::Memory) => Err(Status::Memory),
    }
}

/// What a reader of a fault file says, as the end of a command.
fn configured(read: Result<Faults, FaultsError>) -> Result<Faults, Status>
    ensures { IsConfigured read result }
{
    match read {
        Ok(faults) => Ok(faults),
        Err(FaultsError::Refused(why)) => Err(Status::refused(Role::Faults, Why::Faults(why))),
        Err(FaultsError::Memory) => Err(Status::Memory),
    }
}

/// The services that these bytes spell.
pub(crate) fn read_services(alloc: Global, bytes: &[u8]) -> Result<Services, Status>
    requires { length bytes.now ≤ limit_of role.Services }
    ensures content { GivesInput view_services result (services_read bytes.now) }
    ensures limits { IfOk result (λ services. KeepsServicesLimits (view_services services)) }
    ensures ends { IfErr result (EndsText role.Services) }
{
    let read = parse_services(alloc, bytes);
    let services = parsed(Role::Services, read);
    services
}

/// The accepted services that these bytes spell.
pub(crate) fn accepted_services(alloc: Global, bytes: &[u8]) -> Result<Program, Status>
    requires { length bytes.now ≤ limit_of role.Services }
    ensures content { GivesInput (λ program. program.tree) result (services_accepted bytes.now) }
    ensures ends { IfErr result (EndsText role.Services) }
{
    let services = read_services(alloc, bytes)?;
    let answer = check_services(alloc, services);
    let program = checked(Role::Services, answer);
    program
}

/// The accepted test of these services that these bytes spell.
pub(crate) fn accepted_test(
    alloc: Global,
    program: &Program,
    bytes: &[u8],
) -> Result<CheckedTest, Status>
    requires { length bytes.now ≤ limit_of role.Test }
    ensures content { GivesInput (λ test. test.tree) result (test_accepted program.now.tree bytes.now) }
    ensures made { IfOk result (λ test. test.services ≡ program.now.tree) }
    ensures ends { IfErr result (EndsText role.Test) }
{
    let read = parse_test(alloc, bytes);
    let test = parsed(Role::Test, read)?;
    let answer = check_test(alloc, program, test);
    let test = checked(Role::Test, answer);
    test
}

/// What these bytes configure for the services.
pub(crate) fn accepted_faults(
    alloc: Global,
    program: &Program,
    bytes: &[u8],
) -> Result<Faults, Status>
    ensures content { GivesInput (λ faults. faults) result (faults_accepted program.now.tree bytes.now) }
    ensures kinds { IfOk result (λ faults. faults.kinds ≡ kinds_given program.now.tree) }
    ensures ends { IfErr result (EndsText role.Faults) }
{
    let read = read_faults(alloc, bytes, program);
    let faults = configured(read);
    faults
}
