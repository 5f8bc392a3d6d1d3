//! The inputs of a trial, which are generated texts.
ghost use Rattle.std.specs.Prelude.{◌≡◌, ◌≤◌, length, IfOk, IfErr, Some};
ghost use Rattle.fb_check.specs.Programs.{kinds_given};
ghost use Rattle.fb_gen.specs.Texts.{IsGenerated};
ghost use Rattle.fb_job.specs.Limits.{IsSize};
ghost use Rattle.fb_cli.specs.Inputs.{bytes_of, limit_of};
ghost use Rattle.fb_cli.specs.Loading.{EndsText, GivesInput};
ghost use Rattle.fb_cli.specs.TestInputs.{inputs_seen};
ghost use Rattle.fb_cli.specs.Trials.{EndsGenerated, generated_inputs};

use crate::accept::{accepted_faults, accepted_services, accepted_test};
use crate::load::limit_of;
use crate::sources::Sources;
use crate::status::{Role, Status, Why};
use crate::test_inputs::TestInputs;
use fb_gen::{GenError, Generated, generate};
use std::alloc::Global;

/// A text that is no longer than an input of its role may be.
fn keep_limit(role: Role, text: &[u8]) -> Result<(), Status>
    ensures content { GivesInput (λ done. text.now) result (bytes_of role (Some text.now)) }
    ensures bound { IfOk result (λ done. length text.now ≤ limit_of role) }
    ensures ends { IfErr result EndsGenerated }
{
    if text.len() as u64 > limit_of(role) {
        return Err(Status::refused(role, Why::TooLong));
    }
    Ok(())
}

/// The texts of a number and a size.
fn texts_of(alloc: Global, number: u64, size: u32) -> Result<Generated, Status>
    requires { IsSize size }
    ensures texts { IfOk result (IsGenerated number size) }
    ensures ends { IfErr result (λ status. status ≡ Status.Memory) }
{
    match generate(alloc, number, size) {
        Ok(texts) => Ok(texts),
        Err(GenError::BadSize) => unreachable!(),
        Err(GenError::Memory) => Err(Status::Memory),
    }
}

/// The accepted inputs of a number and a size, or how they end the job.
pub(crate) fn generated_inputs(alloc: Global, number: u64, size: u32) -> Result<TestInputs, Status>
    requires { IsSize size }
    ensures content { GivesInput inputs_seen result (generated_inputs number size) }
    ensures made { IfOk result (λ inputs. inputs.sources.test.services ≡ inputs.sources.program.tree) }
    ensures kinds { IfOk result (λ inputs. inputs.faults.kinds ≡ kinds_given inputs.sources.program.tree) }
    ensures ends { IfErr result EndsGenerated }
{
    let texts = texts_of(alloc, number, size)?;
    let services = texts.services.as_bytes();
    keep_limit(Role::Services, services)?;
    let program = accepted_services(alloc, services)?;
    let test = texts.test.as_bytes();
    keep_limit(Role::Test, test)?;
    let test = accepted_test(alloc, &program, test)?;
    let faults = texts.faults.as_bytes();
    keep_limit(Role::Faults, faults)?;
    let faults = accepted_faults(alloc, &program, faults)?;
    let sources = Sources { program, test };
    Ok(TestInputs { sources, faults })
}
