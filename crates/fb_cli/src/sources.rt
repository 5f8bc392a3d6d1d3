//! The accepted services and the accepted test of a job, loaded and read in the order of work.
ghost use Rattle.std.specs.Prelude.{◌≡◌, IfOk, IfErr, IfSome};
ghost use Rattle.fb_base.specs.Count.{NeverFell};
ghost use Rattle.fb_files.specs.Told.{BothTold};
ghost use Rattle.fb_job.specs.declared.job.Job.{Job as AnyJob};
ghost use Rattle.fb_cli.specs.Asking.{ReadsBoth};
ghost use Rattle.fb_cli.specs.Loading.{GivesInput, AsksSources, HasLoadCause};
ghost use Rattle.fb_cli.specs.Sources.{sources_of, trees_of, EndsSources};

use crate::accept::{accepted_services, accepted_test};
use crate::load::load_bytes;
use crate::status::{Role, Status};
use fb_check::{CheckedTest, Program};
use fb_files::Files;
use fb_job::Word;
use std::alloc::Global;

/// Accepted services, and an accepted test of them.
#[derive(Drop)]
pub(crate) struct Sources {
    pub(crate) program: Program,
    pub(crate) test: CheckedTest,
}

/// The accepted services and test of these names, or how they end the job.
pub(crate) fn load_sources<F: Files>(
    alloc: Global,
    files: &mut F,
    services: &Word,
    test: &Word,
) -> Result<Sources, Status>
    ensures content { IfSome (F.held files.old) (λ held. GivesInput trees_of result (sources_of held services.now test.now)) }
    ensures made { IfOk result (λ sources. sources.test.services ≡ sources.program.tree) }
    ensures ends { IfErr result EndsSources }
    ensures cause { HasLoadCause (F.faults files.old) (F.faults files.new) result }
    ensures asks { (job : AnyJob) → ReadsBoth job services.now test.now
        → BothTold (AsksSources job result) (F.asked files.old) (F.asked files.new) }
    ensures held { F.held files.new ≡ F.held files.old }
    ensures count { NeverFell (F.faults files.old) (F.faults files.new) }
{
    let bytes = load_bytes(alloc, files, Role::Services, services)?;
    let program = accepted_services(alloc, &bytes)?;
    let bytes = load_bytes(alloc, files, Role::Test, test)?;
    let test = accepted_test(alloc, &program, &bytes)?;
    Ok(Sources { program, test })
}
