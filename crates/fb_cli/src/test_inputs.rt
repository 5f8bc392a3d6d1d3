//! The inputs of a campaign, loaded and read in the order of work.
ghost use Rattle.std.specs.Prelude.{◌≡◌, IfOk, IfErr, IfSome};
ghost use Rattle.fb_base.specs.Count.{NeverFell};
ghost use Rattle.fb_check.specs.Programs.{kinds_given};
ghost use Rattle.fb_files.specs.Told.{BothTold};
ghost use Rattle.fb_job.specs.declared.job.Job.{Job as AnyJob};
ghost use Rattle.fb_cli.specs.declared.status.Role.TheVariants as role;
ghost use Rattle.fb_cli.specs.Asking.{ReadsInputs};
ghost use Rattle.fb_cli.specs.Loading.{GivesInput, AsksFaults, AsksInput, AsksInputs, EndsFaults, EndsInput, HasLoadCause};
ghost use Rattle.fb_cli.specs.Sources.{EndsSources};
ghost use Rattle.fb_cli.specs.TestInputs.{faults_input, faults_of, inputs_of, inputs_seen, no_faults};

use crate::accept::accepted_faults;
use crate::load::load_bytes;
use crate::sources::{Sources, load_sources};
use crate::status::{Role, Status};
use fb_check::Program;
use fb_config::Faults;
use fb_files::Files;
use fb_job::Word;
use std::alloc::Global;

/// The sources of a test, and what is configured for them.
#[derive(Drop)]
pub(crate) struct TestInputs {
    pub(crate) sources: Sources,
    pub(crate) faults: Faults,
}

/// No choice for any method.
fn no_faults(alloc: Global, program: &Program) -> Result<Faults, Status>
    ensures content { IfOk result (λ faults. faults ≡ no_faults program.now.tree) }
    ensures kinds { IfOk result (λ faults. faults.kinds ≡ kinds_given program.now.tree) }
    ensures ends { IfErr result (λ status. status ≡ Status.Memory) }
{
    match Faults::none(alloc, program) {
        Ok(faults) => Ok(faults),
        Err(_) => Err(Status::Memory),
    }
}

/// What the fault file of this name configures.
fn load_fault_file<F: Files>(
    alloc: Global,
    files: &mut F,
    program: &Program,
    name: &Word,
) -> Result<Faults, Status>
    ensures content { IfSome (F.held files.old) (λ held. GivesInput (λ faults. faults) result (faults_input held program.now.tree name.now)) }
    ensures kinds { IfOk result (λ faults. faults.kinds ≡ kinds_given program.now.tree) }
    ensures ends { IfErr result (EndsInput role.Faults) }
    ensures cause { HasLoadCause (F.faults files.old) (F.faults files.new) result }
    ensures asks { BothTold (AsksInput name.now result) (F.asked files.old) (F.asked files.new) }
    ensures held { F.held files.new ≡ F.held files.old }
    ensures count { NeverFell (F.faults files.old) (F.faults files.new) }
{
    let bytes = load_bytes(alloc, files, Role::Faults, name)?;
    let faults = accepted_faults(alloc, program, &bytes)?;
    Ok(faults)
}

/// What is configured, by the fault file where there is one.
fn load_faults<F: Files>(
    alloc: Global,
    files: &mut F,
    program: &Program,
    name: &Option<Word>,
) -> Result<Faults, Status>
    ensures content { IfSome (F.held files.old) (λ held. GivesInput (λ faults. faults) result (faults_of held program.now.tree name.now)) }
    ensures kinds { IfOk result (λ faults. faults.kinds ≡ kinds_given program.now.tree) }
    ensures ends { IfErr result (EndsFaults name.now) }
    ensures cause { HasLoadCause (F.faults files.old) (F.faults files.new) result }
    ensures asks { BothTold (AsksFaults name.now result) (F.asked files.old) (F.asked files.new) }
    ensures held { F.held files.new ≡ F.held files.old }
    ensures count { NeverFell (F.faults files.old) (F.faults files.new) }
{
    match name {
        Some(name) => load_fault_file(alloc, files, program, name),
        None => no_faults(alloc, program),
    }
}

/// The accepted inputs of these names, or how they end the job.
pub(crate) fn load_inputs<F: Files>(
    alloc: Global,
    files: &mut F,
    services: &Word,
    test: &Word,
    faults: &Option<Word>,
) -> Result<TestInputs, Status>
    ensures content { IfSome (F.held files.old) (λ held. GivesInput inputs_seen result (inputs_of held services.now test.now faults.now)) }
    ensures made { IfOk result (λ inputs. inputs.sources.test.services ≡ inputs.sources.program.tree) }
    ensures kinds { IfOk result (λ inputs. inputs.faults.kinds ≡ kinds_given inputs.sources.program.tree) }
    ensures ends { IfErr result EndsSources }
    ensures cause { HasLoadCause (F.faults files.old) (F.faults files.new) result }
    ensures asks { (job : AnyJob) → ReadsInputs job services.now test.now faults.now
        → BothTold (AsksInputs job result) (F.asked files.old) (F.asked files.new) }
    ensures held { F.held files.new ≡ F.held files.old }
    ensures count { NeverFell (F.faults files.old) (F.faults files.new) }
{
    let sources = load_sources(alloc, files, services, test)?;
    let faults = load_faults(alloc, files, &sources.program, faults)?;
    Ok(TestInputs { sources, faults })
}
