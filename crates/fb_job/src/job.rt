//! Jobs.
ghost use Rattle.std.specs.Prelude.{◌≡◌, Some};
ghost use Rattle.fb_job.specs.declared.job.Job.TheVariants.{Test};
ghost use Rattle.fb_job.specs.Names.{overwrites_faults, overwrites_input, report_name};

use crate::word::Word;
use std::alloc::AllocError;

/// What a `test` runs, and how far.
#[derive(Drop)]
pub struct TestJob {
    /// The names of the files.
    pub services: Word,
    pub test: Word,
    pub report: Word,
    /// The name of the fault file, which may be left out: then nothing is configured.
    pub faults: Option<Word>,
    /// The units of fuel of each run.
    pub fuel: u64,
    /// The most plans that are run.
    pub budget: u64,
    /// Whether plans that are covered by the records of reported runs are pruned.
    pub reduction: bool,
}

/// The names of the files of a `check`; the fault file may be left out.
#[derive(Drop)]
pub struct CheckJob {
    pub services: Word,
    pub test: Word,
    pub report: Word,
    pub faults: Option<Word>,
}

/// The names of the files of a `replay`, the plan's text, and the units of fuel.
#[derive(Drop)]
pub struct ReplayJob {
    pub services: Word,
    pub test: Word,
    pub plan: Word,
    pub fuel: u64,
}

impl TestJob {
    /// Whether the report has the name of the fault file.
    fn overwrites_faults(&self) -> bool
        ensures { result ≡ overwrites_faults self.now }
    {
        match &self.faults {
            Some(faults) => self.report.as_str() == faults.as_str(),
            None => false,
        }
    }

    /// Whether the report has the name of an input.
    fn overwrites_input(&self) -> bool
        ensures { result ≡ overwrites_input (Test self.now) }
    {
        let report = self.report.as_str();
        if report == self.services.as_str() {
            return true;
        }
        if report == self.test.as_str() {
            return true;
        }
        self.overwrites_faults()
    }
}

/// What a command is to do.
#[derive(Drop)]
pub enum Job {
    /// To run the test over the services, and to write the report.
    Test(TestJob),
    /// To say whether the report is one of the test's campaign over the services.
    Check(CheckJob),
    /// To run the test over the services once, with the faults of the plan, and to print the run.
    Replay(ReplayJob),
    /// To print the services in their canonical form.
    Fmt { services: Word },
    /// To run the generated test over the generated services, and to check the report, all in memory.
    Trial { number: u64, size: u32 },
}

/// Why words gave no job.
#[derive(Debug, Drop, Clone, Copy, PartialEq, Eq)]
pub enum JobError {
    /// They say none.
    Usage,
    Memory,
}

impl From<AllocError> for JobError {
    ghost use Rattle.std.specs.Prelude.{◌≡◌};
    ghost use Rattle.fb_job.specs.declared.job.JobError.TheVariants.{Memory};

    ghost from_gives = { λ _ e. e ≡ Memory };

    fn from(_e: AllocError) -> JobError {
        JobError::Memory
    }
}

impl Job {
    /// Whether the report would take the place of an input. Names are compared byte for byte.
    pub fn overwrites_input(&self) -> bool
        ensures { result ≡ overwrites_input self.now }
    {
        match self {
            Job::Test(job) => job.overwrites_input(),
            Job::Check(_) | Job::Replay(_) | Job::Fmt { .. } | Job::Trial { .. } => false,
        }
    }

    /// The name of the report that the job writes, which is empty where it writes none.
    pub fn report_name(&self) -> &str
        ensures { result.now ≡ report_name (Some self.now) }
    {
        match self {
            Job::Test(job) => job.report.as_str(),
            Job::Check(_) | Job::Replay(_) | Job::Fmt { .. } | Job::Trial { .. } => "",
        }
    }
}
