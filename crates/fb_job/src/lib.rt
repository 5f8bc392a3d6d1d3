//! The job that the words of a command say.
//!
//! `job_of` gives it exactly by the definition `job_of_words`: the first word names a command, and `clap` takes the words
//! by that command's options. It stands on `clap` alone.
#![tactic(auto)]

mod command;
mod job;
mod laws;
mod number;
mod reading;
mod word;

pub use job::{CheckJob, Job, JobError, ReplayJob, TestJob};
pub use laws::jobs_keep_their_limits;
pub use number::{DEFAULT_BUDGET, DEFAULT_FUEL};
pub use reading::job_of;
pub use word::Word;
