//! The top call.
//!
//! `run` carries out a command: what it answers, loads, writes and sends is decided by the words and by what the files
//! object holds. It stands on fb_job for the words, fb_files for the outside, fb_check and fb_print for sources, fb_config for
//! fault files, fb_explore for campaigns, fb_verify for reports, fb_replay for the run of one plan, and fb_gen for generated
//! programs.
#![tactic(auto)]

mod accept;
mod campaign;
mod check;
mod fmt;
mod generated;
mod laws;
mod load;
mod replay;
mod report_file;
mod sources;
mod status;
mod tell;
mod test;
mod test_inputs;
mod texts;
mod top_call;
mod trial;

pub use fb_job::{CheckJob, Job, JobError, ReplayJob, TestJob, Word, job_of};
pub use fb_verify::Rule;
pub use laws::{accepted_inputs_have_reports, commands_are_decided_once};
pub use status::{Refusal, Role, Status, Why, exit_code};
pub use top_call::run;
