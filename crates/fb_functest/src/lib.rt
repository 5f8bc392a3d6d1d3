//! Runs of a test under plans, as campaigns and reports see them.
//!
//! `run_plan` runs the test under one plan. What a campaign asks of its runs, runs of a test have: `our_runs_are_lawful`.
//! So what holds of campaigns over lawful runs holds of the bytes of their reports: `completed_reports_are_true`. The crate
//! stands on fb_eval for the evaluation, on fb_meaning for what a run means, on fb_campaign for campaigns, and on fb_report
//! and fb_reading for lines, written and read.
#![tactic(auto)]

mod laws;
mod run;

pub use laws::{
    campaigns_have_lines, completed_reports_are_true, covered_is_found, lines_tell_plans,
    our_runs_are_lawful, outcomes_are_counted, reports_are_read_one_way,
};
pub use run::{Ran, RunStop, run_plan};
