//! Plans, campaigns and their reports, over any run.
//!
//! What a run of a test under a plan is, is left open: the laws ask of it only that it is lawful. The crate has
//! definitions and laws alone. It stands on `fb_tree` for calls, records and outcomes, on `fb_index` for plans, and on
//! `fb_base`.
#![tactic(auto)]

mod example;
mod laws;

pub use example::a_campaign_is_known;
pub use laws::{
    budgets_suffice, completed_campaigns_are_valid, each_plan_is_met_once, extensions_are_met,
    extensions_have_one_plan, fronts_are_met, runs_are_few, valid_reports_are_true,
    waiting_plans_come_next,
};
