//! What a run means: of methods and of tests, with any source of decisions on their calls.
//!
//! `method_meaning` and `test_meaning` are the definitions; the rules of each statement and the laws of runs are
//! functions that do nothing and ensure a law. It stands on fb_check for what services declare, on fb_tree for runs as
//! plain data and on fb_transport for decisions.
#![tactic(auto)]

mod laws;

pub use laws::{
    calls_are_decided, covered_is_spelled, decisions_make_the_run, kinds_are_kept,
    more_fuel_same_run, nothing_else_is_missing, records_of_runs_are_true, replies_make_it_again,
    runs_are_lawful, runs_go_alike, same_replies_same_record, spelled_is_run,
    statements_follow_rules, true_records_agree,
};
