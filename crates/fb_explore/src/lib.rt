//! Campaigns: each plan of a test that some run meets is pruned or run, and has its line.
//!
//! `explore` puts the lines of a campaign's report one by one into whatever takes lines (`Lines`), and answers by the last of
//! them. The crate stands on fb_worklist for the plans that wait, on fb_stitch for runs that are derived from the records of
//! fb_store, on fb_functest for those that are run and for the lines that a campaign has, on fb_config for the choices, on
//! fb_report for lines, and on fb_files for counts of failures.
#![tactic(auto)]

mod end;
mod error;
mod explorer;
mod exploring;
mod invs;
mod kept_lines;
mod known;
mod lines;
mod plan_lines;
mod put_line;
mod put_pruned;
mod put_ran;
mod recording;
mod tally;
mod turn;

pub use end::ExploreEnd;
pub use error::PutError;
pub use exploring::explore;
pub use fb_report::Totals;
pub use kept_lines::KeptLines;
pub use lines::Lines;
