//! When a report is valid, over its bytes.
//!
//! `IsValid` has one field a rule. Each looks at the lines and at single bodies, where calls get the replies that lines
//! tell, and nothing is assumed of who made the report. `valid_reports_are_true` is the law that such a report is true of
//! all plans and whole runs. `BreaksFirst` is the first line of a report that breaks a rule, and the rule. The crate has definitions and laws alone. It stands on fb_functest for how bytes are read
//! and for true reports, on fb_meaning for true records and spelled trees, and on fb_campaign for campaigns.
#![tactic(auto)]

mod laws;

pub use laws::{
    completed_reports_are_valid, forged_reports_break, one_line_breaks_first,
    valid_reports_are_true, valid_reports_tell_totals, valid_runs_are_few,
};
