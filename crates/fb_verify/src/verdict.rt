//! What is found of a report.

use fb_audit::Rule;
use fb_tally::Totals;

/// Whether a report is valid, with its totals, or which line is the first that breaks a rule, and the rule.
#[derive(Drop)]
pub enum Verdict {
    Yes(Totals),
    /// Lines are numbered from 1.
    No { line: u64, rule: Rule },
}
