//! What is found out of a report's lines.

use fb_base::Reply;
use fb_index::Index;
use fb_tally::Totals;

/// What a line can break.
#[derive(Drop)]
pub enum Rule {
    /// Bytes stand behind the last line feed.
    CutLine,
    NotJson,
    BadShape,
    BadNumber,
    /// Its place, its number, the version or the totals.
    V1,
    /// The record of an inv line is true and its own.
    V2,
    /// A plan line extends the plan of one above it, and has a plan of its own.
    V3,
    /// The uses of a plan line spell a tree under its plan.
    V4,
    /// The tree ends as the line says.
    V5,
    /// The extension of a plan line's plan by this fault has a line.
    V6 { index: Index, reply: Reply },
    /// Records are owned by run lines that use them, and pruned lines use those of lines above.
    V7,
    /// With reduction a run line owns a record.
    V8,
}

/// The first line of a report that breaks a rule. Lines are numbered from 1.
#[derive(Drop)]
pub struct Break {
    pub line: u64,
    pub rule: Rule,
}

/// What all lines together come to.
#[derive(Drop)]
pub enum Conclusion {
    Valid(Totals),
    Broken(Break),
}
