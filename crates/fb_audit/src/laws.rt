//! Laws of audits. Each is a function that does nothing: what it ensures is the law.
ghost use Rattle.fb_audit.specs.Laws.{ConcludedLinesAreValid};

/// Bytes that are read as lines which an audit took and concluded as valid are a valid report, with the totals of the
/// conclusion.
pub fn concluded_lines_are_valid()
    ensures { ConcludedLinesAreValid }
{}
