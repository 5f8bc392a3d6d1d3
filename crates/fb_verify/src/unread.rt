//! Lines that aren't read.
ghost use Rattle.std.specs.Prelude.{◌≡◌, Some, IfOk};
ghost use Rattle.fb_audit.specs.Rules.{rule_told};
ghost use Rattle.fb_valid.specs.Verdict.{rule_of};

use fb_audit::Rule;
use fb_reading::LineError;
use std::alloc::AllocError;

/// The rule that a line breaks whose bytes are read with this error.
pub(crate) fn rule_of(error: &LineError) -> Result<Rule, AllocError>
    ensures { IfOk result (λ rule. rule_of error.now ≡ Some (rule_told rule)) }
{
    match error {
        LineError::NotJson => Ok(Rule::NotJson),
        LineError::BadShape { .. } => Ok(Rule::BadShape),
        LineError::BadNumber { .. } => Ok(Rule::BadNumber),
        LineError::Memory => Err(AllocError),
    }
}
