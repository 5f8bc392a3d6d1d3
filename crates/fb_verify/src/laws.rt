//! A law of verdicts. It is a function that does nothing: what it ensures is the law.
ghost use Rattle.fb_verify.specs.Verdicts.{VerdictsAreExact};

use fb_functest::reports_are_read_one_way;
use fb_valid::one_line_breaks_first;

/// Any bytes have one verdict at most: a valid report isn't broken, its totals are those of its lines, and one line and one
/// rule are the first.
pub fn verdicts_are_exact()
    ensures { VerdictsAreExact }
{
    reports_are_read_one_way();
    one_line_breaks_first();
}
