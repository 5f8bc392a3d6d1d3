//! A law of derivations: a function that does nothing and ensures it.
ghost use Rattle.fb_stitch.specs.Derivations.{DerivedIsCovered};

use fb_meaning::covered_is_spelled;

/// A plan for which there is a derivation is covered by the records.
pub fn derived_plans_are_covered()
    ensures { DerivedIsCovered }
{
    covered_is_spelled();
}
