//! What is known of a campaign's lines so far.
ghost use Rattle.std.specs.Prelude.{◌≡◌, [], length};
ghost use Rattle.fb_explore.specs.Tallies.{no_plans, totals_by};

use crate::tally::Tally;
use fb_report::Totals;
use fb_store::Store;
use std::alloc::Global;

/// What is known of a campaign's lines so far.
#[derive(Drop)]
pub(crate) struct Known {
    /// The records of the inv lines, by their numbers.
    pub store: Store,
    /// What the plan lines come to.
    pub tally: Tally,
}

impl Known {
    /// No line yet.
    pub(crate) fn new(alloc: Global) -> Known
        ensures store { result.store ≡ [] }
        ensures tally { result.tally ≡ no_plans }
    {
        Known {
            store: Store::new(alloc),
            tally: Tally::new(alloc),
        }
    }

    /// The totals of the lines.
    pub(crate) fn totals(&self) -> Totals
        ensures { result ≡ totals_by self.now.tally (length self.now.store) }
    {
        self.tally.totals(self.store.len())
    }
}
