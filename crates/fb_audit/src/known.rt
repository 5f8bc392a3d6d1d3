//! What the lines below a header tell of records, their owners and plans.

use fb_book::Book;
use fb_store::Store;
use fb_tally::Owners;
use std::alloc::{AllocError, Global};

/// What the lines below a header tell of records, their owners and plans.
#[derive(Drop)]
pub(crate) struct Known {
    pub store: Store,
    pub owners: Owners,
    pub book: Book,
}

impl Known {
    ghost use Rattle.std.specs.Prelude.{ℕ, [], IfOk};
    ghost use Rattle.fb_audit.specs.Kept.{Basis, IsKnownOf};

    /// No line yet.
    pub(crate) fn new(alloc: Global) -> Result<Known, AllocError>
        ensures { IfOk result (λ known. (basis : Basis) (fuel : ℕ) → IsKnownOf basis fuel [] known) }
    {
        Ok(Known {
            store: Store::new(alloc),
            owners: Owners::new(alloc),
            book: Book::new(alloc),
        })
    }
}
