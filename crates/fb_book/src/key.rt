//! Indexes as keys of a map.

use fb_index::Index;
use std::cmp::Ordering;
use std::marker::Model;

/// An index, ordered as indexes are.
#[derive(Drop)]
pub struct Key {
    pub index: Index,
}

impl Model for Key {
    ghost use Rattle.std.specs.Prelude.{List};
    ghost use Rattle.fb_index.specs.Entry.{Occurrence};

    ghost Value = { List Occurrence };

    ghost view = { λ k. k.index };
}

impl PartialEq for Key {
    ghost use Rattle.std.specs.Cmp.{partial_equiv_from_equiv};
    ghost use Rattle.fb_book.specs.Keys.{is_same_key, same_key_equiv};

    ghost eq = { is_same_key };

    ghost laws = { partial_equiv_from_equiv same_key_equiv };

    fn eq(&self, other: &Key) -> bool {
        self.cmp(other).is_eq()
    }
}

impl Eq for Key {
    ghost use Rattle.fb_book.specs.Keys.{same_key_equiv};

    ghost laws = { same_key_equiv };
}

impl PartialOrd for Key {
    ghost use Rattle.std.specs.Prelude.{Some};
    ghost use Rattle.fb_index.specs.Index.{index_cmp};
    ghost use Rattle.fb_book.specs.Keys.{key_po};

    ghost partial_cmp = { λ a b. Some (index_cmp a b) };

    ghost laws = { key_po };

    fn partial_cmp(&self, other: &Key) -> Option<Ordering> {
        Some(self.cmp(other))
    }
}

impl Ord for Key {
    ghost use Rattle.fb_index.specs.Index.{index_cmp};
    ghost use Rattle.fb_book.specs.Keys.{key_total, key_ties};
    ghost use Rattle.std.proofs.Common.{refl};

    ghost cmp = { index_cmp };

    ghost total = { key_total };

    ghost matches_partial_cmp = { λ a b. refl };

    ghost matches_eq = { key_ties };

    fn cmp(&self, other: &Key) -> Ordering {
        self.index.cmp(&other.index)
    }
}
