//! Where a call stands in a run.
ghost use Rattle.std.specs.Prelude.{◌≡◌, ◌<◌, [], ◌∷◌, ◌++◌, ◌↔◌, length, IfOk, IfErr, IfSome, IsTrue, MatchOption, string_bytes};
ghost use Rattle.std.specs.List.{last_or};
ghost use Rattle.fb_index.specs.Automaton.{Reads};
ghost use Rattle.fb_index.specs.Index.{IsIndex, RefusesIndex, index_cmp, index_text};
ghost use Rattle.fb_index.specs.Reading.{index_automaton};

use crate::chain::Chain;
use crate::entry::Entry;
use crate::error::IndexError;
use crate::scanner::{Scanner, whole};
use std::alloc::{AllocError, Global};
use std::cmp::Ordering;
use std::marker::Model;

/// The way from a test to one of the calls of its run: an entry for each body on the way.
///
/// It is shared: a longer index keeps the shorter one and copies nothing.
#[derive(Drop)]
pub struct Index {
    entries: Chain<Entry>,
}

impl Model for Index {
    ghost use Rattle.std.specs.Prelude.{List};
    ghost use Rattle.fb_index.specs.Entry.{Occurrence};
    ghost use Rattle.fb_index.specs.Index.{IsIndex};

    ghost Value = { List Occurrence };

    ghost view = { λ i. i.entries };

    ghost invariant = { λ i. IsIndex i.entries };
}

impl Index {
    /// The index of the test itself.
    pub fn root() -> Index
        ensures { result ≡ [] }
    {
        Index {
            entries: Chain::new(),
        }
    }

    /// The index of a call that the body at this index makes.
    pub fn child(&self, alloc: Global, entry: Entry) -> Result<Index, AllocError>
        ensures { IfOk result (λ child. child ≡ self.now ++ entry ∷ []) }
    {
        entry.proper();
        let entries = self.entries.with(alloc, entry)?;
        Ok(Index { entries })
    }

    /// One more owner.
    pub fn copy(&self) -> Result<Index, AllocError>
        ensures { IfOk result (λ copy. copy ≡ self.now) }
    {
        let entries = self.entries.copy()?;
        Ok(Index { entries })
    }

    /// Whether both are the index of the same call.
    pub fn same(&self, other: &Index) -> bool
        ensures { IsTrue result ↔ (self.now ≡ other.now) }
    {
        self.entries.same(&other.entries)
    }

    /// The dictionary order by site, then count. The index of a body comes before those of its calls.
    pub fn cmp(&self, other: &Index) -> Ordering
        ensures { result ≡ index_cmp self.now other.now }
    {
        self.entries.cmp(&other.entries)
    }

    /// The number of entries.
    pub fn len(&self) -> u64
        ensures { result ≡ length self.now }
    {
        self.entries.len()
    }

    /// The entry of the last call on the way, none exactly for the test itself.
    pub fn last(&self) -> Option<&Entry>
        ensures { MatchOption result (self.now ≡ [])
            (λ entry. last_or None self.now ≡ Some entry.now) }
    {
        match self.entries.split_last() {
            None => None,
            Some((_, entry)) => Some(entry),
        }
    }

    /// The entries as `SITE.COUNT`, joined by `/`. The root's text is empty.
    pub fn text(&self, alloc: Global) -> Result<String, AllocError>
        ensures { IfOk result (λ text. string_bytes text ≡ index_text self.now) }
    {
        self.entries.text(alloc, '/')
    }

    /// Reads an index's text. The offset of a refusal is the length of the longest front that begins some index's text.
    pub fn read_text(alloc: Global, bytes: &[u8]) -> Result<Index, IndexError>
        ensures read { IfOk result (λ index. bytes.now ≡ index_text index) }
        ensures refused { IfErr result (RefusesIndex bytes.now) }
    {
        if bytes.is_empty() {
            return Ok(Index::root());
        }
        let mut scanner = Scanner::new(bytes);
        let index = Index::scan(alloc, &mut scanner)?;
        match whole(index, bytes, scanner.len()) {
            Ok(index) => Ok(index),
            Err(offset) => Err(IndexError::BadIndex { offset }),
        }
    }

    /// Takes an index below the root.
    pub(crate) fn scan(alloc: Global, scanner: &mut Scanner) -> Result<Option<Index>, AllocError>
        ensures child { IfOk result (λ index. IfSome index (λ found. 0 < length found)) }
        ensures reads { IfOk result (λ index. Reads index_automaton index_text scanner.old index scanner.new) }
    {
        let mut index = Index::root();
        loop {
            let Some(entry) = Entry::scan(scanner) else {
                return Ok(None);
            };
            index = index.child(alloc, entry)?;
            if !scanner.take(b'/') {
                return Ok(Some(index));
            }
        }
    }

    /// Any index has numbers that a text can spell.
    pub fn proper(&self)
        ensures { IsIndex self.now }
    {
        let _entries = &self.entries;
    }
}
