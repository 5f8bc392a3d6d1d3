//! One step of an index.
ghost use Rattle.fb_index.specs.Automaton.{Reads};
ghost use Rattle.fb_index.specs.Entry.{IsEntry, entry_text};
ghost use Rattle.fb_index.specs.Reading.{entry_automaton};

use crate::chain::Item;
use crate::scanner::Scanner;
use crate::spelling::Spelled;
use std::alloc::{AllocError, Global};
use std::marker::Model;

/// A call that a body makes. Both numbers are at least 1.
#[derive(Clone, Copy, Debug, PartialEq, Eq, PartialOrd, Ord)]
pub struct Entry {
    /// The call's place among the calls in the body's text.
    pub site: u32,
    /// How many times the body has reached this site, with this time.
    pub count: u32,
}

impl Model for Entry {
    ghost use Rattle.std.specs.Prelude.{◌≤◌};
    ghost use Rattle.fb_index.specs.Entry.{Occurrence};

    ghost Value = { Occurrence };

    ghost view = { λ e. record { site = e.site; count = e.count } };

    ghost invariant = { λ e. (1 ≤ e.site) × (1 ≤ e.count) };

    ghost inverse = { λ e. record { site = e.site; count = e.count } };
}

impl Entry {
    /// Any entry has numbers that a text can spell.
    pub fn proper(&self)
        ensures { IsEntry self.now }
    {
        let _site = self.site;
        let _count = self.count;
    }

    /// Takes an entry.
    pub(crate) fn scan(scanner: &mut Scanner) -> Option<Entry>
        ensures { Reads entry_automaton entry_text scanner.old result scanner.new }
    {
        let Some(site) = scanner.number() else {
            return None;
        };
        if !scanner.take(b'.') {
            return None;
        }
        let Some(count) = scanner.number() else {
            return None;
        };
        Some(Entry { site, count })
    }
}

impl Item for Entry {
    fn same(&self, other: &Entry) -> bool {
        self.site == other.site && self.count == other.count
    }
}

impl Spelled for Entry {
    ghost spelling = { entry_text };

    fn spell(&self, alloc: Global) -> Result<String, AllocError> {
        format!(in alloc; "{}.{}", self.site, self.count)
    }
}
