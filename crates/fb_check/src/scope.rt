ghost use Rattle.std.specs.Prelude.{◌≡◌, [], length, take};
ghost use Rattle.fb_check.specs.Scopes.{kind_named, Declares};

use crate::binding::Binding;
use fb_base::{Kind, Name};
use std::alloc::{AllocError, Global};
use std::collections::BTreeMap;
use std::marker::Model;

/// The variables that are in scope, from the first declared to the last, with their kinds by name.
#[derive(Drop)]
pub struct Scope {
    bindings: Vec<Binding>,
    kinds: BTreeMap<Name, Kind>,
}

impl Model for Scope {
    ghost use Rattle.std.specs.Prelude.{◌≡◌, ℕ, List};
    ghost use Rattle.std.specs.BTreeMap.{get};
    ghost use Rattle.std.specs.Ordering.{nat_cmp};
    ghost use Rattle.std.specs.Cmp.Lexicographic.{slice_cmp};
    ghost use Rattle.fb_check.specs.declared.binding.Binding.{Binding};
    ghost use Rattle.fb_check.specs.Scopes.{kind_named, NamesDiffer};

    ghost Value = { List Binding };

    ghost view = { λ s. s.bindings.items };

    ghost invariant = { λ s.
        NamesDiffer s.bindings.items
        × ((name : List ℕ) → get (slice_cmp nat_cmp) s.kinds name ≡ kind_named s.bindings.items name) };
}

impl Scope {
    /// No variables.
    pub fn new(alloc: Global) -> Scope
        ensures { result ≡ [] }
    {
        Scope {
            bindings: Vec::new(alloc),
            kinds: BTreeMap::new(alloc),
        }
    }

    /// The number of variables.
    pub fn len(&self) -> usize
        ensures { result ≡ length self.now }
    {
        self.bindings.len()
    }

    /// The kind of the variable with this name.
    pub fn kind_named(&self, name: &Name) -> Option<Kind>
        ensures { result ≡ kind_named self.now name.now }
    {
        self.kinds.get(name).copied()
    }

    /// Declares a variable, unless one with its name is in scope, and says whether it did.
    pub fn declare(&mut self, binding: Binding) -> Result<bool, AllocError>
        ensures { Declares binding self.old self.new result }
    {
        if self.kind_named(&binding.name).is_some() {
            return Ok(false);
        }
        self.bindings.push(binding)?;
        if self.kinds.insert(binding.name, binding.kind).is_err() {
            self.bindings.pop();
            return Err(AllocError);
        }
        Ok(true)
    }

    /// Ends the variables that were declared last, so that this many remain.
    pub fn leave(&mut self, len: usize)
        ensures { self.new ≡ take len self.old }
    {
        while self.bindings.len() > len {
            if let Some(last) = self.bindings.pop() {
                self.kinds.remove(&last.name);
            }
        }
    }
}
