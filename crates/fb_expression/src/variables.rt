ghost use Rattle.std.specs.Prelude.{◌≡◌, [], ◌∷◌, ◌++◌, length, take, OnOk, OnErr};
ghost use Rattle.std.specs.Option.{option_copied};
ghost use Rattle.fb_meaning.specs.Variables.{value_named};
ghost use Rattle.fb_expression.specs.Scopes.{Declares, Assigns};

use crate::variable::Variable;
use fb_base::{Name, Value};
use std::alloc::{AllocError, Global};
use std::collections::BTreeMap;
use std::marker::Model;

/// The variables in scope, from the first declared to the last; no two have one name.
#[derive(Drop)]
pub struct Variables {
    stack: Vec<Variable>,
    /// Where each name stands in the stack, from 0.
    places: BTreeMap<Name, usize>,
}

impl Model for Variables {
    ghost use Rattle.std.specs.Prelude.{◌≡◌, ℕ, List};
    ghost use Rattle.std.specs.BTreeMap.{get};
    ghost use Rattle.std.specs.Ordering.{nat_cmp};
    ghost use Rattle.std.specs.Cmp.Lexicographic.{slice_cmp};
    ghost use Rattle.fb_meaning.specs.Evaluations.{NamedValue};
    ghost use Rattle.fb_expression.specs.Scopes.{place_named, NamesDiffer};

    ghost Value = { List NamedValue };

    ghost view = { λ v. v.stack.items };

    ghost invariant = { λ v.
        NamesDiffer v.stack.items
        × ((name : List ℕ) → get (slice_cmp nat_cmp) v.places name ≡ place_named v.stack.items name) };
}

impl Variables {
    /// No variables. It takes no memory yet.
    pub fn new(alloc: Global) -> Variables
        ensures { result ≡ [] }
    {
        Variables {
            stack: Vec::new(alloc),
            places: BTreeMap::new(alloc),
        }
    }

    /// The number of variables.
    pub fn len(&self) -> usize
        ensures { result ≡ length self.now }
    {
        self.stack.len()
    }

    /// The value of the variable with this name.
    pub fn get(&self, name: &Name) -> Option<&Value>
        ensures { option_copied result ≡ value_named self.now name.now }
    {
        match self.places.get(name) {
            Some(place) => Some(self.stack[*place].value()),
            None => None,
        }
    }

    /// Declares a variable, unless one with its name is in scope, and says whether it did.
    ///
    /// Without memory nothing changes.
    pub fn declare(&mut self, name: Name, value: Value) -> Result<bool, AllocError>
        ensures { Declares name value self.old self.new result }
    {
        if self.get(&name).is_some() {
            return Ok(false);
        }
        self.push(name, value)?;
        Ok(true)
    }

    /// Declares a variable whose name isn't in scope.
    pub(crate) fn push(&mut self, name: Name, value: Value) -> Result<(), AllocError>
        requires { value_named self.old name ≡ None }
        ensures ok { OnOk result (self.new ≡ self.old ++ record { name = name; value = value } ∷ []) }
        ensures err { OnErr result (self.new ≡ self.old) }
    {
        let place = self.stack.len();
        self.stack.push(Variable::new(name, value))?;
        match self.places.insert(name, place) {
            Ok(_) => Ok(()),
            Err(_) => {
                self.stack.truncate(place);
                Err(AllocError)
            }
        }
    }

    /// Gives the variable with this name another value, and says whether there is one. It takes no memory.
    pub fn assign(&mut self, name: &Name, value: Value) -> bool
        ensures { Assigns name.now value self.old self.new result }
    {
        match self.places.get(name) {
            Some(place) => {
                let place = *place;
                self.stack[place].set(value);
                true
            }
            None => false,
        }
    }

    /// Ends the variables that were declared last, so that this many remain.
    pub fn leave(&mut self, len: usize)
        ensures { self.new ≡ take len self.old }
    {
        while self.stack.len() > len {
            let place = self.stack.len() - 1;
            let name = *self.stack[place].name();
            self.places.remove(&name);
            self.stack.truncate(place);
        }
    }
}
