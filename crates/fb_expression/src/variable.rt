ghost use Rattle.std.specs.Prelude.{◌≡◌};

use fb_base::{Name, Value};
use std::marker::Model;

/// A variable, and the value that it has.
#[derive(Drop)]
pub struct Variable {
    name: Name,
    value: Value,
}

impl Model for Variable {
    ghost use Rattle.fb_meaning.specs.Evaluations.{NamedValue};

    ghost Value = { NamedValue };

    ghost view = { λ v. record { name = v.name; value = v.value } };
}

impl Variable {
    pub fn new(name: Name, value: Value) -> Variable
        ensures { result ≡ record { name = name; value = value } }
    {
        Variable { name, value }
    }

    pub fn name(&self) -> &Name
        ensures { result.now ≡ self.now.name }
    {
        &self.name
    }

    pub fn value(&self) -> &Value
        ensures { result.now ≡ self.now.value }
    {
        &self.value
    }

    pub fn set(&mut self, value: Value)
        ensures { self.new ≡ record { name = self.old.name; value = value } }
    {
        self.value = value;
    }
}
