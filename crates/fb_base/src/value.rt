//! Values.
ghost use Rattle.std.specs.Prelude.{◌≡◌, ◌≤◌, ◌↔◌, IsTrue, IfOk};
ghost use Rattle.fb_base.specs.Values.{has_kind, weight_of, same_value, IsProper};
ghost use Rattle.fb_base.specs.Weight.{heaviest};

use crate::items::Items;
use crate::kind::Kind;
use crate::text::Text;
use std::alloc::{AllocError, Global};

/// A value of the language. It weighs at most 65,536.
#[derive(Drop)]
pub enum Value {
    Int(i64),
    Bool(bool),
    Text(Text),
    List(Items),
}

impl Value {
    /// What holds of each value that a program has.
    pub fn proper(&self)
        ensures { IsProper self.now }
    {
        match self {
            Value::Int(n) => {
                let _read = *n;
            }
            Value::Bool(_) => {}
            Value::Text(text) => text.proper(),
            Value::List(items) => items.proper(),
        }
    }

    /// Whether the value has that kind. An empty list has each list kind.
    pub fn has_kind(&self, kind: Kind) -> bool
        ensures { result ≡ has_kind self.now kind }
    {
        match (self, kind) {
            (Value::Int(_), Kind::Int)
            | (Value::Bool(_), Kind::Bool)
            | (Value::Text(_), Kind::Text) => true,
            (Value::List(items), kind) => items.has_kind(kind),
            _ => false,
        }
    }

    /// The weight: 1 of an int or a bool, one more than its bytes of a text, one more than that of its items of a list.
    pub fn weight(&self) -> u64
        ensures value { result ≡ weight_of self.now }
        ensures some { 1 ≤ result }
        ensures light { result ≤ heaviest }
    {
        match self {
            Value::Int(_) | Value::Bool(_) => 1,
            Value::Text(text) => 1 + text.bytes().len() as u64,
            Value::List(items) => items.weight(),
        }
    }

    /// Whether the values are equal. It takes no memory.
    pub fn same(&self, other: &Value) -> bool
        ensures value { result ≡ same_value self.now other.now }
        ensures equal { IsTrue result ↔ (self.now ≡ other.now) }
    {
        *self == *other
    }

    /// The same value, in memory of its own.
    pub fn copy(&self, alloc: Global) -> Result<Value, AllocError>
        ensures { IfOk result (λ made. made ≡ self.now) }
    {
        match self {
            Value::Int(n) => Ok(Value::Int(*n)),
            Value::Bool(b) => Ok(Value::Bool(*b)),
            Value::Text(text) => Ok(Value::Text(text.copy(alloc)?)),
            Value::List(items) => Ok(Value::List(items.copy(alloc)?)),
        }
    }
}
