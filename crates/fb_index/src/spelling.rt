//! What is written, and how its parts are joined.
ghost use Rattle.std.specs.Prelude.{◌≡◌, ◌<◌, ℕ, List, map, IfOk, string_bytes};
ghost use Rattle.std.specs.List.{join_with_byte};
ghost use Rattle.fb_index.specs.Spelling.{int_spelling, bool_spelling, text_spelling, items_spelling, value_spelling, reply_text};

use fb_base::{Items, Reply, Text, Value};
use std::alloc::{AllocError, Global};

/// What has a text.
pub trait Spelled {
    /// The bytes of its text.
    ghost spelling: { Self → List ℕ };

    /// Its text.
    fn spell(&self, alloc: Global) -> Result<String, AllocError>
        ensures { IfOk result (λ text. string_bytes text ≡ spelling self.now) };
}

impl<T: Spelled> Spelled for &T {
    ghost spelling = { λ item. T.spelling item.now };

    fn spell(&self, alloc: Global) -> Result<String, AllocError> {
        (**self).spell(alloc)
    }
}

/// The texts of the items, joined by a sign.
pub fn joined<T: Spelled>(alloc: Global, items: &[T], sign: char) -> Result<String, AllocError>
    requires { sign < 128 }
    ensures { IfOk result (λ text. string_bytes text ≡ join_with_byte sign (map T.spelling items.now)) }
{
    let [first, rest @ ..] = items else {
        return Ok(String::new(alloc));
    };
    let mut text = first.spell(alloc)?;
    for item in rest {
        text.push(sign)?;
        text.push_str(&item.spell(alloc)?)?;
    }
    Ok(text)
}

impl Spelled for i64 {
    ghost spelling = { int_spelling };

    fn spell(&self, alloc: Global) -> Result<String, AllocError> {
        format!(in alloc; "{}", *self)
    }
}

impl Spelled for bool {
    ghost spelling = { bool_spelling };

    fn spell(&self, alloc: Global) -> Result<String, AllocError> {
        if *self {
            return String::from_str(alloc, "true");
        }
        String::from_str(alloc, "false")
    }
}

impl Spelled for Text {
    ghost spelling = { text_spelling };

    fn spell(&self, alloc: Global) -> Result<String, AllocError> {
        let digits = hex::encode(alloc, self.bytes())?;
        format!(in alloc; "x{digits}")
    }
}

impl Spelled for Items {
    ghost spelling = { items_spelling };

    fn spell(&self, alloc: Global) -> Result<String, AllocError> {
        match self {
            Items::Empty => Ok(String::new(alloc)),
            Items::Ints(list) => joined(alloc, list.items(), ';'),
            Items::Bools(list) => joined(alloc, list.items(), ';'),
            Items::Texts(list) => joined(alloc, list.items(), ';'),
        }
    }
}

impl Spelled for Value {
    ghost spelling = { value_spelling };

    fn spell(&self, alloc: Global) -> Result<String, AllocError> {
        match self {
            Value::Int(n) => n.spell(alloc),
            Value::Bool(b) => b.spell(alloc),
            Value::Text(text) => text.spell(alloc),
            Value::List(items) => {
                let items = items.spell(alloc)?;
                format!(in alloc; "[{items}]")
            }
        }
    }
}

impl Spelled for Reply {
    ghost spelling = { reply_text };

    fn spell(&self, alloc: Global) -> Result<String, AllocError> {
        match self {
            Reply::Ok(value) => {
                let value = value.spell(alloc)?;
                format!(in alloc; "ok:{value}")
            }
            Reply::Err(code) => String::from_str(alloc, code.as_str()),
        }
    }
}
