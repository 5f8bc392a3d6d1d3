//! What stands in a line as JSON, and how it is sent to serde_json's writer.
ghost use Rattle.std.specs.Prelude.{◌≡◌, OnOk, map};
ghost use Rattle.serde_json.specs.Data.{Data, array, boolean, number, string};
ghost use Rattle.serde_json.specs.Events.{SendsValue};
ghost use Rattle.serde_json.specs.Find.{of_integer};
ghost use Rattle.fb_report.specs.Trees.{number_tree, items_tree, value_tree, list_tree, optional_tree};

use fb_base::{Code, Items, List, Text, Value};
use serde::{Serialize, Serializer};
use serde_json::Number;
use std::alloc::Global;

/// What has a JSON.
pub(crate) trait Shaped {
    /// Its JSON.
    ghost tree: { Self → Data };

    /// Sends its JSON to a writer.
    fn send<S: Serializer>(&self, alloc: Global, out: &mut S) -> Result<(), S::Error>
        ensures { OnOk result (SendsValue (tree self.now) (S.written out.old) (S.written out.new)) };
}

impl Shaped for bool {
    ghost tree = { boolean };

    fn send<S: Serializer>(&self, _alloc: Global, out: &mut S) -> Result<(), S::Error> {
        out.bool(*self)
    }
}

impl Shaped for u64 {
    ghost tree = { number_tree };

    fn send<S: Serializer>(&self, _alloc: Global, out: &mut S) -> Result<(), S::Error> {
        out.u64(*self)
    }
}

impl Shaped for i64 {
    ghost tree = { λ n. number (of_integer n) };

    fn send<S: Serializer>(&self, _alloc: Global, out: &mut S) -> Result<(), S::Error> {
        Number::from(*self).serialize(out)
    }
}

impl Shaped for Text {
    ghost tree = { string };

    fn send<S: Serializer>(&self, _alloc: Global, out: &mut S) -> Result<(), S::Error> {
        out.str(self.as_str())
    }
}

impl Shaped for Code {
    ghost tree = { string };

    fn send<S: Serializer>(&self, _alloc: Global, out: &mut S) -> Result<(), S::Error> {
        out.str(self.as_str())
    }
}

impl<T: Shaped> Shaped for Option<T> {
    ghost tree = { optional_tree T.tree };

    fn send<S: Serializer>(&self, alloc: Global, out: &mut S) -> Result<(), S::Error> {
        match self {
            None => out.unit(),
            Some(item) => item.send(alloc, out),
        }
    }
}

impl<T: Shaped> Shaped for List<T> {
    ghost tree = { list_tree T.tree };

    fn send<S: Serializer>(&self, alloc: Global, out: &mut S) -> Result<(), S::Error> {
        send_items(alloc, self.as_slice(), out)
    }
}

/// Sends an array.
pub(crate) fn send_items<T: Shaped, S: Serializer>(
    alloc: Global,
    items: &[T],
    out: &mut S,
) -> Result<(), S::Error>
    ensures { OnOk result (SendsValue (list_tree T.tree items.now) (S.written out.old) (S.written out.new)) }
{
    out.begin_seq(Some(items.len()))?;
    for item in items {
        item.send(alloc, out)?;
    }
    out.end_seq()
}

impl Shaped for Items {
    ghost tree = { items_tree };

    fn send<S: Serializer>(&self, alloc: Global, out: &mut S) -> Result<(), S::Error> {
        match self {
            Items::Empty => send_items::<bool, S>(alloc, &[], out),
            Items::Ints(list) => send_items(alloc, list.items(), out),
            Items::Bools(list) => send_items(alloc, list.items(), out),
            Items::Texts(list) => send_items(alloc, list.items(), out),
        }
    }
}

impl Shaped for Value {
    ghost tree = { value_tree };

    fn send<S: Serializer>(&self, alloc: Global, out: &mut S) -> Result<(), S::Error> {
        match self {
            Value::Int(n) => n.send(alloc, out),
            Value::Bool(b) => b.send(alloc, out),
            Value::Text(text) => text.send(alloc, out),
            Value::List(items) => items.send(alloc, out),
        }
    }
}
