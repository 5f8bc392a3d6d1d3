//! JSON texts, written by serde_json.
ghost use Rattle.std.specs.Prelude.{◌≡◌, false, IfOk, string_bytes};
ghost use Rattle.serde_json.specs.Written.{has_float, compact_text};
ghost use Rattle.serde_json.specs.Events.{SendsValue};
ghost use Rattle.fb_report.specs.Bytes.{line_bytes};
ghost use Rattle.fb_report.specs.Ranges.{IsInRange};
ghost use Rattle.fb_report.specs.Trees.{value_tree};

use crate::line::Line;
use crate::shaped::Shaped;
use fb_base::Value;
use serde::{Described, Serialize, Serializer};
use std::alloc::{AllocError, Global};

/// A thing that serde_json writes.
#[derive(Drop)]
struct Written<'a, T> {
    alloc: Global,
    item: &'a T,
}

impl<'a, T: Shaped> Described for Written<'a, T> {
    ghost writes = { λ w. SendsValue (T.tree w.item.now) };
}

impl<'a, T: Shaped> Serialize for Written<'a, T> {
    fn serialize<S: Serializer>(&self, out: &mut S) -> Result<(), S::Error> {
        self.item.send(self.alloc, out)
    }
}

/// The compact text of a thing's JSON.
pub(crate) fn bytes_of<T: Shaped>(alloc: Global, item: &T) -> Result<Vec<u8>, AllocError>
    ensures { IfOk result (λ bytes. has_float (T.tree item.now) ≡ false → bytes.items ≡ compact_text (T.tree item.now)) }
{
    match serde_json::to_vec(alloc, &Written { alloc, item }) {
        Ok(bytes) => Ok(bytes),
        Err(_) => Err(AllocError),
    }
}

/// The compact JSON of a value, as it stands in a line.
pub fn value_text(alloc: Global, value: &Value) -> Result<String, AllocError>
    ensures { IfOk result (λ text. string_bytes text ≡ compact_text (value_tree value.now)) }
{
    match serde_json::to_string(alloc, &Written { alloc, item: value }) {
        Ok(text) => Ok(text),
        Err(_) => Err(AllocError),
    }
}

/// The line as a report holds it, with its line feed.
pub fn line_bytes(alloc: Global, line: &Line) -> Result<Vec<u8>, AllocError>
    requires { IsInRange line.now }
    ensures { IfOk result (λ bytes. bytes.items ≡ line_bytes line.now) }
{
    let mut bytes = bytes_of(alloc, line)?;
    bytes.push(b'\n')?;
    Ok(bytes)
}
