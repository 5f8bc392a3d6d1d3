//! Hashes of values, so that a table may have them as keys.

use crate::items::Items;
use crate::text::Text;
use crate::value::Value;
use std::hash::{Hash, Hasher};

impl Hash for Text {
    ghost use Rattle.std.specs.Hash as writes;
    ghost use Rattle.std.proofs.lemmas.Slice.Eq.{bytes_eq-Decides};

    ghost hash_input = { writes.str };

    ghost respects_eq = { (writes.same_Alike writes.str bytes_eq-Decides).fed };

    fn hash<H: Hasher>(&self, state: &mut H) {
        self.as_str().hash(state);
    }
}

impl Hash for Items {
    ghost use Rattle.std.specs.Hash as writes;
    ghost use Rattle.fb_base.specs.Hashes.{writes_of_items};
    ghost use Rattle.fb_base.specs.SameLaws.{same_items-Decides};

    ghost hash_input = { writes_of_items };

    ghost respects_eq = { (writes.same_Alike writes_of_items same_items-Decides).fed };

    fn hash<H: Hasher>(&self, state: &mut H) {
        match self {
            Items::Empty => state.write_u8(0),
            Items::Ints(list) => list.items().hash(state),
            Items::Bools(list) => list.items().hash(state),
            Items::Texts(list) => list.items().hash(state),
        }
    }
}

impl Hash for Value {
    ghost use Rattle.std.specs.Hash as writes;
    ghost use Rattle.fb_base.specs.Hashes.{writes_of_value};
    ghost use Rattle.fb_base.specs.SameLaws.{same_value-Decides};

    ghost hash_input = { writes_of_value };

    ghost respects_eq = { (writes.same_Alike writes_of_value same_value-Decides).fed };

    fn hash<H: Hasher>(&self, state: &mut H) {
        match self {
            Value::Int(n) => n.hash(state),
            Value::Bool(b) => b.hash(state),
            Value::Text(text) => text.hash(state),
            Value::List(items) => items.hash(state),
        }
    }
}
