ghost use Rattle.std.specs.Prelude.{◌≡◌, is_some, nat_lt, slice_get, IfOk};
ghost use Rattle.fb_base.specs.Values.{length_of_items};
ghost use Rattle.fb_meaning.specs.Bodies.{values_in};

use fb_base::{Items, Value};
use std::alloc::{AllocError, Global};

/// The item of a list at a place, counted from 0, as a value of its own; none past the end. Only this item is copied.
pub fn item_at(alloc: Global, items: &Items, place: usize) -> Result<Option<Value>, AllocError>
    ensures item { IfOk result (λ item. item ≡ slice_get (values_in items.now) place) }
    ensures there { IfOk result (λ item. is_some item ≡ nat_lt place (length_of_items items.now)) }
{
    match items {
        Items::Empty => Ok(None),
        Items::Ints(list) => match list.items().get(place) {
            Some(n) => Ok(Some(Value::Int(*n))),
            None => Ok(None),
        },
        Items::Bools(list) => match list.items().get(place) {
            Some(b) => Ok(Some(Value::Bool(*b))),
            None => Ok(None),
        },
        Items::Texts(list) => match list.items().get(place) {
            Some(text) => Ok(Some(Value::Text(text.copy(alloc)?))),
            None => Ok(None),
        },
    }
}
