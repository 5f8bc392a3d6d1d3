//! List literals.
ghost use Rattle.std.specs.Prelude.{◌≡◌, ◌<◌, Option, IfOk, OnErr, IsErrOf, Some, None, vec_len};
ghost use Rattle.std.specs.Option.{option_and_then};
ghost use Rattle.fb_base.specs.Weight.{light_list};
ghost use Rattle.fb_base.specs.Operators.{Answered, parts_of, value_of_list};

use crate::item::Item;
use crate::items::Items;
use crate::operator::OpError;
use crate::text::Text;
use crate::value::Value;
use crate::weighed::Weighed;
use std::alloc::Global;
use std::collections::VecDeque;

/// An item that may be what a value holds.
trait Part: Item {
    ghost use Rattle.std.specs.Prelude.{Option};
    ghost use Rattle.fb_base.specs.declared.value.Value.{Value};

    ghost part: { Value → Option Self };

    fn part(value: Value) -> Option<Self>
        ensures { result ≡ part value };
}

impl Part for i64 {
    ghost use Rattle.fb_base.specs.Operators.{int_of};

    ghost part = { int_of };

    fn part(value: Value) -> Option<i64> {
        match value {
            Value::Int(n) => Some(n),
            _ => None,
        }
    }
}

impl Part for bool {
    ghost use Rattle.fb_base.specs.Operators.{bool_of};

    ghost part = { bool_of };

    fn part(value: Value) -> Option<bool> {
        match value {
            Value::Bool(b) => Some(b),
            _ => None,
        }
    }
}

impl Part for Text {
    ghost use Rattle.fb_base.specs.Operators.{text_of};

    ghost part = { text_of };

    fn part(value: Value) -> Option<Text> {
        match value {
            Value::Text(text) => Some(text),
            _ => None,
        }
    }
}

/// The parts of all values, which are moved out of them.
fn parts<T: Part>(alloc: Global, values: Vec<Value>) -> Result<Vec<T>, OpError>
    ensures ok { IfOk result (λ made. parts_of T.part values.items ≡ Some made.items) }
    ensures fault { IsErrOf result OpError.Fault → parts_of T.part values.items ≡ None }
{
    let mut made = Vec::with_capacity(alloc, values.len())?;
    let mut left = VecDeque::from(values);
    while let Some(value) = left.pop_front() {
        match T::part(value) {
            Some(part) => made.push(part)?,
            None => return Err(OpError::Fault),
        }
    }
    Ok(made)
}

fn literal<T: Part>(alloc: Global, values: Vec<Value>) -> Result<Weighed<T>, OpError>
    requires { 0 < vec_len values }
    ensures { Answered (option_and_then (light_list T.weight) (parts_of T.part values.items)) result }
{
    Weighed::of(parts(alloc, values)?).ok_or(OpError::Fault)
}

/// The list of these values, which are moved into it. They have to be ints, bools or texts, all of one kind, or it is a fault.
///
/// It is a fault too where the list weighs more than 65,536.
#[tactic(auto, unfolding(crate::specs::Operators::value_of_list))]
pub fn list_of(alloc: Global, items: Vec<Value>) -> Result<Value, OpError>
    ensures { Answered (value_of_list items.items) result }
{
    match items.as_slice() {
        [] => Ok(Value::List(Items::Empty)),
        [Value::Int(_), ..] => Ok(Value::List(Items::Ints(literal(alloc, items)?))),
        [Value::Bool(_), ..] => Ok(Value::List(Items::Bools(literal(alloc, items)?))),
        [Value::Text(_), ..] => Ok(Value::List(Items::Texts(literal(alloc, items)?))),
        [Value::List(_), ..] => Err(OpError::Fault),
    }
}
