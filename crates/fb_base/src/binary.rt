//! Operators of two operands.
ghost use Rattle.std.specs.Prelude.{◌≡◌, ◌++◌};
ghost use Rattle.std.specs.Option.{option_map, option_and_then, option_copied};
ghost use Rattle.fb_base.specs.Operators.{Answered, value_of_binary, equality_of, ints_of, within_weight, light_items, joined_items, value_of_join, item_at, value_at, value_of_place};

use crate::arithmetic::{difference, product, quotient, remainder, sum};
use crate::equality::share_kind;
use crate::items::Items;
use crate::operator::{Op2, OpError};
use crate::text::{LONGEST_TEXT, Text};
use crate::value::Value;
use std::alloc::Global;

fn ints(a: &Value, b: &Value) -> Result<(i64, i64), OpError>
    ensures { Answered (ints_of a.now b.now) result }
{
    match (a, b) {
        (Value::Int(a), Value::Int(b)) => Ok((*a, *b)),
        _ => Err(OpError::Fault),
    }
}

fn number(n: Option<i64>) -> Result<Value, OpError>
    ensures { Answered (option_map Value.Int n) result }
{
    match n {
        Some(n) => Ok(Value::Int(n)),
        None => Err(OpError::Fault),
    }
}

fn equality(a: &Value, b: &Value) -> Result<bool, OpError>
    ensures { Answered (equality_of a.now b.now) result }
{
    if share_kind(a, b) {
        Ok(a == b)
    } else {
        Err(OpError::Fault)
    }
}

fn joined_texts(alloc: Global, a: &Text, b: &Text) -> Result<Value, OpError>
    ensures { Answered (within_weight (Value.Text (a.now ++ b.now))) result }
{
    if LONGEST_TEXT < a.bytes().len() + b.bytes().len() {
        return Err(OpError::Fault);
    }
    Ok(Value::Text(a.joined(alloc, b)?))
}

fn joined_items(alloc: Global, a: &Items, b: &Items) -> Result<Items, OpError>
    ensures { Answered (option_and_then light_items (joined_items a.now b.now)) result }
{
    a.proper();
    b.proper();
    match (a, b) {
        (Items::Empty, b) => Ok(b.copy(alloc)?),
        (a, Items::Empty) => Ok(a.copy(alloc)?),
        (Items::Ints(a), Items::Ints(b)) => Ok(Items::Ints(a.joined(alloc, b)?)),
        (Items::Bools(a), Items::Bools(b)) => Ok(Items::Bools(a.joined(alloc, b)?)),
        (Items::Texts(a), Items::Texts(b)) => Ok(Items::Texts(a.joined(alloc, b)?)),
        _ => Err(OpError::Fault),
    }
}

fn joined(alloc: Global, a: &Value, b: &Value) -> Result<Value, OpError>
    ensures { Answered (value_of_join a.now b.now) result }
{
    match (a, b) {
        (Value::Text(a), Value::Text(b)) => joined_texts(alloc, a, b),
        (Value::List(a), Value::List(b)) => Ok(Value::List(joined_items(alloc, a, b)?)),
        _ => Err(OpError::Fault),
    }
}

fn item_at<T>(items: &[T], place: i64) -> Option<&T>
    ensures { option_copied result ≡ item_at items.now place }
{
    if place < 0 {
        return None;
    }
    items.get(place as usize)
}

fn value_at(alloc: Global, items: &Items, place: i64) -> Result<Value, OpError>
    ensures { Answered (value_at items.now place) result }
{
    match items {
        Items::Empty => Err(OpError::Fault),
        Items::Ints(list) => match item_at(list.items(), place) {
            Some(n) => Ok(Value::Int(*n)),
            None => Err(OpError::Fault),
        },
        Items::Bools(list) => match item_at(list.items(), place) {
            Some(b) => Ok(Value::Bool(*b)),
            None => Err(OpError::Fault),
        },
        Items::Texts(list) => match item_at(list.items(), place) {
            Some(text) => Ok(Value::Text(text.copy(alloc)?)),
            None => Err(OpError::Fault),
        },
    }
}

fn item_of(alloc: Global, a: &Value, b: &Value) -> Result<Value, OpError>
    ensures { Answered (value_of_place a.now b.now) result }
{
    match (a, b) {
        (Value::List(items), Value::Int(place)) => value_at(alloc, items, *place),
        _ => Err(OpError::Fault),
    }
}

/// The value that an operator gives for two operands, by the table of operators.
///
/// Operands whose kinds don't fit the operator are a fault too.
#[tactic(auto, unfolding(crate::specs::Operators::value_of_binary))]
pub fn apply2(alloc: Global, op: Op2, a: &Value, b: &Value) -> Result<Value, OpError>
    ensures { Answered (value_of_binary op a.now b.now) result }
{
    match op {
        Op2::Add => {
            let (a, b) = ints(a, b)?;
            number(sum(a, b))
        }
        Op2::Sub => {
            let (a, b) = ints(a, b)?;
            number(difference(a, b))
        }
        Op2::Mul => {
            let (a, b) = ints(a, b)?;
            number(product(a, b))
        }
        Op2::Div => {
            let (a, b) = ints(a, b)?;
            number(quotient(a, b))
        }
        Op2::Rem => {
            let (a, b) = ints(a, b)?;
            number(remainder(a, b))
        }
        Op2::Eq => Ok(Value::Bool(equality(a, b)?)),
        Op2::Ne => Ok(Value::Bool(!equality(a, b)?)),
        Op2::Lt => {
            let (a, b) = ints(a, b)?;
            Ok(Value::Bool(a < b))
        }
        Op2::Le => {
            let (a, b) = ints(a, b)?;
            Ok(Value::Bool(a <= b))
        }
        Op2::Gt => {
            let (a, b) = ints(a, b)?;
            Ok(Value::Bool(a > b))
        }
        Op2::Ge => {
            let (a, b) = ints(a, b)?;
            Ok(Value::Bool(a >= b))
        }
        Op2::Join => joined(alloc, a, b),
        Op2::At => item_of(alloc, a, b),
    }
}
