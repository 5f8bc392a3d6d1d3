//! Reading values and replies.
ghost use Rattle.std.specs.Prelude.{◌≡◌, ◌<◌, List, IfOk, IsErrOf, length};
ghost use Rattle.serde_json.specs.Data.{array, object};
ghost use Rattle.serde_json.specs.View.{items_view, members_view};
ghost use Rattle.fb_base.specs.Replies.{IsProperReply};
ghost use Rattle.fb_base.specs.Values.{AreProper, IsProper};
ghost use Rattle.fb_base.specs.Weight.{IsWeighed};
ghost use Rattle.fb_report.specs.Trees.{items_tree, reply_tree, trees_of, value_tree};
ghost use Rattle.fb_reading.specs.Shapes.{IsNoList, IsTree};

use crate::fields::Left;
use crate::readable::{Misfit, Readable, each};
use fb_base::{Item, Items, Reply, Text, Value, Weighed};
use serde_json::Value as Json;
use std::alloc::Global;

/// The list of these items, where they don't weigh too much.
fn weighed<T: Item + Readable>(alloc: Global, items: &[Json]) -> Result<Weighed<T>, Misfit>
    requires { 0 < length items.now }
    ensures read { IfOk result (λ list. IsWeighed T.weight T.fits list × (items_view items.now ≡ trees_of T.tree list)) }
    ensures refused { IsErrOf result Misfit.Shape → IsNoList T.weight T.fits T.tree (items_view items.now) }
{
    let read = each(alloc, items)?;
    match Weighed::of(read.into_vec()) {
        Some(list) => Ok(list),
        None => Err(Misfit::Shape),
    }
}

/// The items of a list value, of which the first tells the kind.
fn items_of(alloc: Global, items: &[Json]) -> Result<Items, Misfit>
    ensures read { IfOk result (λ read. AreProper read × (array (items_view items.now) ≡ items_tree read)) }
    ensures refused { IsErrOf result Misfit.Shape → ¬ (IsTree AreProper items_tree (array (items_view items.now))) }
{
    let [first, ..] = items else {
        return Ok(Items::Empty);
    };
    if first.is_number() {
        return Ok(Items::Ints(weighed::<i64>(alloc, items)?));
    }
    if first.is_boolean() {
        return Ok(Items::Bools(weighed::<bool>(alloc, items)?));
    }
    if first.is_string() {
        return Ok(Items::Texts(weighed::<Text>(alloc, items)?));
    }
    Err(Misfit::Shape)
}

impl Readable for Value {
    ghost tree = { value_tree };

    ghost fits = { IsProper };

    fn read(alloc: Global, json: &Json) -> Result<Value, Misfit> {
        match json {
            Json::Bool(b) => Ok(Value::Bool(*b)),
            Json::Number(_) => Ok(Value::Int(Readable::read(alloc, json)?)),
            Json::String(_) => Ok(Value::Text(Readable::read(alloc, json)?)),
            Json::Array(items) => Ok(Value::List(items_of(alloc, items.as_slice())?)),
            Json::Null | Json::Object(_) => Err(Misfit::Shape),
        }
    }
}

/// The reply of these members, of which there has to be one.
fn reply_of(alloc: Global, left: &mut Left<'_>) -> Result<Reply, Misfit>
    ensures read { IfOk result (λ reply. IsProperReply reply × (object (members_view left.old) ≡ reply_tree reply)) }
    ensures refused { IsErrOf result Misfit.Shape → ¬ (IsTree IsProperReply reply_tree (object (members_view left.old))) }
{
    let Some((key, json)) = left.next() else {
        return Err(Misfit::Shape);
    };
    if left.next().is_some() {
        return Err(Misfit::Shape);
    }
    match key.as_str() {
        "ok" => Ok(Reply::Ok(Readable::read(alloc, json)?)),
        "err" => Ok(Reply::Err(Readable::read(alloc, json)?)),
        _ => Err(Misfit::Shape),
    }
}

impl Readable for Reply {
    ghost tree = { reply_tree };

    ghost fits = { IsProperReply };

    fn read(alloc: Global, json: &Json) -> Result<Reply, Misfit> {
        match json {
            Json::Object(members) => reply_of(alloc, &mut members.iter()),
            _ => Err(Misfit::Shape),
        }
    }
}
