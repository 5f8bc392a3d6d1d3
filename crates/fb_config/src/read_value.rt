//! The values that a fault file spells.
ghost use Rattle.std.specs.Prelude.{◌≡◌, IfOk, map, option_map, option_and_then};
ghost use Rattle.toml.specs.View.{view};
ghost use Rattle.fb_base.specs.Operators.{value_of_list};
ghost use Rattle.fb_config.specs.Documents.{all_of};
ghost use Rattle.fb_config.specs.Values.{scalar_of, text_value_of, value_of_data};

use fb_base::{OpError, Text, TextError, Value, list_of};
use std::alloc::{AllocError, Global};
use toml::Value as Data;

/// The value of a text, where it isn't too long.
fn text_value(alloc: Global, text: &str) -> Result<Option<Value>, AllocError>
    ensures { IfOk result (λ made. made ≡ text_value_of text.now) }
{
    match Text::of(alloc, text.as_bytes()) {
        Ok(text) => Ok(Some(Value::Text(text))),
        Err(TextError::NotText) => Ok(None),
        Err(TextError::Memory) => Err(AllocError),
    }
}

/// The value of an integer, a boolean or a string.
fn scalar(alloc: Global, given: &Data) -> Result<Option<Value>, AllocError>
    ensures { IfOk result (λ made. made ≡ scalar_of (view given.now)) }
{
    if let Some(number) = given.as_integer() {
        return Ok(Some(Value::Int(number)));
    }
    if let Some(truth) = given.as_bool() {
        return Ok(Some(Value::Bool(truth)));
    }
    match given.as_str() {
        Some(text) => text_value(alloc, text),
        None => Ok(None),
    }
}

/// The values of all of them.
fn scalars(alloc: Global, items: &[Data]) -> Result<Option<Vec<Value>>, AllocError>
    ensures { IfOk result (λ made. option_map (λ values. values.items) made ≡ all_of scalar_of (map view items.now)) }
{
    let mut values = Vec::with_capacity(alloc, items.len())?;
    for item in items {
        match scalar(alloc, item)? {
            Some(value) => values.push(value)?,
            None => return Ok(None),
        }
    }
    Ok(Some(values))
}

/// The list of these values, where they are of one kind and not too heavy.
fn list_value(alloc: Global, values: Vec<Value>) -> Result<Option<Value>, AllocError>
    ensures { IfOk result (λ made. made ≡ value_of_list values.items) }
{
    match list_of(alloc, values) {
        Ok(value) => Ok(Some(value)),
        Err(OpError::Fault) => Ok(None),
        Err(OpError::Memory) => Err(AllocError),
    }
}

/// The value of an array.
fn array_value(alloc: Global, items: &[Data]) -> Result<Option<Value>, AllocError>
    ensures { IfOk result (λ made. made ≡ option_and_then value_of_list (all_of scalar_of (map view items.now))) }
{
    match scalars(alloc, items)? {
        Some(values) => list_value(alloc, values),
        None => Ok(None),
    }
}

/// The value that something of a file is.
pub fn value_of(alloc: Global, given: &Data) -> Result<Option<Value>, AllocError>
    ensures { IfOk result (λ made. made ≡ value_of_data (view given.now)) }
{
    match given.as_array() {
        Some(items) => array_value(alloc, items.as_slice()),
        None => scalar(alloc, given),
    }
}
