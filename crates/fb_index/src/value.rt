//! Reading values.
ghost use Rattle.std.specs.Prelude.{◌≡◌, ◌≢◌, None, ℕ, List, [], ◌∷◌, ◌++◌, All, map, codes, IfOk, FitsSigned};
ghost use Rattle.std.specs.Int.{w64};
ghost use Rattle.std.specs.List.{join_with_byte};
ghost use Rattle.hex.specs.declared.error.FromHexError.TheVariants as FromHexError;
ghost use Rattle.fb_base.specs.Text.{IsText};
ghost use Rattle.fb_base.specs.Values.{IsProper};
ghost use Rattle.fb_index.specs.Reading.{IsReadAs};
ghost use Rattle.fb_index.specs.Spelling.{IsItem, int_spelling, text_spelling, value_spelling};

use crate::pieces::cut;
use crate::scanner::Scanner;
use crate::spelling::Spelled;
use fb_base::{List, OpError, Text, TextError, Value, list_of};
use hex::FromHexError;
use std::alloc::{AllocError, Global};

/// The value that these bytes spell, none where they are no VALUE.
pub fn read_value(alloc: Global, bytes: &[u8]) -> Result<Option<Value>, AllocError>
    ensures { IfOk result (IsReadAs IsProper value_spelling bytes.now) }
{
    let mut scanner = Scanner::new(bytes);
    if scanner.take(b'[') {
        return read_list(alloc, scanner.left());
    }
    let Some(value) = read_item(alloc, bytes)? else {
        return Ok(None);
    };
    value.proper();
    Ok(Some(value))
}

/// Reads a list, of which the `[` is taken.
fn read_list(alloc: Global, bytes: &[u8]) -> Result<Option<Value>, AllocError>
    ensures { IfOk result (IsReadAs IsProper value_spelling (91 ∷ bytes.now)) }
{
    let Some((last, items)) = bytes.split_last() else {
        return Ok(None);
    };
    if *last != b']' {
        return Ok(None);
    }
    list_between(alloc, items)
}

/// The list of the items that these bytes spell.
fn list_between(alloc: Global, items: &[u8]) -> Result<Option<Value>, AllocError>
    ensures { IfOk result (IsReadAs IsProper value_spelling (91 ∷ items.now ++ 93 ∷ [])) }
{
    let Some(values) = read_items(alloc, items)? else {
        return Ok(None);
    };
    match list_of(alloc, values.into_vec()) {
        Ok(list) => {
            list.proper();
            Ok(Some(list))
        }
        Err(OpError::Fault) => Ok(None),
        Err(OpError::Memory) => Err(AllocError),
    }
}

fn read_items(alloc: Global, bytes: &[u8]) -> Result<Option<List<Value>>, AllocError>
    ensures { IfOk result (IsReadAs (All IsItem) (λ values. join_with_byte 59 (map value_spelling values)) bytes.now) }
{
    let mut values = List::new(alloc);
    if bytes.is_empty() {
        return Ok(Some(values));
    }
    let mut left = bytes;
    loop {
        let (piece, behind) = cut(left, b';');
        let Some(value) = read_item(alloc, piece)? else {
            return Ok(None);
        };
        values.push(value)?;
        let Some(rest) = behind else {
            return Ok(Some(values));
        };
        left = rest;
    }
}

/// Reads a value that may stand in a list.
fn read_item(alloc: Global, bytes: &[u8]) -> Result<Option<Value>, AllocError>
    ensures { IfOk result (IsReadAs IsItem value_spelling bytes.now) }
{
    if bytes == b"true".as_slice() {
        return Ok(Some(Value::Bool(true)));
    }
    if bytes == b"false".as_slice() {
        return Ok(Some(Value::Bool(false)));
    }
    let mut scanner = Scanner::new(bytes);
    if scanner.take(b'x') {
        return match read_hex(alloc, scanner.left())? {
            Some(text) => Ok(Some(Value::Text(text))),
            None => Ok(None),
        };
    }
    match read_int(alloc, bytes)? {
        Some(number) => Ok(Some(Value::Int(number))),
        None => Ok(None),
    }
}

/// The text that these digits spell. It is written again to refuse capital digits.
fn read_hex(alloc: Global, digits: &[u8]) -> Result<Option<Text>, AllocError>
    ensures { IfOk result (IsReadAs IsText text_spelling (120 ∷ digits.now)) }
{
    let bytes = match hex::decode(alloc, digits) {
        Ok(bytes) => bytes,
        Err(error) => return no_digits(error),
    };
    let text = match Text::of(alloc, bytes.as_slice()) {
        Ok(text) => text,
        Err(TextError::Memory) => return Err(AllocError),
        Err(TextError::NotText) => return Ok(None),
    };
    if hex::encode(alloc, text.bytes())?.as_bytes() != digits {
        return Ok(None);
    }
    Ok(Some(text))
}

/// What an error of decoding says: that there was no memory, or that the digits are none.
fn no_digits(error: FromHexError) -> Result<Option<Text>, AllocError>
    ensures { IfOk result (λ text. (text ≡ None) × (error ≢ FromHexError.OutOfMemory)) }
{
    match error {
        FromHexError::OutOfMemory => Err(AllocError),
        _ => Ok(None),
    }
}

/// The int that these bytes spell. It is written again to refuse a plus, a zero at the front and `-0`.
fn read_int(alloc: Global, bytes: &[u8]) -> Result<Option<i64>, AllocError>
    ensures { IfOk result (IsReadAs (FitsSigned w64) int_spelling bytes.now) }
{
    let Ok(text) = str::from_utf8(bytes) else {
        return Ok(None);
    };
    let Ok(number) = text.parse::<i64>() else {
        return Ok(None);
    };
    if number.spell(alloc)?.as_bytes() != bytes {
        return Ok(None);
    }
    Ok(Some(number))
}
