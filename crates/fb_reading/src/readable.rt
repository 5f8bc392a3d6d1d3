//! What JSON stands for.
ghost use Rattle.std.specs.Prelude.{◌≡◌, ℤ, All, FitsSigned, IfOk, IfSome, IsErrOf, MatchOption, length};
ghost use Rattle.std.specs.Int.{w64};
ghost use Rattle.serde_json.specs.Data.{Data, Items, boolean, number, string};
ghost use Rattle.serde_json.specs.Find.{of_integer};
ghost use Rattle.serde_json.specs.View.{view, items_view, number_view};
ghost use Rattle.fb_base.specs.Name.{IsName};
ghost use Rattle.fb_base.specs.Text.{IsText};
ghost use Rattle.fb_report.specs.Ranges.{IsLong};
ghost use Rattle.fb_report.specs.Trees.{list_tree, number_tree, optional_tree, trees_of};
ghost use Rattle.fb_reading.specs.Shapes.{Anything, IsTree, AreTrees};

use fb_base::{Code, List, Text, TextError};
use serde_json::{Number, Value as Json};
use std::alloc::{AllocError, Global};

/// Why JSON wasn't read.
#[derive(Debug, Drop, Clone, Copy, PartialEq, Eq)]
pub(crate) enum Misfit {
    /// It is the JSON of no such thing.
    Shape,
    Memory,
}

impl From<AllocError> for Misfit {
    ghost use Rattle.std.specs.Prelude.{◌≡◌};
    ghost use Rattle.fb_reading.specs.declared.readable.Misfit.TheVariants.{Memory};

    ghost from_gives = { λ _ e. e ≡ Memory };

    fn from(_e: AllocError) -> Misfit {
        Misfit::Memory
    }
}

/// What is read from its JSON.
pub(crate) trait Readable: Drop {
    /// Its JSON.
    ghost tree: { Self → Data };

    /// What holds of each that is read.
    ghost fits: { Self → Type 0 };

    /// The thing whose JSON it is.
    fn read(alloc: Global, json: &Json) -> Result<Self, Misfit>
        ensures read { IfOk result (λ item. fits item × (view json.now ≡ tree item)) }
        ensures refused { IsErrOf result Misfit.Shape → ¬ (IsTree fits tree (view json.now)) };
}

impl Readable for bool {
    ghost tree = { boolean };

    ghost fits = { Anything };

    fn read(_alloc: Global, json: &Json) -> Result<bool, Misfit> {
        match json {
            Json::Bool(b) => Ok(*b),
            _ => Err(Misfit::Shape),
        }
    }
}

impl Readable for u64 {
    ghost tree = { number_tree };

    ghost fits = { IsLong };

    fn read(_alloc: Global, json: &Json) -> Result<u64, Misfit> {
        match json.as_u64() {
            Some(n) => Ok(n),
            None => Err(Misfit::Shape),
        }
    }
}

/// The integer that a number is, where 64 bits hold it.
fn int_of(number: &Number) -> Option<i64>
    ensures { MatchOption result ((n : ℤ) → FitsSigned w64 n → ¬ (number_view number.now ≡ of_integer n))
        (λ n. number_view number.now ≡ of_integer n) }
{
    if let Some(n) = number.as_u64() {
        if n <= i64::MAX as u64 {
            return Some(n as i64);
        }
        return None;
    }
    match number.as_i64() {
        Some(n) if n < 0 => Some(n),
        _ => None,
    }
}

impl Readable for i64 {
    ghost tree = { λ n. number (of_integer n) };

    ghost fits = { FitsSigned w64 };

    fn read(_alloc: Global, json: &Json) -> Result<i64, Misfit> {
        match json {
            Json::Number(number) => match int_of(number) {
                Some(n) => Ok(n),
                None => Err(Misfit::Shape),
            },
            _ => Err(Misfit::Shape),
        }
    }
}

impl Readable for Text {
    ghost tree = { string };

    ghost fits = { IsText };

    fn read(alloc: Global, json: &Json) -> Result<Text, Misfit> {
        let Some(text) = json.as_str() else {
            return Err(Misfit::Shape);
        };
        match Text::of(alloc, text.as_bytes()) {
            Ok(text) => Ok(text),
            Err(TextError::NotText) => Err(Misfit::Shape),
            Err(TextError::Memory) => Err(Misfit::Memory),
        }
    }
}

impl Readable for Code {
    ghost tree = { string };

    ghost fits = { IsName };

    fn read(_alloc: Global, json: &Json) -> Result<Code, Misfit> {
        let Some(text) = json.as_str() else {
            return Err(Misfit::Shape);
        };
        match Code::read(text.as_bytes()) {
            Ok(code) => Ok(code),
            Err(_) => Err(Misfit::Shape),
        }
    }
}

impl<T: Readable> Readable for Option<T> {
    ghost tree = { optional_tree T.tree };

    ghost fits = { λ item. IfSome item T.fits };

    fn read(alloc: Global, json: &Json) -> Result<Option<T>, Misfit> {
        match json {
            Json::Null => Ok(None),
            _ => Ok(Some(T::read(alloc, json)?)),
        }
    }
}

/// The things whose JSON these are, one after another.
pub(crate) fn each<T: Readable>(alloc: Global, items: &[Json]) -> Result<List<T>, Misfit>
    ensures read { IfOk result (λ read. All T.fits read × (items_view items.now ≡ trees_of T.tree read)) }
    ensures refused { IsErrOf result Misfit.Shape → ¬ (AreTrees T.fits T.tree (items_view items.now)) }
{
    let mut read = List::new(alloc);
    for item in items {
        read.push(T::read(alloc, item)?)?;
    }
    Ok(read)
}

impl<T: Readable> Readable for List<T> {
    ghost tree = { list_tree T.tree };

    ghost fits = { All T.fits };

    fn read(alloc: Global, json: &Json) -> Result<List<T>, Misfit> {
        match json {
            Json::Array(items) => each(alloc, items.as_slice()),
            _ => Err(Misfit::Shape),
        }
    }
}
