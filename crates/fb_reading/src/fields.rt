//! The members of an object, taken in the order of their keys.
ghost use Rattle.std.specs.Prelude.{◌≡◌, IfOk, IfErr, IfSome};
ghost use Rattle.serde_json.specs.Data.{member, no_members, string};
ghost use Rattle.serde_json.specs.View.{view, members_view};
ghost use Rattle.fb_report.specs.Ranges.{IsLong};
ghost use Rattle.fb_report.specs.Trees.{number_tree, optional_tree};
ghost use Rattle.fb_reading.specs.Keys.{key_text};
ghost use Rattle.fb_reading.specs.Refusals.{Lacks, Misses, OrMemory, at_end, wrong_number, wrong_shape};
ghost use Rattle.fb_reading.specs.Shapes.{IsFrom, IsInteger, IsParent, IsTree, IsWord};

use crate::key::{Key, LineError};
use crate::readable::{Misfit, Readable};
use serde_json::Value as Json;
use std::alloc::Global;
use std::cmp::Ordering;
use std::collections::btree_map::Iter;

/// The members that are still to come.
pub(crate) type Left<'a> = Iter<'a, String, Json>;

/// The value of the wanted key, which has to be next.
pub(crate) fn take<'a>(left: &mut Left<'a>, wanted: Key) -> Result<&'a Json, LineError>
    ensures there { IfOk result (λ json. members_view left.old ≡ member (key_text wanted) (view json.now) (members_view left.new)) }
    ensures lacks { IfErr result (Lacks wanted (members_view left.old)) }
{
    let Some((key, json)) = left.next() else {
        return Err(LineError::BadShape { key: wanted });
    };
    match key.as_str().cmp(wanted.text()) {
        Ordering::Less => Err(LineError::BadShape { key: Key::Other }),
        Ordering::Equal => Ok(json),
        Ordering::Greater => Err(LineError::BadShape { key: wanted }),
    }
}

/// What stands at the wanted key.
pub(crate) fn value<T: Readable>(
    alloc: Global,
    left: &mut Left<'_>,
    wanted: Key,
) -> Result<T, LineError>
    ensures read { IfOk result (λ item. T.fits item
        × (members_view left.old ≡ member (key_text wanted) (T.tree item) (members_view left.new))) }
    ensures refused { IfErr result (OrMemory (Misses wanted (IsTree T.fits T.tree) wrong_shape (members_view left.old))) }
{
    let json = take(left, wanted)?;
    match T::read(alloc, json) {
        Ok(item) => Ok(item),
        Err(Misfit::Shape) => Err(LineError::BadShape { key: wanted }),
        Err(Misfit::Memory) => Err(LineError::Memory),
    }
}

/// Takes the wanted key, at which this word has to stand.
pub(crate) fn word(left: &mut Left<'_>, wanted: Key, word: &str) -> Result<(), LineError>
    ensures read { IfOk result (λ _. members_view left.old ≡ member (key_text wanted) (string word.now) (members_view left.new)) }
    ensures refused { IfErr result (OrMemory (Misses wanted (IsWord word.now) wrong_shape (members_view left.old))) }
{
    let json = take(left, wanted)?;
    match json.as_str() {
        Some(text) if text == word => Ok(()),
        _ => Err(LineError::BadShape { key: wanted }),
    }
}

/// The refusal of a value that is no number in its range.
fn misfit(json: &Json, wanted: Key) -> LineError
    ensures { result ≡ wrong_number wanted (view json.now) }
{
    match json {
        Json::Number(_) => LineError::BadNumber { key: wanted },
        _ => LineError::BadShape { key: wanted },
    }
}

/// The integer at the wanted key, which has to be in this range.
pub(crate) fn number(
    left: &mut Left<'_>,
    wanted: Key,
    low: u64,
    high: u64,
) -> Result<u64, LineError>
    ensures read { IfOk result (λ n. IsFrom low high n
        × (members_view left.old ≡ member (key_text wanted) (number_tree n) (members_view left.new))) }
    ensures refused { IfErr result (OrMemory (Misses wanted (IsInteger low high) wrong_number (members_view left.old))) }
{
    let json = take(left, wanted)?;
    match json.as_u64() {
        Some(n) if low <= n && n <= high => Ok(n),
        _ => Err(misfit(json, wanted)),
    }
}

/// The integer or null at the wanted key.
pub(crate) fn optional_number(
    alloc: Global,
    left: &mut Left<'_>,
    wanted: Key,
) -> Result<Option<u64>, LineError>
    ensures read { IfOk result (λ parent. IfSome parent IsLong
        × (members_view left.old ≡ member (key_text wanted) (optional_tree number_tree parent) (members_view left.new))) }
    ensures refused { IfErr result (OrMemory (Misses wanted IsParent wrong_number (members_view left.old))) }
{
    let json = take(left, wanted)?;
    match <Option<u64> as Readable>::read(alloc, json) {
        Ok(parent) => Ok(parent),
        Err(Misfit::Shape) => Err(misfit(json, wanted)),
        Err(Misfit::Memory) => Err(LineError::Memory),
    }
}

/// No further member may come.
pub(crate) fn end(left: &mut Left<'_>) -> Result<(), LineError>
    ensures read { IfOk result (λ _. members_view left.old ≡ no_members) }
    ensures refused { IfErr result (OrMemory (at_end (members_view left.old))) }
{
    match left.next() {
        None => Ok(()),
        Some(_) => Err(LineError::BadShape { key: Key::Other }),
    }
}
