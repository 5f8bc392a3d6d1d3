//! Lines, read by serde_json.
ghost use Rattle.std.specs.Prelude.{◌≡◌, IfOk, IfErr};
ghost use Rattle.serde_json.specs.View.{view, members_view};
ghost use Rattle.fb_report.specs.Trees.{line_tree};
ghost use Rattle.fb_reading.specs.Answers.{IsAnswer, IsLine, IsLineOf};
ghost use Rattle.fb_reading.specs.Refusals.{IsRefused, OrMemory, sort_refused};

use crate::fields::Left;
use crate::key::{Key, LineError};
use crate::read_lines::{read_code_plan, read_end, read_header, read_inv, read_reply_plan};
use crate::sort::{Sort, sort_of};
use fb_report::Line;
use serde_json::Value as Json;
use std::alloc::Global;

/// Reads a line without its line feed.
///
/// Of a doubled key the last one counts. What is refused is the first key, in the order of the keys' bytes, that is missing,
/// unwanted or has a wrong value.
pub fn read_line(alloc: Global, bytes: &[u8]) -> Result<Line, LineError>
    ensures { IsAnswer bytes.now result }
{
    match Json::from_slice(alloc, bytes) {
        Ok(json) => read_json(alloc, &json),
        Err(error) if error.is_memory() => Err(LineError::Memory),
        Err(_) => Err(LineError::NotJson),
    }
}

/// The line whose JSON this is.
fn read_json(alloc: Global, json: &Json) -> Result<Line, LineError>
    ensures read { IfOk result (λ line. IsLine line × (view json.now ≡ line_tree line)) }
    ensures refused { IfErr result (OrMemory (IsRefused (view json.now))) }
{
    let Some(sort) = sort_of(json) else {
        return Err(LineError::BadShape { key: Key::Kind });
    };
    let Some(members) = json.as_object() else {
        return Err(LineError::BadShape { key: Key::Kind });
    };
    read_sort(alloc, sort, &mut members.iter())
}

fn read_sort(alloc: Global, sort: Sort, left: &mut Left<'_>) -> Result<Line, LineError>
    ensures read { IfOk result (IsLineOf (members_view left.old)) }
    ensures refused { IfErr result (OrMemory (sort_refused sort (members_view left.old))) }
{
    match sort {
        Sort::Header => read_header(alloc, left),
        Sort::Inv => read_inv(alloc, left),
        Sort::CodePlan => read_code_plan(alloc, left),
        Sort::ReplyPlan => read_reply_plan(alloc, left),
        Sort::End => read_end(alloc, left),
    }
}
