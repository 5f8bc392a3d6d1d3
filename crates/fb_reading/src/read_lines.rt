//! The lines of each sort, key by key in the order of the keys' bytes.
ghost use Rattle.std.specs.Prelude.{◌≡◌, IfOk, IfErr, IfSome, is_some, option_map};
ghost use Rattle.serde_json.specs.Data.{member};
ghost use Rattle.serde_json.specs.View.{members_view};
ghost use Rattle.fb_report.specs.Trees.{index_tree, optional_tree};
ghost use Rattle.fb_report.specs.declared.line.Line.TheVariants.{Plan as PlanLine};
ghost use Rattle.fb_reading.specs.Answers.{IsLineOf, IsRestOfPlan, fault_of};
ghost use Rattle.fb_reading.specs.Keys.{key_text};
ghost use Rattle.fb_reading.specs.Refusals.{Misses, OrMemory, code_plan_refused, end_refused, header_refused, inv_refused, plan_refused, reply_plan_refused, wrong_shape};
ghost use Rattle.fb_reading.specs.Shapes.{IsCallIndex, IsIndexBeside};

use crate::fields::{Left, end, number, optional_number, take, value, word};
use crate::key::{Key, LineError};
use crate::readable::{Misfit, Readable};
use fb_base::{Code, List, Reply};
use fb_index::Index;
use fb_report::{Line, NamedRecord};
use fb_tree::Outcome;
use serde_json::Value as Json;
use std::alloc::Global;

pub(crate) fn read_header(alloc: Global, left: &mut Left<'_>) -> Result<Line, LineError>
    ensures read { IfOk result (IsLineOf (members_view left.old)) }
    ensures refused { IfErr result (OrMemory (header_refused (members_view left.old))) }
{
    let fuel = number(left, Key::Fuel, 1, 1_000_000)?;
    word(left, Key::Kind, "header")?;
    let reduction = value(alloc, left, Key::Reduction)?;
    let version = number(left, Key::Version, 1, 2)?;
    end(left)?;
    Ok(Line::Header {
        version: version as u32,
        fuel,
        reduction,
    })
}

pub(crate) fn read_inv(alloc: Global, left: &mut Left<'_>) -> Result<Line, LineError>
    ensures read { IfOk result (IsLineOf (members_view left.old)) }
    ensures refused { IfErr result (OrMemory (inv_refused (members_view left.old))) }
{
    let args = value(alloc, left, Key::Args)?;
    let calls = value(alloc, left, Key::Calls)?;
    let id = number(left, Key::Id, 0, u64::MAX)?;
    word(left, Key::Kind, "inv")?;
    let method = value(alloc, left, Key::Method)?;
    let plan = number(left, Key::Plan, 0, u64::MAX)?;
    let reply = value(alloc, left, Key::Reply)?;
    let steps = number(left, Key::Steps, 0, u64::MAX)?;
    end(left)?;
    Ok(Line::Inv {
        id,
        plan,
        made: NamedRecord {
            method,
            args,
            calls,
            reply,
            steps,
        },
    })
}

pub(crate) fn read_end(alloc: Global, left: &mut Left<'_>) -> Result<Line, LineError>
    ensures read { IfOk result (IsLineOf (members_view left.old)) }
    ensures refused { IfErr result (OrMemory (end_refused (members_view left.old))) }
{
    let cause = value(alloc, left, Key::Cause)?;
    let failed = number(left, Key::Failed, 0, u64::MAX)?;
    let invs = number(left, Key::Invs, 0, u64::MAX)?;
    word(left, Key::Kind, "end")?;
    let plans = number(left, Key::Plans, 0, u64::MAX)?;
    let pruned = number(left, Key::Pruned, 0, u64::MAX)?;
    let run = number(left, Key::Run, 0, u64::MAX)?;
    let stopped = value(alloc, left, Key::Stopped)?;
    end(left)?;
    Ok(Line::End {
        cause,
        plans,
        run,
        pruned,
        failed,
        invs,
        stopped,
    })
}

/// A plan line of version 1.
pub(crate) fn read_code_plan(alloc: Global, left: &mut Left<'_>) -> Result<Line, LineError>
    ensures read { IfOk result (IsLineOf (members_view left.old)) }
    ensures refused { IfErr result (OrMemory (code_plan_refused (members_view left.old))) }
{
    let code: Option<Code> = value(alloc, left, Key::Code)?;
    let rest = rest_of_plan(alloc, left, code.is_some())?;
    Ok(plan_line(1, error_of(code), rest))
}

/// The error with this code, where there is one.
fn error_of(code: Option<Code>) -> Option<Reply>
    ensures { result ≡ option_map Reply.Err code }
{
    code.map(Reply::Err)
}

/// A plan line of version 2.
pub(crate) fn read_reply_plan(alloc: Global, left: &mut Left<'_>) -> Result<Line, LineError>
    ensures read { IfOk result (IsLineOf (members_view left.old)) }
    ensures refused { IfErr result (OrMemory (reply_plan_refused (members_view left.old))) }
{
    let reply: Option<Reply> = value(alloc, left, Key::Fault)?;
    let rest = rest_of_plan(alloc, left, reply.is_some())?;
    Ok(plan_line(2, reply, rest))
}

/// What stands in a plan line behind its fault's code or reply.
#[derive(Drop)]
pub(crate) struct RestOfPlan {
    id: u64,
    index: Option<Index>,
    outcome: Outcome,
    parent: Option<u64>,
    run: bool,
    uses: List<u64>,
}

/// The plan line with a fault where its index and its reply are there.
fn plan_line(version: u32, reply: Option<Reply>, rest: RestOfPlan) -> Line
    ensures { result ≡ PlanLine version rest.id rest.parent (fault_of rest.index reply) rest.run rest.uses rest.outcome }
{
    let fault = match (rest.index, reply) {
        (Some(index), Some(reply)) => Some((index, reply)),
        _ => None,
    };
    Line::Plan {
        version,
        id: rest.id,
        parent: rest.parent,
        fault,
        run: rest.run,
        uses: rest.uses,
        outcome: rest.outcome,
    }
}

/// Reads a plan line from behind its fault's code or reply on.
fn rest_of_plan(alloc: Global, left: &mut Left<'_>, faulted: bool) -> Result<RestOfPlan, LineError>
    ensures read { IfOk result (IsRestOfPlan faulted (members_view left.old)) }
    ensures refused { IfErr result (OrMemory (plan_refused faulted (members_view left.old))) }
{
    let id = number(left, Key::Id, 0, u64::MAX)?;
    let index = index_beside(alloc, left, faulted)?;
    word(left, Key::Kind, "plan")?;
    let outcome = value(alloc, left, Key::Outcome)?;
    let parent = optional_number(alloc, left, Key::Parent)?;
    let run = value(alloc, left, Key::Run)?;
    let uses = value(alloc, left, Key::Uses)?;
    end(left)?;
    Ok(RestOfPlan {
        id,
        index,
        outcome,
        parent,
        run,
        uses,
    })
}

/// The index of a plan line's fault, which is there exactly where the fault is.
fn index_beside(
    alloc: Global,
    left: &mut Left<'_>,
    faulted: bool,
) -> Result<Option<Index>, LineError>
    ensures read { IfOk result (λ index. (is_some index ≡ faulted) × IfSome index IsCallIndex
        × (members_view left.old ≡ member (key_text Key.Index) (optional_tree index_tree index) (members_view left.new))) }
    ensures refused { IfErr result (OrMemory (Misses Key.Index (IsIndexBeside faulted) wrong_shape (members_view left.old))) }
{
    let json = take(left, Key::Index)?;
    match (faulted, json) {
        (false, Json::Null) => Ok(None),
        (false, _) => Err(LineError::BadShape { key: Key::Index }),
        (true, json) => match Index::read(alloc, json) {
            Ok(index) => Ok(Some(index)),
            Err(Misfit::Shape) => Err(LineError::BadShape { key: Key::Index }),
            Err(Misfit::Memory) => Err(LineError::Memory),
        },
    }
}
