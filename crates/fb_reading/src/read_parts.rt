//! Reading the parts of lines.
ghost use Rattle.std.specs.Prelude.{◌≡◌, IfOk, IfErr};
ghost use Rattle.serde_json.specs.Data.{object};
ghost use Rattle.serde_json.specs.View.{members_view};
ghost use Rattle.fb_report.specs.Ranges.{IsMethodName, IsProperCall};
ghost use Rattle.fb_report.specs.Trees.{call_tree, cause_tree, index_tree, method_tree, outcome_tree, plan_tree};
ghost use Rattle.fb_reading.specs.Answers.{misfit_of};
ghost use Rattle.fb_reading.specs.Refusals.{OrMemory, call_refused};
ghost use Rattle.fb_reading.specs.Shapes.{Anything, IsCallIndex, IsCallPlan, IsOutcome};

use crate::fields::{Left, end, number, value};
use crate::key::{Key, LineError};
use crate::readable::{Misfit, Readable};
use crate::texts::{method_of, outcome_of};
use fb_base::MethodName;
use fb_index::{Entry, Index, IndexError, Plan, PlanError, index_of_text};
use fb_report::{Cause, NamedAsked};
use fb_tree::Outcome;
use serde_json::Value as Json;
use std::alloc::Global;

impl Readable for MethodName {
    ghost tree = { method_tree };

    ghost fits = { IsMethodName };

    fn read(_alloc: Global, json: &Json) -> Result<MethodName, Misfit> {
        let Some(text) = json.as_str() else {
            return Err(Misfit::Shape);
        };
        match method_of(text) {
            Some(name) => Ok(name),
            None => Err(Misfit::Shape),
        }
    }
}

impl Readable for Outcome {
    ghost tree = { outcome_tree };

    ghost fits = { IsOutcome };

    fn read(_alloc: Global, json: &Json) -> Result<Outcome, Misfit> {
        let Some(text) = json.as_str() else {
            return Err(Misfit::Shape);
        };
        match outcome_of(text) {
            Some(outcome) => Ok(outcome),
            None => Err(Misfit::Shape),
        }
    }
}

impl Readable for Cause {
    ghost tree = { cause_tree };

    ghost fits = { Anything };

    fn read(_alloc: Global, json: &Json) -> Result<Cause, Misfit> {
        let Some(text) = json.as_str() else {
            return Err(Misfit::Shape);
        };
        if text == "completed" {
            return Ok(Cause::Completed);
        }
        if text == "fuel" {
            return Ok(Cause::Fuel);
        }
        if text == "budget" {
            return Ok(Cause::Budget);
        }
        Err(Misfit::Shape)
    }
}

impl Readable for Index {
    ghost tree = { index_tree };

    ghost fits = { IsCallIndex };

    fn read(alloc: Global, json: &Json) -> Result<Index, Misfit> {
        let Some(text) = json.as_str() else {
            return Err(Misfit::Shape);
        };
        // the root's text is that of no other index
        index_of_text();
        match Index::read_text(alloc, text.as_bytes()) {
            Ok(index) => {
                index.proper();
                if index.len() == 0 {
                    return Err(Misfit::Shape);
                }
                Ok(index)
            }
            Err(IndexError::BadIndex { .. }) => Err(Misfit::Shape),
            Err(IndexError::Memory) => Err(Misfit::Memory),
        }
    }
}

impl Readable for Plan {
    ghost tree = { plan_tree };

    ghost fits = { IsCallPlan };

    fn read(alloc: Global, json: &Json) -> Result<Plan, Misfit> {
        let Some(text) = json.as_str() else {
            return Err(Misfit::Shape);
        };
        match Plan::read_text(alloc, text.as_bytes()) {
            Ok(plan) => {
                plan.proper();
                Ok(plan)
            }
            Err(PlanError::BadPlan { .. }) => Err(Misfit::Shape),
            Err(PlanError::Memory) => Err(Misfit::Memory),
        }
    }
}

fn read_call(alloc: Global, left: &mut Left<'_>) -> Result<NamedAsked, LineError>
    ensures read { IfOk result (λ asked. IsProperCall asked × (object (members_view left.old) ≡ call_tree asked)) }
    ensures refused { IfErr result (OrMemory (call_refused (members_view left.old))) }
{
    let args = value(alloc, left, Key::Args)?;
    let callee = value(alloc, left, Key::Callee)?;
    let count = number(left, Key::Count, 1, 4_294_967_295)?;
    let reply = value(alloc, left, Key::Reply)?;
    let site = number(left, Key::Site, 1, 4_294_967_295)?;
    end(left)?;
    Ok(NamedAsked {
        entry: Entry {
            site: site as u32,
            count: count as u32,
        },
        callee,
        args,
        reply,
    })
}

impl Readable for NamedAsked {
    ghost tree = { call_tree };

    ghost fits = { IsProperCall };

    fn read(alloc: Global, json: &Json) -> Result<NamedAsked, Misfit> {
        let Json::Object(members) = json else {
            return Err(Misfit::Shape);
        };
        match read_call(alloc, &mut members.iter()) {
            Ok(asked) => Ok(asked),
            Err(error) => Err(misfit_of(error)),
        }
    }
}

/// Why a call wasn't read, where it stands inside a line.
fn misfit_of(error: LineError) -> Misfit
    ensures { result ≡ misfit_of error }
{
    match error {
        LineError::Memory => Misfit::Memory,
        LineError::NotJson | LineError::BadShape { .. } | LineError::BadNumber { .. } => {
            Misfit::Shape
        }
    }
}
