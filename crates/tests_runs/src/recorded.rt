//! Records written by hand, whose replies are ints or the one code `timeout`.
use fb_base::{Code, List, MethodId, Reply, Value};
use fb_index::Entry;
use fb_tree::{Asked, Record};
use std::alloc::{AllocError, Global};

/// Where a call stands.
#[derive(Clone, Copy)]
pub enum Place {
    First,
    /// At the first site once more.
    Again,
    Second,
}

/// A call without arguments: where it stands, its callee, and the int that it got, none for a time-out.
pub struct Call {
    pub at: Place,
    pub callee: u32,
    pub got: Option<i64>,
}

/// An invocation on ints: its calls, and what it gives, none for a time-out.
pub struct Row {
    pub method: u32,
    pub args: &'static [i64],
    pub calls: &'static [Call],
    pub gives: Option<i64>,
    pub steps: u64,
}

pub fn entry(at: Place) -> Entry {
    match at {
        Place::First => Entry { site: 1, count: 1 },
        Place::Again => Entry { site: 1, count: 2 },
        Place::Second => Entry { site: 2, count: 1 },
    }
}

pub fn reply(code: Code, got: Option<i64>) -> Reply {
    match got {
        Some(n) => Reply::Ok(Value::Int(n)),
        None => Reply::Err(code),
    }
}

pub fn values(alloc: Global, ints: &[i64]) -> Result<Vec<Value>, AllocError> {
    let mut values = Vec::new(alloc);
    for n in ints {
        values.push(Value::Int(*n))?;
    }
    Ok(values)
}

pub fn replies(alloc: Global, code: Code, got: &[Option<i64>]) -> Result<Vec<Reply>, AllocError> {
    let mut replies = Vec::new(alloc);
    for one in got {
        replies.push(reply(code, *one))?;
    }
    Ok(replies)
}

fn asked(alloc: Global, code: Code, calls: &[Call]) -> Result<List<Asked>, AllocError> {
    let mut asked = List::new(alloc);
    for call in calls {
        asked.push(Asked {
            entry: entry(call.at),
            callee: MethodId(call.callee),
            args: List::new(alloc),
            reply: reply(code, call.got),
        })?;
    }
    Ok(asked)
}

pub fn record(alloc: Global, code: Code, row: &Row) -> Result<Record, AllocError> {
    let args = List::of(values(alloc, row.args)?);
    let calls = asked(alloc, code, row.calls)?;
    Ok(Record {
        method: MethodId(row.method),
        args,
        calls,
        reply: reply(code, row.gives),
        steps: row.steps,
    })
}
