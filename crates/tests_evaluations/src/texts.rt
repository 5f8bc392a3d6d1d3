//! What is told of requests, records and ends.

use fb_base::{MethodId, Reply, Value};
use fb_check::Program;
use fb_eval::Stop;
use fb_transport::Request;
use fb_tree::{Asked, Outcome, Record};
use std::alloc::Global;

fn add_value(text: &mut String, alloc: Global, value: &Value) -> Option<()> {
    let word = match value {
        Value::Int(n) => format!(in alloc; " {n}").ok()?,
        Value::Bool(holds) => format!(in alloc; " {holds}").ok()?,
        Value::Text(letters) => format!(in alloc; " \"{}\"", letters.as_str()).ok()?,
        Value::List(items) => format!(in alloc; " list of {}", items.len()).ok()?,
    };
    text.push_str(word.as_str()).ok()
}

fn add_reply(text: &mut String, alloc: Global, reply: &Reply) -> Option<()> {
    match reply {
        Reply::Ok(value) => {
            text.push_str("ok").ok()?;
            add_value(text, alloc, value)
        }
        Reply::Err(code) => {
            text.push_str("err ").ok()?;
            text.push_str(code.as_str()).ok()
        }
    }
}

/// A method and its arguments.
fn add_callee(
    text: &mut String,
    alloc: Global,
    program: &Program,
    callee: MethodId,
    args: &[Value],
) -> Option<()> {
    if callee.0 >= program.count() {
        return None;
    }
    let name = program.name_of(callee);
    text.push_str(name.service.as_str()).ok()?;
    text.push_str(".").ok()?;
    text.push_str(name.method.as_str()).ok()?;
    for arg in args {
        add_value(text, alloc, arg)?;
    }
    Some(())
}

/// A request, as `1.1 cart.total 2; `.
pub(crate) fn request_text(alloc: Global, program: &Program, request: &Request) -> Option<String> {
    let mut text = request.at.text(alloc).ok()?;
    text.push_str(" ").ok()?;
    add_callee(
        &mut text,
        alloc,
        program,
        request.callee,
        request.args.as_slice(),
    )?;
    text.push_str("; ").ok()?;
    Some(text)
}

pub(crate) fn requests_text(
    alloc: Global,
    program: &Program,
    requests: &[Request],
) -> Option<String> {
    let mut text = String::new(alloc);
    for request in requests {
        let next = request_text(alloc, program, request)?;
        text.push_str(next.as_str()).ok()?;
    }
    Some(text)
}

/// A call of a record, as `1.1 price.get 2 ok 20; `.
fn add_asked(text: &mut String, alloc: Global, program: &Program, asked: &Asked) -> Option<()> {
    let entry = format!(in alloc; "{}.{} ", asked.entry.site, asked.entry.count).ok()?;
    text.push_str(entry.as_str()).ok()?;
    add_callee(text, alloc, program, asked.callee, asked.args.as_slice())?;
    text.push_str(" ").ok()?;
    add_reply(text, alloc, &asked.reply)?;
    text.push_str("; ").ok()
}

/// A record, as `cart.total 2: 1.1 price.get 2 ok 20; ok 20 by 3`, the steps last.
pub(crate) fn record_text(alloc: Global, program: &Program, item: &Record) -> Option<String> {
    let mut text = String::new(alloc);
    add_callee(&mut text, alloc, program, item.method, item.args.as_slice())?;
    text.push_str(": ").ok()?;
    for asked in item.calls.as_slice() {
        add_asked(&mut text, alloc, program, asked)?;
    }
    add_reply(&mut text, alloc, &item.reply)?;
    let steps = format!(in alloc; " by {}", item.steps).ok()?;
    text.push_str(steps.as_str()).ok()?;
    Some(text)
}

pub(crate) fn outcome_text(alloc: Global, outcome: Outcome) -> Option<String> {
    match outcome {
        Outcome::Passed => format!(in alloc; "passed").ok(),
        Outcome::AssertFailed(number) => format!(in alloc; "assert {number} failed").ok(),
        Outcome::CallFailed(site, code) => {
            format!(in alloc; "call {site} failed with {}", code.as_str()).ok()
        }
        Outcome::Fault(number) => format!(in alloc; "statement {number} faulted").ok(),
    }
}

/// Why an evaluation stopped, none where there was no memory.
pub(crate) fn stop_text(stop: Stop) -> Option<&'static str> {
    match stop {
        Stop::Spent => Some("spent"),
        Stop::Missing => Some("missing"),
        Stop::Memory => None,
    }
}
