//! The JSON of the parts of a line.
ghost use Rattle.std.specs.Prelude.{◌≡◌, IfOk, IsOkAnd, OnOk, string_bytes};
ghost use Rattle.serde_json.specs.Data.{string};
ghost use Rattle.serde_json.specs.Events.{SendsValue};
ghost use Rattle.fb_report.specs.Sending.{SendsMember};
ghost use Rattle.fb_report.specs.Trees.{call_tree, cause_text, cause_tree, index_tree, method_text, method_tree, outcome_text, outcome_tree, plan_tree, reply_tree};

use crate::line::Cause;
use crate::named::NamedAsked;
use crate::shaped::Shaped;
use fb_base::{MethodName, Reply};
use fb_index::{Entry, Index, Plan};
use fb_tree::Outcome;
use serde::Serializer;
use std::alloc::{AllocError, Global};

/// A word of the format itself.
pub(crate) struct Word(pub &'static str);

impl Shaped for Word {
    ghost tree = { λ w. string w.0.now };

    fn send<S: Serializer>(&self, _alloc: Global, out: &mut S) -> Result<(), S::Error> {
        out.str(self.0)
    }
}

/// Sends a member of an object.
pub(crate) fn send_member<T: Shaped, S: Serializer>(
    alloc: Global,
    key: &str,
    item: &T,
    out: &mut S,
) -> Result<(), S::Error>
    ensures { OnOk result (SendsMember key.now (T.tree item.now) (S.written out.old) (S.written out.new)) }
{
    out.key(key)?;
    item.send(alloc, out)
}

/// Sends a text, where there was memory for it.
fn send_text<S: Serializer>(text: Result<String, AllocError>, out: &mut S) -> Result<(), S::Error>
    ensures { OnOk result (IsOkAnd text (λ made. SendsValue (string (string_bytes made)) (S.written out.old) (S.written out.new))) }
{
    match text {
        Ok(text) => out.str(text.as_str()),
        Err(_) => Err(out.custom("out of memory")),
    }
}

/// The name of a method, as a line tells it.
pub fn method_text(alloc: Global, name: &MethodName) -> Result<String, AllocError>
    ensures { IfOk result (λ text. string_bytes text ≡ method_text name.now) }
{
    format!(in alloc; "{}.{}", name.service.as_str(), name.method.as_str())
}

impl Shaped for MethodName {
    ghost tree = { method_tree };

    fn send<S: Serializer>(&self, alloc: Global, out: &mut S) -> Result<(), S::Error> {
        send_text(method_text(alloc, self), out)
    }
}

impl Shaped for Reply {
    ghost tree = { reply_tree };

    fn send<S: Serializer>(&self, alloc: Global, out: &mut S) -> Result<(), S::Error> {
        out.begin_map(Some(1))?;
        match self {
            Reply::Ok(value) => send_member(alloc, "ok", value, out)?,
            Reply::Err(code) => send_member(alloc, "err", code, out)?,
        }
        out.end_map()
    }
}

impl Shaped for NamedAsked {
    ghost tree = { call_tree };

    fn send<S: Serializer>(&self, alloc: Global, out: &mut S) -> Result<(), S::Error> {
        send_call(alloc, self, out)
    }
}

fn site_of(entry: &Entry) -> u64
    ensures { result ≡ entry.now.site }
{
    entry.site as u64
}

fn count_of(entry: &Entry) -> u64
    ensures { result ≡ entry.now.count }
{
    entry.count as u64
}

fn send_call<S: Serializer>(alloc: Global, asked: &NamedAsked, out: &mut S) -> Result<(), S::Error>
    ensures { OnOk result (SendsValue (call_tree asked.now) (S.written out.old) (S.written out.new)) }
{
    let site = site_of(&asked.entry);
    let count = count_of(&asked.entry);
    out.begin_map(Some(5))?;
    send_member(alloc, "args", &asked.args, out)?;
    send_member(alloc, "callee", &asked.callee, out)?;
    send_member(alloc, "count", &count, out)?;
    send_member(alloc, "reply", &asked.reply, out)?;
    send_member(alloc, "site", &site, out)?;
    out.end_map()
}

/// How a test ended, as a line tells it.
pub fn outcome_text(alloc: Global, outcome: &Outcome) -> Result<String, AllocError>
    ensures { IfOk result (λ text. string_bytes text ≡ outcome_text outcome.now) }
{
    match outcome {
        Outcome::Passed => String::from_str(alloc, "passed"),
        Outcome::AssertFailed(number) => format!(in alloc; "assert_failed {number}"),
        Outcome::CallFailed(site, code) => {
            format!(in alloc; "call_failed {site} {}", code.as_str())
        }
        Outcome::Fault(number) => format!(in alloc; "fault {number}"),
    }
}

impl Shaped for Outcome {
    ghost tree = { outcome_tree };

    fn send<S: Serializer>(&self, alloc: Global, out: &mut S) -> Result<(), S::Error> {
        send_text(outcome_text(alloc, self), out)
    }
}

impl Shaped for Cause {
    ghost tree = { cause_tree };

    fn send<S: Serializer>(&self, _alloc: Global, out: &mut S) -> Result<(), S::Error> {
        match self {
            Cause::Completed => out.str("completed"),
            Cause::Fuel => out.str("fuel"),
            Cause::Budget => out.str("budget"),
        }
    }
}

impl Shaped for Index {
    ghost tree = { index_tree };

    fn send<S: Serializer>(&self, alloc: Global, out: &mut S) -> Result<(), S::Error> {
        send_text(self.text(alloc), out)
    }
}

impl Shaped for Plan {
    ghost tree = { plan_tree };

    fn send<S: Serializer>(&self, alloc: Global, out: &mut S) -> Result<(), S::Error> {
        send_text(self.text(alloc), out)
    }
}
