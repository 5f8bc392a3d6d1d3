//! The JSON of a line, member by member in the order of the keys' bytes.
ghost use Rattle.std.specs.Prelude.{◌≡◌, OnOk, codes};
ghost use Rattle.serde_json.specs.Data.{string};
ghost use Rattle.serde_json.specs.Events.{SendsValue};
ghost use Rattle.fb_report.specs.Sending.{SendsMember};
ghost use Rattle.fb_report.specs.Trees.{header_tree, inv_tree, end_tree, line_tree, plan_line_tree, code_of, fault_key, fault_tree, faulted_index, faulted_reply, index_tree, optional_tree, reply_tree};

use crate::line::{Cause, Line};
use crate::named::NamedRecord;
use crate::parts::{Word, send_member};
use crate::shaped::Shaped;
use fb_base::{List, Reply};
use fb_index::{Index, Plan};
use fb_tree::Outcome;
use serde::Serializer;
use std::alloc::Global;

impl Shaped for Line {
    ghost tree = { line_tree };

    #[tactic(auto, unfolding(crate::specs::Trees::line_tree))]
    fn send<S: Serializer>(&self, alloc: Global, out: &mut S) -> Result<(), S::Error> {
        match self {
            Line::Header {
                version,
                fuel,
                reduction,
            } => send_header(alloc, *version, *fuel, *reduction, out),
            Line::Inv { id, plan, made } => send_inv(alloc, *id, *plan, made, out),
            Line::Plan {
                version,
                id,
                parent,
                fault,
                run,
                uses,
                outcome,
            } => send_plan(
                alloc, *version, *id, parent, fault, *run, uses, outcome, out,
            ),
            Line::End {
                cause,
                plans,
                run,
                pruned,
                failed,
                invs,
                stopped,
            } => send_end(
                alloc, cause, *plans, *run, *pruned, *failed, *invs, stopped, out,
            ),
        }
    }
}

fn send_header<S: Serializer>(
    alloc: Global,
    version: u32,
    fuel: u64,
    reduction: bool,
    out: &mut S,
) -> Result<(), S::Error>
    ensures { OnOk result (SendsValue (header_tree version fuel reduction) (S.written out.old) (S.written out.new)) }
{
    out.begin_map(Some(4))?;
    send_member(alloc, "fuel", &fuel, out)?;
    send_member(alloc, "kind", &Word("header"), out)?;
    send_member(alloc, "reduction", &reduction, out)?;
    send_member(alloc, "version", &(version as u64), out)?;
    out.end_map()
}

fn send_inv<S: Serializer>(
    alloc: Global,
    id: u64,
    plan: u64,
    made: &NamedRecord,
    out: &mut S,
) -> Result<(), S::Error>
    ensures { OnOk result (SendsValue (inv_tree id plan made.now) (S.written out.old) (S.written out.new)) }
{
    out.begin_map(Some(8))?;
    send_member(alloc, "args", &made.args, out)?;
    send_member(alloc, "calls", &made.calls, out)?;
    send_member(alloc, "id", &id, out)?;
    send_member(alloc, "kind", &Word("inv"), out)?;
    send_member(alloc, "method", &made.method, out)?;
    send_member(alloc, "plan", &plan, out)?;
    send_member(alloc, "reply", &made.reply, out)?;
    send_member(alloc, "steps", &made.steps, out)?;
    out.end_map()
}

fn send_plan<S: Serializer>(
    alloc: Global,
    version: u32,
    id: u64,
    parent: &Option<u64>,
    fault: &Option<(Index, Reply)>,
    run: bool,
    uses: &List<u64>,
    outcome: &Outcome,
    out: &mut S,
) -> Result<(), S::Error>
    ensures { OnOk result (SendsValue (plan_line_tree version id parent.now fault.now run uses.now outcome.now) (S.written out.old) (S.written out.new)) }
{
    out.begin_map(Some(8))?;
    send_fault(alloc, version, fault, out)?;
    send_member(alloc, "id", &id, out)?;
    send_index(alloc, fault, out)?;
    send_member(alloc, "kind", &Word("plan"), out)?;
    send_member(alloc, "outcome", outcome, out)?;
    send_member(alloc, "parent", parent, out)?;
    send_member(alloc, "run", &run, out)?;
    send_member(alloc, "uses", uses, out)?;
    out.end_map()
}

/// Sends what a plan line says of its fault's reply.
fn send_fault<S: Serializer>(
    alloc: Global,
    version: u32,
    fault: &Option<(Index, Reply)>,
    out: &mut S,
) -> Result<(), S::Error>
    ensures { OnOk result (SendsMember (fault_key version) (fault_tree version (faulted_reply fault.now)) (S.written out.old) (S.written out.new)) }
{
    if version == 2 {
        out.key("fault")?;
        return send_reply(alloc, fault, out);
    }
    out.key("code")?;
    send_code(alloc, fault, out)
}

fn send_reply<S: Serializer>(
    alloc: Global,
    fault: &Option<(Index, Reply)>,
    out: &mut S,
) -> Result<(), S::Error>
    ensures { OnOk result (SendsValue (optional_tree reply_tree (faulted_reply fault.now)) (S.written out.old) (S.written out.new)) }
{
    match fault {
        None => out.unit(),
        Some((_, reply)) => reply.send(alloc, out),
    }
}

fn send_code<S: Serializer>(
    alloc: Global,
    fault: &Option<(Index, Reply)>,
    out: &mut S,
) -> Result<(), S::Error>
    ensures { OnOk result (SendsValue (optional_tree string (code_of (faulted_reply fault.now))) (S.written out.old) (S.written out.new)) }
{
    match fault {
        Some((_, Reply::Err(code))) => code.send(alloc, out),
        _ => out.unit(),
    }
}

/// Sends where a plan line's fault is.
fn send_index<S: Serializer>(
    alloc: Global,
    fault: &Option<(Index, Reply)>,
    out: &mut S,
) -> Result<(), S::Error>
    ensures { OnOk result (SendsMember (codes "index") (optional_tree index_tree (faulted_index fault.now)) (S.written out.old) (S.written out.new)) }
{
    out.key("index")?;
    match fault {
        None => out.unit(),
        Some((index, _)) => index.send(alloc, out),
    }
}

fn send_end<S: Serializer>(
    alloc: Global,
    cause: &Cause,
    plans: u64,
    run: u64,
    pruned: u64,
    failed: u64,
    invs: u64,
    stopped: &Option<Plan>,
    out: &mut S,
) -> Result<(), S::Error>
    ensures { OnOk result (SendsValue (end_tree cause.now plans run pruned failed invs stopped.now) (S.written out.old) (S.written out.new)) }
{
    out.begin_map(Some(8))?;
    send_member(alloc, "cause", cause, out)?;
    send_member(alloc, "failed", &failed, out)?;
    send_member(alloc, "invs", &invs, out)?;
    send_member(alloc, "kind", &Word("end"), out)?;
    send_member(alloc, "plans", &plans, out)?;
    send_member(alloc, "pruned", &pruned, out)?;
    send_member(alloc, "run", &run, out)?;
    send_member(alloc, "stopped", stopped, out)?;
    out.end_map()
}
