//! What is told of verdicts.

use fb_base::{Reply, Value};
use fb_index::Index;
use fb_verify::{Rule, Totals, Verdict};
use std::alloc::Global;

/// An extension without a line, as `V6 1.1/1.1=timeout`.
fn missing_text(alloc: Global, index: &Index, reply: &Reply) -> Option<String> {
    let index = index.text(alloc).ok()?;
    match reply {
        Reply::Ok(Value::Int(n)) => format!(in alloc; "V6 {}=ok:{n}", index.as_str()).ok(),
        Reply::Ok(_) => None,
        Reply::Err(code) => format!(in alloc; "V6 {}={}", index.as_str(), code.as_str()).ok(),
    }
}

fn rule_text(alloc: Global, rule: &Rule) -> Option<String> {
    let word = match rule {
        Rule::CutLine => "CutLine",
        Rule::NotJson => "NotJson",
        Rule::BadShape => "BadShape",
        Rule::BadNumber => "BadNumber",
        Rule::V1 => "V1",
        Rule::V2 => "V2",
        Rule::V3 => "V3",
        Rule::V4 => "V4",
        Rule::V5 => "V5",
        Rule::V6 { index, reply } => return missing_text(alloc, index, reply),
        Rule::V7 => "V7",
        Rule::V8 => "V8",
    };
    String::from_str(alloc, word).ok()
}

fn totals_text(alloc: Global, totals: &Totals) -> Option<String> {
    let Totals {
        plans,
        run,
        pruned,
        failed,
        records,
    } = *totals;
    format!(in alloc;
        "yes plans {plans} run {run} pruned {pruned} failed {failed} invs {records}"
    ).ok()
}

/// A verdict, as `line 4 rule V1`.
pub(crate) fn verdict_text(alloc: Global, verdict: &Verdict) -> Option<String> {
    match verdict {
        Verdict::Yes(totals) => totals_text(alloc, totals),
        Verdict::No { line, rule } => {
            let rule = rule_text(alloc, rule)?;
            format!(in alloc; "line {line} rule {}", rule.as_str()).ok()
        }
    }
}
