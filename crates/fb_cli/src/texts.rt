//! The texts that a command prints.
ghost use Rattle.std.specs.Prelude.{◌≡◌, [], IfOk, string_bytes};
ghost use Rattle.std.specs.List.{flat_map};
ghost use Rattle.fb_cli.specs.Telling.{IsToldByText};
ghost use Rattle.fb_cli.specs.Texts.{totals_text, first_failed_text, completed_text, trial_text, valid_text, rule_text, role_text, placed_text, syntax_text, faults_text, place_text, called_text, methods_of, check_text, why_text, status_text};

use crate::status::{Refusal, Role, Status, Why};
use fb_base::{MethodName, Reply};
use fb_check::{CheckRule, Place};
use fb_config::FaultsWhy;
use fb_index::{Index, Plan};
use fb_report::Totals;
use fb_syntax::ParseWhy;
use fb_verify::{Rule, Totals as TotalsTold};
use std::alloc::{AllocError, Global};

/// The parts, one after another.
fn joined(alloc: Global, parts: &[&[u8]]) -> Result<Vec<u8>, AllocError>
    ensures { IfOk result (λ bytes. bytes.items ≡ flat_map (λ part. part.now) parts.now) }
{
    let mut bytes = Vec::new(alloc);
    for part in parts {
        bytes.extend_from_slice(part)?;
    }
    Ok(bytes)
}

fn role_text(role: Role) -> &'static str
    ensures { result.now ≡ role_text role }
{
    match role {
        Role::Services => "services",
        Role::Test => "test",
        Role::Faults => "faults",
        Role::Report => "report",
        Role::Plan => "plan",
    }
}

/// A rule, and where it is broken.
fn placed_text(alloc: Global, rule: &str, at: u64) -> Result<String, AllocError>
    ensures { IfOk result (λ text. string_bytes text ≡ placed_text rule.now at) }
{
    format!(in alloc; "{rule} {at}")
}

fn syntax_text(alloc: Global, why: ParseWhy) -> Result<String, AllocError>
    ensures { IfOk result (λ text. string_bytes text ≡ syntax_text why) }
{
    match why {
        ParseWhy::NotText { offset } => placed_text(alloc, "NotText", offset),
        ParseWhy::BadToken { offset } => placed_text(alloc, "BadToken", offset),
        ParseWhy::Unexpected { offset } => placed_text(alloc, "Unexpected", offset),
        ParseWhy::TooDeep { offset } => placed_text(alloc, "TooDeep", offset),
        ParseWhy::TooMany { offset } => placed_text(alloc, "TooMany", offset),
    }
}

/// A rule that an item of a fault file breaks.
fn item_text(alloc: Global, rule: &str, item: u32) -> Result<String, AllocError>
    ensures { IfOk result (λ text. string_bytes text ≡ placed_text rule.now item) }
{
    placed_text(alloc, rule, u64::from(item))
}

fn faults_text(alloc: Global, why: FaultsWhy) -> Result<String, AllocError>
    ensures { IfOk result (λ text. string_bytes text ≡ faults_text why) }
{
    match why {
        FaultsWhy::NotToml => String::from_str(alloc, "NotToml"),
        FaultsWhy::UnknownKey { item } => item_text(alloc, "UnknownKey", item),
        FaultsWhy::BadVersion => String::from_str(alloc, "BadVersion"),
        FaultsWhy::NotATable { item } => item_text(alloc, "NotATable", item),
        FaultsWhy::TooMany => String::from_str(alloc, "TooMany"),
        FaultsWhy::UnknownCallee { item } => item_text(alloc, "UnknownCallee", item),
        FaultsWhy::UnknownMethod { item } => item_text(alloc, "UnknownMethod", item),
        FaultsWhy::BadCode { item } => item_text(alloc, "BadCode", item),
        FaultsWhy::BadValue { item } => item_text(alloc, "BadValue", item),
    }
}

fn place_text(alloc: Global, place: &Place) -> Result<String, AllocError>
    ensures { IfOk result (λ text. string_bytes text ≡ place_text place.now) }
{
    let service = place.service;
    let method = place.method;
    let statement = place.statement;
    format!(in alloc; "{service}.{method}.{statement}")
}

/// A method on a cycle, behind a blank.
fn called_text(alloc: Global, name: &MethodName) -> Result<Vec<u8>, AllocError>
    ensures { IfOk result (λ text. text.items ≡ called_text name.now) }
{
    joined(
        alloc,
        &[b" ", name.service.bytes(), b".", name.method.bytes()],
    )
}

/// The methods on a cycle.
fn methods_text(alloc: Global, methods: &[MethodName]) -> Result<Vec<u8>, AllocError>
    ensures { IfOk result (λ text. text.items ≡ flat_map called_text methods.now) }
{
    let mut text = Vec::new(alloc);
    for method in methods {
        let called = called_text(alloc, method)?;
        text.extend_from_slice(called.as_slice())?;
    }
    Ok(text)
}

/// The methods that a rule speaks of.
fn methods_of(rule: &CheckRule) -> &[MethodName]
    ensures { result.now ≡ methods_of rule.now }
{
    match rule {
        CheckRule::Cycle(methods) => methods.as_slice(),
        _ => &[],
    }
}

/// A rule of acceptance, the place in the source that breaks it, and of a cycle its methods.
fn check_text(alloc: Global, place: &Place, rule: &CheckRule) -> Result<Vec<u8>, AllocError>
    ensures { IfOk result (λ text. text.items ≡ check_text place.now rule.now) }
{
    let place = place_text(alloc, place)?;
    let methods = methods_text(alloc, methods_of(rule))?;
    joined(
        alloc,
        &[
            rule.name().as_bytes(),
            b" ",
            place.as_bytes(),
            methods.as_slice(),
        ],
    )
}

fn why_text(alloc: Global, why: &Why) -> Result<Vec<u8>, AllocError>
    ensures { IfOk result (λ text. text.items ≡ why_text why.now) }
{
    match why {
        Why::TooLong => Vec::from_slice(alloc, b"TooLong"),
        Why::Syntax(why) => {
            let text = syntax_text(alloc, *why)?;
            Ok(text.into_bytes())
        }
        Why::Check { place, rule } => check_text(alloc, place, rule),
        Why::Faults(why) => {
            let text = faults_text(alloc, *why)?;
            Ok(text.into_bytes())
        }
        Why::Plan { offset } => {
            let text = placed_text(alloc, "BadPlan", *offset)?;
            Ok(text.into_bytes())
        }
    }
}

fn refused_text(alloc: Global, refusal: &Refusal) -> Result<Vec<u8>, AllocError>
    ensures { IfOk result (λ text. text.items ≡ status_text [] (Status.Refused refusal.now)) }
{
    let why = why_text(alloc, &refusal.why)?;
    joined(
        alloc,
        &[
            b"refused ",
            role_text(refusal.role).as_bytes(),
            b" ",
            why.as_slice(),
            b"\n",
        ],
    )
}

fn totals_text(alloc: Global, totals: &Totals) -> Result<String, AllocError>
    ensures { IfOk result (λ text. string_bytes text ≡ totals_text totals.now) }
{
    let plans = totals.plans;
    let run = totals.run;
    let pruned = totals.pruned;
    let failed = totals.failed;
    let invs = totals.invs;
    format!(in alloc;
        "completed plans {plans} run {run} pruned {pruned} failed {failed} invs {invs}\n"
    )
}

fn first_failed_text(alloc: Global, first_failed: Option<u64>) -> Result<String, AllocError>
    ensures { IfOk result (λ text. string_bytes text ≡ first_failed_text first_failed) }
{
    match first_failed {
        Some(number) => format!(in alloc; "first failed plan {number}\n"),
        None => Ok(String::new(alloc)),
    }
}

/// The text of a completed campaign.
pub(crate) fn completed_text(alloc: Global, totals: &Totals) -> Result<String, AllocError>
    ensures { IfOk result (λ text. string_bytes text ≡ completed_text totals.now) }
{
    let mut text = totals_text(alloc, totals)?;
    let first_failed = first_failed_text(alloc, totals.first_failed)?;
    text.push_str(first_failed.as_str())?;
    Ok(text)
}

/// The text of a trial whose report is valid.
pub(crate) fn trial_text(alloc: Global, totals: &Totals) -> Result<String, AllocError>
    ensures { IfOk result (λ text. string_bytes text ≡ trial_text totals.now) }
{
    let plans = totals.plans;
    let run = totals.run;
    let pruned = totals.pruned;
    let failed = totals.failed;
    let invs = totals.invs;
    format!(in alloc;
        "trial plans {plans} run {run} pruned {pruned} failed {failed} invs {invs} check yes\n"
    )
}

/// The text of a valid report.
pub(crate) fn valid_text(alloc: Global, totals: &TotalsTold) -> Result<String, AllocError>
    ensures { IfOk result (λ text. string_bytes text ≡ valid_text totals.now) }
{
    let plans = totals.plans;
    let run = totals.run;
    let pruned = totals.pruned;
    let failed = totals.failed;
    let invs = totals.records;
    format!(in alloc; "yes plans {plans} run {run} pruned {pruned} failed {failed} invs {invs}\n")
}

/// The rule of an extension that has no line, and its fault.
fn missing_text(alloc: Global, index: &Index, reply: &Reply) -> Result<Vec<u8>, AllocError>
    ensures { IfOk result (λ text. text.items ≡ rule_text (Rule.V6 index.now reply.now)) }
{
    let plan = Plan::empty().with(alloc, index.copy()?, reply.copy(alloc)?)?;
    let fault = plan.text(alloc)?;
    joined(alloc, &[b"V6 ", fault.as_bytes()])
}

/// A rule of reports.
fn rule_text(alloc: Global, rule: &Rule) -> Result<Vec<u8>, AllocError>
    ensures { IfOk result (λ text. text.items ≡ rule_text rule.now) }
{
    match rule {
        Rule::CutLine => Vec::from_slice(alloc, b"CutLine"),
        Rule::NotJson => Vec::from_slice(alloc, b"NotJson"),
        Rule::BadShape => Vec::from_slice(alloc, b"BadShape"),
        Rule::BadNumber => Vec::from_slice(alloc, b"BadNumber"),
        Rule::V1 => Vec::from_slice(alloc, b"V1"),
        Rule::V2 => Vec::from_slice(alloc, b"V2"),
        Rule::V3 => Vec::from_slice(alloc, b"V3"),
        Rule::V4 => Vec::from_slice(alloc, b"V4"),
        Rule::V5 => Vec::from_slice(alloc, b"V5"),
        Rule::V6 { index, reply } => missing_text(alloc, index, reply),
        Rule::V7 => Vec::from_slice(alloc, b"V7"),
        Rule::V8 => Vec::from_slice(alloc, b"V8"),
    }
}

fn broken_text(alloc: Global, line: u64, rule: &Rule) -> Result<Vec<u8>, AllocError>
    ensures { IfOk result (λ text. text.items ≡ status_text [] (Status.No line rule.now)) }
{
    let number = format!(in alloc; "{line}")?;
    let rule = rule_text(alloc, rule)?;
    joined(
        alloc,
        &[
            b"no line ",
            number.as_bytes(),
            b" rule ",
            rule.as_slice(),
            b"\n",
        ],
    )
}

fn fuel_spent_text(alloc: Global, plan: &Plan) -> Result<Vec<u8>, AllocError>
    ensures { IfOk result (λ text. text.items ≡ status_text [] (Status.FuelSpent plan.now)) }
{
    let plan = plan.text(alloc)?;
    joined(alloc, &[b"fuel spent at ", plan.as_bytes(), b"\n"])
}

fn budget_spent_text(alloc: Global, plan: &Plan) -> Result<Vec<u8>, AllocError>
    ensures { IfOk result (λ text. text.items ≡ status_text [] (Status.BudgetSpent plan.now)) }
{
    let plan = plan.text(alloc)?;
    joined(alloc, &[b"budget spent at ", plan.as_bytes(), b"\n"])
}

fn not_met_text(alloc: Global, index: &Index) -> Result<Vec<u8>, AllocError>
    ensures { IfOk result (λ text. text.items ≡ status_text [] (Status.NotMet index.now)) }
{
    let index = index.text(alloc)?;
    joined(alloc, &[b"not met ", index.as_bytes(), b"\n"])
}

/// The text of a status, which names the report's name where it speaks of it.
pub(crate) fn status_text(
    alloc: Global,
    report: &str,
    status: &Status,
) -> Result<Vec<u8>, AllocError>
    requires { IsToldByText status.now }
    ensures { IfOk result (λ text. text.items ≡ status_text report.now status.now) }
{
    match status {
        // A command that was carried out prints a text of its own.
        Status::Good | Status::Failures => Ok(Vec::new(alloc)),
        Status::Usage => {
            Vec::from_slice(
                alloc,
                b"usage: filibuster test, check, replay, fmt or trial\n",
            )
        }
        Status::SameName => joined(alloc, &[b"same name ", report.as_bytes(), b"\n"]),
        Status::Refused(refusal) => refused_text(alloc, refusal),
        Status::ReadFault(role) => {
            joined(alloc, &[b"read fault ", role_text(*role).as_bytes(), b"\n"])
        }
        Status::FuelSpent(plan) => fuel_spent_text(alloc, plan),
        Status::BudgetSpent(plan) => budget_spent_text(alloc, plan),
        Status::NotMet(index) => not_met_text(alloc, index),
        Status::No { line, rule } => broken_text(alloc, *line, rule),
        // Both are told without memory.
        Status::WriteFault | Status::Memory => unreachable!(),
    }
}
