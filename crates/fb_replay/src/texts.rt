//! The lines of a replay.
ghost use Rattle.std.specs.Prelude.{◌≡◌, IfOk, string_bytes};
ghost use Rattle.fb_tree.specs.Calls.{call_at, fault_of};
ghost use Rattle.fb_tree.specs.Views.{view_asked, view_how};
ghost use Rattle.fb_report.specs.Names.{IsMethodOf};
ghost use Rattle.fb_replay.specs.ReplayText.{answer_text, call_text, ended_text, fault_text, reply_text};

use fb_base::Reply;
use fb_check::Program;
use fb_index::Index;
use fb_report::{method_text, outcome_text, value_text};
use fb_tree::{How, Made, Outcome};
use std::alloc::{AllocError, Global};

/// A reply that the callee gave.
fn reply_text(alloc: Global, reply: &Reply) -> Result<String, AllocError>
    ensures { IfOk result (λ text. string_bytes text ≡ reply_text reply.now) }
{
    match reply {
        Reply::Ok(value) => {
            let value = value_text(alloc, value)?;
            format!(in alloc; "ok {}", value.as_str())
        }
        Reply::Err(code) => format!(in alloc; "err {}", code.as_str()),
    }
}

/// A reply that was injected.
fn fault_text(alloc: Global, reply: &Reply) -> Result<String, AllocError>
    ensures { IfOk result (λ text. string_bytes text ≡ fault_text reply.now) }
{
    match reply {
        Reply::Ok(value) => {
            let value = value_text(alloc, value)?;
            format!(in alloc; "fault ok {}", value.as_str())
        }
        Reply::Err(code) => format!(in alloc; "fault {}", code.as_str()),
    }
}

/// What a call was answered with.
#[tactic(auto, unfolding(fb_tree::specs::Views::view_how))]
fn answer_text(alloc: Global, made: &Made) -> Result<String, AllocError>
    ensures { IfOk result (λ text. string_bytes text ≡ answer_text made.now.reply (fault_of made.now.reply (view_how made.now.how))) }
{
    match &made.how {
        How::Fault => fault_text(alloc, &made.reply),
        How::Ran(_) => reply_text(alloc, &made.reply),
        How::Known { .. } => reply_text(alloc, &made.reply),
    }
}

/// The line of a call at this index.
#[tactic(auto, unfolding(crate::specs::ReplayText::call_text))]
pub(crate) fn call_text(
    alloc: Global,
    program: &Program,
    index: &Index,
    made: &Made,
) -> Result<String, AllocError>
    requires { IsMethodOf program.now.tree made.now.callee }
    ensures { IfOk result (λ text. string_bytes text ≡ call_text program.now.tree (call_at index.now (view_asked made.now) (view_how made.now.how))) }
{
    let place = index.text(alloc)?;
    let callee = method_text(alloc, &program.name_of(made.callee))?;
    let answer = answer_text(alloc, made)?;
    format!(in alloc;
        "{} {} {}\n",
        place.as_str(),
        callee.as_str(),
        answer.as_str()
    )
}

/// The line of how the test ended.
pub(crate) fn ended_text(alloc: Global, outcome: &Outcome) -> Result<String, AllocError>
    ensures { IfOk result (λ text. string_bytes text ≡ ended_text outcome.now) }
{
    let outcome = outcome_text(alloc, outcome)?;
    format!(in alloc; "outcome {}\n", outcome.as_str())
}
