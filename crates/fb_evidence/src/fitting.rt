//! Whether a record fits its method and the methods that it calls.
ghost use Rattle.std.specs.Prelude.{◌≡◌, ◌<◌, length};
ghost use Rattle.fb_check.specs.Programs.{methods_of};
ghost use Rattle.fb_meaning.specs.Each.{HoldsOfEach};
ghost use Rattle.fb_meaning.specs.Records.{HaveKinds, IsCallOf, IsOkOfKind};
ghost use Rattle.fb_evidence.specs.Deciding.{Decides};
ghost use Rattle.fb_evidence.specs.Fitting.{IsFitting, have_kinds};

use crate::grounds::Grounds;
use fb_base::{Kind, MethodId, Reply, Value};
use fb_check::Program;
use fb_tree::{Asked, Record};

/// Whether each value has its kind, as many as there are kinds.
#[tactic(auto, unfolding(crate::specs::Fitting::have_kinds))]
fn have_kinds(values: &[Value], kinds: &[Kind]) -> bool
    ensures { result ≡ have_kinds values.now kinds.now }
{
    let mut left = values;
    let mut others = kinds;
    while let [value, rest @ ..] = left {
        let [kind, behind @ ..] = others else {
            return false;
        };
        if !value.has_kind(*kind) {
            return false;
        }
        left = rest;
        others = behind;
    }
    others.is_empty()
}

/// Whether an Ok has the kind. An error fits each.
fn reply_fits(reply: &Reply, kind: Kind) -> bool
    ensures { Decides (IsOkOfKind kind reply.now) result }
{
    match reply {
        Reply::Ok(value) => value.has_kind(kind),
        Reply::Err(_) => true,
    }
}

/// Whether the call is one of the method's sites, with a reply that fits.
fn call_fits(program: &Program, method: MethodId, asked: &Asked) -> bool
    requires { method.0 < length (methods_of program.now.tree) }
    ensures { Decides (IsCallOf program.now.tree method.0 asked.now) result }
{
    let Some(callee) = program.callee_at(method, asked.entry.site) else {
        return false;
    };
    if callee.0 != asked.callee.0 {
        return false;
    }
    reply_fits(&asked.reply, program.gives(callee))
}

/// Whether all of these calls are the method's.
fn calls_fit(program: &Program, method: MethodId, calls: &[Asked]) -> bool
    requires { method.0 < length (methods_of program.now.tree) }
    ensures { Decides (HoldsOfEach (IsCallOf program.now.tree method.0) calls.now) result }
{
    for asked in calls {
        if !call_fits(program, method, asked) {
            return false;
        }
    }
    true
}

impl Grounds<'_> {
    /// Whether the record fits, whatever its method does.
    pub(crate) fn fits(&self, item: &Record) -> bool
        ensures { Decides (IsFitting self.now.program.now.tree item.now) result }
    {
        if item.method.0 >= self.program.count() {
            return false;
        }
        let params = self.program.params(item.method);
        if !have_kinds(item.args.as_slice(), params) {
            return false;
        }
        calls_fit(self.program, item.method, item.calls.as_slice())
    }
}
