ghost use Rattle.std.specs.Prelude.{◌≡◌, ◌↔◌, IfOk, IsTrue, map};
ghost use Rattle.fb_tree.specs.Records.{record_of};
ghost use Rattle.fb_tree.specs.Views.{view_asked, view_node};

use crate::asked::Asked;
use crate::node::{Made, Node};
use fb_base::{List, MethodId, Reply, Value};
use std::alloc::{AllocError, Global};

/// What is recorded of an invocation. It tells nothing of how its calls got their replies.
#[derive(Drop)]
pub struct Record {
    pub method: MethodId,
    pub args: List<Value>,
    /// The first one first.
    pub calls: List<Asked>,
    pub reply: Reply,
    /// The units of fuel of its own body.
    pub steps: u64,
}

impl PartialEq for Record {
    ghost use Rattle.std.specs.Cmp.{partial_equiv_from_equiv};
    ghost use Rattle.fb_tree.specs.Sameness.{same_record, same_record_equiv};

    ghost eq = { same_record };

    ghost laws = { partial_equiv_from_equiv same_record_equiv };

    fn eq(&self, other: &Record) -> bool {
        if self.method.0 != other.method.0 || self.args != other.args {
            return false;
        }
        if self.calls != other.calls || self.reply != other.reply {
            return false;
        }
        self.steps == other.steps
    }
}

impl Eq for Record {
    ghost use Rattle.fb_tree.specs.Sameness.{same_record_equiv};

    ghost laws = { same_record_equiv };
}

/// The record of an invocation. It copies nothing of the invocations below.
#[tactic(auto, using(crate::proofs::Walks::record_of_opened))]
pub fn record_of(alloc: Global, node: &Node) -> Result<Record, AllocError>
    ensures { IfOk result (λ item. item ≡ record_of (view_node node.now)) }
{
    let args = node.args.copy(alloc)?;
    let calls = asked_in(alloc, &node.calls)?;
    let reply = node.reply.copy(alloc)?;
    Ok(Record {
        method: node.method,
        args,
        calls,
        reply,
        steps: node.steps,
    })
}

/// The requests of some calls, and their replies.
fn asked_in(alloc: Global, calls: &[Made]) -> Result<List<Asked>, AllocError>
    ensures { IfOk result (λ asked. asked ≡ map view_asked calls.now) }
{
    let mut asked = List::new(alloc);
    for made in calls {
        asked.push(Asked::of(alloc, made)?)?;
    }
    Ok(asked)
}

/// Whether two records are equal. It takes no memory.
pub fn same_record(a: &Record, b: &Record) -> bool
    ensures { IsTrue result ↔ (a.now ≡ b.now) }
{
    *a == *b
}
