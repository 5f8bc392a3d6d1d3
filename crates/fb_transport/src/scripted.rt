ghost use Rattle.std.specs.Prelude.{◌≡◌, None, Some, false, IfOk, IfErr, OnOk, if◌then◌else◌};
ghost use Rattle.std.specs.Option.{option_copied, option_and_then};
ghost use Rattle.std.specs.List.{last_or};
ghost use Rattle.std.specs.BTreeMap.{get};
ghost use Rattle.fb_index.specs.Entry.{Occurrence, same_entry};
ghost use Rattle.fb_transport.specs.declared.decision.Halt.TheVariants.{Memory};
ghost use Rattle.fb_transport.specs.Requests.{request_of, wanted_after};
ghost use Rattle.fb_transport.specs.Sources.{Answers, MayForward, reply_at, script_source, scripted, source_by_entry};

use crate::decision::{Decision, Halt};
use crate::request::Request;
use crate::transport::Transport;
use fb_base::{List, MethodId, Reply, Value};
use fb_index::{Entry, Index};
use std::alloc::{AllocError, Global};
use std::collections::BTreeMap;

/// Answers the calls of one body with known replies, by their entries.
#[derive(Drop)]
pub struct Scripted {
    replies: BTreeMap<Entry, Reply>,
    wanted: Option<Request>,
}

impl Scripted {
    /// Of two replies at one entry the first counts.
    pub fn new(alloc: Global, replies: Vec<(Entry, Reply)>) -> Result<Scripted, AllocError>
        ensures gives { IfOk result (λ made. ⟦<Scripted as Transport>⟧.gives made ≡ script_source replies.items) }
        ensures wanted { IfOk result (λ made. made.wanted ≡ None) }
    {
        let replies = by_entry(alloc, replies)?;
        Ok(Scripted {
            replies,
            wanted: None,
        })
    }

    /// The last request that had no answer, none exactly where each had one so far.
    pub fn wanted(&self) -> Option<&Request>
        ensures { option_copied result ≡ self.now.wanted }
    {
        self.wanted.as_ref()
    }

    /// The reply for a call.
    fn reply(&self, at: &Index) -> Option<&Reply>
        ensures { option_copied result ≡ option_and_then (get ⟦<Entry as Ord>⟧.cmp self.now.replies) (last_or None at.now) }
    {
        match at.last() {
            None => None,
            Some(entry) => self.replies.get(entry),
        }
    }
}

/// The replies by entry, of two at one entry the first.
fn by_entry(
    alloc: Global,
    mut replies: Vec<(Entry, Reply)>,
) -> Result<BTreeMap<Entry, Reply>, AllocError>
    ensures { IfOk result (λ made. (entry : Occurrence) → get ⟦<Entry as Ord>⟧.cmp made entry ≡ reply_at replies.items entry) }
{
    let mut made = BTreeMap::new(alloc);
    // from the last one on, so that an earlier reply takes the place of a later one
    while let Some(pair) = replies.pop() {
        put(&mut made, pair)?;
    }
    Ok(made)
}

/// Keeps a reply in place of another at its entry.
fn put(made: &mut BTreeMap<Entry, Reply>, pair: (Entry, Reply)) -> Result<(), AllocError>
    ensures { OnOk result ((entry : Occurrence) → get ⟦<Entry as Ord>⟧.cmp made.new entry
        ≡ (if same_entry pair.0 entry then Some pair.1 else get ⟦<Entry as Ord>⟧.cmp made.old entry)) }
{
    let (entry, reply) = pair;
    made.insert(entry, reply)?;
    Ok(())
}

impl Transport for Scripted {
    ghost use Rattle.std.specs.Prelude.{false};
    ghost use Rattle.std.specs.BTreeMap.{get};
    ghost use Rattle.fb_transport.specs.Sources.{source_by_entry};

    ghost gives = { λ script. source_by_entry (get ⟦<Entry as Ord>⟧.cmp script.replies) };

    ghost forwards = { λ script. false };

    fn begin(
        &mut self,
        alloc: Global,
        at: &Index,
        callee: MethodId,
        args: &[Value],
    ) -> Result<Decision, Halt>
        ensures answers { Answers (source_by_entry (get ⟦<Entry as Ord>⟧.cmp self.old.replies) at.now callee.0 args.now) result }
        ensures replies { self.new.replies ≡ self.old.replies }
        ensures evaluates { MayForward false result }
        ensures wanted { self.new.wanted ≡ wanted_after self.old.wanted (request_of at.now callee args.now) result }
    {
        match self.reply(at) {
            Some(reply) => known(alloc, reply),
            None => {
                self.wanted = Some(Request::of(alloc, at, callee, args)?);
                Err(Halt::Missing)
            }
        }
    }
}

/// A reply with nothing evaluated or injected below.
fn known(alloc: Global, reply: &Reply) -> Result<Decision, Halt>
    ensures known { IfOk result (λ decision. decision ≡ scripted reply.now) }
    ensures memory { IfErr result (λ halt. halt ≡ Memory) }
{
    Ok(Decision::Known {
        reply: reply.copy(alloc)?,
        steps: 0,
        injected: List::new(alloc),
    })
}
