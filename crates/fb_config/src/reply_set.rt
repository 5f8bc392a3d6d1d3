//! Replies that are all different.
ghost use Rattle.std.specs.Prelude.{◌≡◌, [], IfOk, OnOk};
ghost use Rattle.fb_config.specs.Once.{with_reply};

use fb_base::{List, Reply};
use indexmap::IndexSet;
use std::alloc::{AllocError, Global};
use std::hash::{Hash, Hasher};
use std::marker::Model;

/// A reply as a key of a set.
#[derive(Drop)]
struct Key {
    reply: Reply,
}

impl Model for Key {
    ghost use Rattle.fb_base.specs.declared.reply.Reply.{Reply as ReplyOf};

    ghost Value = { ReplyOf };

    ghost view = { λ k. k.reply };
}

impl PartialEq for Key {
    ghost use Rattle.fb_base.specs.Replies.{same_reply, same_reply_equiv};
    ghost use Rattle.std.specs.Cmp.{partial_equiv_from_equiv};

    ghost eq = { same_reply };

    ghost laws = { partial_equiv_from_equiv same_reply_equiv };

    fn eq(&self, other: &Key) -> bool {
        self.reply == other.reply
    }
}

impl Eq for Key {
    ghost use Rattle.fb_base.specs.Replies.{same_reply_equiv};

    ghost laws = { same_reply_equiv };
}

impl Hash for Key {
    ghost use Rattle.std.specs.Hash as writes;
    ghost use Rattle.fb_base.specs.Replies.{same_reply-Decides};
    ghost use Rattle.fb_config.specs.Hashes.{writes_of_reply};

    ghost hash_input = { writes_of_reply };

    ghost respects_eq = { (writes.same_Alike writes_of_reply same_reply-Decides).fed };

    fn hash<H: Hasher>(&self, state: &mut H) {
        match &self.reply {
            Reply::Ok(value) => value.hash(state),
            Reply::Err(code) => code.as_str().hash(state),
        }
    }
}

/// Replies in the order in which they came first. A reply is found by its hash.
#[derive(Drop)]
pub struct ReplySet {
    known: IndexSet<Key>,
}

impl Model for ReplySet {
    ghost use Rattle.std.specs.Prelude.{List as ListOf};
    ghost use Rattle.fb_base.specs.declared.reply.Reply.{Reply as ReplyOf};

    ghost Value = { ListOf ReplyOf };

    ghost view = { λ s. s.known.keys };
}

impl ReplySet {
    pub fn new(alloc: Global) -> ReplySet
        ensures { result ≡ [] }
    {
        ReplySet {
            known: IndexSet::new(alloc),
        }
    }

    /// Adds a reply, or drops it where an equal one is there.
    pub fn add(&mut self, reply: Reply) -> Result<(), AllocError>
        ensures { OnOk result (self.new ≡ with_reply self.old reply) }
    {
        self.known.insert(Key { reply })?;
        Ok(())
    }

    /// The replies, which are moved.
    pub fn into_list(self, alloc: Global) -> Result<List<Reply>, AllocError>
        ensures { IfOk result (λ replies. replies ≡ self) }
    {
        let ReplySet { known } = self;
        let mut replies = List::new(alloc);
        for key in known {
            let Key { reply } = key;
            replies.push(reply)?;
        }
        Ok(replies)
    }
}
