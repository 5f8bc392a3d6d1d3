//! What a call gives back.
ghost use Rattle.std.specs.Prelude.{◌≡◌, ◌↔◌, IsTrue, IfOk};
ghost use Rattle.fb_base.specs.Replies.{same_reply, IsProperReply};

use crate::code::Code;
use crate::value::Value;
use std::alloc::{AllocError, Global};

/// The reply of a method: a value, or the code of an error.
#[derive(Drop)]
pub enum Reply {
    Ok(Value),
    Err(Code),
}

impl PartialEq for Reply {
    ghost use Rattle.fb_base.specs.Replies.{same_reply, same_reply_equiv};
    ghost use Rattle.std.specs.Cmp.{partial_equiv_from_equiv};

    ghost eq = { same_reply };

    ghost laws = { partial_equiv_from_equiv same_reply_equiv };

    fn eq(&self, other: &Reply) -> bool {
        match (self, other) {
            (Reply::Ok(a), Reply::Ok(b)) => a == b,
            (Reply::Err(a), Reply::Err(b)) => a == b,
            _ => false,
        }
    }
}

impl Eq for Reply {
    ghost use Rattle.fb_base.specs.Replies.{same_reply_equiv};

    ghost laws = { same_reply_equiv };
}

impl Reply {
    /// What holds of each reply that a program has.
    pub fn proper(&self)
        ensures { IsProperReply self.now }
    {
        match self {
            Reply::Ok(value) => value.proper(),
            Reply::Err(code) => {
                let _bytes = code.bytes();
            }
        }
    }

    /// Whether the replies are equal. It takes no memory.
    pub fn same(&self, other: &Reply) -> bool
        ensures value { result ≡ same_reply self.now other.now }
        ensures equal { IsTrue result ↔ (self.now ≡ other.now) }
    {
        *self == *other
    }

    /// The same reply, in memory of its own.
    pub fn copy(&self, alloc: Global) -> Result<Reply, AllocError>
        ensures { IfOk result (λ made. made ≡ self.now) }
    {
        match self {
            Reply::Ok(value) => Ok(Reply::Ok(value.copy(alloc)?)),
            Reply::Err(code) => Ok(Reply::Err(*code)),
        }
    }
}
