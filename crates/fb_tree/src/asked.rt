ghost use Rattle.std.specs.Prelude.{◌≡◌, IfOk};
ghost use Rattle.fb_tree.specs.Views.{view_asked};

use crate::node::Made;
use fb_base::{List, MethodId, Reply, Value};
use fb_index::Entry;
use std::alloc::{AllocError, Global};

/// A request that a body made, and its reply.
#[derive(Drop)]
pub struct Asked {
    pub entry: Entry,
    pub callee: MethodId,
    pub args: List<Value>,
    pub reply: Reply,
}

impl PartialEq for Asked {
    ghost use Rattle.std.specs.Cmp.{partial_equiv_from_equiv};
    ghost use Rattle.fb_tree.specs.Sameness.{same_asked, same_asked_equiv};

    ghost eq = { same_asked };

    ghost laws = { partial_equiv_from_equiv same_asked_equiv };

    fn eq(&self, other: &Asked) -> bool {
        if self.entry.site != other.entry.site || self.entry.count != other.entry.count {
            return false;
        }
        if self.callee.0 != other.callee.0 || self.args != other.args {
            return false;
        }
        self.reply == other.reply
    }
}

impl Eq for Asked {
    ghost use Rattle.fb_tree.specs.Sameness.{same_asked_equiv};

    ghost laws = { same_asked_equiv };
}

impl Asked {
    /// What a call asked and got, without how.
    pub fn of(alloc: Global, made: &Made) -> Result<Asked, AllocError>
        ensures { IfOk result (λ asked. asked ≡ view_asked made.now) }
    {
        Ok(Asked {
            entry: made.entry,
            callee: made.callee,
            args: made.args.copy(alloc)?,
            reply: made.reply.copy(alloc)?,
        })
    }
}
