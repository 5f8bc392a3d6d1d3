//! The queue of pending plans.
ghost use Rattle.std.specs.Prelude.{◌≡◌, [], ◌++◌, All, OnOk, OnErr, MatchOption, ◌∷◌};
ghost use Rattle.fb_worklist.specs.Worklists.{HasMethod, pending_of};

use crate::extending::extensions_of;
use crate::pending::Pending;
use fb_config::Faults;
use fb_index::Plan;
use fb_tree::Visit;
use std::alloc::{AllocError, Global};
use std::collections::VecDeque;
use std::marker::Model;

/// Plans that have to be run, in the order in which they were added.
///
/// A plan costs one node beside the plan that it extends, and its place, which is free once it is taken.
#[derive(Drop)]
pub struct Worklist {
    alloc: Global,
    plans: VecDeque<Pending>,
}

impl Model for Worklist {
    ghost use Rattle.std.specs.Prelude.{List};
    ghost use Rattle.fb_worklist.specs.declared.pending.Pending.{Pending as PendingOf};

    ghost Value = { List PendingOf };

    ghost view = { λ w. w.plans.items };
}

impl Worklist {
    pub fn new(alloc: Global) -> Worklist
        ensures { result ≡ [] }
    {
        Worklist {
            alloc,
            plans: VecDeque::new(alloc),
        }
    }

    /// Adds the extensions of a plan, which has this number, by the calls of its run. Want of memory adds none.
    pub fn push_extensions(
        &mut self,
        plan: &Plan,
        number: u64,
        calls: &[Visit],
        faults: &Faults,
    ) -> Result<(), AllocError>
        requires { All (HasMethod faults.now) calls.now }
        ensures ok { OnOk result (self.new ≡ self.old ++ pending_of faults.now plan.now number calls.now) }
        ensures err { OnErr result (self.new ≡ self.old) }
    {
        let mut found = extensions_of(self.alloc, plan, number, calls, faults)?;
        self.plans.append(&mut found)?;
        Ok(())
    }

    /// Takes the plan that was added first. It takes no memory.
    pub fn pop_first(&mut self) -> Option<Pending>
        ensures { MatchOption result ((self.old ≡ []) × (self.new ≡ [])) (λ first. self.old ≡ first ∷ self.new) }
    {
        self.plans.pop_front()
    }
}
