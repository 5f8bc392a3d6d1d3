//! An output in memory.
ghost use Rattle.std.specs.Prelude.{◌≡◌, ◌↔◌, [], ◌++◌, Some, IfOk, IsErrOf, IsTrue, is_ok, if◌then◌else◌};
ghost use Rattle.fb_base.specs.Count.{NeverFell};
ghost use Rattle.fb_files.specs.Planned.{plan_of_sink, next_put_fails};
ghost use Rattle.fb_files.specs.PlannedFaults.{unused, after_call};

use crate::planned_faults::PlannedFaults;
use crate::{Sink, WriteError};
use std::alloc::{AllocError, Global};

/// An output in memory, which tells what it was sent. Puts are counted from 1, also those that are refused memory.
#[derive(Drop)]
pub struct MemorySink {
    sent: Vec<u8>,
    plan: PlannedFaults,
}

impl MemorySink {
    /// Nothing was sent yet. The puts whose numbers are in `fails` fail and send nothing.
    pub fn new(alloc: Global, fails: Vec<u64>) -> Result<Self, AllocError>
        ensures sent { IfOk result (λ sink. ⟦<MemorySink as Sink>⟧.sent sink ≡ Some []) }
        ensures faults { IfOk result (λ sink. ⟦<MemorySink as Sink>⟧.faults sink ≡ 0) }
        ensures plan { IfOk result (λ sink. plan_of_sink sink ≡ unused fails) }
    {
        Ok(MemorySink {
            sent: Vec::new(alloc),
            plan: PlannedFaults::new(fails),
        })
    }

    /// All bytes that were sent.
    pub fn sent(&self) -> &[u8]
        ensures { ⟦<MemorySink as Sink>⟧.sent self.now ≡ Some result.now }
    {
        &self.sent
    }

    /// How many puts have failed.
    pub fn faults(&self) -> u64
        ensures { result ≡ ⟦<MemorySink as Sink>⟧.faults self.now }
    {
        self.plan.faults()
    }
}

impl Sink for MemorySink {
    ghost sent = { λ sink. Some sink.sent.items };

    ghost faults = { λ sink. sink.plan.faults };

    fn put(&mut self, bytes: &[u8]) -> Result<(), WriteError>
        ensures sent { self.new.sent.items ≡
            (if is_ok result then self.old.sent.items ++ bytes.now else self.old.sent.items) }
        ensures fails { IsErrOf result WriteError.Failed ↔ IsTrue (next_put_fails self.old) }
        ensures plan { plan_of_sink self.new ≡ after_call (next_put_fails self.old) (plan_of_sink self.old) }
        ensures count { NeverFell self.old.plan.faults self.new.plan.faults }
    {
        if self.plan.next_fails() {
            self.plan.note(true);
            return Err(WriteError::Failed);
        }
        self.sent.extend_from_slice(bytes)?;
        Ok(())
    }
}
