//! What walks have found.
ghost use Rattle.std.specs.Prelude.{◌≡◌, ◌+◌, ◌<◌, ◌^◌, [], ◌∷◌, None, Some, length, IfOk, OnOk};
ghost use Rattle.fb_stitch.specs.Finding.{AddsVisit, Closes, Opens};

use fb_base::{List, MethodId, Reply};
use fb_index::Index;
use fb_tree::Visit;
use std::alloc::{AllocError, Global};

/// What walks have found of invocations and of their calls, in the order in which they begin.
#[derive(Drop)]
pub struct Found {
    /// The numbers of the invocations' records.
    pub uses: Vec<u64>,
    pub visits: List<Visit>,
    /// The callees of the injected calls.
    pub injected: List<MethodId>,
    /// The steps of all bodies that have ended.
    pub steps: u64,
}

impl Found {
    pub fn new(alloc: Global) -> Found
        ensures uses { result.uses.items ≡ [] }
        ensures visits { result.visits ≡ [] }
        ensures injected { result.injected ≡ [] }
        ensures steps { result.steps ≡ 0 }
    {
        Found {
            uses: Vec::new(alloc),
            visits: List::new(alloc),
            injected: List::new(alloc),
            steps: 0,
        }
    }

    /// Begins an invocation, whose record isn't known before it ends, and gives the place for its number.
    pub fn open(&mut self) -> Result<usize, AllocError>
        ensures slot { IfOk result (λ slot. slot ≡ length self.old.uses.items) }
        ensures opens { OnOk result (Opens self.old self.new) }
    {
        let slot = self.uses.len();
        self.uses.push(0)?;
        Ok(slot)
    }

    /// Ends the invocation at a place.
    pub fn close(&mut self, slot: usize, id: u64, steps: u64)
        requires slot { slot < length self.old.uses.items }
        requires steps { self.old.steps + steps < 2 ^ 64 }
        ensures { Closes slot id steps self.old self.new }
    {
        self.uses[slot] = id;
        self.steps += steps;
    }

    /// A call that is answered by its callee.
    pub fn visit(&mut self, index: Index, callee: MethodId) -> Result<(), AllocError>
        ensures { OnOk result (AddsVisit self.old self.new (record { index = index; callee = callee; fault = None }) []) }
    {
        self.visits.push(Visit {
            index,
            callee,
            fault: None,
        })
    }

    /// A call that is answered with a fault.
    pub fn inject(&mut self, index: Index, callee: MethodId, reply: Reply) -> Result<(), AllocError>
        ensures { OnOk result (AddsVisit self.old self.new (record { index = index; callee = callee; fault = Some reply }) (callee ∷ [])) }
    {
        self.injected.push(callee)?;
        self.visits.push(Visit {
            index,
            callee,
            fault: Some(reply),
        })
    }
}
