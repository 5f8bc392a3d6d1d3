//! Calls by their indexes.
ghost use Rattle.std.specs.Prelude.{◌≡◌, [], ◌∷◌, ◌++◌, IfOk, OnOk, All, map};
ghost use Rattle.fb_campaign.specs.Plans.{begun_after, begun_after_plan, between_services};
ghost use Rattle.fb_index.specs.Index.{same_index};
ghost use Rattle.fb_book.specs.Calls.{called, calls_for, place_of};

use crate::call::Call;
use crate::key::Key;
use fb_index::{Index, Plan};
use fb_tree::Visit;
use std::alloc::{AllocError, Global};
use std::collections::BTreeMap;
use std::marker::Model;

/// Calls in the order in which they begin, found by index.
#[derive(Drop)]
pub struct Calls {
    list: Vec<Call>,
    places: BTreeMap<Key, usize>,
}

impl Model for Calls {
    ghost use Rattle.std.specs.Prelude.{◌≡◌, List};
    ghost use Rattle.std.specs.BTreeMap.{get};
    ghost use Rattle.fb_index.specs.Entry.{Occurrence};
    ghost use Rattle.fb_index.specs.Index.{index_cmp};
    ghost use Rattle.fb_book.specs.declared.call.Call.{Call as CallOf};
    ghost use Rattle.fb_book.specs.Calls.{place_of};

    ghost Value = { List CallOf };

    ghost view = { λ c. c.list.items };

    ghost invariant = { λ c. (index : List Occurrence) → get index_cmp c.places index ≡ place_of index c.list.items };
}

impl Calls {
    fn new(alloc: Global) -> Calls
        ensures { result ≡ [] }
    {
        Calls {
            list: Vec::new(alloc),
            places: BTreeMap::new(alloc),
        }
    }

    /// The calls in their order.
    pub fn as_slice(&self) -> &[Call]
        ensures { result.now ≡ self.now }
    {
        self.list.as_slice()
    }

    /// Where the first call at this index stands. It is found by the order of indexes.
    pub fn place_of(&self, index: &Index) -> Result<Option<usize>, AllocError>
        ensures { IfOk result (λ place. place ≡ place_of index.now self.now) }
    {
        let key = Key {
            index: index.copy()?,
        };
        Ok(self.places.get(&key).copied())
    }

    /// One call more.
    fn with(self, call: Call) -> Result<Calls, AllocError>
        ensures { IfOk result (λ more. more ≡ self ++ call ∷ []) }
    {
        let known = self.place_of(&call.index)?.is_some();
        let Calls {
            mut list,
            mut places,
        } = self;
        let place = list.len();
        let key = Key {
            index: call.index.copy()?,
        };
        list.push(call)?;
        if !known {
            places.insert(key, place)?;
        }
        Ok(Calls { list, places })
    }

    /// This call more, where a service makes it: the test's own calls never fail.
    fn with_visit(self, visit: &Visit) -> Result<Calls, AllocError>
        ensures { IfOk result (λ more. more ≡ self ++ map called (between_services (visit.now ∷ []))) }
    {
        if 1 < visit.index.len() {
            let index = visit.index.copy()?;
            return self.with(Call {
                index,
                callee: visit.callee,
            });
        }
        Ok(self)
    }

    /// The calls at which a plan is extended, by the calls of its run.
    pub fn of(alloc: Global, plan: &Plan, visits: &[Visit]) -> Result<Calls, AllocError>
        ensures { IfOk result (λ calls. calls ≡ calls_for plan.now visits.now) }
    {
        let mut calls = Calls::new(alloc);
        for visit in begun_after_plan(visits, plan) {
            calls = calls.with_visit(visit)?;
        }
        Ok(calls)
    }
}

/// Whether the call is at this index.
fn is_at(call: &Visit, index: &Index) -> bool
    ensures { result ≡ same_index call.now.index index.now }
{
    call.index.same(index)
}

/// The calls that begin after the one at this index.
fn begun_after<'a>(calls: &'a [Visit], index: &Index) -> &'a [Visit]
    ensures { result.now ≡ begun_after index.now calls.now }
{
    let mut left = calls;
    while let [call, rest @ ..] = left {
        if is_at(call, index) {
            return rest;
        }
        left = rest;
    }
    left
}

/// The calls that begin after the plan's last fault.
fn begun_after_plan<'a>(calls: &'a [Visit], plan: &Plan) -> &'a [Visit]
    ensures { result.now ≡ begun_after_plan plan.now calls.now }
{
    match plan.last() {
        Some((index, _)) => begun_after(calls, index),
        None => calls,
    }
}
