//! A store takes only records that agree with those it has: here that is tested before one is added.
ghost use Rattle.std.specs.Prelude.{◌≡◌, ◌&&◌, ◌==◌, All, IsTrue};
ghost use Rattle.fb_tree.specs.Agreement.{RecordsAgree};
ghost use Rattle.tests_runs.specs.Agreeing.{asks_alike, calls_agree, records_agree};

use fb_store::Store;
use fb_tree::{Asked, Record};
use std::alloc::AllocError;

#[tactic(auto, unfolding(crate::specs::Agreeing::asks_alike))]
fn asks_alike(a: &Asked, b: &Asked) -> bool
    ensures { result ≡ asks_alike a.now b.now }
{
    if a.entry.site != b.entry.site || a.entry.count != b.entry.count {
        return false;
    }
    a.callee.0 == b.callee.0 && a.args == b.args
}

/// Whether both ask the same as long as they get the same, and where both end so, `holds`.
#[tactic(auto, unfolding(crate::specs::Agreeing::calls_agree))]
fn calls_agree(a: &[Asked], b: &[Asked], holds: bool) -> bool
    ensures { result ≡ calls_agree holds a.now b.now }
{
    let mut left = a;
    let mut other = b;
    while let [asked, rest @ ..] = left {
        let [second, more @ ..] = other else {
            return false;
        };
        if !asks_alike(asked, second) {
            return false;
        }
        if !asked.reply.same(&second.reply) {
            return true;
        }
        left = rest;
        other = more;
    }
    other.is_empty() && holds
}

#[tactic(auto, unfolding(crate::specs::Agreeing::records_agree))]
pub fn records_agree(a: &Record, b: &Record) -> bool
    ensures { result ≡ records_agree a.now b.now }
{
    if a.method.0 != b.method.0 || a.args != b.args {
        return true;
    }
    let alike = a.reply.same(&b.reply) && a.steps == b.steps;
    calls_agree(a.calls.as_slice(), b.calls.as_slice(), alike)
}

fn agrees_with_all(store: &Store, item: &Record) -> bool
    ensures { IsTrue result → All (RecordsAgree item.now) store.now }
{
    for id in 0..store.len() {
        let Some(known) = store.item(id) else {
            return false;
        };
        if !records_agree(item, known) {
            return false;
        }
    }
    true
}

/// Adds a record, and gives its number, none where it doesn't agree.
pub fn add_agreeing(store: &mut Store, item: Record) -> Result<Option<u64>, AllocError> {
    if !agrees_with_all(store, &item) {
        return Ok(None);
    }
    Ok(Some(store.add(item)?))
}
