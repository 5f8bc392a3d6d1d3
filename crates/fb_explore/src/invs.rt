//! The inv lines of a run: one for each record that wasn't known before.
ghost use Rattle.std.specs.Prelude.{◌≡◌, ◌≤◌, ◌++◌, [], ◌∷◌, All, length, slice_get, IfOk, IfSome, OnOk};
ghost use Rattle.fb_tree.specs.Agreement.{RecordsAgree};
ghost use Rattle.fb_report.specs.Names.{IsRecordOf};
ghost use Rattle.fb_store.specs.Following.{number_of, with_record};
ghost use Rattle.fb_explore.specs.Puts.{HavePutLines, stop_of};
ghost use Rattle.fb_stitch.specs.Sources.{AreTrueOf};
ghost use Rattle.fb_explore.specs.Recording.{inv_lines, lines_at, lines_if_new, new_lines, numbers, with_records};

use crate::error::PutError;
use crate::lines::Lines;
use crate::put_line::put_line;
use fb_base::List;
use fb_check::Program;
use fb_meaning::true_records_agree;
use fb_report::{Line, name_record};
use fb_store::Store;
use fb_tree::Record;
use std::alloc::{AllocError, Global};
use std::collections::VecDeque;

/// Puts the line of the record with this number.
#[tactic(auto, unfolding(fb_report::specs::Ranges::IsInRange))]
fn put_inv<W: Lines>(
    alloc: Global,
    program: &Program,
    owner: u64,
    id: u64,
    item: &Record,
    lines: &mut W,
) -> Result<(), PutError>
    requires { IsRecordOf program.now.tree item.now }
    ensures put { HavePutLines (inv_lines program.now.tree owner id item.now) (stop_of result)
        (W.written lines.old) (W.faults lines.old) (W.written lines.new) (W.faults lines.new) }
    ensures rest { W.rest lines.new ≡ W.rest lines.old }
{
    let made = name_record(alloc, program, item)?;
    put_line(
        alloc,
        Line::Inv {
            id,
            plan: owner,
            made,
        },
        lines,
    )
}

/// Puts the line of the store's record with this number.
fn put_item<W: Lines>(
    alloc: Global,
    program: &Program,
    owner: u64,
    id: u64,
    store: &Store,
    lines: &mut W,
) -> Result<(), PutError>
    requires { IfSome (slice_get store.now id) (IsRecordOf program.now.tree) }
    ensures put { HavePutLines (lines_at program.now.tree owner store.now id) (stop_of result)
        (W.written lines.old) (W.faults lines.old) (W.written lines.new) (W.faults lines.new) }
    ensures rest { W.rest lines.new ≡ W.rest lines.old }
{
    match store.item(id) {
        Some(item) => put_inv(alloc, program, owner, id, item, lines),
        None => Ok(()),
    }
}

/// Adds a record to the store, and its number to the uses.
fn add_record(store: &mut Store, uses: &mut List<u64>, item: Record) -> Result<u64, AllocError>
    requires { All (RecordsAgree item) store.old }
    ensures number { IfOk result (λ id. id ≡ number_of store.old item) }
    ensures store { OnOk result (store.new ≡ with_record store.old item) }
    ensures uses { OnOk result (uses.new ≡ uses.old ++ number_of store.old item ∷ []) }
{
    let id = store.add(item)?;
    uses.push(id)?;
    Ok(id)
}

/// Adds a record and its number, and puts the record's line where it is new.
fn put_record<W: Lines>(
    alloc: Global,
    program: &Program,
    owner: u64,
    item: Record,
    store: &mut Store,
    uses: &mut List<u64>,
    lines: &mut W,
) -> Result<(), PutError>
    requires of_program { IsRecordOf program.now.tree item }
    requires agrees { All (RecordsAgree item) store.old }
    ensures put { HavePutLines (lines_if_new program.now.tree owner store.old item) (stop_of result)
        (W.written lines.old) (W.faults lines.old) (W.written lines.new) (W.faults lines.new) }
    ensures rest { W.rest lines.new ≡ W.rest lines.old }
    ensures store { OnOk result (store.new ≡ with_record store.old item) }
    ensures uses { OnOk result (uses.new ≡ uses.old ++ number_of store.old item ∷ []) }
{
    let known = store.len();
    let id = add_record(store, uses, item)?;
    if id < known {
        return Ok(());
    }
    put_item(alloc, program, owner, id, store, lines)
}

/// Adds the records, and puts a line for each that is new, with the number of the plan line that owns it.
///
/// Gives the number of each record.
pub(crate) fn put_records<W: Lines>(
    alloc: Global,
    program: &Program,
    owner: u64,
    records: VecDeque<Record>,
    store: &mut Store,
    lines: &mut W,
) -> Result<List<u64>, PutError>
    requires known { AreTrueOf program.now.tree store.old }
    requires records { AreTrueOf program.now.tree records.items }
    ensures put { HavePutLines (new_lines program.now.tree owner store.old records.items) (stop_of result)
        (W.written lines.old) (W.faults lines.old) (W.written lines.new) (W.faults lines.new) }
    ensures rest { W.rest lines.new ≡ W.rest lines.old }
    ensures uses { IfOk result (λ uses. uses ≡ numbers store.old records.items) }
    ensures store { OnOk result (store.new ≡ with_records store.old records.items) }
    ensures hold { OnOk result (AreTrueOf program.now.tree store.new) }
{
    true_records_agree();
    let mut uses = List::new(alloc);
    let mut left = records;
    while let Some(item) = left.pop_front() {
        put_record(alloc, program, owner, item, store, &mut uses, lines)?;
    }
    Ok(uses)
}
