//! Rows of owners: marking what a run line owns, and finding the first row that breaks a rule.
ghost use Rattle.std.specs.Prelude.{◌≡◌, ◌+◌, List, [], fold, set, true, if◌then◌else◌, slice_get, length, IfOk};
ghost use Rattle.fb_tally.specs.Owning.{owned_by, own, is_owner_below, are_earlier, first_not_owned, mark, marks_of, owns_some, first_without_record};

use crate::rows::{PlanRow, RecordRow};
use std::alloc::{AllocError, Global};

fn owned_by(row: RecordRow, number: u64) -> RecordRow
    ensures { result ≡ owned_by number row }
{
    RecordRow {
        at: row.at,
        owner: row.owner,
        owned: row.owned || row.owner == number,
    }
}

fn own(records: &mut [RecordRow], number: u64, place: u64)
    ensures { records.new ≡ own number records.old place }
{
    let place = place as usize;
    if place < records.len() {
        records[place] = owned_by(records[place], number);
    }
}

/// The run line with this number owns, of the records that it uses, those that name it.
fn own_all(records: &mut [RecordRow], number: u64, uses: &[u64])
    ensures { records.new ≡ fold (own number) records.old uses.now }
{
    for place in uses {
        own(records, number, *place);
    }
}

pub fn own_by_line(records: &mut [RecordRow], number: u64, run: bool, uses: &[u64])
    ensures { records.new ≡ fold (own number) records.old (if run then uses.now else []) }
{
    if run {
        own_all(records, number, uses);
    }
}

fn is_earlier(records: &[RecordRow], count: u64, place: u64) -> bool
    ensures { result ≡ is_owner_below count (slice_get records.now place) }
{
    match records.get(place as usize) {
        Some(row) => row.owner < count,
        None => true,
    }
}

/// Whether each of these records names one of so many plan lines. Of a place without a record it is true.
pub fn are_earlier(records: &[RecordRow], count: u64, uses: &[u64]) -> bool
    ensures { result ≡ are_earlier records.now count uses.now }
{
    let mut left = uses;
    while let [place, rest @ ..] = left {
        if !is_earlier(records, count, *place) {
            return false;
        }
        left = rest;
    }
    true
}

/// The place of the first record that isn't owned.
pub fn first_not_owned(records: &[RecordRow]) -> Option<u64>
    ensures { result ≡ first_not_owned records.now }
{
    let mut left = records;
    while let [row, rest @ ..] = left {
        if !row.owned {
            return Some(row.at);
        }
        left = rest;
    }
    None
}

fn mark(marks: &mut [bool], row: &RecordRow)
    ensures { marks.new ≡ mark marks.old row.now }
{
    let owner = row.owner as usize;
    if owner < marks.len() {
        marks[owner] = true;
    }
}

fn mark_all(marks: &mut [bool], records: &[RecordRow])
    ensures { marks.new ≡ fold mark marks.old records.now }
{
    for row in records {
        mark(marks, row);
    }
}

/// Of each plan line whether a record names it.
fn marks_of(alloc: Global, count: usize, records: &[RecordRow]) -> Result<Vec<bool>, AllocError>
    ensures { IfOk result (λ marks. marks.items ≡ marks_of count records.now) }
{
    let mut marks = vec![in alloc; false; count]?;
    mark_all(&mut marks, records);
    Ok(marks)
}

fn owns_some(marks: &[bool], number: usize, row: &PlanRow) -> bool
    ensures { result ≡ owns_some marks.now number row.now }
{
    if number == 0 || !row.run {
        return true;
    }
    if number < marks.len() {
        return marks[number];
    }
    false
}

fn first_unmarked(marks: &[bool], plans: &[PlanRow]) -> Option<u64>
    ensures { result ≡ first_without_record marks.now 0 plans.now }
{
    let mut number = 0;
    let mut left = plans;
    while let [row, rest @ ..] = left {
        if !owns_some(marks, number, row) {
            return Some(row.at);
        }
        left = rest;
        number += 1;
    }
    None
}

/// The place of the first run line behind the first plan line that no record names.
pub fn first_without_record(
    alloc: Global,
    records: &[RecordRow],
    plans: &[PlanRow],
) -> Result<Option<u64>, AllocError>
    ensures { IfOk result (λ found. found ≡ first_without_record (marks_of (length plans.now) records.now) 0 plans.now) }
{
    let marks = marks_of(alloc, plans.len(), records)?;
    Ok(first_unmarked(&marks, plans))
}
