//! Tests of stores with several records, each found by its replies.
use crate::agreeing::add_agreeing;
use crate::recorded::{Row, entry, record, replies, values};
use crate::tables::{APART, Case, IN_APART, IN_TEN, TEN, Wanted};
use fb_base::{Code, MethodId, Reply, Value};
use fb_store::{Next, Store};
use std::alloc::{AllocError, Global};
use std::test::Fail;

/// Adds a table's row. Gives whether it agreed, and got that number.
fn is_added(
    alloc: Global,
    code: Code,
    store: &mut Store,
    row: &Row,
    number: u64,
) -> Result<bool, AllocError> {
    let item = record(alloc, code, row)?;
    Ok(add_agreeing(store, item)? == Some(number))
}

/// The place in a table, of this length, at which the record with a number stands.
fn place(len: usize, backwards: bool, number: usize) -> usize {
    if backwards && number < len {
        return len - 1 - number;
    }
    number
}

/// The records of a table in its order or the other way round, none where one doesn't agree or gets another number
/// than the next.
fn filled(
    alloc: Global,
    code: Code,
    rows: &[Row],
    backwards: bool,
) -> Result<Option<Store>, AllocError> {
    let mut store = Store::new(alloc);
    for number in 0..rows.len() {
        let Some(row) = rows.get(place(rows.len(), backwards, number)) else {
            return Ok(None);
        };
        if !is_added(alloc, code, &mut store, row, number as u64)? {
            return Ok(None);
        }
    }
    Ok(Some(store))
}

/// Whether that follows, where the record of a place has this number.
fn follows(next: Option<Next<'_>>, wanted: &Wanted, number: u64) -> bool {
    match (next, wanted) {
        (Some(Next::Call { asked }), Wanted::Asks { at, callee }) => {
            asked.entry == entry(*at) && asked.callee.0 == *callee
        }
        (Some(Next::Done { id }), Wanted::Ends(_)) => id == number,
        (None, Wanted::Nothing) => true,
        _ => false,
    }
}

/// What a walk comes to.
fn walked<'a>(
    store: &'a Store,
    method: MethodId,
    args: &[Value],
    got: &[Reply],
) -> Option<Next<'a>> {
    let mut cursor = store.start(method, args)?;
    for reply in got {
        cursor = cursor.take(reply)?;
    }
    Some(cursor.at())
}

/// Whether a store of that many records gives what is wanted, at once and by a walk.
fn goes(
    alloc: Global,
    code: Code,
    store: &Store,
    case: &Case,
    backwards: bool,
) -> Result<bool, AllocError> {
    let (method, args) = (MethodId(case.method), values(alloc, case.args)?);
    let got = replies(alloc, code, case.got)?;
    let number = match &case.wanted {
        Wanted::Ends(at) => place(store.len() as usize, backwards, *at) as u64,
        _ => 0,
    };
    let next = store.next(method, args.as_slice(), got.as_slice());
    if !follows(next, &case.wanted, number) {
        return Ok(false);
    }
    let walked = walked(store, method, args.as_slice(), got.as_slice());
    Ok(follows(walked, &case.wanted, number))
}

/// The first case that goes otherwise, or all of them where the store isn't filled.
fn first_other(
    alloc: Global,
    code: Code,
    rows: &[Row],
    cases: &[Case],
    backwards: bool,
) -> Result<Option<usize>, AllocError> {
    let Some(store) = filled(alloc, code, rows, backwards)? else {
        return Ok(Some(cases.len()));
    };
    for (n, case) in cases.iter().enumerate() {
        if !goes(alloc, code, &store, case, backwards)? {
            return Ok(Some(n));
        }
    }
    Ok(None)
}

#[test]
fn ten_records_are_found_by_their_replies(rt: HostRuntime) -> Result<(), Fail> {
    let code = Code::read(b"timeout")?;
    let other = first_other(rt.alloc(), code, TEN, IN_TEN, false)?;
    assert!(rt; other.is_none(), "{other:?}");
    Ok(())
}

#[test]
fn the_order_in_which_they_come_only_numbers_them(rt: HostRuntime) -> Result<(), Fail> {
    let code = Code::read(b"timeout")?;
    let other = first_other(rt.alloc(), code, TEN, IN_TEN, true)?;
    assert!(rt; other.is_none(), "{other:?}");
    Ok(())
}

#[test]
fn methods_and_arguments_tell_records_apart(rt: HostRuntime) -> Result<(), Fail> {
    let code = Code::read(b"timeout")?;
    let other = first_other(rt.alloc(), code, APART, IN_APART, false)?;
    assert!(rt; other.is_none(), "{other:?}");
    let other = first_other(rt.alloc(), code, APART, IN_APART, true)?;
    assert!(rt; other.is_none(), "{other:?}");
    Ok(())
}

/// Whether each record of the table is known by its place when it comes again.
fn all_are_known(alloc: Global, code: Code, rows: &[Row]) -> Result<bool, AllocError> {
    let Some(mut store) = filled(alloc, code, rows, false)? else {
        return Ok(false);
    };
    for (n, row) in rows.iter().enumerate() {
        if !is_added(alloc, code, &mut store, row, n as u64)? {
            return Ok(false);
        }
    }
    Ok(store.len() == rows.len() as u64)
}

#[test]
fn a_known_record_keeps_its_number(rt: HostRuntime) -> Result<(), Fail> {
    let code = Code::read(b"timeout")?;
    assert!(rt; all_are_known(rt.alloc(), code, TEN)?);
    assert!(rt; all_are_known(rt.alloc(), code, APART)?);
    Ok(())
}

/// The first place whose record isn't the table's.
fn first_other_item(alloc: Global, code: Code, rows: &[Row]) -> Result<Option<usize>, AllocError> {
    let Some(store) = filled(alloc, code, rows, false)? else {
        return Ok(Some(0));
    };
    for (n, row) in rows.iter().enumerate() {
        let wanted = record(alloc, code, row)?;
        match store.item(n as u64) {
            Some(item) if *item == wanted => {}
            _ => return Ok(Some(n)),
        }
    }
    Ok(if store.item(rows.len() as u64).is_none() {
        None
    } else {
        Some(rows.len())
    })
}

#[test]
fn records_are_numbered_from_0(rt: HostRuntime) -> Result<(), Fail> {
    let code = Code::read(b"timeout")?;
    let other = first_other_item(rt.alloc(), code, TEN)?;
    assert!(rt; other.is_none(), "{other:?}");
    Ok(())
}
