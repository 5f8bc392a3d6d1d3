//! Tests of a store with a thousand records of one method.
use crate::agreeing::add_agreeing;
use fb_base::{List, MethodId, Reply, Value};
use fb_index::Entry;
use fb_store::{Next, Store};
use fb_tree::{Asked, Record};
use std::alloc::{AllocError, Global};
use std::test::Fail;

const ARGUMENTS: u32 = 200;

const REPLIES: u32 = 5;

fn int(n: u32) -> Value {
    Value::Int(i64::from(n))
}

/// An invocation on an int that makes one call and gives what it got.
fn invocation(alloc: Global, argument: u32, got: u32) -> Result<Record, AllocError> {
    let asked = Asked {
        entry: Entry { site: 1, count: 1 },
        callee: MethodId(1),
        args: List::new(alloc),
        reply: Reply::Ok(int(got)),
    };
    Ok(Record {
        method: MethodId(0),
        args: List::of(vec![in alloc; int(argument)]?),
        calls: List::of(vec![in alloc; asked]?),
        reply: Reply::Ok(int(got)),
        steps: 3,
    })
}

/// Adds the invocations on an int. Gives whether all agreed.
fn add_all(alloc: Global, store: &mut Store, argument: u32) -> Result<bool, AllocError> {
    for got in 0..REPLIES {
        let item = invocation(alloc, argument, got)?;
        if add_agreeing(store, item)?.is_none() {
            return Ok(false);
        }
    }
    Ok(true)
}

fn thousand(alloc: Global) -> Result<Option<Store>, AllocError> {
    let mut store = Store::new(alloc);
    for argument in 0..ARGUMENTS {
        if !add_all(alloc, &mut store, argument)? {
            return Ok(None);
        }
    }
    Ok(Some(store))
}

/// The number of the record that is at its end, if one is.
fn done(next: Option<Next<'_>>) -> Option<u64> {
    match next {
        Some(Next::Done { id }) => Some(id),
        _ => None,
    }
}

/// The number of the invocation on an int that got this.
fn number(store: &Store, argument: u32, got: u32) -> Option<u64> {
    done(store.next(MethodId(0), &[int(argument)], &[Reply::Ok(int(got))]))
}

/// Whether it has the number that the order of adding gives it.
fn is_found(store: &Store, argument: u32, got: u32) -> bool {
    let wanted = u64::from(argument) * u64::from(REPLIES) + u64::from(got);
    number(store, argument, got) == Some(wanted)
}

/// The first int of whose invocations one isn't found.
fn first_lost(store: &Store) -> Option<u32> {
    for argument in 0..ARGUMENTS {
        if !(0..REPLIES).all(|got| is_found(store, argument, got)) {
            return Some(argument);
        }
    }
    None
}

#[test]
fn each_of_a_thousand_records_is_found(rt: HostRuntime) -> Result<(), Fail> {
    let Some(store) = thousand(rt.alloc())? else {
        return Err(Fail::new("a record doesn't agree"));
    };
    assert_eq!(rt; store.len(), 1000);
    assert_eq!(rt; first_lost(&store), None);
    assert_eq!(rt; number(&store, 200, 0), None);
    assert_eq!(rt; number(&store, 0, 5), None);
    Ok(())
}
