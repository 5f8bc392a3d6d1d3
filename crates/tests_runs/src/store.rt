//! Tests of the store, over a record worked out by hand.

use fb_base::{Code, List, MethodId, Reply, Value};
use fb_index::Entry;
use fb_store::{Next, Store};
use fb_tree::{Asked, Record};
use std::alloc::{AllocError, Global};
use std::test::Fail;

const FRONT: MethodId = MethodId(0);

const FIRST: Entry = Entry { site: 1, count: 1 };

const SECOND: Entry = Entry { site: 2, count: 1 };

fn asked(alloc: Global, entry: Entry, callee: u32, reply: Reply) -> Asked {
    Asked {
        entry,
        callee: MethodId(callee),
        args: List::new(alloc),
        reply,
    }
}

/// A front that calls two services, of which the first fails.
fn front(alloc: Global, timeout: Code) -> Result<Record, AllocError> {
    let mut calls = List::new(alloc);
    calls.push(asked(alloc, FIRST, 1, Reply::Err(timeout)))?;
    calls.push(asked(alloc, SECOND, 2, Reply::Ok(Value::Int(1))))?;
    Ok(Record {
        method: FRONT,
        args: List::new(alloc),
        calls,
        reply: Reply::Ok(Value::Int(1)),
        steps: 6,
    })
}

/// Whether the next is a call of this method.
fn asks(next: Option<Next>, callee: u32) -> bool {
    match next {
        Some(Next::Call { asked }) => asked.callee.0 == callee,
        Some(Next::Done { .. }) => false,
        None => false,
    }
}

/// Whether the record with that number is at its end.
fn is_done(next: Option<Next>, number: u64) -> bool {
    match next {
        Some(Next::Call { .. }) => false,
        Some(Next::Done { id }) => id == number,
        None => false,
    }
}

#[test]
fn a_record_is_found_by_its_replies(rt: HostRuntime) -> Result<(), Fail> {
    let alloc = rt.alloc();
    let timeout = Code::read(b"timeout")?;
    let mut store = Store::new(alloc);
    let item = front(alloc, timeout)?;
    let number = store.add(item)?;
    assert!(rt; number == 0 && store.len() == 1);
    assert!(rt; store.item(0).is_some() && store.item(1).is_none());
    let first = [Reply::Err(timeout)];
    let both = [Reply::Err(timeout), Reply::Ok(Value::Int(1))];
    let other = [Reply::Ok(Value::Int(1))];
    assert!(rt; asks(store.next(FRONT, &[], &[]), 1));
    assert!(rt; asks(store.next(FRONT, &[], &first), 2));
    assert!(rt; is_done(store.next(FRONT, &[], &both), 0));
    assert!(rt; store.next(FRONT, &[], &other).is_none());
    assert!(rt; store.next(MethodId(1), &[], &[]).is_none());
    assert!(rt; store.next(FRONT, &[Value::Int(1)], &[]).is_none());
    Ok(())
}

/// Whether a walk by these replies comes to the end of that record.
fn walks(store: &Store, replies: &[Reply], number: u64) -> bool {
    let Some(mut cursor) = store.start(FRONT, &[]) else {
        return false;
    };
    for reply in replies {
        let Some(further) = cursor.take(reply) else {
            return false;
        };
        cursor = further;
    }
    is_done(Some(cursor.at()), number)
}

#[test]
fn a_walk_goes_on_by_replies(rt: HostRuntime) -> Result<(), Fail> {
    let alloc = rt.alloc();
    let timeout = Code::read(b"timeout")?;
    let mut store = Store::new(alloc);
    let item = front(alloc, timeout)?;
    store.add(item)?;
    let first = [Reply::Err(timeout)];
    let both = [Reply::Err(timeout), Reply::Ok(Value::Int(1))];
    assert!(rt; walks(&store, &both, 0));
    assert!(rt; !walks(&store, &first, 0));
    Ok(())
}
