//! Tests over trees written by hand.
ghost use Rattle.std.specs.Prelude.{◌≡◌};

use fb_base::{Code, List, MethodId, Reply, Value};
use fb_index::Entry;
use fb_tree::*;
use std::alloc::{AllocError, Global};
use std::rc::Rc;
use std::test::Fail;

const FIRST: Entry = Entry { site: 1, count: 1 };

const AGAIN: Entry = Entry { site: 1, count: 2 };

const SECOND: Entry = Entry { site: 2, count: 1 };

/// An invocation without arguments that gives an int.
fn ran(
    alloc: Global,
    method: u32,
    calls: Vec<Made>,
    reply: i64,
    steps: u64,
) -> Result<How, AllocError> {
    let node = Node {
        method: MethodId(method),
        args: List::new(alloc),
        calls,
        reply: Reply::Ok(Value::Int(reply)),
        steps,
    };
    Ok(How::Ran(Rc::new(alloc, node)?))
}

/// A call without arguments.
fn call(alloc: Global, entry: Entry, callee: u32, how: How, reply: Reply) -> Made {
    Made {
        entry,
        callee: MethodId(callee),
        args: List::new(alloc),
        how,
        reply,
    }
}

fn asked(alloc: Global, entry: Entry, callee: u32, reply: Reply) -> Asked {
    Asked {
        entry,
        callee: MethodId(callee),
        args: List::new(alloc),
        reply,
    }
}

fn int(n: i64) -> Reply {
    Reply::Ok(Value::Int(n))
}

/// A front that calls two services, each of which calls one more.
fn nested(alloc: Global) -> Result<TestNode, AllocError> {
    let d = ran(alloc, 3, Vec::new(alloc), 1, 1)?;
    let b = ran(
        alloc,
        1,
        vec![in alloc; call(alloc, FIRST, 3, d, int(1))]?,
        1,
        3,
    )?;
    let e = ran(alloc, 4, Vec::new(alloc), 1, 1)?;
    let c = ran(
        alloc,
        2,
        vec![in alloc; call(alloc, FIRST, 4, e, int(1))]?,
        1,
        3,
    )?;
    let calls = vec![in alloc;
        call(alloc, FIRST, 1, b, int(1)),
        call(alloc, SECOND, 2, c, int(1)),
    ]?;
    let front = ran(alloc, 0, calls, 2, 5)?;
    Ok(TestNode {
        calls: vec![in alloc; call(alloc, FIRST, 0, front, int(2))]?,
        outcome: Outcome::Passed,
        steps: 3,
    })
}

/// A shop that asks the price twice, since the first time was answered with a fault.
fn repeated(alloc: Global, code: Code) -> Result<TestNode, AllocError> {
    let price = ran(alloc, 0, Vec::new(alloc), 20, 1)?;
    let fault = call(alloc, FIRST, 0, How::Fault, Reply::Err(code));
    let calls = vec![in alloc; fault, call(alloc, AGAIN, 0, price, int(20))]?;
    let shop = ran(alloc, 1, calls, 20, 12)?;
    Ok(TestNode {
        calls: vec![in alloc; call(alloc, FIRST, 1, shop, int(20))]?,
        outcome: Outcome::Passed,
        steps: 3,
    })
}

/// Whether the walk comes to this call next.
fn comes(
    alloc: Global,
    walk: &mut Preorder,
    index: &str,
    callee: u32,
    fault: Option<Reply>,
) -> bool {
    let Some(Ok(visit)) = walk.next() else {
        return false;
    };
    let Ok(text) = visit.index.text(alloc) else {
        return false;
    };
    text.as_str() == index && visit.callee.0 == callee && visit.fault == fault
}

#[test]
fn calls_come_in_the_order_in_which_they_begin(rt: HostRuntime) -> Result<(), Fail> {
    let alloc = rt.alloc();
    let run = nested(alloc)?;
    let mut walk = Preorder::new(alloc, &run)?;
    assert!(rt; comes(alloc, &mut walk, "1.1", 0, None));
    assert!(rt; comes(alloc, &mut walk, "1.1/1.1", 1, None));
    assert!(rt; comes(alloc, &mut walk, "1.1/1.1/1.1", 3, None));
    assert!(rt; comes(alloc, &mut walk, "1.1/2.1", 2, None));
    assert!(rt; comes(alloc, &mut walk, "1.1/2.1/1.1", 4, None));
    assert!(rt; walk.next().is_none() && walk.next().is_none());
    Ok(())
}

#[test]
fn an_injected_call_shows_its_reply(rt: HostRuntime) -> Result<(), Fail> {
    let alloc = rt.alloc();
    let code = Code::read(b"unavailable")?;
    let run = repeated(alloc, code)?;
    let mut walk = Preorder::new(alloc, &run)?;
    assert!(rt; comes(alloc, &mut walk, "1.1", 1, None));
    assert!(rt; comes(alloc, &mut walk, "1.1/1.1", 0, Some(Reply::Err(code))));
    assert!(rt; comes(alloc, &mut walk, "1.1/1.2", 0, None));
    assert!(rt; walk.next().is_none());
    Ok(())
}

/// Whether the first call of a run ran, and has this record.
fn first_has_record(alloc: Global, run: &TestNode, wanted: &Record) -> Result<bool, AllocError> {
    let [made, ..] = run.calls.as_slice() else {
        return Ok(false);
    };
    let How::Ran(node) = &made.how else {
        return Ok(false);
    };
    let found = record_of(alloc, node)?;
    Ok(same_record(&found, wanted))
}

#[test]
fn records_have_the_direct_calls(rt: HostRuntime) -> Result<(), Fail> {
    let alloc = rt.alloc();
    let calls = vec![in alloc;
        asked(alloc, FIRST, 1, int(1)),
        asked(alloc, SECOND, 2, int(1)),
    ]?;
    let front = Record {
        method: MethodId(0),
        args: List::new(alloc),
        calls: List::of(calls),
        reply: int(2),
        steps: 5,
    };
    assert!(rt; first_has_record(alloc, &nested(alloc)?, &front)?);
    Ok(())
}

#[test]
fn records_tell_repeated_calls_apart(rt: HostRuntime) -> Result<(), Fail> {
    let alloc = rt.alloc();
    let code = Code::read(b"unavailable")?;
    let run = repeated(alloc, code)?;
    for (entry, same) in [(AGAIN, true), (FIRST, false)] {
        let fault = asked(alloc, FIRST, 0, Reply::Err(code));
        let calls = vec![in alloc; fault, asked(alloc, entry, 0, int(20))]?;
        let shop = Record {
            method: MethodId(1),
            args: List::new(alloc),
            calls: List::of(calls),
            reply: int(20),
            steps: 12,
        };
        assert_eq!(rt; first_has_record(alloc, &run, &shop)?, same);
    }
    Ok(())
}

#[test]
fn injected_calls_are_listed_in_order(rt: HostRuntime) -> Result<(), Fail> {
    let alloc = rt.alloc();
    let fault = call(alloc, FIRST, 4, How::Fault, int(7));
    let c = ran(alloc, 2, vec![in alloc; fault]?, 1, 3)?;
    let known = How::Known {
        steps: 9,
        injected: List::of(vec![in alloc; MethodId(3), MethodId(3)]?),
    };
    let calls = vec![in alloc;
        call(alloc, FIRST, 1, How::Fault, int(0)),
        call(alloc, SECOND, 2, c, int(1)),
        call(alloc, AGAIN, 1, known, int(1)),
    ]?;
    let front = Node {
        method: MethodId(0),
        args: List::new(alloc),
        calls,
        reply: int(2),
        steps: 5,
    };
    let injected = injected_of(alloc, &front)?;
    let wanted = [MethodId(1), MethodId(4), MethodId(3), MethodId(3)];
    assert!(rt; injected.as_slice() == wanted.as_slice());
    Ok(())
}
