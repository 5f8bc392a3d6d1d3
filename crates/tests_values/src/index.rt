//! Tests over texts, orders and long lists.
ghost use Rattle.std.specs.Prelude.{◌≡◌};

use fb_base::{Code, Reply, Value};
use fb_index::*;
use std::alloc::{AllocError, Global};
use std::cmp::Ordering;
use std::test::Fail;

/// Whether a text is read and written again, or refused behind that many bytes.
fn index_goes(alloc: Global, text: &str, refused: Option<u64>) -> bool {
    match Index::read_text(alloc, text.as_bytes()) {
        Ok(index) => refused.is_none() && is_text(index.text(alloc), text),
        Err(IndexError::BadIndex { offset }) => refused == Some(offset),
        Err(IndexError::Memory) => false,
    }
}

fn plan_goes(alloc: Global, text: &str, refused: Option<u64>) -> bool {
    match Plan::read_text(alloc, text.as_bytes()) {
        Ok(plan) => refused.is_none() && is_text(plan.text(alloc), text),
        Err(PlanError::BadPlan { offset }) => refused == Some(offset),
        Err(PlanError::Memory) => false,
    }
}

fn is_text(written: Result<String, AllocError>, text: &str) -> bool {
    match written {
        Ok(written) => written.as_str() == text,
        Err(_) => false,
    }
}

#[test]
fn indexes_are_read_and_written(rt: HostRuntime) {
    let alloc = rt.alloc();
    let cases = [
        ("", None),
        ("1.1", None),
        ("1.1/2.1", None),
        ("4294967295.4294967295/10.20", None),
        ("1", Some(1)),
        ("1.", Some(2)),
        ("1.0", Some(2)),
        ("1.01", Some(2)),
        ("0.1", Some(0)),
        ("01.1", Some(0)),
        ("/1.1", Some(0)),
        ("1.1/", Some(4)),
        ("1.1//1.1", Some(4)),
        ("1.1=", Some(3)),
        ("1.1,1.1", Some(3)),
        ("4294967296.1", Some(9)),
        ("42949672950.1", Some(10)),
        ("1.4294967296", Some(11)),
        ("none", Some(0)),
    ];
    for (text, refused) in cases {
        assert!(rt; index_goes(alloc, text, refused), "{text}");
    }
}

#[test]
fn plans_are_read_and_written(rt: HostRuntime) {
    let alloc = rt.alloc();
    let cases = [
        ("none", None),
        ("1.1=timeout", None),
        ("1.1/1.1=timeout,1.1/2.1=timeout", None),
        (
            "1.1=a23456789_123456789_123456789_123456789_123456789_123456789_1234",
            None,
        ),
        ("", Some(0)),
        ("1", Some(1)),
        ("1.", Some(2)),
        ("1.0", Some(2)),
        ("01.1", Some(0)),
        ("1.1", Some(3)),
        ("1.1/", Some(4)),
        ("1.1=", Some(4)),
        ("1.1=Timeout", Some(4)),
        ("1.1=timeouT", Some(10)),
        ("1.1=timeout,", Some(12)),
        ("1.1=timeout,none", Some(12)),
        ("1.1,", Some(3)),
        ("=timeout", Some(0)),
        ("4294967296.1", Some(9)),
        (
            "1.1=a23456789_123456789_123456789_123456789_123456789_123456789_12345",
            Some(68),
        ),
        ("n", Some(1)),
        ("non", Some(3)),
        ("name", Some(1)),
        ("none,", Some(4)),
        ("none,1.1=timeout", Some(4)),
    ];
    for (text, refused) in cases {
        assert!(rt; plan_goes(alloc, text, refused), "{text}");
    }
}

#[test]
fn values_are_read_and_written(rt: HostRuntime) {
    let alloc = rt.alloc();
    let cases = [
        "1.1=ok:0",
        "1.1=ok:-1",
        "1.1=ok:9223372036854775807",
        "1.1=ok:-9223372036854775808",
        "1.1=ok:true",
        "1.1=ok:false",
        "1.1=ok:x",
        "1.1=ok:x61c3a92c3b",
        "1.1=ok:[]",
        "1.1=ok:[0;-1;10]",
        "1.1=ok:[true;false]",
        "1.1=ok:[x;x61]",
        "1.1=ok",
        "1.1/1.1=ok:7,1.1/2.1=timeout,2.1=ok:[1;2],2.1=ok:x61",
    ];
    for text in cases {
        assert!(rt; plan_goes(alloc, text, None), "{text}");
    }
}

#[test]
fn what_is_no_value_is_refused(rt: HostRuntime) {
    let alloc = rt.alloc();
    let cases = [
        ("1.1/1.1=ok:07", 11),
        ("1.1=ok:", 7),
        ("1.1=ok:-0", 7),
        ("1.1=ok:+1", 7),
        ("1.1=ok:9223372036854775808", 7),
        ("1.1=ok:-9223372036854775809", 7),
        ("1.1=ok:tru", 7),
        ("1.1=ok:x6", 7),
        ("1.1=ok:x6C", 7),
        ("1.1=ok:xff", 7),
        ("1.1=ok:[", 7),
        ("1.1=ok:[1;]", 7),
        ("1.1=ok:[1;true]", 7),
        ("1.1=ok:[[]]", 7),
        ("1.1=ok:[1,2]", 7),
        ("1.1=ok:7=8", 7),
        ("1.1=ok:,2.1", 7),
        ("1.1=ok:7,2.1=ok:tru,0", 16),
        ("1.1=ok:7,", 9),
        ("1.1=ok:7,2.1", 12),
        ("1.1=ok:7,none", 9),
        ("1.1=okay:7", 8),
        ("01.1=ok:07", 0),
    ];
    for (text, refused) in cases {
        assert!(rt; plan_goes(alloc, text, Some(refused)), "{text}");
    }
}

#[test]
fn values_weigh_at_most_65_536(rt: HostRuntime) -> Result<(), Fail> {
    let alloc = rt.alloc();
    let text = format!(in alloc; "1.1=ok:x{}", "61".repeat(alloc, 65_535)?)?;
    assert!(rt; plan_goes(alloc, text.as_str(), None));
    let heavy = format!(in alloc; "{text}61")?;
    assert!(rt; plan_goes(alloc, heavy.as_str(), Some(7)));
    let items = format!(in alloc; "1.1=ok:[1{}", ";1".repeat(alloc, 65_534)?)?;
    assert!(rt; plan_goes(alloc, format!(in alloc; "{items}]")?.as_str(), None));
    assert!(rt; plan_goes(alloc, format!(in alloc; "{items};1]")?.as_str(), Some(7)));
    Ok(())
}

fn compared(alloc: Global, front: &str, back: &str) -> Result<Ordering, IndexError> {
    let front = Index::read_text(alloc, front.as_bytes())?;
    let back = Index::read_text(alloc, back.as_bytes())?;
    Ok(front.cmp(&back))
}

#[test]
fn indexes_are_in_dictionary_order(rt: HostRuntime) -> Result<(), Fail> {
    let alloc = rt.alloc();
    let cases = [
        ("", "1.1"),
        ("1.1", "1.1/1.1"),
        ("1.1/9.9", "1.2"),
        ("1.9", "2.1"),
        ("1.9", "1.10"),
        ("1.1/1.1/1.1", "1.1/1.2"),
    ];
    for (front, back) in cases {
        assert_eq!(rt; compared(alloc, front, back)?, Ordering::Less, "{front}");
        assert_eq!(rt; compared(alloc, back, front)?, Ordering::Greater, "{front}");
        assert_eq!(rt; compared(alloc, back, back)?, Ordering::Equal, "{back}");
    }
    Ok(())
}

/// Whether a plan answers an index with this reply, and ends with a fault of that index.
fn plan_answers(alloc: Global, plan: &str, index: &str, reply: Option<&Reply>, last: &str) -> bool {
    let (Ok(plan), Ok(index)) = (
        Plan::read_text(alloc, plan.as_bytes()),
        Index::read_text(alloc, index.as_bytes()),
    ) else {
        return false;
    };
    let Some((end, _)) = plan.last() else {
        return false;
    };
    is_text(end.text(alloc), last) && plan.same(&plan) && plan.fault_at(&index) == reply
}

#[test]
fn the_first_fault_of_an_index_counts(rt: HostRuntime) -> Result<(), Fail> {
    let alloc = rt.alloc();
    let plan = "2.1=ok:7,2.1/1.3=lost,2.1=ok:8";
    let seven = Reply::Ok(Value::Int(7));
    let lost = Reply::Err(Code::read(b"lost")?);
    assert!(rt; plan_answers(alloc, plan, "2.1", Some(&seven), "2.1"));
    assert!(rt; plan_answers(alloc, plan, "2.1/1.3", Some(&lost), "2.1"));
    assert!(rt; plan_answers(alloc, plan, "2.2", None, "2.1"));
    Ok(())
}

/// As many entries as would overflow the stack, were they dropped one within another.
const LONG: u64 = 200_000;

fn long_index(alloc: Global) -> Result<Index, AllocError> {
    let mut index = Index::root();
    for _ in 0..LONG {
        index = index.child(alloc, Entry { site: 1, count: 1 })?;
    }
    Ok(index)
}

#[test]
fn long_indexes_and_plans_are_dropped(rt: HostRuntime) -> Result<(), Fail> {
    let alloc = rt.alloc();
    let index = long_index(alloc)?;
    let text = index.text(alloc)?;
    assert_eq!(rt; text.len(), 799_999);
    let again = Index::read_text(alloc, text.as_bytes())?;
    assert!(rt; again.same(&index) && again.cmp(&index) == Ordering::Equal && again.len() == LONG);
    let code = Code::read(b"a")?;
    let mut plan = Plan::empty();
    for _ in 0..LONG {
        plan = plan.with(alloc, index.copy()?, Reply::Err(code))?;
    }
    let copy = plan.copy()?;
    assert!(rt; plan.len() == LONG && copy.len() == LONG);
    Ok(())
}
