//! Tests over decisions written by hand.
ghost use Rattle.std.specs.Prelude.{◌≡◌};

use fb_base::{Code, Kind, MethodId, Reply, Value};
use fb_index::{Entry, Index, IndexError, Plan};
use fb_transport::*;
use std::alloc::{AllocError, Global};
use std::test::Fail;

const KINDS: [Kind; 2] = [Kind::Int, Kind::Int];

fn int(n: i64) -> Reply {
    Reply::Ok(Value::Int(n))
}

/// What a transport answers at an index.
fn asks<T: Transport>(
    alloc: Global,
    transport: &mut T,
    at: &str,
    callee: u32,
) -> Result<Decision, Halt> {
    match Index::read_text(alloc, at.as_bytes()) {
        Ok(index) => transport.begin(alloc, &index, MethodId(callee), &[]),
        Err(_) => Err(Halt::Memory),
    }
}

/// Whether a call is answered with this fault, or forwarded where none is wanted.
fn injects(answer: Result<Decision, Halt>, wanted: Option<Reply>) -> bool {
    match (answer, wanted) {
        (Ok(Decision::Fault(reply)), Some(wanted)) => reply.same(&wanted),
        (Ok(Decision::Forward), None) => true,
        _ => false,
    }
}

fn knows(answer: Result<Decision, Halt>, wanted: Reply) -> bool {
    match answer {
        Ok(
            Decision::Known {
                reply,
                steps,
                injected,
            },
        ) => reply.same(&wanted) && steps == 0 && injected.is_empty(),
        _ => false,
    }
}

/// A plan of one fault, or of two at one index.
fn plan(alloc: Global, at: &str, first: Reply, second: Option<Reply>) -> Result<Plan, IndexError> {
    let index = Index::read_text(alloc, at.as_bytes())?;
    let plan = Plan::empty().with(alloc, index.copy()?, first)?;
    match second {
        None => Ok(plan),
        Some(second) => Ok(plan.with(alloc, index, second)?),
    }
}

#[test]
fn a_fault_is_injected_at_its_index_alone(rt: HostRuntime) -> Result<(), Fail> {
    let alloc = rt.alloc();
    let unavailable = Code::read(b"unavailable")?;
    let fault = plan(alloc, "1.1/1.1", Reply::Err(unavailable), Some(int(3)))?;
    let mut transport = Injecting::new(&KINDS, fault);
    assert!(rt; injects(asks(alloc, &mut transport, "1.1", 1), None));
    assert!(rt;
        injects(
            asks(alloc, &mut transport, "1.1/1.1", 0),
            Some(Reply::Err(unavailable))
        )
    );
    assert!(rt; injects(asks(alloc, &mut transport, "1.1/1.2", 0), None));
    assert!(rt; injects(asks(alloc, &mut transport, "1.1/1.1", 2), None));
    Ok(())
}

#[test]
fn what_cannot_be_injected_is_forwarded(rt: HostRuntime) -> Result<(), Fail> {
    let alloc = rt.alloc();
    let of_the_test = plan(alloc, "1.1", int(3), None)?;
    let mut transport = Injecting::new(&KINDS, of_the_test);
    assert!(rt; injects(asks(alloc, &mut transport, "1.1", 1), None));
    let of_another_kind = plan(alloc, "1.1/1.1", Reply::Ok(Value::Bool(true)), Some(int(3)))?;
    let mut transport = Injecting::new(&KINDS, of_another_kind);
    assert!(rt; injects(asks(alloc, &mut transport, "1.1/1.1", 0), None));
    Ok(())
}

fn script(alloc: Global) -> Result<Scripted, AllocError> {
    let first = Entry { site: 1, count: 1 };
    let second = Entry { site: 2, count: 1 };
    let replies = vec![in alloc; (first, int(5)), (second, int(7)), (first, int(6))]?;
    Scripted::new(alloc, replies)
}

/// Whether a script wants this call of method 0.
fn wants(alloc: Global, script: &Scripted, at: &str) -> bool {
    match script.wanted() {
        None => false,
        Some(request) => is_at(alloc, request, at),
    }
}

fn is_at(alloc: Global, request: &Request, at: &str) -> bool {
    match request.at.text(alloc) {
        Ok(text) => text.as_str() == at && request.callee.0 == 0 && request.args.is_empty(),
        Err(_) => false,
    }
}

#[test]
fn a_script_answers_by_the_last_entry(rt: HostRuntime) -> Result<(), Fail> {
    let alloc = rt.alloc();
    let mut script = script(alloc)?;
    assert!(rt; knows(asks(alloc, &mut script, "1.1", 0), int(5)));
    assert!(rt; knows(asks(alloc, &mut script, "1.1/2.1", 1), int(7)));
    assert!(rt; script.wanted().is_none());
    assert!(rt; matches!(asks(alloc, &mut script, "2.2", 0), Err(Halt::Missing)));
    assert!(rt; wants(alloc, &script, "2.2"));
    assert!(rt; matches!(asks(alloc, &mut script, "", 0), Err(Halt::Missing)));
    assert!(rt; wants(alloc, &script, ""));
    Ok(())
}

#[test]
fn each_request_is_traced(rt: HostRuntime) -> Result<(), Fail> {
    let alloc = rt.alloc();
    let mut tracing = Tracing::new(alloc, script(alloc)?);
    assert!(rt; knows(asks(alloc, &mut tracing, "1.1", 0), int(5)));
    assert!(rt; matches!(asks(alloc, &mut tracing, "3.1", 0), Err(Halt::Missing)));
    let [first, second] = tracing.requests() else {
        assert!(rt; false);
        return Ok(());
    };
    assert!(rt; is_at(alloc, first, "1.1") && is_at(alloc, second, "3.1"));
    Ok(())
}
