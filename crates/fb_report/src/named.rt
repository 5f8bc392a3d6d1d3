//! Records whose methods have names, as lines hold them.
ghost use Rattle.std.specs.Prelude.{◌≡◌, All, IfOk, Some};
ghost use Rattle.fb_base.specs.Values.{IsProper};
ghost use Rattle.fb_report.specs.Names.{IsMethodOf, IsRecordOf, each_of, named_asked, named_record, asked_named, record_named};
ghost use Rattle.fb_report.specs.Ranges.{IsMethodName, IsProperCall, IsProperRecord};

use fb_base::{List, MethodId, MethodName, Reply, Value};
use fb_check::Program;
use fb_index::Entry;
use fb_tree::{Asked, Record};
use std::alloc::{AllocError, Global};

/// A request that a body made, and its reply.
#[derive(Drop)]
pub struct NamedAsked {
    pub entry: Entry,
    pub callee: MethodName,
    pub args: List<Value>,
    pub reply: Reply,
}

/// What is recorded of an invocation.
#[derive(Drop)]
pub struct NamedRecord {
    pub method: MethodName,
    pub args: List<Value>,
    /// The first one first.
    pub calls: List<NamedAsked>,
    pub reply: Reply,
    /// The units of fuel of its own body.
    pub steps: u64,
}

impl NamedAsked {
    /// What holds of each that a program has.
    fn proper(&self)
        ensures { IsProperCall self.now }
    {
        self.entry.proper();
        proper_name(&self.callee);
        proper_values(self.args.as_slice());
        self.reply.proper();
    }
}

impl NamedRecord {
    /// What holds of each that a program has.
    pub(crate) fn proper(&self)
        ensures { IsProperRecord self.now }
    {
        proper_name(&self.method);
        proper_values(self.args.as_slice());
        proper_calls(self.calls.as_slice());
        self.reply.proper();
        let _steps = self.steps;
    }
}

fn proper_name(name: &MethodName)
    ensures { IsMethodName name.now }
{
    let _service = name.service.bytes();
    let _method = name.method.bytes();
}

fn proper_values(values: &[Value])
    ensures { All IsProper values.now }
{
    for value in values {
        value.proper();
    }
}

fn proper_calls(calls: &[NamedAsked])
    ensures { All IsProperCall calls.now }
{
    for asked in calls {
        asked.proper();
    }
}

/// The record with the names of its methods.
pub fn name_record(
    alloc: Global,
    program: &Program,
    item: &Record,
) -> Result<NamedRecord, AllocError>
    requires { IsRecordOf program.now.tree item.now }
    ensures { IfOk result (λ named. named_record program.now.tree item.now ≡ Some named) }
{
    let args = item.args.copy(alloc)?;
    let calls = named_calls(alloc, program, item.calls.as_slice())?;
    let reply = item.reply.copy(alloc)?;
    Ok(NamedRecord {
        method: program.name_of(item.method),
        args,
        calls,
        reply,
        steps: item.steps,
    })
}

fn named_calls(
    alloc: Global,
    program: &Program,
    calls: &[Asked],
) -> Result<List<NamedAsked>, AllocError>
    requires { All (λ asked. IsMethodOf program.now.tree asked.callee) calls.now }
    ensures { IfOk result (λ named. each_of (named_asked program.now.tree) calls.now ≡ Some named) }
{
    let mut named = List::new(alloc);
    let mut left = calls;
    while let [asked, rest @ ..] = left {
        named.push(named_call(alloc, program, asked)?)?;
        left = rest;
    }
    Ok(named)
}

fn named_call(alloc: Global, program: &Program, asked: &Asked) -> Result<NamedAsked, AllocError>
    requires { IsMethodOf program.now.tree asked.now.callee }
    ensures { IfOk result (λ named. named_asked program.now.tree asked.now ≡ Some named) }
{
    Ok(NamedAsked {
        entry: asked.entry,
        callee: program.name_of(asked.callee),
        args: asked.args.copy(alloc)?,
        reply: asked.reply.copy(alloc)?,
    })
}

/// The record by the numbers of its methods, none exactly where a named method isn't the program's.
pub fn find_record(
    alloc: Global,
    program: &Program,
    named: &NamedRecord,
) -> Result<Option<Record>, AllocError>
    ensures { IfOk result (λ item. item ≡ record_named program.now.tree named.now) }
{
    let Some(method) = program.method_named(&named.method.service, &named.method.method) else {
        return Ok(None);
    };
    let Some(calls) = found_calls(alloc, program, named.calls.as_slice())? else {
        return Ok(None);
    };
    Ok(Some(Record {
        method,
        args: named.args.copy(alloc)?,
        calls,
        reply: named.reply.copy(alloc)?,
        steps: named.steps,
    }))
}

fn found_calls(
    alloc: Global,
    program: &Program,
    calls: &[NamedAsked],
) -> Result<Option<List<Asked>>, AllocError>
    ensures { IfOk result (λ found. found ≡ each_of (asked_named program.now.tree) calls.now) }
{
    let mut found = List::new(alloc);
    let mut left = calls;
    while let [named, rest @ ..] = left {
        let Some(asked) = found_call(alloc, program, named)? else {
            return Ok(None);
        };
        found.push(asked)?;
        left = rest;
    }
    Ok(Some(found))
}

fn found_call(
    alloc: Global,
    program: &Program,
    named: &NamedAsked,
) -> Result<Option<Asked>, AllocError>
    ensures { IfOk result (λ asked. asked ≡ asked_named program.now.tree named.now) }
{
    let Some(callee) = program.method_named(&named.callee.service, &named.callee.method) else {
        return Ok(None);
    };
    Ok(Some(Asked {
        entry: named.entry,
        callee,
        args: named.args.copy(alloc)?,
        reply: named.reply.copy(alloc)?,
    }))
}
