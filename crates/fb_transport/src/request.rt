ghost use Rattle.std.specs.Prelude.{◌≡◌, IfOk};
ghost use Rattle.fb_transport.specs.Requests.{request_of};

use fb_base::{List, MethodId, Value};
use fb_index::Index;
use std::alloc::{AllocError, Global};

/// A call that a transport was asked about.
#[derive(Drop)]
pub struct Request {
    pub at: Index,
    pub callee: MethodId,
    pub args: List<Value>,
}

impl Request {
    /// The request of a call, with arguments of its own.
    pub(crate) fn of(
        alloc: Global,
        at: &Index,
        callee: MethodId,
        args: &[Value],
    ) -> Result<Request, AllocError>
        ensures { IfOk result (λ request. request ≡ request_of at.now callee args.now) }
    {
        let args = copied(alloc, args)?;
        let at = at.copy()?;
        Ok(Request { at, callee, args })
    }
}

fn copied(alloc: Global, values: &[Value]) -> Result<List<Value>, AllocError>
    ensures { IfOk result (λ copies. copies ≡ values.now) }
{
    let mut copies = List::new(alloc);
    for value in values {
        copies.push(value.copy(alloc)?)?;
    }
    Ok(copies)
}
