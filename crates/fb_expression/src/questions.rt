ghost use Rattle.std.specs.Prelude.{◌≡◌};
ghost use Rattle.std.specs.List.{list_any};
ghost use Rattle.fb_expression.specs.Questions.{asks_for};

use fb_base::{MethodId, Name};
use fb_check::Program;
use std::collections::BTreeSet;

/// Whether a question about a service, or about one of its methods, asks for the method with this number.
fn is_asked_for(program: &Program, callee: u32, service: &Name, method: &Option<Name>) -> bool
    ensures { result ≡ asks_for program.now.tree service.now method.now callee }
{
    if program.count() <= callee {
        return false;
    }
    let name = program.name_of(MethodId(callee));
    if *service != name.service {
        return false;
    }
    match method {
        Some(method) => *method == name.method,
        None => true,
    }
}

/// Whether it asks for one of the methods with these numbers.
pub(crate) fn any_is_asked_for(
    callees: &BTreeSet<u32>,
    program: &Program,
    service: &Name,
    method: &Option<Name>,
) -> bool
    ensures { result ≡ list_any (asks_for program.now.tree service.now method.now) callees.now.keys }
{
    callees
        .iter()
        .any(|callee| is_asked_for(program, *callee, service, method))
}
