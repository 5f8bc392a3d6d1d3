//! Programs and tests of texts.
ghost use Rattle.std.specs.Prelude.{◌≡◌, IfSome};

use fb_check::{CheckedTest, Program, check_services, check_test};
use fb_syntax::{parse_services, parse_test};
use std::alloc::Global;

/// The services of a text, none where it is refused or there is no memory.
pub(crate) fn program(alloc: Global, text: &str) -> Option<Program> {
    if text.len() > 1_048_576 {
        return None;
    }
    let services = parse_services(alloc, text.as_bytes()).ok()?;
    check_services(alloc, services).ok()
}

/// A test of these services.
pub(crate) fn test(alloc: Global, program: &Program, text: &str) -> Option<CheckedTest>
    ensures { IfSome result (λ test. test.services ≡ program.now.tree) }
{
    if text.len() > 1_048_576 {
        return None;
    }
    let test = parse_test(alloc, text.as_bytes()).ok()?;
    check_test(alloc, program, test).ok()
}
