ghost use Rattle.std.specs.Prelude.{◌≡◌, IfOk, string_bytes};
ghost use Rattle.fb_syntax.specs.Views.{view_services, view_test};
ghost use Rattle.fb_print.specs.Services.{services_text, test_text};

use crate::printer::Printer;
use fb_syntax::{Services, Test};
use std::alloc::{AllocError, Global};

/// The canonical text of services: two spaces a level, each statement on a line, one line end after the last brace.
///
/// The text of no services is empty.
pub fn print_services(alloc: Global, services: &Services) -> Result<String, AllocError>
    ensures { IfOk result (λ text. string_bytes text ≡ services_text (view_services services.now)) }
{
    let mut printer = Printer::new(alloc);
    printer.services(&services.list)?;
    Ok(printer.finish())
}

/// The canonical text of a test, laid out as that of services is.
pub fn print_test(alloc: Global, test: &Test) -> Result<String, AllocError>
    ensures { IfOk result (λ text. string_bytes text ≡ test_text (view_test test.now)) }
{
    let mut printer = Printer::new(alloc);
    printer.named("test ", &test.name)?;
    printer.block(0, &test.body)?;
    printer.line(0)?;
    Ok(printer.finish())
}
