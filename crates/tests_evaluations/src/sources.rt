//! Programs and tests of texts.

use fb_check::{CheckedTest, Program, check_services, check_test};
use fb_syntax::{parse_services, parse_test};
use std::alloc::Global;

/// A price, a cart that has one of its own where it gets none, and a shop that asks twice.
pub(crate) const SHOP: &str = "service price { method get(id: int) -> int { return id * 10; } }
service cart { method total(id: int) -> int {
  let p = 0;
  call p = price.get(id) on any { p = 5; }
  return p;
} }
service shop { method buy(id: int) -> int {
  let p = 0;
  repeat 2 {
    let ok = true;
    call p = price.get(id) on unavailable { ok = false; }
    if ok { return p; }
  }
  fail unavailable;
} }";

/// The services of a text, none where it is refused or there is no memory.
pub(crate) fn program(alloc: Global, text: &str) -> Option<Program> {
    if text.len() > 1_048_576 {
        return None;
    }
    let services = parse_services(alloc, text.as_bytes()).ok()?;
    check_services(alloc, services).ok()
}

/// A test of these services.
pub(crate) fn test(alloc: Global, program: &Program, text: &str) -> Option<CheckedTest> {
    if text.len() > 1_048_576 {
        return None;
    }
    let test = parse_test(alloc, text.as_bytes()).ok()?;
    check_test(alloc, program, test).ok()
}
