//! Services, tests and fault files that reports are checked against.
ghost use Rattle.std.specs.Prelude.{◌≡◌, IfSome};
ghost use Rattle.std.specs.Coded.{Coded-set};
ghost use Rattle.fb_check.specs.Programs.{kinds_given};
ghost use Rattle.fb_syntax.specs.TreeCodes.{coded_services};

use fb_check::{CheckedTest, Program, check_services, check_test};
use fb_config::{Faults, read_faults};
use fb_syntax::{parse_services, parse_test};
use std::alloc::Global;

/// The texts of services, a test of them and a fault file.
pub(crate) struct Texts {
    pub(crate) services: &'static str,
    pub(crate) test: &'static str,
    pub(crate) faults: &'static str,
}

/// What reports are checked against.
#[derive(Drop)]
pub(crate) struct Sources {
    pub(crate) program: Program,
    pub(crate) test: CheckedTest,
    pub(crate) faults: Faults,
    ghost made: { test.services ≡ program.tree } by { Coded-set coded_services test.services program.tree },
    ghost kinds: { faults.kinds ≡ kinds_given program.tree },
}

/// A price, and a cart that has one of its own where it gets none.
const CART_SERVICES: &str = "service price { method get(id: int) -> int { return id * 10; } }
service cart { method total(id: int) -> int {
  let p = 0;
  call p = price.get(id) on any { p = 5; }
  return p;
} }";

const CART_TEST: &str =
    "test cart { let r = 0; call r = cart.total(2); assert r == 20 or injected; }";

/// The price isn't had in time.
const TIMEOUT: &str = "[[fault]]\ncallee = \"price\"\ncodes = [\"timeout\"]\n";

pub(crate) const CART: Texts = Texts {
    services: CART_SERVICES,
    test: CART_TEST,
    faults: TIMEOUT,
};

/// The price isn't had in time, or not at all.
pub(crate) const TWO_CODES: Texts = Texts {
    services: CART_SERVICES,
    test: CART_TEST,
    faults: "[[fault]]\ncallee = \"price\"\ncodes = [\"timeout\", \"unavailable\"]\n",
};

/// The price isn't had in time, or it is another one, or the same.
pub(crate) const VALUES: Texts = Texts {
    services: CART_SERVICES,
    test: CART_TEST,
    faults: "version = 2\n\n[[fault]]\ncallee = \"price\"\ncodes = [\"timeout\"]\nvalues = [0, 20]\n",
};

pub(crate) const NO_FAULTS: Texts = Texts {
    services: CART_SERVICES,
    test: CART_TEST,
    faults: "",
};

/// A test without calls.
pub(crate) const NO_CALLS: Texts = Texts {
    services: CART_SERVICES,
    test: "test t { assert 1 + 1 == 2; }",
    faults: TIMEOUT,
};

/// A test that calls the cart twice, and ends where the first call was injected.
pub(crate) const TWICE: Texts = Texts {
    services: CART_SERVICES,
    test: "test twice { let r = 0; call r = cart.total(2); assert not injected; call r = cart.total(2); assert r == 20 or injected; }",
    faults: TIMEOUT,
};

/// A shop that asks for the price once more where it was unavailable.
pub(crate) const RETRY: Texts = Texts {
    services: "service price { method get(id: int) -> int { return id * 10; } }
service shop { method buy(id: int) -> int {
  let p = 0;
  repeat 2 {
    let ok = true;
    call p = price.get(id) on unavailable { ok = false; }
    if ok { return p; }
  }
  fail unavailable;
} }",
    test: "test buy { let r = 0; call r = shop.buy(2); assert r == 20; }",
    faults: "[[fault]]\ncallee = \"price\"\nmethod = \"get\"\ncodes = [\"unavailable\"]\n",
};

/// The services of a text, none where it is refused or there is no memory.
fn program(alloc: Global, text: &str) -> Option<Program> {
    if text.len() > 1_048_576 {
        return None;
    }
    let services = parse_services(alloc, text.as_bytes()).ok()?;
    check_services(alloc, services).ok()
}

/// A test of these services.
fn test(alloc: Global, program: &Program, text: &str) -> Option<CheckedTest>
    ensures { IfSome result (λ test. test.services ≡ program.now.tree) }
{
    if text.len() > 1_048_576 {
        return None;
    }
    let test = parse_test(alloc, text.as_bytes()).ok()?;
    check_test(alloc, program, test).ok()
}

/// What a fault file configures for these services.
fn faults(alloc: Global, program: &Program, text: &str) -> Option<Faults>
    ensures { IfSome result (λ faults. faults.kinds ≡ kinds_given program.now.tree) }
{
    read_faults(alloc, text.as_bytes(), program).ok()
}

impl Sources {
    /// None where a text is refused, or there is no memory.
    pub(crate) fn of(alloc: Global, texts: &Texts) -> Option<Sources> {
        let program = program(alloc, texts.services)?;
        let test = test(alloc, &program, texts.test)?;
        let faults = faults(alloc, &program, texts.faults)?;
        Some(Sources {
            program,
            test,
            faults,
        })
    }
}
