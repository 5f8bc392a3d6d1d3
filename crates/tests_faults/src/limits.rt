//! How many items a fault file may have.
ghost use Rattle.std.specs.Prelude.{◌<◌, length};

use crate::refused::shop_refuses;
use crate::shop::shop;
use fb_base::MethodId;
use fb_check::Program;
use fb_config::{FaultsWhy, read_faults};
use std::alloc::Global;

const SIXTEEN_CODES: &str =
    "[[fault]]\ncallee = \"price\"\ncodes = [\"a\",\"b\",\"c\",\"d\",\"e\",\"f\",\"g\",\"h\",\"i\",\"j\",\"k\",\"l\",\"m\",\"n\",\"o\",\"p\"]\n";

/// Whether a file of so many items without a callee is refused so.
fn are_refused(alloc: Global, count: usize, wanted: FaultsWhy) -> bool {
    match "[[fault]]\n".repeat(alloc, count) {
        Ok(file) => shop_refuses(alloc, file.as_bytes(), wanted),
        Err(_) => false,
    }
}

#[test]
fn more_than_1024_items_are_too_many(rt: HostRuntime) {
    assert!(rt; are_refused(rt.alloc(), 1024, FaultsWhy::UnknownCallee { item: 1 }));
    assert!(rt; are_refused(rt.alloc(), 1025, FaultsWhy::TooMany));
}

/// The number of choices for the first method by that file.
fn choices_in(alloc: Global, program: &Program, file: &str) -> Option<usize> {
    let Ok(faults) = read_faults(alloc, file.as_bytes(), program) else {
        return None;
    };
    if program.kinds().is_empty() {
        return None;
    }
    Some(faults.choices_for(MethodId(0)).len())
}

/// That number by a file of so many items with sixteen codes.
fn choices_of(alloc: Global, count: usize) -> Option<usize> {
    let program = shop(alloc)?;
    match SIXTEEN_CODES.repeat(alloc, count) {
        Ok(file) => choices_in(alloc, &program, file.as_str()),
        Err(_) => None,
    }
}

#[test]
fn each_item_may_have_sixteen_codes(rt: HostRuntime) {
    assert_eq!(rt; choices_of(rt.alloc(), 1024), Some(16));
}
