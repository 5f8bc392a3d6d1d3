//! What is refused of a fault file.
use crate::shop::shop;
use fb_check::Program;
use fb_config::{FaultsError, FaultsWhy, read_faults};
use std::alloc::Global;

/// Files that are refused as a whole.
const FILES: &[(&str, FaultsWhy)] = &[
    ("fault", FaultsWhy::NotToml),
    ("[[fault]", FaultsWhy::NotToml),
    ("version = 1\nversion = 1", FaultsWhy::NotToml),
    ("version = 01", FaultsWhy::NotToml),
    (
        "[[fault]]\ncallee = \"price\ncodes = [\"a\"]",
        FaultsWhy::NotToml,
    ),
    ("other = 1\nversion = 3\nfault = [", FaultsWhy::NotToml),
    ("faults = []", FaultsWhy::UnknownKey { item: 0 }),
    ("Fault = []", FaultsWhy::UnknownKey { item: 0 }),
    ("callee = \"price\"", FaultsWhy::UnknownKey { item: 0 }),
    ("[other]", FaultsWhy::UnknownKey { item: 0 }),
    (
        "version = 3\nother = 1\nfault = 7",
        FaultsWhy::UnknownKey { item: 0 },
    ),
    ("version = 0", FaultsWhy::BadVersion),
    ("version = 3", FaultsWhy::BadVersion),
    ("version = -1", FaultsWhy::BadVersion),
    ("version = 4294967297", FaultsWhy::BadVersion),
    ("version = \"1\"", FaultsWhy::BadVersion),
    ("version = 1.0", FaultsWhy::BadVersion),
    ("version = true", FaultsWhy::BadVersion),
    ("version = [1]", FaultsWhy::BadVersion),
    ("version = 3\nfault = 7", FaultsWhy::BadVersion),
    ("fault = 7\nversion = 0", FaultsWhy::BadVersion),
    ("fault = 7", FaultsWhy::NotATable { item: 0 }),
    ("fault = \"price\"", FaultsWhy::NotATable { item: 0 }),
    (
        "[fault]\ncallee = \"price\"\ncodes = [\"a\"]",
        FaultsWhy::NotATable { item: 0 },
    ),
];

/// Files of which an item is refused.
const ITEMS: &[(&str, FaultsWhy)] = &[
    ("fault = [7]", FaultsWhy::NotATable { item: 1 }),
    ("fault = [[]]", FaultsWhy::NotATable { item: 1 }),
    (
        "fault = [\"price\", \"stock\"]",
        FaultsWhy::NotATable { item: 1 },
    ),
    (
        "fault = [{callee = \"price\", codes = [\"a\"]}, 7]",
        FaultsWhy::NotATable { item: 2 },
    ),
    (
        "[[fault]]\ncallee = \"price\"\ncodes = [\"a\"]\ncode = 1",
        FaultsWhy::UnknownKey { item: 1 },
    ),
    (
        "[[fault]]\nCallee = \"price\"",
        FaultsWhy::UnknownKey { item: 1 },
    ),
    (
        "[[fault]]\ncallee = \"price\"\ncodes = [\"a\"]\nvalues = [1]",
        FaultsWhy::UnknownKey { item: 1 },
    ),
    (
        "version = 1\n[[fault]]\ncallee = \"price\"\nvalues = [1]",
        FaultsWhy::UnknownKey { item: 1 },
    ),
    (
        "version = 2\n[[fault]]\ncallee = \"price\"\nvalue = [1]",
        FaultsWhy::UnknownKey { item: 1 },
    ),
    (
        "[[fault]]\ncallee = \"price\"\ncodes = [\"a\"]\n[[fault]]\nversion = 1",
        FaultsWhy::UnknownKey { item: 2 },
    ),
    ("[[fault]]", FaultsWhy::UnknownCallee { item: 1 }),
    (
        "[[fault]]\nmethod = \"get\"\ncodes = [\"a\"]",
        FaultsWhy::UnknownCallee { item: 1 },
    ),
    (
        "[[fault]]\ncallee = 7\ncodes = [\"a\"]",
        FaultsWhy::UnknownCallee { item: 1 },
    ),
    (
        "[[fault]]\ncallee = [\"price\"]\ncodes = [\"a\"]",
        FaultsWhy::UnknownCallee { item: 1 },
    ),
    (
        "[[fault]]\ncallee = \"prices\"\ncodes = [\"a\"]",
        FaultsWhy::UnknownCallee { item: 1 },
    ),
    (
        "[[fault]]\ncallee = \"pric\"\ncodes = [\"a\"]",
        FaultsWhy::UnknownCallee { item: 1 },
    ),
    (
        "[[fault]]\ncallee = \"price.get\"\ncodes = [\"a\"]",
        FaultsWhy::UnknownCallee { item: 1 },
    ),
    (
        "[[fault]]\ncallee = \"\"\ncodes = [\"a\"]",
        FaultsWhy::UnknownCallee { item: 1 },
    ),
    (
        "[[fault]]\ncallee = \"price\"\nmethod = \"gets\"\ncodes = [\"a\"]",
        FaultsWhy::UnknownMethod { item: 1 },
    ),
    (
        "[[fault]]\ncallee = \"price\"\nmethod = \"has\"\ncodes = [\"a\"]",
        FaultsWhy::UnknownMethod { item: 1 },
    ),
    (
        "[[fault]]\ncallee = \"price\"\nmethod = 7\ncodes = [\"a\"]",
        FaultsWhy::UnknownMethod { item: 1 },
    ),
    (
        "[[fault]]\ncallee = \"bare\"\nmethod = \"get\"\ncodes = [\"a\"]",
        FaultsWhy::UnknownMethod { item: 1 },
    ),
    (
        "[[fault]]\ncallee = \"price\"\ncodes = [\"a\"]\n[[fault]]\ncallee = \"price\"\nmethod = \"\"\ncodes = [\"a\"]",
        FaultsWhy::UnknownMethod { item: 2 },
    ),
];

/// Files of which the codes of an item are refused.
const CODES: &[(&str, FaultsWhy)] = &[
    (
        "[[fault]]\ncallee = \"price\"",
        FaultsWhy::BadCode { item: 1 },
    ),
    (
        "version = 2\n[[fault]]\ncallee = \"price\"",
        FaultsWhy::BadCode { item: 1 },
    ),
    (
        "[[fault]]\ncallee = \"price\"\ncodes = \"a\"",
        FaultsWhy::BadCode { item: 1 },
    ),
    (
        "[[fault]]\ncallee = \"price\"\ncodes = {a = 1}",
        FaultsWhy::BadCode { item: 1 },
    ),
    (
        "[[fault]]\ncallee = \"price\"\ncodes = []",
        FaultsWhy::BadCode { item: 1 },
    ),
    (
        "[[fault]]\ncallee = \"price\"\ncodes = [\"a\",\"a\",\"a\",\"a\",\"a\",\"a\",\"a\",\"a\",\"a\",\"a\",\"a\",\"a\",\"a\",\"a\",\"a\",\"a\",\"a\"]",
        FaultsWhy::BadCode { item: 1 },
    ),
    (
        "[[fault]]\ncallee = \"price\"\ncodes = [1]",
        FaultsWhy::BadCode { item: 1 },
    ),
    (
        "[[fault]]\ncallee = \"price\"\ncodes = [\"a\", 1]",
        FaultsWhy::BadCode { item: 1 },
    ),
    (
        "[[fault]]\ncallee = \"price\"\ncodes = [[\"a\"]]",
        FaultsWhy::BadCode { item: 1 },
    ),
    (
        "[[fault]]\ncallee = \"price\"\ncodes = [\"\"]",
        FaultsWhy::BadCode { item: 1 },
    ),
    (
        "[[fault]]\ncallee = \"price\"\ncodes = [\"A\"]",
        FaultsWhy::BadCode { item: 1 },
    ),
    (
        "[[fault]]\ncallee = \"price\"\ncodes = [\"1a\"]",
        FaultsWhy::BadCode { item: 1 },
    ),
    (
        "[[fault]]\ncallee = \"price\"\ncodes = [\"_a\"]",
        FaultsWhy::BadCode { item: 1 },
    ),
    (
        "[[fault]]\ncallee = \"price\"\ncodes = [\"a b\"]",
        FaultsWhy::BadCode { item: 1 },
    ),
    (
        "[[fault]]\ncallee = \"price\"\ncodes = [\"a234567890123456789012345678901234567890123456789012345678901234x\"]",
        FaultsWhy::BadCode { item: 1 },
    ),
    (
        "version = 2\n[[fault]]\ncallee = \"price\"\ncodes = []\nvalues = [1]",
        FaultsWhy::BadCode { item: 1 },
    ),
    (
        "[[fault]]\ncallee = \"price\"\ncodes = [\"a\"]\n[[fault]]\ncallee = \"price\"\ncodes = [\"b\"]\n[[fault]]\ncallee = \"price\"\ncodes = [\"-\"]",
        FaultsWhy::BadCode { item: 3 },
    ),
];

/// Files of version 2 of which the values of an item are refused.
const VALUES: &[(&str, FaultsWhy)] = &[
    (
        "version = 2\n[[fault]]\ncallee = \"price\"\nvalues = 7",
        FaultsWhy::BadValue { item: 1 },
    ),
    (
        "version = 2\n[[fault]]\ncallee = \"price\"\nvalues = {}",
        FaultsWhy::BadValue { item: 1 },
    ),
    (
        "version = 2\n[[fault]]\ncallee = \"price\"\nvalues = []",
        FaultsWhy::BadValue { item: 1 },
    ),
    (
        "version = 2\n[[fault]]\ncallee = \"price\"\ncodes = [\"a\"]\nvalues = []",
        FaultsWhy::BadValue { item: 1 },
    ),
    (
        "version = 2\n[[fault]]\ncallee = \"price\"\nvalues = [1, 1, 1, 1, 1, 1, 1, 1, 1, 1, 1, 1, 1, 1, 1, 1, 1]",
        FaultsWhy::BadValue { item: 1 },
    ),
    (
        "version = 2\n[[fault]]\ncallee = \"price\"\nvalues = [1.0]",
        FaultsWhy::BadValue { item: 1 },
    ),
    (
        "version = 2\n[[fault]]\ncallee = \"price\"\nvalues = [2026-01-01]",
        FaultsWhy::BadValue { item: 1 },
    ),
    (
        "version = 2\n[[fault]]\ncallee = \"price\"\nvalues = [07:30:00]",
        FaultsWhy::BadValue { item: 1 },
    ),
    (
        "version = 2\n[[fault]]\ncallee = \"price\"\nvalues = [{}]",
        FaultsWhy::BadValue { item: 1 },
    ),
    // another kind
    (
        "version = 2\n[[fault]]\ncallee = \"price\"\nvalues = [\"1\"]",
        FaultsWhy::BadValue { item: 1 },
    ),
    (
        "version = 2\n[[fault]]\ncallee = \"price\"\nvalues = [1, true]",
        FaultsWhy::BadValue { item: 1 },
    ),
    (
        "version = 2\n[[fault]]\ncallee = \"price\"\nvalues = [[1]]",
        FaultsWhy::BadValue { item: 1 },
    ),
    (
        "version = 2\n[[fault]]\ncallee = \"price\"\nvalues = [[]]",
        FaultsWhy::BadValue { item: 1 },
    ),
    (
        "version = 2\n[[fault]]\ncallee = \"shelf\"\nvalues = [1]",
        FaultsWhy::BadValue { item: 1 },
    ),
    (
        "version = 2\n[[fault]]\ncallee = \"shelf\"\nvalues = [[\"a\"]]",
        FaultsWhy::BadValue { item: 1 },
    ),
    // the kind of only one of the methods that are meant
    (
        "version = 2\n[[fault]]\ncallee = \"stock\"\nvalues = [true]",
        FaultsWhy::BadValue { item: 1 },
    ),
    (
        "version = 2\n[[fault]]\ncallee = \"stock\"\nvalues = [\"a\"]",
        FaultsWhy::BadValue { item: 1 },
    ),
    // lists that are no values
    (
        "version = 2\n[[fault]]\ncallee = \"shelf\"\nvalues = [[1, true]]",
        FaultsWhy::BadValue { item: 1 },
    ),
    (
        "version = 2\n[[fault]]\ncallee = \"shelf\"\nvalues = [[[1]]]",
        FaultsWhy::BadValue { item: 1 },
    ),
    (
        "version = 2\n[[fault]]\ncallee = \"shelf\"\nvalues = [[1.0]]",
        FaultsWhy::BadValue { item: 1 },
    ),
    // what is no value, also where no method is meant
    (
        "version = 2\n[[fault]]\ncallee = \"bare\"\nvalues = [1.0]",
        FaultsWhy::BadValue { item: 1 },
    ),
    (
        "version = 2\n[[fault]]\ncallee = \"price\"\nvalues = [1]\n[[fault]]\ncallee = \"price\"\nmethod = \"get\"\nvalues = [true]",
        FaultsWhy::BadValue { item: 2 },
    ),
];

/// Files with two faults.
const TWO_FAULTS: &[(&str, FaultsWhy)] = &[
    // in one item the rules have an order
    (
        "[[fault]]\ncodes = []\ncallee = \"a\"\nother = 1",
        FaultsWhy::UnknownKey { item: 1 },
    ),
    (
        "[[fault]]\ncodes = []\ncallee = \"a\"",
        FaultsWhy::UnknownCallee { item: 1 },
    ),
    (
        "[[fault]]\nmethod = 7\ncallee = \"a\"",
        FaultsWhy::UnknownCallee { item: 1 },
    ),
    (
        "[[fault]]\ncodes = []\nmethod = 7\ncallee = \"price\"",
        FaultsWhy::UnknownMethod { item: 1 },
    ),
    (
        "version = 2\n[[fault]]\nvalues = []\nmethod = 7\ncallee = \"price\"",
        FaultsWhy::UnknownMethod { item: 1 },
    ),
    (
        "version = 2\n[[fault]]\nvalues = []\ncodes = []\ncallee = \"price\"",
        FaultsWhy::BadCode { item: 1 },
    ),
    // of two items the first one counts
    ("fault = [7, {other = 1}]", FaultsWhy::NotATable { item: 1 }),
    (
        "fault = [{other = 1}, 7]",
        FaultsWhy::UnknownKey { item: 1 },
    ),
    (
        "fault = [{callee = \"price\", codes = []}, {callee = \"a\"}]",
        FaultsWhy::BadCode { item: 1 },
    ),
    (
        "fault = [{callee = \"a\"}, {callee = \"price\", codes = []}]",
        FaultsWhy::UnknownCallee { item: 1 },
    ),
    (
        "version = 2\nfault = [{callee = \"price\", values = []}, {callee = \"price\", codes = []}]",
        FaultsWhy::BadValue { item: 1 },
    ),
    (
        "version = 2\nfault = [{callee = \"price\", codes = []}, {callee = \"price\", values = []}]",
        FaultsWhy::BadCode { item: 1 },
    ),
];

/// Whether the file is refused so.
fn is_refused(alloc: Global, program: &Program, file: &[u8], wanted: FaultsWhy) -> bool {
    match read_faults(alloc, file, program) {
        Err(FaultsError::Refused(why)) => why == wanted,
        _ => false,
    }
}

/// The first of these files that goes otherwise.
fn first_other<'a>(
    alloc: Global,
    program: &Program,
    files: &'a [(&'a str, FaultsWhy)],
) -> Option<&'a str> {
    for (file, wanted) in files {
        if !is_refused(alloc, program, file.as_bytes(), *wanted) {
            return Some(*file);
        }
    }
    None
}

/// The first file of all tables that goes otherwise.
fn first_of_all(alloc: Global) -> Option<&'static str> {
    let Some(program) = shop(alloc) else {
        return Some("no services");
    };
    for files in [FILES, ITEMS, CODES, VALUES, TWO_FAULTS] {
        let other = first_other(alloc, &program, files);
        if other.is_some() {
            return other;
        }
    }
    None
}

#[test]
fn a_file_is_refused_by_its_first_fault(rt: HostRuntime) {
    assert_eq!(rt; first_of_all(rt.alloc()), None);
}

/// Whether the file is refused so where it is about the shop.
pub fn shop_refuses(alloc: Global, file: &[u8], wanted: FaultsWhy) -> bool {
    match shop(alloc) {
        Some(program) => is_refused(alloc, &program, file, wanted),
        None => false,
    }
}

#[test]
fn bytes_that_are_no_text_are_refused(rt: HostRuntime) {
    assert!(rt; shop_refuses(rt.alloc(), b"# \xff", FaultsWhy::NotToml));
}
