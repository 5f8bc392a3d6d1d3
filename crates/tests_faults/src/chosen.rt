//! The choices that a fault file gives.
ghost use Rattle.std.specs.Prelude.{◌<◌, length};

use crate::shop::shop;
use fb_base::MethodId;
use fb_check::Program;
use fb_config::{Faults, read_faults};
use fb_index::{Entry, Index, Plan};
use std::alloc::{AllocError, Global};

/// A fault file, its version, and the choices for each method by number, as the text of a plan that has them all at one call.
struct Case {
    file: &'static str,
    version: u32,
    choices: [&'static str; 5],
}

/// Files without choices.
const EMPTY: &[Case] = &[
    Case {
        file: "",
        version: 1,
        choices: NONE,
    },
    Case {
        file: "fault = []",
        version: 1,
        choices: NONE,
    },
    Case {
        file: "version = 1",
        version: 1,
        choices: NONE,
    },
    Case {
        file: "version = 2\nfault = []",
        version: 2,
        choices: NONE,
    },
    Case {
        file: "[[fault]]\ncallee = \"bare\"\ncodes = [\"a\"]",
        version: 1,
        choices: NONE,
    },
    // no method is meant whose kind a value could miss
    Case {
        file: "version = 2\n[[fault]]\ncallee = \"bare\"\nvalues = [1, true, \"a\", [1], []]",
        version: 2,
        choices: NONE,
    },
];

const NONE: [&str; 5] = ["none", "none", "none", "none", "none"];

/// Files with codes alone.
const CODES: &[Case] = &[
    Case {
        file: "[[fault]]\ncallee = \"price\"\nmethod = \"last\"\ncodes = [\"timeout\"]",
        version: 1,
        choices: ["none", "1.1=timeout", "none", "none", "none"],
    },
    // without a method each one of the service is meant
    Case {
        file: "version = 1\nfault = [{codes = [\"z\", \"a\"], callee = \"stock\"}]",
        version: 1,
        choices: ["none", "none", "1.1=z,1.1=a", "1.1=z,1.1=a", "none"],
    },
    // a reserved word may be a code, and a code may have 64 letters
    Case {
        file: "version = 2\n[[fault]]\ncallee = \"shelf\"\ncodes = [\"true\", \"ok\", \"a23456789012345678901234567890123456789012345678901234567890123x\"]",
        version: 2,
        choices: [
            "none",
            "none",
            "none",
            "none",
            "1.1=true,1.1=ok,1.1=a23456789012345678901234567890123456789012345678901234567890123x",
        ],
    },
    // a code counts at its first place, in one item and over several
    Case {
        file: "[[fault]]\ncallee = \"price\"\nmethod = \"get\"\ncodes = [\"a\", \"b\", \"a\", \"b\", \"c\"]",
        version: 1,
        choices: ["1.1=a,1.1=b,1.1=c", "none", "none", "none", "none"],
    },
    Case {
        file: "[[fault]]\ncallee = \"price\"\ncodes = [\"b\", \"c\"]\n[[fault]]\ncallee = \"price\"\nmethod = \"get\"\ncodes = [\"a\", \"c\", \"d\", \"b\"]\n[[fault]]\ncallee = \"price\"\ncodes = [\"d\", \"a\"]",
        version: 1,
        choices: [
            "1.1=b,1.1=c,1.1=a,1.1=d",
            "1.1=b,1.1=c,1.1=d,1.1=a",
            "none",
            "none",
            "none",
        ],
    },
    // the order is the file's and not that of the methods
    Case {
        file: "[[fault]]\ncallee = \"stock\"\nmethod = \"name\"\ncodes = [\"a\"]\n[[fault]]\ncallee = \"price\"\ncodes = [\"b\"]\n[[fault]]\ncallee = \"stock\"\ncodes = [\"c\"]\n[[fault]]\ncallee = \"stock\"\nmethod = \"has\"\ncodes = [\"d\"]",
        version: 1,
        choices: ["1.1=b", "1.1=b", "1.1=c,1.1=d", "1.1=a,1.1=c", "none"],
    },
];

/// Files with values.
const VALUES: &[Case] = &[
    Case {
        file: "version = 2\n[[fault]]\ncallee = \"price\"\nmethod = \"get\"\nvalues = [9223372036854775807, -9223372036854775808, 0, -1]",
        version: 2,
        choices: [
            "1.1=ok:9223372036854775807,1.1=ok:-9223372036854775808,1.1=ok:0,1.1=ok:-1",
            "none",
            "none",
            "none",
            "none",
        ],
    },
    Case {
        file: "version = 2\n[[fault]]\ncallee = \"stock\"\nmethod = \"has\"\nvalues = [true, false]\n[[fault]]\ncallee = \"stock\"\nmethod = \"name\"\nvalues = [\"\", \"ok\", \"\\n\"]\n[[fault]]\ncallee = \"shelf\"\nvalues = [[1, 2], [], [2, 1]]",
        version: 2,
        choices: [
            "none",
            "none",
            "1.1=ok:true,1.1=ok:false",
            "1.1=ok:x,1.1=ok:x6f6b,1.1=ok:x0a",
            "1.1=ok:[1;2],1.1=ok:[],1.1=ok:[2;1]",
        ],
    },
    // a value counts at its first place, in one item and over several
    Case {
        file: "version = 2\n[[fault]]\ncallee = \"price\"\nvalues = [2, 1, 2]\n[[fault]]\ncallee = \"price\"\nmethod = \"last\"\nvalues = [3, 1, 2]\n[[fault]]\ncallee = \"shelf\"\nvalues = [[1], [], [1], []]",
        version: 2,
        choices: [
            "1.1=ok:2,1.1=ok:1",
            "1.1=ok:2,1.1=ok:1,1.1=ok:3",
            "none",
            "none",
            "1.1=ok:[1],1.1=ok:[]",
        ],
    },
    // codes come before values in one item, and in file order in several
    Case {
        file: "version = 2\n[[fault]]\nvalues = [1]\ncallee = \"price\"\ncodes = [\"a\"]",
        version: 2,
        choices: ["1.1=a,1.1=ok:1", "1.1=a,1.1=ok:1", "none", "none", "none"],
    },
    Case {
        file: "version = 2\n[[fault]]\ncallee = \"price\"\nvalues = [1]\n[[fault]]\ncallee = \"price\"\nmethod = \"get\"\ncodes = [\"a\"]\nvalues = [2, 1]\n[[fault]]\ncallee = \"price\"\ncodes = [\"b\", \"a\"]",
        version: 2,
        choices: [
            "1.1=ok:1,1.1=a,1.1=ok:2,1.1=b",
            "1.1=ok:1,1.1=b,1.1=a",
            "none",
            "none",
            "none",
        ],
    },
    // a text isn't the code that it spells
    Case {
        file: "version = 2\n[[fault]]\ncallee = \"stock\"\nmethod = \"name\"\ncodes = [\"a\"]\nvalues = [\"a\"]",
        version: 2,
        choices: ["none", "none", "none", "1.1=a,1.1=ok:x61", "none"],
    },
];

/// The choices for a method.
fn text_of(alloc: Global, faults: &Faults, method: u32) -> Result<String, AllocError>
    requires { method < length faults.now.kinds }
{
    let index = Index::root().child(alloc, Entry { site: 1, count: 1 })?;
    let mut plan = Plan::empty();
    for reply in faults.choices_for(MethodId(method)) {
        plan = plan.with(alloc, index.copy()?, reply.copy(alloc)?)?;
    }
    plan.text(alloc)
}

/// Whether these are the choices for a method.
fn is_text(alloc: Global, faults: &Faults, method: u32, wanted: &str) -> bool
    requires { method < length faults.now.kinds }
{
    match text_of(alloc, faults, method) {
        Ok(text) => text.as_str() == wanted,
        Err(_) => false,
    }
}

/// Whether these are the choices for each method.
fn has_choices(alloc: Global, faults: &Faults, wanted: &[&'static str; 5]) -> bool
    requires { 4 < length faults.now.kinds }
{
    for method in 0..5 {
        if !is_text(alloc, faults, method, wanted[method as usize]) {
            return false;
        }
    }
    true
}

/// Whether the file is read as told.
fn is_as_told(alloc: Global, program: &Program, case: &Case) -> bool {
    let Ok(faults) = read_faults(alloc, case.file.as_bytes(), program) else {
        return false;
    };
    if program.kinds().len() != 5 || faults.version() != case.version {
        return false;
    }
    has_choices(alloc, &faults, &case.choices)
}

/// The first of these files that is read otherwise.
fn first_other(alloc: Global, program: &Program, cases: &'static [Case]) -> Option<&'static str> {
    for case in cases {
        if !is_as_told(alloc, program, case) {
            return Some(case.file);
        }
    }
    None
}

/// The first file of all tables that is read otherwise.
fn first_of_all(alloc: Global) -> Option<&'static str> {
    let Some(program) = shop(alloc) else {
        return Some("no services");
    };
    for cases in [EMPTY, CODES, VALUES] {
        let other = first_other(alloc, &program, cases);
        if other.is_some() {
            return other;
        }
    }
    None
}

#[test]
fn the_choices_are_those_of_the_file(rt: HostRuntime) {
    assert_eq!(rt; first_of_all(rt.alloc()), None);
}

/// Whether the shop has no choices without a file, and the version is 1.
fn has_none(alloc: Global) -> bool {
    let Some(program) = shop(alloc) else {
        return false;
    };
    let Ok(faults) = Faults::none(alloc, &program) else {
        return false;
    };
    if program.kinds().len() != 5 || faults.version() != 1 {
        return false;
    }
    has_choices(alloc, &faults, &NONE)
}

#[test]
fn without_a_file_there_are_no_choices(rt: HostRuntime) {
    assert!(rt; has_none(rt.alloc()));
}
