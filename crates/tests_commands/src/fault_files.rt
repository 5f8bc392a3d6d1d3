//! Fault files: what is refused of them, and their limits.
use crate::running::{carried_out, is_refused};
use crate::texts::{CART, CART_TEST, FAULTS, NO_REDUCTION, TEST};
use std::test::Fail;

/// Fault files that are refused, and what is told.
const REFUSED: &[(&[u8], &str)] = &[
    (b"fault = ", "refused faults NotToml\n"),
    (b"faults = 7\nfault = 7\n", "refused faults UnknownKey 0\n"),
    (
        b"version = 3\n\n[[fault]]\ncallee = \"price\"\ncodes = [\"timeout\"]\nvalues = [0, 20]\n",
        "refused faults BadVersion\n",
    ),
    (
        b"version = \"2\"\nfault = 7\n",
        "refused faults BadVersion\n",
    ),
    (b"fault = 7\n", "refused faults NotATable 0\n"),
    (
        b"fault = [{callee = \"price\", codes = [\"timeout\"]}, 7]\n",
        "refused faults NotATable 2\n",
    ),
    (
        b"[[fault]]\ncallee = \"prise\"\ncode = [\"timeout\"]\n",
        "refused faults UnknownKey 1\n",
    ),
    (
        b"[[fault]]\ncallee = \"price\"\ncodes = [\"timeout\"]\nvalues = [0, 20]\n",
        "refused faults UnknownKey 1\n",
    ),
    (
        b"[[fault]]\ncallee = \"prise\"\ncodes = [\"timeout\"]\n",
        "refused faults UnknownCallee 1\n",
    ),
    (
        b"[[fault]]\nmethod = \"get\"\ncodes = [\"timeout\"]\n",
        "refused faults UnknownCallee 1\n",
    ),
    (
        b"[[fault]]\ncallee = \"price\"\nmethod = \"total\"\ncodes = []\n",
        "refused faults UnknownMethod 1\n",
    ),
    (
        b"[[fault]]\ncallee = \"price\"\n",
        "refused faults BadCode 1\n",
    ),
    (
        b"[[fault]]\ncallee = \"price\"\ncodes = []\n",
        "refused faults BadCode 1\n",
    ),
    (
        b"[[fault]]\ncallee = \"cart\"\ncodes = [\"timeout\"]\n[[fault]]\ncallee = \"price\"\ncodes = [\"Timeout\"]\n",
        "refused faults BadCode 2\n",
    ),
    (
        b"version = 2\n\n[[fault]]\ncallee = \"price\"\ncodes = [\"timeout\"]\nvalues = [\"x\"]\n",
        "refused faults BadValue 1\n",
    ),
    (
        b"version = 2\n\n[[fault]]\ncallee = \"price\"\nvalues = []\n",
        "refused faults BadValue 1\n",
    ),
];

/// Campaigns with reduction and without.
const CAMPAIGNS: [&[&[&str]]; 2] = [&[TEST, FAULTS], &[TEST, FAULTS, NO_REDUCTION]];

#[test]
fn a_fault_file_is_refused_at_its_first_fault(rt: HostRuntime) -> Result<(), Fail> {
    for (faults, text) in REFUSED {
        for words in CAMPAIGNS {
            let sources = [CART, CART_TEST, *faults];
            assert!(rt; is_refused(rt.alloc(), words, &sources, text)?, "{text}");
        }
    }
    Ok(())
}

const ITEM: &str = "[[fault]]\ncallee = \"price\"\ncodes = [\"timeout\"]\n";

/// A piece of a fault file, and how often it stands there: what a campaign tells.
const LONG: [(&str, usize, u8, &str); 4] = [
    (
        ITEM,
        1024,
        0,
        "completed plans 2 run 2 pruned 0 failed 0 invs 3\n",
    ),
    (ITEM, 1025, 3, "refused faults TooMany\n"),
    (
        "\n",
        65_536,
        0,
        "completed plans 1 run 1 pruned 0 failed 0 invs 2\n",
    ),
    ("\n", 65_537, 3, "refused faults TooLong\n"),
];

#[test]
fn a_fault_file_has_limits(rt: HostRuntime) -> Result<(), Fail> {
    for (piece, count, code, text) in LONG {
        let faults = piece.repeat(rt.alloc(), count)?;
        let sources = [CART, CART_TEST, faults.as_bytes()];
        let done = carried_out(rt.alloc(), &[TEST, FAULTS], &sources, &[], false)?;
        assert!(rt; done.tells(code, text), "{text}");
    }
    Ok(())
}
