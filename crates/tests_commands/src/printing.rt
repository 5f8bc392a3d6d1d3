//! The canonical text of services, printed over files in memory.
use crate::running::{BEFORE, carried_out};
use crate::texts::{FMT, PRICE};
use std::test::Fail;

/// Services, and their canonical form.
const PRINTED: &[(&[u8], &str)] = &[
    (
        b"service price{method get(id:int)->int{return id*10;}} # x",
        CANONICAL,
    ),
    (PRICE, CANONICAL),
    (
        b"service a{method m()->int{if 1<2{return 1;}else{return (1+2)*3;}}}",
        "service a {\n  method m() -> int {\n    if 1 < 2 {\n      return 1;\n    } else {\n      return (1 + 2) * 3;\n    }\n  }\n}\n",
    ),
    (b"service price {}", "service price {\n}\n"),
    (b"# nothing", ""),
];

const CANONICAL: &str =
    "service price {\n  method get(id: int) -> int {\n    return id * 10;\n  }\n}\n";

#[test]
fn fmt_prints_the_canonical_text(rt: HostRuntime) -> Result<(), Fail> {
    for (services, text) in PRINTED {
        let done = carried_out(rt.alloc(), &[FMT], &[*services], &[], false)?;
        assert!(rt; done.tells(0, text) && done.leaves(&[BEFORE]), "{text}");
    }
    Ok(())
}
