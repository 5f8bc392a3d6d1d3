//! Lines that aren't read, and lines that aren't whole.

use crate::checking::{Others, first_other_line, report, tells};
use crate::reports::{END, GET, HEADER, PLAN, TIMEOUT, TIMEOUT_PLAN, TOTAL};
use crate::sources::{CART, Sources};
use std::alloc::Global;
use std::test::Fail;

/// Headers and inv lines that are no JSON, have another shape, or a number out of range.
const ABOVE: &[Others] = &[
    // Of a header.
    Others {
        above: &[],
        lines: &[
            r#"{"fuel":100000,"kind":"header","reduction":true,"version":1"#,
            r#"{"fuel":100000,"kind":"header","reduction":true,"version":1}}"#,
            r#"{"fuel":100000,"kind":"header","reduction":true,"version":01}"#,
            "header",
        ],
        below: &[TOTAL, GET, PLAN, TIMEOUT, TIMEOUT_PLAN, END],
        told: "line 1 rule NotJson",
    },
    Others {
        above: &[],
        lines: &[
            "[]",
            "null",
            "{}",
            r#"{"fuel":100000,"kind":"head","reduction":true,"version":1}"#,
            r#"{"fuel":100000,"kind":1,"reduction":true,"version":1}"#,
            r#"{"fuel":100000,"reduction":true,"version":1}"#,
            r#"{"fuel":100000,"kind":"header","reduction":1,"version":1}"#,
            r#"{"fuel":100000,"kind":"header","version":1}"#,
            r#"{"fuel":100000,"kind":"header","reduction":true,"version":"1"}"#,
            r#"{"fuel":100000,"kind":"header","reduction":true}"#,
            r#"{"fuel":100000,"kind":"header","reduction":true,"version":1,"x":1}"#,
        ],
        below: &[TOTAL, GET, PLAN, TIMEOUT, TIMEOUT_PLAN, END],
        told: "line 1 rule BadShape",
    },
    Others {
        above: &[],
        lines: &[
            r#"{"fuel":1000001,"kind":"header","reduction":true,"version":1}"#,
            r#"{"fuel":-1,"kind":"header","reduction":true,"version":1}"#,
            r#"{"fuel":1.5,"kind":"header","reduction":true,"version":1}"#,
            r#"{"fuel":1e3,"kind":"header","reduction":true,"version":1}"#,
            r#"{"fuel":100000,"kind":"header","reduction":true,"version":0}"#,
            r#"{"fuel":100000,"kind":"header","reduction":true,"version":3}"#,
            r#"{"fuel":100000,"kind":"header","reduction":true,"version":1.0}"#,
        ],
        below: &[TOTAL, GET, PLAN, TIMEOUT, TIMEOUT_PLAN, END],
        told: "line 1 rule BadNumber",
    },
    // Of an inv line.
    Others {
        above: &[HEADER],
        lines: &[
            r#"{"args":[2],"calls":[{"args":[2],"callee":"price.get","count":1,"reply":{"ok":20},"site":1}],"id":0,"kind":"inv","method":"cart.total","plan":0,"reply":{"ok":20},"steps":3"#,
            r#"{"args":[2"#,
            r#"{"args":[2],"calls":[{"args":[02],"callee":"price.get","count":1,"reply":{"ok":20},"site":1}],"id":0,"kind":"inv","method":"cart.total","plan":0,"reply":{"ok":20},"steps":3}"#,
        ],
        below: &[GET, PLAN, TIMEOUT, TIMEOUT_PLAN, END],
        told: "line 2 rule NotJson",
    },
    Others {
        above: &[HEADER],
        lines: &[
            r#"{"args":[2],"calls":[{"args":[2],"callee":"price.get","count":1,"reply":{"ok":20},"site":1}],"id":0,"kind":"record","method":"cart.total","plan":0,"reply":{"ok":20},"steps":3}"#,
            r#"{"args":[2],"calls":[{"args":[2],"callee":"price.get","count":1,"reply":{"ok":20},"site":1}],"id":0,"kind":"inv","method":"cart.total","plan":0,"reply":{"ok":20}}"#,
            r#"{"args":[2],"calls":[{"args":[2],"callee":"price.get","count":1,"reply":{"ok":20},"site":1}],"id":0,"kind":"inv","method":"cart.total","plan":0,"reply":{"ok":20},"steps":3,"x":0}"#,
            r#"{"args":[2],"calls":[{"args":[2],"callee":"price.get","count":1,"reply":{"ok":20},"site":1}],"id":0,"kind":"inv","method":"cart.total","plan":0,"reply":{"ok":20},"steps":"3"}"#,
            r#"{"args":[2],"calls":[{"args":[2],"callee":"price.get","count":1,"reply":{"ok":20},"site":1}],"id":0,"kind":"inv","method":"cart.total","plan":null,"reply":{"ok":20},"steps":3}"#,
            r#"{"args":2,"calls":[{"args":[2],"callee":"price.get","count":1,"reply":{"ok":20},"site":1}],"id":0,"kind":"inv","method":"cart.total","plan":0,"reply":{"ok":20},"steps":3}"#,
            r#"{"args":[null],"calls":[{"args":[2],"callee":"price.get","count":1,"reply":{"ok":20},"site":1}],"id":0,"kind":"inv","method":"cart.total","plan":0,"reply":{"ok":20},"steps":3}"#,
            r#"{"args":[1.5],"calls":[{"args":[2],"callee":"price.get","count":1,"reply":{"ok":20},"site":1}],"id":0,"kind":"inv","method":"cart.total","plan":0,"reply":{"ok":20},"steps":3}"#,
            r#"{"args":[9223372036854775808],"calls":[{"args":[2],"callee":"price.get","count":1,"reply":{"ok":20},"site":1}],"id":0,"kind":"inv","method":"cart.total","plan":0,"reply":{"ok":20},"steps":3}"#,
            r#"{"args":[2],"calls":null,"id":0,"kind":"inv","method":"cart.total","plan":0,"reply":{"ok":20},"steps":3}"#,
            r#"{"args":[2],"calls":[{"args":[2],"callee":"price.get","count":1,"reply":{"ok":20}}],"id":0,"kind":"inv","method":"cart.total","plan":0,"reply":{"ok":20},"steps":3}"#,
            r#"{"args":[2],"calls":[{"args":[2],"callee":"price.get","count":1,"reply":{"ok":20},"site":0}],"id":0,"kind":"inv","method":"cart.total","plan":0,"reply":{"ok":20},"steps":3}"#,
            r#"{"args":[2],"calls":[{"args":[2],"callee":"price.get","count":1,"reply":{"ok":20},"site":4294967296}],"id":0,"kind":"inv","method":"cart.total","plan":0,"reply":{"ok":20},"steps":3}"#,
            r#"{"args":[2],"calls":[{"args":[2],"callee":"price.get","count":1,"reply":{"ok":20},"site":1,"x":0}],"id":0,"kind":"inv","method":"cart.total","plan":0,"reply":{"ok":20},"steps":3}"#,
            r#"{"args":[2],"calls":[{"args":[2],"callee":"price.get","count":1,"reply":{"ok":20},"site":1}],"id":0,"kind":"inv","method":"cart","plan":0,"reply":{"ok":20},"steps":3}"#,
            r#"{"args":[2],"calls":[{"args":[2],"callee":"price.get","count":1,"reply":{"ok":20},"site":1}],"id":0,"kind":"inv","method":"cart.total.all","plan":0,"reply":{"ok":20},"steps":3}"#,
            r#"{"args":[2],"calls":[{"args":[2],"callee":"price.get","count":1,"reply":{"ok":20},"site":1}],"id":0,"kind":"inv","method":"Cart.total","plan":0,"reply":{"ok":20},"steps":3}"#,
            r#"{"args":[2],"calls":[{"args":[2],"callee":"price.get","count":1,"reply":{"ok":20},"site":1}],"id":0,"kind":"inv","method":"cart.total","plan":0,"reply":20,"steps":3}"#,
            r#"{"args":[2],"calls":[{"args":[2],"callee":"price.get","count":1,"reply":{"ok":20},"site":1}],"id":0,"kind":"inv","method":"cart.total","plan":0,"reply":{},"steps":3}"#,
            r#"{"args":[2],"calls":[{"args":[2],"callee":"price.get","count":1,"reply":{"ok":20},"site":1}],"id":0,"kind":"inv","method":"cart.total","plan":0,"reply":{"err":"Timeout"},"steps":3}"#,
            r#"{"args":[2],"calls":[{"args":[2],"callee":"price.get","count":1,"reply":{"ok":20},"site":1}],"id":0,"kind":"inv","method":"cart.total","plan":0,"reply":{"err":"timeout","ok":20},"steps":3}"#,
        ],
        below: &[GET, PLAN, TIMEOUT, TIMEOUT_PLAN, END],
        told: "line 2 rule BadShape",
    },
    Others {
        above: &[HEADER],
        lines: &[
            r#"{"args":[2],"calls":[{"args":[2],"callee":"price.get","count":1,"reply":{"ok":20},"site":1}],"id":0.5,"kind":"inv","method":"cart.total","plan":0,"reply":{"ok":20},"steps":3}"#,
            r#"{"args":[2],"calls":[{"args":[2],"callee":"price.get","count":1,"reply":{"ok":20},"site":1}],"id":18446744073709551616,"kind":"inv","method":"cart.total","plan":0,"reply":{"ok":20},"steps":3}"#,
            r#"{"args":[2],"calls":[{"args":[2],"callee":"price.get","count":1,"reply":{"ok":20},"site":1}],"id":0,"kind":"inv","method":"cart.total","plan":-1,"reply":{"ok":20},"steps":3}"#,
            r#"{"args":[2],"calls":[{"args":[2],"callee":"price.get","count":1,"reply":{"ok":20},"site":1}],"id":0,"kind":"inv","method":"cart.total","plan":0,"reply":{"ok":20},"steps":-3}"#,
        ],
        below: &[GET, PLAN, TIMEOUT, TIMEOUT_PLAN, END],
        told: "line 2 rule BadNumber",
    },
];

/// Plan lines and end lines.
const BELOW: &[Others] = &[
    // Of a plan line.
    Others {
        above: &[HEADER, TOTAL, GET],
        lines: &[
            r#"{"code":null,"id":0,"index":null,"kind":"plan","outcome":"passed","parent":null,"run":true,"uses":[0,1]"#,
            r#"{"code":null,"id":0,"index":null,"kind":"plan","outcome":"passed","parent":null,"run":true,"uses":[0,1,]}"#,
        ],
        below: &[TIMEOUT, TIMEOUT_PLAN, END],
        told: "line 4 rule NotJson",
    },
    Others {
        above: &[HEADER, TOTAL, GET],
        lines: &[
            r#"{"code":null,"id":0,"index":null,"kind":"plans","outcome":"passed","parent":null,"run":true,"uses":[0,1]}"#,
            r#"{"code":null,"id":0,"index":null,"kind":"plan","outcome":"passed","parent":null,"uses":[0,1]}"#,
            r#"{"code":null,"id":0,"index":null,"kind":"plan","outcome":"passed","parent":null,"run":1,"uses":[0,1]}"#,
            r#"{"code":null,"id":0,"index":null,"kind":"plan","outcome":"passed","parent":null,"run":true,"uses":null}"#,
            r#"{"code":null,"id":0,"index":null,"kind":"plan","outcome":"passed","parent":null,"run":true,"uses":[0,-1]}"#,
            r#"{"code":null,"id":0,"index":null,"kind":"plan","outcome":"passed","parent":null,"run":true,"uses":["0"]}"#,
            r#"{"code":null,"id":0,"index":null,"kind":"plan","outcome":"failed","parent":null,"run":true,"uses":[0,1]}"#,
            r#"{"code":null,"id":0,"index":null,"kind":"plan","outcome":"assert_failed 0","parent":null,"run":true,"uses":[0,1]}"#,
            r#"{"code":null,"id":0,"index":null,"kind":"plan","outcome":"call_failed 1","parent":null,"run":true,"uses":[0,1]}"#,
            r#"{"code":null,"id":0,"index":null,"kind":"plan","outcome":null,"parent":null,"run":true,"uses":[0,1]}"#,
            r#"{"code":null,"id":0,"index":null,"kind":"plan","outcome":"passed","parent":"0","run":true,"uses":[0,1]}"#,
            r#"{"code":"timeout","id":0,"index":null,"kind":"plan","outcome":"passed","parent":null,"run":true,"uses":[0,1]}"#,
            r#"{"code":null,"id":0,"index":"1.1/1.1","kind":"plan","outcome":"passed","parent":null,"run":true,"uses":[0,1]}"#,
            r#"{"code":"timeout","id":0,"index":"","kind":"plan","outcome":"passed","parent":null,"run":true,"uses":[0,1]}"#,
            r#"{"code":"Timeout","id":0,"index":"1.1/1.1","kind":"plan","outcome":"passed","parent":null,"run":true,"uses":[0,1]}"#,
            r#"{"code":null,"fault":null,"id":0,"index":null,"kind":"plan","outcome":"passed","parent":null,"run":true,"uses":[0,1]}"#,
        ],
        below: &[TIMEOUT, TIMEOUT_PLAN, END],
        told: "line 4 rule BadShape",
    },
    Others {
        above: &[HEADER, TOTAL, GET],
        lines: &[
            r#"{"code":null,"id":-1,"index":null,"kind":"plan","outcome":"passed","parent":null,"run":true,"uses":[0,1]}"#,
            r#"{"code":null,"id":0,"index":null,"kind":"plan","outcome":"passed","parent":-1,"run":true,"uses":[0,1]}"#,
            r#"{"code":null,"id":0,"index":null,"kind":"plan","outcome":"passed","parent":0.5,"run":true,"uses":[0,1]}"#,
        ],
        below: &[TIMEOUT, TIMEOUT_PLAN, END],
        told: "line 4 rule BadNumber",
    },
    // Of an end line.
    Others {
        above: &[HEADER, TOTAL, GET, PLAN, TIMEOUT, TIMEOUT_PLAN],
        lines: &[
            r#"{"cause":"completed","failed":0,"invs":3,"kind":"end","plans":2,"pruned":0,"run":2,"stopped":null"#,
            "",
        ],
        below: &[],
        told: "line 7 rule NotJson",
    },
    Others {
        above: &[HEADER, TOTAL, GET, PLAN, TIMEOUT, TIMEOUT_PLAN],
        lines: &[
            r#"{"cause":"complete","failed":0,"invs":3,"kind":"end","plans":2,"pruned":0,"run":2,"stopped":null}"#,
            r#"{"cause":"completed","failed":0,"invs":3,"kind":"end","plans":2,"pruned":0,"run":2,"stopped":0}"#,
            r#"{"cause":"completed","failed":0,"invs":3,"kind":"end","plans":2,"pruned":0,"run":2,"stopped":"1.1"}"#,
            r#"{"cause":"completed","failed":0,"invs":3,"kind":"end","plans":2,"pruned":0,"run":2}"#,
            r#"{"cause":"completed","failed":0,"invs":3,"kind":"end","plans":2,"pruned":0,"run":true,"stopped":null}"#,
        ],
        below: &[],
        told: "line 7 rule BadShape",
    },
    Others {
        above: &[HEADER, TOTAL, GET, PLAN, TIMEOUT, TIMEOUT_PLAN],
        lines: &[
            r#"{"cause":"completed","failed":-1,"invs":3,"kind":"end","plans":2,"pruned":0,"run":2,"stopped":null}"#,
            r#"{"cause":"completed","failed":0,"invs":3,"kind":"end","plans":2.0,"pruned":0,"run":2,"stopped":null}"#,
            r#"{"cause":"completed","failed":0,"invs":18446744073709551616,"kind":"end","plans":2,"pruned":0,"run":2,"stopped":null}"#,
        ],
        below: &[],
        told: "line 7 rule BadNumber",
    },
];

#[test]
fn lines_that_are_not_read_are_found(rt: HostRuntime) -> Result<(), Fail> {
    let sources = Sources::of(rt.alloc(), &CART).ok_or("refused sources")?;
    for all in [ABOVE, BELOW] {
        assert_eq!(rt; first_other_line(rt.alloc(), &sources, all), None);
    }
    Ok(())
}

/// The whole lines of a report, what stands behind them, and what is told.
type Cut = (&'static [&'static str], &'static str, &'static str);

const CUTS: &[Cut] = &[
    (&[], "", "line 1 rule V1"),
    (&[], HEADER, "line 1 rule CutLine"),
    (&[HEADER], TOTAL, "line 2 rule CutLine"),
    (&[HEADER, TOTAL], r#"{"args":[2"#, "line 3 rule CutLine"),
    (&[HEADER, TOTAL, GET], PLAN, "line 4 rule CutLine"),
    (
        &[HEADER, TOTAL, GET, PLAN, TIMEOUT],
        TIMEOUT_PLAN,
        "line 6 rule CutLine",
    ),
    (
        &[HEADER, TOTAL, GET, PLAN, TIMEOUT, TIMEOUT_PLAN],
        "",
        "line 7 rule V1",
    ),
    (
        &[HEADER, TOTAL, GET, PLAN, TIMEOUT, TIMEOUT_PLAN],
        END,
        "line 7 rule CutLine",
    ),
    (
        &[HEADER, TOTAL, GET, PLAN, TIMEOUT, TIMEOUT_PLAN, END],
        " ",
        "line 8 rule CutLine",
    ),
    // Whatever else the cut line breaks, and what a line above it breaks.
    (&[], "[[", "line 1 rule CutLine"),
    (&[], END, "line 1 rule CutLine"),
    (&[HEADER], HEADER, "line 2 rule CutLine"),
    (&[HEADER, PLAN], PLAN, "line 2 rule V4"),
    (&[TOTAL], "", "line 1 rule V1"),
];

fn is_told(alloc: Global, sources: &Sources, cut: &Cut) -> Option<bool> {
    let (lines, rest, told) = *cut;
    let mut bytes = report(alloc, lines, &[]).ok()?;
    bytes.extend_from_slice(rest.as_bytes()).ok()?;
    tells(alloc, sources, &bytes, told)
}

#[test]
fn a_line_is_cut_where_it_has_no_line_feed(rt: HostRuntime) -> Result<(), Fail> {
    let sources = Sources::of(rt.alloc(), &CART).ok_or("refused sources")?;
    for cut in CUTS {
        assert_eq!(rt; is_told(rt.alloc(), &sources, cut), Some(true), "{}", cut.2);
    }
    Ok(())
}
