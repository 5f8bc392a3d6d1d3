//! Reports of which one line is forged.

use crate::checking::{Forged, first_other};
use crate::reports::{CART_YES, END, FIRST_END, GET, HEADER, PLAN, TIMEOUT, TIMEOUT_PLAN, TOTAL};
use crate::sources::{CART, Sources};
use std::test::Fail;

/// Each has one change.
const FORGED: &[Forged] = &[
    // A line that is missing, stands elsewhere or stands twice.
    Forged {
        lines: &[TOTAL, GET, PLAN, TIMEOUT, TIMEOUT_PLAN, END],
        told: "line 1 rule V1",
    },
    Forged {
        lines: &[HEADER, GET, TOTAL, PLAN, TIMEOUT, TIMEOUT_PLAN, END],
        told: "line 2 rule V1",
    },
    Forged {
        lines: &[HEADER, TOTAL, GET, PLAN, TIMEOUT_PLAN, TIMEOUT, END],
        told: "line 5 rule V4",
    },
    Forged {
        lines: &[
            HEADER,
            TOTAL,
            GET,
            r#"{"args":[2],"calls":[],"id":2,"kind":"inv","method":"price.get","plan":0,"reply":{"ok":20},"steps":1}"#,
            PLAN,
            TIMEOUT,
            TIMEOUT_PLAN,
            END,
        ],
        told: "line 4 rule V2",
    },
    Forged {
        lines: &[HEADER, TOTAL, GET, PLAN, PLAN, TIMEOUT, TIMEOUT_PLAN, END],
        told: "line 5 rule V1",
    },
    // Another header.
    Forged {
        lines: &[
            r#"{"fuel":6,"kind":"header","reduction":true,"version":1}"#,
            TOTAL,
            GET,
            PLAN,
            TIMEOUT,
            TIMEOUT_PLAN,
            END,
        ],
        told: "line 4 rule V4",
    },
    Forged {
        lines: &[
            r#"{"fuel":0,"kind":"header","reduction":true,"version":1}"#,
            TOTAL,
            GET,
            PLAN,
            TIMEOUT,
            TIMEOUT_PLAN,
            END,
        ],
        told: "line 1 rule BadNumber",
    },
    Forged {
        lines: &[
            r#"{"fuel":"100000","kind":"header","reduction":true,"version":1}"#,
            TOTAL,
            GET,
            PLAN,
            TIMEOUT,
            TIMEOUT_PLAN,
            END,
        ],
        told: "line 1 rule BadShape",
    },
    Forged {
        lines: &[
            r#"{"fuel":1000,"kind":"header","reduction":true,"version":1}"#,
            TOTAL,
            GET,
            PLAN,
            TIMEOUT,
            TIMEOUT_PLAN,
            END,
        ],
        told: CART_YES,
    },
    Forged {
        lines: &[
            r#"{"fuel":100000,"kind":"header","reduction":false,"version":1}"#,
            TOTAL,
            GET,
            PLAN,
            TIMEOUT,
            TIMEOUT_PLAN,
            END,
        ],
        told: CART_YES,
    },
    Forged {
        lines: &[
            " { \"fuel\" : 100000 ,\t\"kind\" : \"header\" , \"reduction\" : true , \"version\" : 1 } \r",
            TOTAL,
            GET,
            PLAN,
            TIMEOUT,
            TIMEOUT_PLAN,
            END,
        ],
        told: CART_YES,
    },
    // Another record.
    Forged {
        lines: &[
            HEADER,
            r#"{"args":[2],"calls":[{"args":[2],"callee":"price.get","count":1,"reply":{"ok":20},"site":1}],"id":0,"kind":"inv","method":"cart.total","plan":0,"reply":{"ok":20},"steps":2}"#,
            GET,
            PLAN,
            TIMEOUT,
            TIMEOUT_PLAN,
            END,
        ],
        told: "line 2 rule V2",
    },
    Forged {
        lines: &[
            HEADER,
            r#"{"args":[2],"calls":[{"args":[2],"callee":"price.get","count":0,"reply":{"ok":20},"site":1}],"id":0,"kind":"inv","method":"cart.total","plan":0,"reply":{"ok":20},"steps":3}"#,
            GET,
            PLAN,
            TIMEOUT,
            TIMEOUT_PLAN,
            END,
        ],
        told: "line 2 rule BadShape",
    },
    Forged {
        lines: &[
            HEADER,
            r#"{"args":[2],"calls":[{"args":[2],"callee":"price.get","count":1,"reply":{"ok":20},"site":1}],"id":-1,"kind":"inv","method":"cart.total","plan":0,"reply":{"ok":20},"steps":3}"#,
            GET,
            PLAN,
            TIMEOUT,
            TIMEOUT_PLAN,
            END,
        ],
        told: "line 2 rule BadNumber",
    },
    Forged {
        lines: &[
            HEADER,
            TOTAL,
            r#"{"args":[2],"calls":[],"id":1,"kind":"inv","method":"price.git","plan":0,"reply":{"ok":20},"steps":1}"#,
            PLAN,
            TIMEOUT,
            TIMEOUT_PLAN,
            END,
        ],
        told: "line 3 rule V2",
    },
    Forged {
        lines: &[
            HEADER,
            TOTAL,
            r#"{"args":["2"],"calls":[],"id":1,"kind":"inv","method":"price.get","plan":0,"reply":{"ok":20},"steps":1}"#,
            PLAN,
            TIMEOUT,
            TIMEOUT_PLAN,
            END,
        ],
        told: "line 3 rule V2",
    },
    // Another plan line.
    Forged {
        lines: &[
            HEADER,
            TOTAL,
            GET,
            r#"{"code":null,"id":0,"index":null,"kind":"plan","outcome":"passed","parent":null,"run":true,"uses":[0]}"#,
            TIMEOUT,
            TIMEOUT_PLAN,
            END,
        ],
        told: "line 4 rule V4",
    },
    Forged {
        lines: &[
            HEADER,
            TOTAL,
            GET,
            r#"{"code":null,"id":0,"index":null,"kind":"plan","outcome":"passed","parent":null,"run":true,"uses":[0,1,1]}"#,
            TIMEOUT,
            TIMEOUT_PLAN,
            END,
        ],
        told: "line 4 rule V4",
    },
    Forged {
        lines: &[
            HEADER,
            TOTAL,
            GET,
            r#"{"code":null,"id":0,"index":null,"kind":"plan","outcome":"passed","parent":null,"run":true,"uses":[0,1],"x":0}"#,
            TIMEOUT,
            TIMEOUT_PLAN,
            END,
        ],
        told: "line 4 rule BadShape",
    },
    // Another owner.
    Forged {
        lines: &[
            HEADER,
            TOTAL,
            GET,
            PLAN,
            r#"{"args":[2],"calls":[{"args":[2],"callee":"price.get","count":1,"reply":{"err":"timeout"},"site":1}],"id":2,"kind":"inv","method":"cart.total","plan":0,"reply":{"ok":5},"steps":4}"#,
            TIMEOUT_PLAN,
            END,
        ],
        told: "line 5 rule V7",
    },
    // Another second plan.
    Forged {
        lines: &[
            HEADER,
            TOTAL,
            GET,
            PLAN,
            TIMEOUT,
            r#"{"code":"unavailable","id":1,"index":"1.1/1.1","kind":"plan","outcome":"passed","parent":0,"run":true,"uses":[2]}"#,
            END,
        ],
        told: "line 6 rule V3",
    },
    Forged {
        lines: &[
            HEADER,
            TOTAL,
            GET,
            PLAN,
            TIMEOUT,
            r#"{"code":"timeout","id":1,"index":"1.1","kind":"plan","outcome":"passed","parent":0,"run":true,"uses":[2]}"#,
            END,
        ],
        told: "line 6 rule V3",
    },
    Forged {
        lines: &[
            HEADER,
            TOTAL,
            GET,
            PLAN,
            TIMEOUT,
            r#"{"code":"timeout","id":1,"index":"1.1/1.1","kind":"plan","outcome":"passed","parent":1,"run":true,"uses":[2]}"#,
            END,
        ],
        told: "line 6 rule V3",
    },
    Forged {
        lines: &[
            HEADER,
            TOTAL,
            GET,
            PLAN,
            TIMEOUT,
            r#"{"code":"timeout","id":1,"index":"1.1/1.1","kind":"plan","outcome":"assert_failed 1","parent":0,"run":true,"uses":[2]}"#,
            END,
        ],
        told: "line 6 rule V5",
    },
    Forged {
        lines: &[
            HEADER,
            TOTAL,
            GET,
            PLAN,
            TIMEOUT,
            r#"{"code":"timeout","id":1,"index":"1.1/1.1","kind":"plan","outcome":"passed","parent":0,"run":false,"uses":[2]}"#,
            END,
        ],
        told: "line 6 rule V7",
    },
    // Another end.
    Forged {
        lines: &[HEADER, TOTAL, GET, PLAN, FIRST_END],
        told: "line 4 rule V6 1.1/1.1=timeout",
    },
    Forged {
        lines: &[
            HEADER,
            TOTAL,
            GET,
            PLAN,
            TIMEOUT,
            TIMEOUT_PLAN,
            r#"{"cause":"completed","failed":1,"invs":3,"kind":"end","plans":2,"pruned":0,"run":2,"stopped":null}"#,
        ],
        told: "line 7 rule V1",
    },
    Forged {
        lines: &[
            HEADER,
            r#"{"cause":"completed","failed":0,"invs":0,"kind":"end","plans":0,"pruned":0,"run":0,"stopped":null}"#,
        ],
        told: "line 2 rule V1",
    },
    Forged {
        lines: &[HEADER, TOTAL, GET, PLAN, TIMEOUT, TIMEOUT_PLAN, END, ""],
        told: "line 8 rule NotJson",
    },
    Forged {
        lines: &[HEADER, TOTAL, GET, PLAN, TIMEOUT, TIMEOUT_PLAN, END, HEADER],
        told: "line 8 rule V1",
    },
    Forged {
        lines: &[
            "[[[[[[[[[[[[[[[[[[[[[[[[[[[[[[[[[[[[[[[[[[[[[[[[[[[[[[[[[[[[[[[[[[[[[[[[[[[[[[[[[[[[[[[[[[[[[[[[[[[[[[[[[[[[[[[[[[[[[[[[[[[[[[[[[[[[[[[[[[[[[[[[[[[[[[[[[[[[[[[[[[[[[[[[[[[[[[[[[[[[[[[[[[[[[[[[[[[[[[[[",
        ],
        told: "line 1 rule NotJson",
    },
];

#[test]
fn a_forged_line_is_found(rt: HostRuntime) -> Result<(), Fail> {
    let sources = Sources::of(rt.alloc(), &CART).ok_or("refused sources")?;
    assert_eq!(rt; first_other(rt.alloc(), &sources, FORGED), None);
    Ok(())
}
