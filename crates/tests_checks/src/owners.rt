//! The rules on all lines: owners of records, and extensions that have a line.

use crate::checking::{Forged, first_other};
use crate::reports::{
    AGAIN_PLAN, BUY, BUY_AGAIN, BUY_END, BUY_NOTHING, END, FIRST_END, GET, HEADER, NOTHING_PLAN,
    PLAN, PRUNED, PRUNED_END, TIMEOUT, TIMEOUT_PLAN, TOTAL, TWICE_END, TWICE_FAILED, TWICE_IDLE,
    TWICE_IDLE_END, TWICE_PLAN, TWICE_PRUNED, UNUSED,
};
use crate::sources::{CART, NO_CALLS, NO_FAULTS, RETRY, Sources, TWICE, TWO_CODES, Texts};
use std::test::Fail;

/// Of the cart.
const OWNERS: &[Forged] = &[
    // A record that the run line that it names does not use, or that names no line.
    Forged {
        lines: &[
            HEADER,
            r#"{"args":[2],"calls":[{"args":[2],"callee":"price.get","count":1,"reply":{"ok":20},"site":1}],"id":0,"kind":"inv","method":"cart.total","plan":1,"reply":{"ok":20},"steps":3}"#,
            GET,
            PLAN,
            TIMEOUT,
            TIMEOUT_PLAN,
            END,
        ],
        told: "line 2 rule V7",
    },
    Forged {
        lines: &[
            HEADER,
            TOTAL,
            r#"{"args":[2],"calls":[],"id":1,"kind":"inv","method":"price.get","plan":9,"reply":{"ok":20},"steps":1}"#,
            PLAN,
            TIMEOUT,
            TIMEOUT_PLAN,
            END,
        ],
        told: "line 3 rule V7",
    },
    Forged {
        lines: &[
            HEADER,
            r#"{"args":[2],"calls":[{"args":[2],"callee":"price.get","count":1,"reply":{"ok":20},"site":1}],"id":0,"kind":"inv","method":"cart.total","plan":1,"reply":{"ok":20},"steps":3}"#,
            r#"{"args":[2],"calls":[],"id":1,"kind":"inv","method":"price.get","plan":1,"reply":{"ok":20},"steps":1}"#,
            PLAN,
            TIMEOUT,
            TIMEOUT_PLAN,
            END,
        ],
        told: "line 2 rule V7",
    },
    // A record that no line uses.
    Forged {
        lines: &[
            HEADER,
            TOTAL,
            GET,
            PLAN,
            TIMEOUT,
            TIMEOUT_PLAN,
            UNUSED,
            r#"{"cause":"completed","failed":0,"invs":4,"kind":"end","plans":2,"pruned":0,"run":2,"stopped":null}"#,
        ],
        told: "line 7 rule V7",
    },
    // The only use is that of a pruned line.
    Forged {
        lines: &[
            HEADER,
            TOTAL,
            GET,
            PLAN,
            r#"{"args":[2],"calls":[{"args":[2],"callee":"price.get","count":1,"reply":{"err":"timeout"},"site":1}],"id":2,"kind":"inv","method":"cart.total","plan":0,"reply":{"ok":5},"steps":4}"#,
            PRUNED,
            PRUNED_END,
        ],
        told: "line 5 rule V7",
    },
    // A pruned line uses a record of its own, or of a line below it.
    Forged {
        lines: &[HEADER, TOTAL, GET, PLAN, TIMEOUT, PRUNED, PRUNED_END],
        told: "line 6 rule V7",
    },
    Forged {
        lines: &[
            HEADER,
            TOTAL,
            GET,
            PLAN,
            r#"{"args":[2],"calls":[{"args":[2],"callee":"price.get","count":1,"reply":{"err":"timeout"},"site":1}],"id":2,"kind":"inv","method":"cart.total","plan":2,"reply":{"ok":5},"steps":4}"#,
            PRUNED,
            PRUNED_END,
        ],
        told: "line 6 rule V7",
    },
];

/// Of the test that calls the cart twice.
const TWICES: &[Forged] = &[
    Forged {
        lines: &[
            HEADER,
            TOTAL,
            GET,
            TWICE_PLAN,
            TIMEOUT,
            TWICE_FAILED,
            TWICE_PRUNED,
            TWICE_END,
        ],
        told: "yes plans 3 run 2 pruned 1 failed 1 invs 3",
    },
    // The record is that of the pruned line.
    Forged {
        lines: &[
            HEADER,
            TOTAL,
            GET,
            TWICE_PLAN,
            r#"{"args":[2],"calls":[{"args":[2],"callee":"price.get","count":1,"reply":{"err":"timeout"},"site":1}],"id":2,"kind":"inv","method":"cart.total","plan":2,"reply":{"ok":5},"steps":4}"#,
            TWICE_FAILED,
            TWICE_PRUNED,
            TWICE_END,
        ],
        told: "line 7 rule V7",
    },
    // The record may be that of the line below, and then the line above brings none.
    Forged {
        lines: &[
            HEADER,
            TOTAL,
            GET,
            TWICE_PLAN,
            r#"{"args":[2],"calls":[{"args":[2],"callee":"price.get","count":1,"reply":{"err":"timeout"},"site":1}],"id":2,"kind":"inv","method":"cart.total","plan":2,"reply":{"ok":5},"steps":4}"#,
            TWICE_FAILED,
            TWICE_IDLE,
            TWICE_IDLE_END,
        ],
        told: "line 6 rule V8",
    },
    Forged {
        lines: &[
            HEADER,
            TOTAL,
            GET,
            TWICE_PLAN,
            r#"{"args":[2],"calls":[{"args":[2],"callee":"price.get","count":1,"reply":{"err":"timeout"},"site":1}],"id":2,"kind":"inv","method":"cart.total","plan":2,"reply":{"ok":5},"steps":4}"#,
            r#"{"code":"timeout","id":1,"index":"1.1/1.1","kind":"plan","outcome":"assert_failed 1","parent":0,"run":false,"uses":[2]}"#,
            TWICE_IDLE,
            r#"{"cause":"completed","failed":1,"invs":3,"kind":"end","plans":3,"pruned":1,"run":2,"stopped":null}"#,
        ],
        told: "line 6 rule V7",
    },
    // A run line brings no record.
    Forged {
        lines: &[
            HEADER,
            TOTAL,
            GET,
            TWICE_PLAN,
            TIMEOUT,
            TWICE_FAILED,
            TWICE_IDLE,
            TWICE_IDLE_END,
        ],
        told: "line 7 rule V8",
    },
    Forged {
        lines: &[
            r#"{"fuel":100000,"kind":"header","reduction":false,"version":1}"#,
            TOTAL,
            GET,
            TWICE_PLAN,
            TIMEOUT,
            TWICE_FAILED,
            TWICE_IDLE,
            TWICE_IDLE_END,
        ],
        told: "yes plans 3 run 3 pruned 0 failed 1 invs 3",
    },
    // Another outcome, and that of the parent.
    Forged {
        lines: &[
            HEADER,
            TOTAL,
            GET,
            TWICE_PLAN,
            TIMEOUT,
            r#"{"code":"timeout","id":1,"index":"1.1/1.1","kind":"plan","outcome":"passed","parent":0,"run":true,"uses":[2]}"#,
            TWICE_PRUNED,
            TWICE_END,
        ],
        told: "line 6 rule V5",
    },
    Forged {
        lines: &[
            HEADER,
            TOTAL,
            GET,
            TWICE_PLAN,
            TIMEOUT,
            r#"{"code":"timeout","id":1,"index":"1.1/1.1","kind":"plan","outcome":"assert_failed 2","parent":0,"run":true,"uses":[2]}"#,
            TWICE_PRUNED,
            TWICE_END,
        ],
        told: "line 6 rule V5",
    },
    Forged {
        lines: &[
            HEADER,
            TOTAL,
            GET,
            TWICE_PLAN,
            TIMEOUT,
            TWICE_FAILED,
            r#"{"code":"timeout","id":2,"index":"2.1/1.1","kind":"plan","outcome":"assert_failed 1","parent":0,"run":false,"uses":[0,1,2]}"#,
            TWICE_END,
        ],
        told: "line 7 rule V5",
    },
    // The second extension has no line.
    Forged {
        lines: &[
            HEADER,
            TOTAL,
            GET,
            TWICE_PLAN,
            TIMEOUT,
            TWICE_FAILED,
            r#"{"cause":"completed","failed":1,"invs":3,"kind":"end","plans":2,"pruned":0,"run":2,"stopped":null}"#,
        ],
        told: "line 4 rule V6 2.1/1.1=timeout",
    },
];

/// Of the shop that asks twice.
const RETRIES: &[Forged] = &[
    Forged {
        lines: &[
            HEADER,
            BUY,
            GET,
            PLAN,
            BUY_AGAIN,
            AGAIN_PLAN,
            BUY_NOTHING,
            NOTHING_PLAN,
            BUY_END,
        ],
        told: "yes plans 3 run 3 pruned 0 failed 1 invs 4",
    },
    // An extension of the last plan has no line.
    Forged {
        lines: &[
            HEADER,
            BUY,
            GET,
            PLAN,
            BUY_AGAIN,
            AGAIN_PLAN,
            r#"{"cause":"completed","failed":0,"invs":3,"kind":"end","plans":2,"pruned":0,"run":2,"stopped":null}"#,
        ],
        told: "line 6 rule V6 1.1/1.2=unavailable",
    },
    Forged {
        lines: &[HEADER, BUY, GET, PLAN, FIRST_END],
        told: "line 4 rule V6 1.1/1.1=unavailable",
    },
    // The parent has no call there.
    Forged {
        lines: &[
            HEADER,
            BUY,
            GET,
            PLAN,
            BUY_AGAIN,
            AGAIN_PLAN,
            BUY_NOTHING,
            r#"{"code":"unavailable","id":2,"index":"1.1/1.2","kind":"plan","outcome":"call_failed 1 unavailable","parent":0,"run":true,"uses":[3]}"#,
            BUY_END,
        ],
        told: "line 8 rule V3",
    },
    Forged {
        lines: &[
            HEADER,
            BUY,
            GET,
            PLAN,
            BUY_AGAIN,
            AGAIN_PLAN,
            BUY_NOTHING,
            r#"{"code":"unavailable","id":2,"index":"1.1/1.2","kind":"plan","outcome":"call_failed 1 unavailable","parent":2,"run":true,"uses":[3]}"#,
            BUY_END,
        ],
        told: "line 8 rule V3",
    },
    // Another outcome, and that of the parent.
    Forged {
        lines: &[
            HEADER,
            BUY,
            GET,
            PLAN,
            BUY_AGAIN,
            AGAIN_PLAN,
            BUY_NOTHING,
            r#"{"code":"unavailable","id":2,"index":"1.1/1.2","kind":"plan","outcome":"passed","parent":1,"run":true,"uses":[3]}"#,
            BUY_END,
        ],
        told: "line 8 rule V5",
    },
    Forged {
        lines: &[
            HEADER,
            BUY,
            GET,
            PLAN,
            BUY_AGAIN,
            AGAIN_PLAN,
            BUY_NOTHING,
            r#"{"code":"unavailable","id":2,"index":"1.1/1.2","kind":"plan","outcome":"call_failed 2 unavailable","parent":1,"run":true,"uses":[3]}"#,
            BUY_END,
        ],
        told: "line 8 rule V5",
    },
    Forged {
        lines: &[
            HEADER,
            BUY,
            GET,
            PLAN,
            BUY_AGAIN,
            AGAIN_PLAN,
            BUY_NOTHING,
            r#"{"code":"unavailable","id":2,"index":"1.1/1.2","kind":"plan","outcome":"call_failed 1 timeout","parent":1,"run":true,"uses":[3]}"#,
            BUY_END,
        ],
        told: "line 8 rule V5",
    },
    Forged {
        lines: &[
            HEADER,
            BUY,
            GET,
            PLAN,
            BUY_AGAIN,
            r#"{"code":"unavailable","id":1,"index":"1.1/1.2","kind":"plan","outcome":"passed","parent":0,"run":true,"uses":[2,1]}"#,
        ],
        told: "line 6 rule V3",
    },
    // The second run takes 16 units of fuel.
    Forged {
        lines: &[
            r#"{"fuel":16,"kind":"header","reduction":true,"version":1}"#,
            BUY,
            GET,
            PLAN,
            BUY_AGAIN,
            AGAIN_PLAN,
            BUY_NOTHING,
            NOTHING_PLAN,
            BUY_END,
        ],
        told: "yes plans 3 run 3 pruned 0 failed 1 invs 4",
    },
    Forged {
        lines: &[
            r#"{"fuel":15,"kind":"header","reduction":true,"version":1}"#,
            BUY,
            GET,
            PLAN,
            BUY_AGAIN,
            AGAIN_PLAN,
            BUY_NOTHING,
            NOTHING_PLAN,
            BUY_END,
        ],
        told: "line 6 rule V4",
    },
    Forged {
        lines: &[
            r#"{"fuel":11,"kind":"header","reduction":true,"version":1}"#,
            BUY,
            GET,
            PLAN,
            BUY_AGAIN,
            AGAIN_PLAN,
            BUY_NOTHING,
            NOTHING_PLAN,
            BUY_END,
        ],
        told: "line 5 rule V2",
    },
];

/// Where two codes are configured.
const CODES: &[Forged] = &[
    Forged {
        lines: &[HEADER, TOTAL, GET, PLAN, TIMEOUT, TIMEOUT_PLAN, END],
        told: "line 4 rule V6 1.1/1.1=unavailable",
    },
    // The first of two extensions.
    Forged {
        lines: &[HEADER, TOTAL, GET, PLAN, FIRST_END],
        told: "line 4 rule V6 1.1/1.1=timeout",
    },
];

/// Where nothing is configured.
const FAULTLESS: &[Forged] = &[
    Forged {
        lines: &[HEADER, TOTAL, GET, PLAN, FIRST_END],
        told: "yes plans 1 run 1 pruned 0 failed 0 invs 2",
    },
    Forged {
        lines: &[HEADER, TOTAL, GET, PLAN, TIMEOUT, TIMEOUT_PLAN, END],
        told: "line 6 rule V3",
    },
];

/// Of a test without calls.
const CALLLESS: &[Forged] = &[
    // The first plan needs no record.
    Forged {
        lines: &[
            HEADER,
            r#"{"code":null,"id":0,"index":null,"kind":"plan","outcome":"passed","parent":null,"run":true,"uses":[]}"#,
            r#"{"cause":"completed","failed":0,"invs":0,"kind":"end","plans":1,"pruned":0,"run":1,"stopped":null}"#,
        ],
        told: "yes plans 1 run 1 pruned 0 failed 0 invs 0",
    },
    Forged {
        lines: &[HEADER, PLAN, END],
        told: "line 2 rule V4",
    },
];

const ALL: [(&Texts, &[Forged]); 6] = [
    (&CART, OWNERS),
    (&TWICE, TWICES),
    (&RETRY, RETRIES),
    (&TWO_CODES, CODES),
    (&NO_FAULTS, FAULTLESS),
    (&NO_CALLS, CALLLESS),
];

#[test]
fn all_lines_break_a_rule(rt: HostRuntime) -> Result<(), Fail> {
    for (texts, reports) in ALL {
        let sources = Sources::of(rt.alloc(), texts).ok_or("refused sources")?;
        assert_eq!(rt;
            first_other(rt.alloc(), &sources, reports),
            None,
            "{}",
            texts.test
        );
    }
    Ok(())
}
