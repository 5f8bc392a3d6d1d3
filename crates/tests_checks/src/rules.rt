//! The rules that a line breaks by itself and the lines above it.

use crate::checking::{Others, first_other_line};
use crate::reports::{END, FIRST_END, GET, HEADER, PLAN, TIMEOUT, TIMEOUT_PLAN, TOTAL};
use crate::sources::{CART, Sources};
use std::test::Fail;

/// Lines that have no place there.
const PLACES: &[Others] = &[
    // The header is the first line, and no other.
    Others {
        above: &[],
        lines: &[TOTAL, PLAN, END],
        below: &[TOTAL, GET, PLAN, TIMEOUT, TIMEOUT_PLAN, END],
        told: "line 1 rule V1",
    },
    Others {
        above: &[HEADER],
        lines: &[HEADER],
        below: &[TOTAL, GET, PLAN, TIMEOUT, TIMEOUT_PLAN, END],
        told: "line 2 rule V1",
    },
    Others {
        above: &[HEADER, TOTAL, GET, PLAN, TIMEOUT, TIMEOUT_PLAN],
        lines: &[HEADER],
        below: &[END],
        told: "line 7 rule V1",
    },
    // Inv lines and plan lines are numbered, each by themselves.
    Others {
        above: &[HEADER],
        lines: &[
            r#"{"args":[2],"calls":[{"args":[2],"callee":"price.get","count":1,"reply":{"ok":20},"site":1}],"id":1,"kind":"inv","method":"cart.total","plan":0,"reply":{"ok":20},"steps":3}"#,
            r#"{"args":[2],"calls":[{"args":[2],"callee":"price.get","count":1,"reply":{"ok":20},"site":1}],"id":18446744073709551615,"kind":"inv","method":"cart.total","plan":0,"reply":{"ok":20},"steps":3}"#,
        ],
        below: &[GET, PLAN, TIMEOUT, TIMEOUT_PLAN, END],
        told: "line 2 rule V1",
    },
    Others {
        above: &[HEADER, TOTAL],
        lines: &[
            r#"{"args":[2],"calls":[],"id":0,"kind":"inv","method":"price.get","plan":0,"reply":{"ok":20},"steps":1}"#,
            r#"{"args":[2],"calls":[],"id":2,"kind":"inv","method":"price.get","plan":0,"reply":{"ok":20},"steps":1}"#,
        ],
        below: &[PLAN, TIMEOUT, TIMEOUT_PLAN, END],
        told: "line 3 rule V1",
    },
    Others {
        above: &[HEADER, TOTAL, GET, PLAN],
        lines: &[
            r#"{"args":[2],"calls":[{"args":[2],"callee":"price.get","count":1,"reply":{"err":"timeout"},"site":1}],"id":1,"kind":"inv","method":"cart.total","plan":1,"reply":{"ok":5},"steps":4}"#,
            r#"{"args":[2],"calls":[{"args":[2],"callee":"price.get","count":1,"reply":{"err":"timeout"},"site":1}],"id":3,"kind":"inv","method":"cart.total","plan":1,"reply":{"ok":5},"steps":4}"#,
        ],
        below: &[TIMEOUT_PLAN, END],
        told: "line 5 rule V1",
    },
    Others {
        above: &[HEADER, TOTAL, GET],
        lines: &[
            r#"{"code":null,"id":1,"index":null,"kind":"plan","outcome":"passed","parent":null,"run":true,"uses":[0,1]}"#,
            r#"{"code":null,"id":3,"index":null,"kind":"plan","outcome":"passed","parent":null,"run":true,"uses":[0,1]}"#,
        ],
        below: &[TIMEOUT, TIMEOUT_PLAN, END],
        told: "line 4 rule V1",
    },
    Others {
        above: &[HEADER, TOTAL, GET, PLAN, TIMEOUT],
        lines: &[
            r#"{"code":"timeout","id":0,"index":"1.1/1.1","kind":"plan","outcome":"passed","parent":0,"run":true,"uses":[2]}"#,
            r#"{"code":"timeout","id":2,"index":"1.1/1.1","kind":"plan","outcome":"passed","parent":0,"run":true,"uses":[2]}"#,
        ],
        below: &[END],
        told: "line 6 rule V1",
    },
    // No line follows an end line.
    Others {
        above: &[HEADER, TOTAL, GET, PLAN, TIMEOUT, TIMEOUT_PLAN, END],
        lines: &[
            HEADER,
            r#"{"args":[3],"calls":[],"id":3,"kind":"inv","method":"price.get","plan":0,"reply":{"ok":30},"steps":1}"#,
            r#"{"code":"timeout","id":2,"index":"1.1/1.1","kind":"plan","outcome":"passed","parent":0,"run":true,"uses":[2]}"#,
            END,
        ],
        below: &[],
        told: "line 8 rule V1",
    },
    Others {
        above: &[HEADER, TOTAL, GET, PLAN, FIRST_END],
        lines: &[TIMEOUT],
        below: &[TIMEOUT_PLAN, END],
        told: "line 6 rule V1",
    },
    // An end line tells of a campaign that completed, and its totals.
    Others {
        above: &[HEADER, TOTAL, GET, PLAN, TIMEOUT, TIMEOUT_PLAN],
        lines: &[
            r#"{"cause":"fuel","failed":0,"invs":3,"kind":"end","plans":2,"pruned":0,"run":2,"stopped":null}"#,
            r#"{"cause":"budget","failed":0,"invs":3,"kind":"end","plans":2,"pruned":0,"run":2,"stopped":null}"#,
            r#"{"cause":"completed","failed":0,"invs":3,"kind":"end","plans":2,"pruned":0,"run":2,"stopped":"none"}"#,
            r#"{"cause":"completed","failed":1,"invs":3,"kind":"end","plans":2,"pruned":0,"run":2,"stopped":null}"#,
            r#"{"cause":"completed","failed":0,"invs":2,"kind":"end","plans":2,"pruned":0,"run":2,"stopped":null}"#,
            r#"{"cause":"completed","failed":0,"invs":4,"kind":"end","plans":2,"pruned":0,"run":2,"stopped":null}"#,
            r#"{"cause":"completed","failed":0,"invs":3,"kind":"end","plans":1,"pruned":0,"run":2,"stopped":null}"#,
            r#"{"cause":"completed","failed":0,"invs":3,"kind":"end","plans":3,"pruned":0,"run":2,"stopped":null}"#,
            r#"{"cause":"completed","failed":0,"invs":3,"kind":"end","plans":2,"pruned":1,"run":2,"stopped":null}"#,
            r#"{"cause":"completed","failed":0,"invs":3,"kind":"end","plans":2,"pruned":0,"run":1,"stopped":null}"#,
            r#"{"cause":"completed","failed":0,"invs":3,"kind":"end","plans":2,"pruned":0,"run":3,"stopped":null}"#,
            r#"{"cause":"completed","failed":0,"invs":3,"kind":"end","plans":2,"pruned":1,"run":1,"stopped":null}"#,
        ],
        below: &[],
        told: "line 7 rule V1",
    },
    // A plan line stands above it.
    Others {
        above: &[HEADER],
        lines: &[
            r#"{"cause":"completed","failed":0,"invs":0,"kind":"end","plans":0,"pruned":0,"run":0,"stopped":null}"#,
        ],
        below: &[],
        told: "line 2 rule V1",
    },
    Others {
        above: &[HEADER, TOTAL, GET],
        lines: &[
            r#"{"cause":"completed","failed":0,"invs":2,"kind":"end","plans":0,"pruned":0,"run":0,"stopped":null}"#,
        ],
        below: &[],
        told: "line 4 rule V1",
    },
];

/// Records that are not true, or known.
const RECORDS: &[Others] = &[
    // Of another method, or with other arguments.
    Others {
        above: &[HEADER],
        lines: &[
            r#"{"args":[2],"calls":[{"args":[2],"callee":"price.get","count":1,"reply":{"ok":20},"site":1}],"id":0,"kind":"inv","method":"kart.total","plan":0,"reply":{"ok":20},"steps":3}"#,
            r#"{"args":[2],"calls":[{"args":[2],"callee":"price.get","count":1,"reply":{"ok":20},"site":1}],"id":0,"kind":"inv","method":"cart.get","plan":0,"reply":{"ok":20},"steps":3}"#,
            r#"{"args":[2],"calls":[{"args":[2],"callee":"price.get","count":1,"reply":{"ok":20},"site":1}],"id":0,"kind":"inv","method":"price.get","plan":0,"reply":{"ok":20},"steps":3}"#,
            r#"{"args":[],"calls":[{"args":[2],"callee":"price.get","count":1,"reply":{"ok":20},"site":1}],"id":0,"kind":"inv","method":"cart.total","plan":0,"reply":{"ok":20},"steps":3}"#,
            r#"{"args":[2,2],"calls":[{"args":[2],"callee":"price.get","count":1,"reply":{"ok":20},"site":1}],"id":0,"kind":"inv","method":"cart.total","plan":0,"reply":{"ok":20},"steps":3}"#,
            r#"{"args":[3],"calls":[{"args":[2],"callee":"price.get","count":1,"reply":{"ok":20},"site":1}],"id":0,"kind":"inv","method":"cart.total","plan":0,"reply":{"ok":20},"steps":3}"#,
            r#"{"args":[true],"calls":[{"args":[2],"callee":"price.get","count":1,"reply":{"ok":20},"site":1}],"id":0,"kind":"inv","method":"cart.total","plan":0,"reply":{"ok":20},"steps":3}"#,
            r#"{"args":[[2]],"calls":[{"args":[2],"callee":"price.get","count":1,"reply":{"ok":20},"site":1}],"id":0,"kind":"inv","method":"cart.total","plan":0,"reply":{"ok":20},"steps":3}"#,
        ],
        below: &[GET, PLAN, TIMEOUT, TIMEOUT_PLAN, END],
        told: "line 2 rule V2",
    },
    // With other calls.
    Others {
        above: &[HEADER],
        lines: &[
            r#"{"args":[2],"calls":[],"id":0,"kind":"inv","method":"cart.total","plan":0,"reply":{"ok":20},"steps":3}"#,
            r#"{"args":[2],"calls":[{"args":[2],"callee":"price.get","count":1,"reply":{"ok":20},"site":1},{"args":[2],"callee":"price.get","count":2,"reply":{"ok":20},"site":1}],"id":0,"kind":"inv","method":"cart.total","plan":0,"reply":{"ok":20},"steps":3}"#,
            r#"{"args":[2],"calls":[{"args":[2],"callee":"price.get","count":1,"reply":{"ok":20},"site":1},{"args":[2],"callee":"price.get","count":1,"reply":{"ok":20},"site":1}],"id":0,"kind":"inv","method":"cart.total","plan":0,"reply":{"ok":20},"steps":3}"#,
            r#"{"args":[2],"calls":[{"args":[3],"callee":"price.get","count":1,"reply":{"ok":20},"site":1}],"id":0,"kind":"inv","method":"cart.total","plan":0,"reply":{"ok":20},"steps":3}"#,
            r#"{"args":[2],"calls":[{"args":[],"callee":"price.get","count":1,"reply":{"ok":20},"site":1}],"id":0,"kind":"inv","method":"cart.total","plan":0,"reply":{"ok":20},"steps":3}"#,
            r#"{"args":[2],"calls":[{"args":[2],"callee":"cart.total","count":1,"reply":{"ok":20},"site":1}],"id":0,"kind":"inv","method":"cart.total","plan":0,"reply":{"ok":20},"steps":3}"#,
            r#"{"args":[2],"calls":[{"args":[2],"callee":"price.git","count":1,"reply":{"ok":20},"site":1}],"id":0,"kind":"inv","method":"cart.total","plan":0,"reply":{"ok":20},"steps":3}"#,
            r#"{"args":[2],"calls":[{"args":[2],"callee":"price.get","count":2,"reply":{"ok":20},"site":1}],"id":0,"kind":"inv","method":"cart.total","plan":0,"reply":{"ok":20},"steps":3}"#,
            r#"{"args":[2],"calls":[{"args":[2],"callee":"price.get","count":1,"reply":{"ok":20},"site":2}],"id":0,"kind":"inv","method":"cart.total","plan":0,"reply":{"ok":20},"steps":3}"#,
            r#"{"args":[2],"calls":[{"args":[2],"callee":"price.get","count":1,"reply":{"ok":"20"},"site":1}],"id":0,"kind":"inv","method":"cart.total","plan":0,"reply":{"ok":20},"steps":3}"#,
            r#"{"args":[2],"calls":[{"args":[2],"callee":"price.get","count":1,"reply":{"ok":21},"site":1}],"id":0,"kind":"inv","method":"cart.total","plan":0,"reply":{"ok":20},"steps":3}"#,
            r#"{"args":[2],"calls":[{"args":[2],"callee":"price.get","count":1,"reply":{"err":"timeout"},"site":1}],"id":0,"kind":"inv","method":"cart.total","plan":0,"reply":{"ok":20},"steps":3}"#,
        ],
        below: &[GET, PLAN, TIMEOUT, TIMEOUT_PLAN, END],
        told: "line 2 rule V2",
    },
    // With another reply, or other steps.
    Others {
        above: &[HEADER],
        lines: &[
            r#"{"args":[2],"calls":[{"args":[2],"callee":"price.get","count":1,"reply":{"ok":20},"site":1}],"id":0,"kind":"inv","method":"cart.total","plan":0,"reply":{"ok":5},"steps":3}"#,
            r#"{"args":[2],"calls":[{"args":[2],"callee":"price.get","count":1,"reply":{"ok":20},"site":1}],"id":0,"kind":"inv","method":"cart.total","plan":0,"reply":{"ok":"20"},"steps":3}"#,
            r#"{"args":[2],"calls":[{"args":[2],"callee":"price.get","count":1,"reply":{"ok":20},"site":1}],"id":0,"kind":"inv","method":"cart.total","plan":0,"reply":{"err":"timeout"},"steps":3}"#,
            r#"{"args":[2],"calls":[{"args":[2],"callee":"price.get","count":1,"reply":{"ok":20},"site":1}],"id":0,"kind":"inv","method":"cart.total","plan":0,"reply":{"ok":20},"steps":4}"#,
            r#"{"args":[2],"calls":[{"args":[2],"callee":"price.get","count":1,"reply":{"ok":20},"site":1}],"id":0,"kind":"inv","method":"cart.total","plan":0,"reply":{"ok":20},"steps":0}"#,
        ],
        below: &[GET, PLAN, TIMEOUT, TIMEOUT_PLAN, END],
        told: "line 2 rule V2",
    },
    Others {
        above: &[HEADER, TOTAL],
        lines: &[
            r#"{"args":[2],"calls":[],"id":1,"kind":"inv","method":"price.get","plan":0,"reply":{"ok":30},"steps":1}"#,
            r#"{"args":[2],"calls":[],"id":1,"kind":"inv","method":"price.get","plan":0,"reply":{"ok":20},"steps":2}"#,
            r#"{"args":[2],"calls":[{"args":[2],"callee":"price.get","count":1,"reply":{"ok":20},"site":1}],"id":1,"kind":"inv","method":"price.get","plan":0,"reply":{"ok":20},"steps":1}"#,
        ],
        below: &[PLAN, TIMEOUT, TIMEOUT_PLAN, END],
        told: "line 3 rule V2",
    },
    Others {
        above: &[HEADER, TOTAL, GET, PLAN],
        lines: &[
            r#"{"args":[2],"calls":[{"args":[2],"callee":"price.get","count":1,"reply":{"err":"timeout"},"site":1}],"id":2,"kind":"inv","method":"cart.total","plan":1,"reply":{"ok":20},"steps":4}"#,
            r#"{"args":[2],"calls":[{"args":[2],"callee":"price.get","count":1,"reply":{"err":"timeout"},"site":1}],"id":2,"kind":"inv","method":"cart.total","plan":1,"reply":{"err":"timeout"},"steps":4}"#,
            r#"{"args":[2],"calls":[{"args":[2],"callee":"price.get","count":1,"reply":{"err":"timeout"},"site":1}],"id":2,"kind":"inv","method":"cart.total","plan":1,"reply":{"ok":5},"steps":3}"#,
        ],
        below: &[TIMEOUT_PLAN, END],
        told: "line 5 rule V2",
    },
    // With more steps than there is fuel.
    Others {
        above: &[r#"{"fuel":2,"kind":"header","reduction":true,"version":1}"#],
        lines: &[TOTAL],
        below: &[GET, PLAN, TIMEOUT, TIMEOUT_PLAN, END],
        told: "line 2 rule V2",
    },
    // Of a record above.
    Others {
        above: &[HEADER, TOTAL, GET, PLAN, TIMEOUT],
        lines: &[
            r#"{"args":[2],"calls":[{"args":[2],"callee":"price.get","count":1,"reply":{"err":"timeout"},"site":1}],"id":3,"kind":"inv","method":"cart.total","plan":1,"reply":{"ok":5},"steps":4}"#,
            r#"{"args":[2],"calls":[{"args":[2],"callee":"price.get","count":1,"reply":{"err":"timeout"},"site":1}],"id":3,"kind":"inv","method":"cart.total","plan":0,"reply":{"ok":5},"steps":4}"#,
            r#"{"args":[2],"calls":[{"args":[2],"callee":"price.get","count":1,"reply":{"ok":20},"site":1}],"id":3,"kind":"inv","method":"cart.total","plan":0,"reply":{"ok":20},"steps":3}"#,
        ],
        below: &[TIMEOUT_PLAN, END],
        told: "line 6 rule V2",
    },
];

/// Plans that extend none above, or stand above.
const PARENTS: &[Others] = &[
    // The first plan has no parent and no fault, and is run.
    Others {
        above: &[HEADER, TOTAL, GET],
        lines: &[
            r#"{"code":null,"id":0,"index":null,"kind":"plan","outcome":"passed","parent":0,"run":true,"uses":[0,1]}"#,
            r#"{"code":null,"id":0,"index":null,"kind":"plan","outcome":"passed","parent":null,"run":false,"uses":[0,1]}"#,
            r#"{"code":"timeout","id":0,"index":"1.1/1.1","kind":"plan","outcome":"passed","parent":null,"run":true,"uses":[0,1]}"#,
            r#"{"code":"timeout","id":0,"index":"1.1/1.1","kind":"plan","outcome":"passed","parent":0,"run":true,"uses":[0,1]}"#,
        ],
        below: &[TIMEOUT, TIMEOUT_PLAN, END],
        told: "line 4 rule V3",
    },
    // Any other has a parent above it and a fault.
    Others {
        above: &[HEADER, TOTAL, GET, PLAN, TIMEOUT],
        lines: &[
            r#"{"code":"timeout","id":1,"index":"1.1/1.1","kind":"plan","outcome":"passed","parent":null,"run":true,"uses":[2]}"#,
            r#"{"code":"timeout","id":1,"index":"1.1/1.1","kind":"plan","outcome":"passed","parent":2,"run":true,"uses":[2]}"#,
            r#"{"code":"timeout","id":1,"index":"1.1/1.1","kind":"plan","outcome":"passed","parent":18446744073709551615,"run":true,"uses":[2]}"#,
            r#"{"code":null,"id":1,"index":null,"kind":"plan","outcome":"passed","parent":0,"run":true,"uses":[2]}"#,
        ],
        below: &[END],
        told: "line 6 rule V3",
    },
    // The fault is at a call between services, and is configured.
    Others {
        above: &[HEADER, TOTAL, GET, PLAN, TIMEOUT],
        lines: &[
            r#"{"code":"timeout","id":1,"index":"1.1/1.2","kind":"plan","outcome":"passed","parent":0,"run":true,"uses":[2]}"#,
            r#"{"code":"timeout","id":1,"index":"1.1/2.1","kind":"plan","outcome":"passed","parent":0,"run":true,"uses":[2]}"#,
            r#"{"code":"timeout","id":1,"index":"2.1/1.1","kind":"plan","outcome":"passed","parent":0,"run":true,"uses":[2]}"#,
            r#"{"code":"timeout","id":1,"index":"1.1/1.1/1.1","kind":"plan","outcome":"passed","parent":0,"run":true,"uses":[2]}"#,
            r#"{"code":"internal","id":1,"index":"1.1/1.1","kind":"plan","outcome":"passed","parent":0,"run":true,"uses":[2]}"#,
        ],
        below: &[END],
        told: "line 6 rule V3",
    },
    // Another line has the plan.
    Others {
        above: &[HEADER, TOTAL, GET, PLAN, TIMEOUT, TIMEOUT_PLAN],
        lines: &[
            r#"{"code":"timeout","id":2,"index":"1.1/1.1","kind":"plan","outcome":"passed","parent":0,"run":false,"uses":[2]}"#,
            r#"{"code":"timeout","id":2,"index":"1.1/1.1","kind":"plan","outcome":"passed","parent":0,"run":true,"uses":[2]}"#,
        ],
        below: &[
            r#"{"cause":"completed","failed":0,"invs":3,"kind":"end","plans":3,"pruned":1,"run":2,"stopped":null}"#,
        ],
        told: "line 7 rule V3",
    },
    // The fault comes behind those of the parent.
    Others {
        above: &[HEADER, TOTAL, GET, PLAN, TIMEOUT, TIMEOUT_PLAN],
        lines: &[
            r#"{"code":"timeout","id":2,"index":"1.1/1.1","kind":"plan","outcome":"passed","parent":1,"run":false,"uses":[2]}"#,
        ],
        below: &[
            r#"{"cause":"completed","failed":0,"invs":3,"kind":"end","plans":3,"pruned":1,"run":2,"stopped":null}"#,
        ],
        told: "line 7 rule V3",
    },
];

/// Uses that spell no tree under the plan.
const TREES: &[Others] = &[
    // Other uses.
    Others {
        above: &[HEADER, TOTAL, GET],
        lines: &[
            r#"{"code":null,"id":0,"index":null,"kind":"plan","outcome":"passed","parent":null,"run":true,"uses":[]}"#,
            r#"{"code":null,"id":0,"index":null,"kind":"plan","outcome":"passed","parent":null,"run":true,"uses":[1,0]}"#,
            r#"{"code":null,"id":0,"index":null,"kind":"plan","outcome":"passed","parent":null,"run":true,"uses":[0,0]}"#,
            r#"{"code":null,"id":0,"index":null,"kind":"plan","outcome":"passed","parent":null,"run":true,"uses":[1]}"#,
            r#"{"code":null,"id":0,"index":null,"kind":"plan","outcome":"passed","parent":null,"run":true,"uses":[0,2]}"#,
            r#"{"code":null,"id":0,"index":null,"kind":"plan","outcome":"passed","parent":null,"run":true,"uses":[2,1]}"#,
            r#"{"code":null,"id":0,"index":null,"kind":"plan","outcome":"passed","parent":null,"run":true,"uses":[0,1,2]}"#,
            r#"{"code":null,"id":0,"index":null,"kind":"plan","outcome":"passed","parent":null,"run":true,"uses":[0,18446744073709551615]}"#,
        ],
        below: &[TIMEOUT, TIMEOUT_PLAN, END],
        told: "line 4 rule V4",
    },
    Others {
        above: &[HEADER, TOTAL, GET, PLAN, TIMEOUT],
        lines: &[
            r#"{"code":"timeout","id":1,"index":"1.1/1.1","kind":"plan","outcome":"passed","parent":0,"run":true,"uses":[]}"#,
            r#"{"code":"timeout","id":1,"index":"1.1/1.1","kind":"plan","outcome":"passed","parent":0,"run":true,"uses":[0]}"#,
            r#"{"code":"timeout","id":1,"index":"1.1/1.1","kind":"plan","outcome":"passed","parent":0,"run":true,"uses":[3]}"#,
            r#"{"code":"timeout","id":1,"index":"1.1/1.1","kind":"plan","outcome":"passed","parent":0,"run":true,"uses":[2,1]}"#,
            r#"{"code":"timeout","id":1,"index":"1.1/1.1","kind":"plan","outcome":"passed","parent":0,"run":true,"uses":[2,2]}"#,
        ],
        below: &[END],
        told: "line 6 rule V4",
    },
    // The tree of another plan.
    Others {
        above: &[HEADER, TOTAL, GET, PLAN, TIMEOUT],
        lines: &[
            r#"{"code":"timeout","id":1,"index":"1.1/1.1","kind":"plan","outcome":"passed","parent":0,"run":true,"uses":[0,1]}"#,
        ],
        below: &[END],
        told: "line 6 rule V4",
    },
    Others {
        above: &[
            HEADER,
            TOTAL,
            GET,
            r#"{"args":[2],"calls":[{"args":[2],"callee":"price.get","count":1,"reply":{"err":"timeout"},"site":1}],"id":2,"kind":"inv","method":"cart.total","plan":0,"reply":{"ok":5},"steps":4}"#,
        ],
        lines: &[
            r#"{"code":null,"id":0,"index":null,"kind":"plan","outcome":"passed","parent":null,"run":true,"uses":[2]}"#,
        ],
        below: &[],
        told: "line 5 rule V4",
    },
    // A record with other arguments, and one with another reply.
    Others {
        above: &[
            HEADER,
            TOTAL,
            GET,
            r#"{"args":[3],"calls":[],"id":2,"kind":"inv","method":"price.get","plan":0,"reply":{"ok":30},"steps":1}"#,
        ],
        lines: &[
            r#"{"code":null,"id":0,"index":null,"kind":"plan","outcome":"passed","parent":null,"run":true,"uses":[0,2]}"#,
        ],
        below: &[END],
        told: "line 5 rule V4",
    },
    Others {
        above: &[
            HEADER,
            r#"{"args":[2],"calls":[{"args":[2],"callee":"price.get","count":1,"reply":{"ok":30},"site":1}],"id":0,"kind":"inv","method":"cart.total","plan":0,"reply":{"ok":30},"steps":3}"#,
            GET,
        ],
        lines: &[PLAN],
        below: &[TIMEOUT, TIMEOUT_PLAN, END],
        told: "line 4 rule V4",
    },
    // More steps than there is fuel.
    Others {
        above: &[
            r#"{"fuel":6,"kind":"header","reduction":true,"version":1}"#,
            TOTAL,
            GET,
        ],
        lines: &[PLAN],
        below: &[TIMEOUT, TIMEOUT_PLAN, END],
        told: "line 4 rule V4",
    },
    Others {
        above: &[
            r#"{"fuel":3,"kind":"header","reduction":true,"version":1}"#,
            TOTAL,
            GET,
        ],
        lines: &[PLAN],
        below: &[TIMEOUT, TIMEOUT_PLAN, END],
        told: "line 4 rule V4",
    },
];

/// Other outcomes.
const OUTCOMES: &[Others] = &[
    Others {
        above: &[HEADER, TOTAL, GET],
        lines: &[
            r#"{"code":null,"id":0,"index":null,"kind":"plan","outcome":"assert_failed 1","parent":null,"run":true,"uses":[0,1]}"#,
            r#"{"code":null,"id":0,"index":null,"kind":"plan","outcome":"call_failed 1 timeout","parent":null,"run":true,"uses":[0,1]}"#,
            r#"{"code":null,"id":0,"index":null,"kind":"plan","outcome":"fault 1","parent":null,"run":true,"uses":[0,1]}"#,
        ],
        below: &[TIMEOUT, TIMEOUT_PLAN, END],
        told: "line 4 rule V5",
    },
    Others {
        above: &[HEADER, TOTAL, GET, PLAN, TIMEOUT],
        lines: &[
            r#"{"code":"timeout","id":1,"index":"1.1/1.1","kind":"plan","outcome":"assert_failed 2","parent":0,"run":true,"uses":[2]}"#,
            r#"{"code":"timeout","id":1,"index":"1.1/1.1","kind":"plan","outcome":"call_failed 1 timeout","parent":0,"run":true,"uses":[2]}"#,
            r#"{"code":"timeout","id":1,"index":"1.1/1.1","kind":"plan","outcome":"fault 3","parent":0,"run":true,"uses":[2]}"#,
        ],
        below: &[END],
        told: "line 6 rule V5",
    },
];

#[test]
fn a_line_breaks_a_rule(rt: HostRuntime) -> Result<(), Fail> {
    let sources = Sources::of(rt.alloc(), &CART).ok_or("refused sources")?;
    for all in [PLACES, RECORDS, PARENTS, TREES, OUTCOMES] {
        assert_eq!(rt; first_other_line(rt.alloc(), &sources, all), None);
    }
    Ok(())
}
