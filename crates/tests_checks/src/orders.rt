//! Reports that break more than one rule.

use crate::checking::{Forged, Others, first_other, first_other_line};
use crate::reports::{
    END, FIRST_END, GET, HEADER, HEADER_2, PLAN, PLAN_2, TIMEOUT, TIMEOUT_PLAN, TIMEOUT_PLAN_2,
    TOTAL, TWICE_FAILED, TWICE_IDLE, TWICE_PLAN, UNUSED,
};
use crate::sources::{CART, Sources, TWICE, Texts, VALUES};
use std::test::Fail;

/// Lines that break two rules, of which the first in the order of rules is told.
const IN_ONE_LINE: &[Others] = &[
    // What is not read has no place.
    Others {
        above: &[],
        lines: &["["],
        below: &[TOTAL, GET, PLAN, TIMEOUT, TIMEOUT_PLAN, END],
        told: "line 1 rule NotJson",
    },
    Others {
        above: &[HEADER],
        lines: &[r#"{"fuel":"x","kind":"header","reduction":true,"version":1}"#],
        below: &[TOTAL, GET, PLAN, TIMEOUT, TIMEOUT_PLAN, END],
        told: "line 2 rule BadShape",
    },
    Others {
        above: &[HEADER],
        lines: &[r#"{"fuel":0,"kind":"header","reduction":true,"version":1}"#],
        below: &[TOTAL, GET, PLAN, TIMEOUT, TIMEOUT_PLAN, END],
        told: "line 2 rule BadNumber",
    },
    Others {
        above: &[HEADER, TOTAL, GET, PLAN, TIMEOUT, TIMEOUT_PLAN, END],
        lines: &[
            "{}",
            r#"{"cause":"completed","failed":0,"invs":3,"kind":"end","plans":"2","pruned":0,"run":2,"stopped":null}"#,
        ],
        below: &[],
        told: "line 8 rule BadShape",
    },
    Others {
        above: &[HEADER, TOTAL, GET, PLAN, TIMEOUT, TIMEOUT_PLAN, END],
        lines: &[
            r#"{"cause":"completed","failed":0,"invs":3,"kind":"end","plans":-1,"pruned":0,"run":2,"stopped":null}"#,
        ],
        below: &[],
        told: "line 8 rule BadNumber",
    },
    // The first key in order.
    Others {
        above: &[],
        lines: &[
            r#"{"fuel":"0","kind":"header","reduction":true,"version":3}"#,
            r#"{"fuel":0,"kind":"head","reduction":true,"version":1}"#,
        ],
        below: &[TOTAL, GET, PLAN, TIMEOUT, TIMEOUT_PLAN, END],
        told: "line 1 rule BadShape",
    },
    Others {
        above: &[],
        lines: &[r#"{"fuel":0,"kind":"header","reduction":true,"version":"1"}"#],
        below: &[TOTAL, GET, PLAN, TIMEOUT, TIMEOUT_PLAN, END],
        told: "line 1 rule BadNumber",
    },
    Others {
        above: &[HEADER],
        lines: &[
            r#"{"args":2,"calls":[{"args":[2],"callee":"price.get","count":1,"reply":{"ok":20},"site":1}],"id":-1,"kind":"inv","method":"cart.total","plan":0,"reply":{"ok":20},"steps":3}"#,
        ],
        below: &[GET, PLAN, TIMEOUT, TIMEOUT_PLAN, END],
        told: "line 2 rule BadShape",
    },
    Others {
        above: &[HEADER],
        lines: &[
            r#"{"args":[2],"calls":[{"args":[2],"callee":"price.get","count":1,"reply":{"ok":20},"site":1}],"id":-1,"kind":"inv","method":"cart.total","plan":0,"reply":{"ok":20},"steps":"3"}"#,
        ],
        below: &[GET, PLAN, TIMEOUT, TIMEOUT_PLAN, END],
        told: "line 2 rule BadNumber",
    },
    Others {
        above: &[HEADER, TOTAL, GET],
        lines: &[
            r#"{"code":1,"id":-1,"index":null,"kind":"plan","outcome":"passed","parent":null,"run":true,"uses":[0,1]}"#,
            r#"{"code":null,"id":0,"index":null,"kind":"plan","outcome":"pass","parent":-1,"run":true,"uses":[0,1]}"#,
            r#"{"a":0,"code":null,"id":-1,"index":null,"kind":"plan","outcome":"passed","parent":null,"run":true,"uses":[0,1]}"#,
        ],
        below: &[TIMEOUT, TIMEOUT_PLAN, END],
        told: "line 4 rule BadShape",
    },
    Others {
        above: &[HEADER, TOTAL, GET],
        lines: &[
            r#"{"code":null,"id":-1,"index":null,"kind":"plan","outcome":"pass","parent":null,"run":true,"uses":[0,1]}"#,
            r#"{"code":null,"id":0,"index":null,"kind":"plan","outcome":"passed","parent":-1,"run":true,"uses":null}"#,
            r#"{"code":null,"id":-1,"index":null,"kind":"plan","outcome":"passed","parent":null,"run":true,"uses":[0,1],"x":0}"#,
        ],
        below: &[TIMEOUT, TIMEOUT_PLAN, END],
        told: "line 4 rule BadNumber",
    },
    Others {
        above: &[HEADER, TOTAL, GET, PLAN, TIMEOUT, TIMEOUT_PLAN],
        lines: &[
            r#"{"cause":"done","failed":-1,"invs":3,"kind":"end","plans":2,"pruned":0,"run":2,"stopped":null}"#,
        ],
        below: &[],
        told: "line 7 rule BadShape",
    },
    Others {
        above: &[HEADER, TOTAL, GET, PLAN, TIMEOUT, TIMEOUT_PLAN],
        lines: &[
            r#"{"cause":"completed","failed":-1,"invs":3,"kind":"end","plans":2,"pruned":0,"run":2,"stopped":0}"#,
        ],
        below: &[],
        told: "line 7 rule BadNumber",
    },
    // What has no place is no record and no plan.
    Others {
        above: &[HEADER],
        lines: &[
            r#"{"args":[2],"calls":[{"args":[2],"callee":"price.get","count":1,"reply":{"ok":20},"site":1}],"id":1,"kind":"inv","method":"cart.total","plan":0,"reply":{"ok":20},"steps":2}"#,
        ],
        below: &[GET, PLAN, TIMEOUT, TIMEOUT_PLAN, END],
        told: "line 2 rule V1",
    },
    Others {
        above: &[HEADER, TOTAL, GET],
        lines: &[
            r#"{"code":null,"id":1,"index":null,"kind":"plan","outcome":"passed","parent":null,"run":true,"uses":[]}"#,
            r#"{"code":null,"id":1,"index":null,"kind":"plan","outcome":"passed","parent":null,"run":false,"uses":[0,1]}"#,
            r#"{"code":null,"id":1,"index":null,"kind":"plan","outcome":"fault 1","parent":null,"run":true,"uses":[0,1]}"#,
        ],
        below: &[TIMEOUT, TIMEOUT_PLAN, END],
        told: "line 4 rule V1",
    },
    Others {
        above: &[HEADER, TOTAL, GET, PLAN, TIMEOUT],
        lines: &[
            r#"{"code":"timeout","id":2,"index":"1.1/1.1","kind":"plan","outcome":"passed","parent":1,"run":true,"uses":[2]}"#,
            r#"{"code":"timeout","id":0,"index":"1.1/1.1","kind":"plan","outcome":"passed","parent":0,"run":false,"uses":[2]}"#,
        ],
        below: &[END],
        told: "line 6 rule V1",
    },
    // What extends no plan spells no tree.
    Others {
        above: &[HEADER, TOTAL, GET],
        lines: &[
            r#"{"code":null,"id":0,"index":null,"kind":"plan","outcome":"passed","parent":null,"run":false,"uses":[]}"#,
            r#"{"code":null,"id":0,"index":null,"kind":"plan","outcome":"fault 1","parent":null,"run":false,"uses":[0,1]}"#,
        ],
        below: &[TIMEOUT, TIMEOUT_PLAN, END],
        told: "line 4 rule V3",
    },
    Others {
        above: &[HEADER, TOTAL, GET, PLAN, TIMEOUT],
        lines: &[
            r#"{"code":"unavailable","id":1,"index":"1.1/1.1","kind":"plan","outcome":"passed","parent":0,"run":true,"uses":[]}"#,
            r#"{"code":"timeout","id":1,"index":"1.1/1.1","kind":"plan","outcome":"passed","parent":1,"run":false,"uses":[2]}"#,
            r#"{"code":"timeout","id":1,"index":"1.1","kind":"plan","outcome":"fault 1","parent":0,"run":true,"uses":[2]}"#,
        ],
        below: &[END],
        told: "line 6 rule V3",
    },
    // What spells no tree has no owners and no outcome.
    Others {
        above: &[HEADER, TOTAL, GET],
        lines: &[
            r#"{"code":null,"id":0,"index":null,"kind":"plan","outcome":"fault 1","parent":null,"run":true,"uses":[]}"#,
        ],
        below: &[TIMEOUT, TIMEOUT_PLAN, END],
        told: "line 4 rule V4",
    },
    Others {
        above: &[HEADER, TOTAL, GET, PLAN, TIMEOUT],
        lines: &[
            r#"{"code":"timeout","id":1,"index":"1.1/1.1","kind":"plan","outcome":"passed","parent":0,"run":false,"uses":[2,2]}"#,
            r#"{"code":"timeout","id":1,"index":"1.1/1.1","kind":"plan","outcome":"fault 1","parent":0,"run":true,"uses":[]}"#,
        ],
        below: &[END],
        told: "line 6 rule V4",
    },
    // Owners come before the outcome.
    Others {
        above: &[HEADER, TOTAL, GET, PLAN, TIMEOUT],
        lines: &[
            r#"{"code":"timeout","id":1,"index":"1.1/1.1","kind":"plan","outcome":"assert_failed 1","parent":0,"run":false,"uses":[2]}"#,
        ],
        below: &[END],
        told: "line 6 rule V7",
    },
];

/// Two lines that break a rule, of which the upper is told.
const IN_TWO_LINES: &[Forged] = &[
    Forged {
        lines: &[
            HEADER,
            r#"{"args":[2],"calls":[{"args":[2],"callee":"price.get","count":1,"reply":{"ok":20},"site":1}],"id":0,"kind":"inv","method":"cart.total","plan":0,"reply":{"ok":20},"steps":2}"#,
            GET,
            PLAN,
            TIMEOUT,
            TIMEOUT_PLAN,
            r#"{"cause":"completed","failed":1,"invs":3,"kind":"end","plans":2,"pruned":0,"run":2,"stopped":null}"#,
        ],
        told: "line 2 rule V2",
    },
    Forged {
        lines: &[
            HEADER,
            TOTAL,
            r#"{"args":[2],"calls":[],"id":1,"kind":"inv","method":"price.get","plan":0,"reply":{"ok":20},"steps":2}"#,
            r#"{"code":null,"id":0,"index":null,"kind":"plan","outcome":"passed","parent":null,"run":true,"uses":[]}"#,
            TIMEOUT,
            TIMEOUT_PLAN,
            END,
        ],
        told: "line 3 rule V2",
    },
    Forged {
        lines: &[
            HEADER,
            TOTAL,
            GET,
            r#"{"code":null,"id":0,"index":null,"kind":"plan","outcome":"passed","parent":null,"run":false,"uses":[0,1]}"#,
            r#"{"args":[2],"calls":[{"args":[2],"callee":"price.get","count":1,"reply":{"err":"timeout"},"site":1}],"id":2,"kind":"inv","method":"cart.total","plan":1,"reply":{"ok":5},"steps":3}"#,
            TIMEOUT_PLAN,
            END,
        ],
        told: "line 4 rule V3",
    },
    Forged {
        lines: &[
            HEADER,
            TOTAL,
            GET,
            r#"{"code":null,"id":0,"index":null,"kind":"plan","outcome":"fault 1","parent":null,"run":true,"uses":[0,1]}"#,
            TIMEOUT,
            r#"{"code":"timeout","id":1,"index":"1.1/1.1","kind":"plan","outcome":"passed","parent":1,"run":true,"uses":[2]}"#,
            END,
        ],
        told: "line 4 rule V5",
    },
    Forged {
        lines: &[
            HEADER,
            TOTAL,
            GET,
            PLAN,
            TIMEOUT,
            r#"{"code":"timeout","id":1,"index":"1.1/1.1","kind":"plan","outcome":"passed","parent":0,"run":false,"uses":[2]}"#,
            r#"{"cause":"done","failed":0,"invs":3,"kind":"end","plans":2,"pruned":0,"run":2,"stopped":null}"#,
        ],
        told: "line 6 rule V7",
    },
    Forged {
        lines: &[
            HEADER,
            TOTAL,
            GET,
            PLAN,
            TIMEOUT,
            r#"{"code":"timeout","id":1,"index":"1.1/1.1","kind":"plan","outcome":"fault 1","parent":0,"run":true,"uses":[2]}"#,
            r#"{"cause":"completed","failed":1,"invs":3,"kind":"end","plans":2,"pruned":0,"run":2,"stopped":null}"#,
        ],
        told: "line 6 rule V5",
    },
    Forged {
        lines: &[
            HEADER,
            TOTAL,
            GET,
            PLAN,
            TIMEOUT,
            r#"{"code":"timeout","id":1,"index":"1.1/1.1","kind":"plan","outcome":"passed","parent":0,"run":true,"uses":[]}"#,
            r#"{"cause":"completed","failed":0,"invs":3,"kind":"end","plans":-2,"pruned":0,"run":2,"stopped":null}"#,
        ],
        told: "line 6 rule V4",
    },
    Forged {
        lines: &[
            TOTAL,
            r#"{"args":[2],"calls":[],"id":-1,"kind":"inv","method":"price.get","plan":0,"reply":{"ok":20},"steps":1}"#,
        ],
        told: "line 1 rule V1",
    },
    Forged {
        lines: &[
            r#"{"fuel":0,"kind":"header","reduction":true,"version":1}"#,
            "[",
        ],
        told: "line 1 rule BadNumber",
    },
    // A line goes before all lines.
    Forged {
        lines: &[
            HEADER,
            TOTAL,
            GET,
            PLAN,
            r#"{"args":[2],"calls":[{"args":[2],"callee":"price.get","count":1,"reply":{"err":"timeout"},"site":1}],"id":2,"kind":"inv","method":"cart.total","plan":0,"reply":{"ok":5},"steps":4}"#,
            TIMEOUT_PLAN,
            r#"{"cause":"completed","failed":0,"invs":4,"kind":"end","plans":2,"pruned":0,"run":2,"stopped":null}"#,
        ],
        told: "line 7 rule V1",
    },
    Forged {
        lines: &[
            HEADER,
            TOTAL,
            GET,
            PLAN,
            r#"{"cause":"completed","failed":0,"invs":2,"kind":"end","plans":1,"pruned":0,"run":2,"stopped":null}"#,
        ],
        told: "line 5 rule V1",
    },
    Forged {
        lines: &[HEADER, TOTAL, GET, PLAN, FIRST_END, "["],
        told: "line 6 rule NotJson",
    },
];

/// Of the rules on all lines the first in the order of rules is told, at a line below the other.
const IN_ALL_LINES: &[Forged] = &[
    // No end line, and an extension without a line.
    Forged {
        lines: &[HEADER, TOTAL, GET, PLAN],
        told: "line 5 rule V1",
    },
    // No end line, and a record without an owner.
    Forged {
        lines: &[
            HEADER,
            TOTAL,
            GET,
            PLAN,
            r#"{"args":[2],"calls":[{"args":[2],"callee":"price.get","count":1,"reply":{"err":"timeout"},"site":1}],"id":2,"kind":"inv","method":"cart.total","plan":0,"reply":{"ok":5},"steps":4}"#,
            TIMEOUT_PLAN,
        ],
        told: "line 7 rule V1",
    },
    // A record without an owner, and an extension without a line.
    Forged {
        lines: &[
            HEADER,
            TOTAL,
            GET,
            PLAN,
            TIMEOUT,
            r#"{"cause":"completed","failed":0,"invs":3,"kind":"end","plans":1,"pruned":0,"run":1,"stopped":null}"#,
        ],
        told: "line 5 rule V7",
    },
    Forged {
        lines: &[
            HEADER,
            TOTAL,
            GET,
            PLAN,
            r#"{"args":[3],"calls":[],"id":2,"kind":"inv","method":"price.get","plan":0,"reply":{"ok":30},"steps":1}"#,
            r#"{"cause":"completed","failed":0,"invs":3,"kind":"end","plans":1,"pruned":0,"run":1,"stopped":null}"#,
        ],
        told: "line 5 rule V7",
    },
];

/// The same of the test that calls the cart twice.
const IN_ALL_LINES_TWICE: &[Forged] = &[
    // No end line, and a run line without a record.
    Forged {
        lines: &[
            HEADER,
            TOTAL,
            GET,
            TWICE_PLAN,
            TIMEOUT,
            TWICE_FAILED,
            TWICE_IDLE,
        ],
        told: "line 8 rule V1",
    },
    // A record without an owner, and a run line above it without a record.
    Forged {
        lines: &[
            HEADER,
            TOTAL,
            GET,
            TWICE_PLAN,
            TIMEOUT,
            TWICE_FAILED,
            TWICE_IDLE,
            UNUSED,
            r#"{"cause":"completed","failed":1,"invs":4,"kind":"end","plans":3,"pruned":0,"run":3,"stopped":null}"#,
        ],
        told: "line 8 rule V7",
    },
];

/// The same of faults that may be values.
const IN_ALL_LINES_WITH_VALUES: &[Forged] = &[
    // A run line without a record, and an extension without a line.
    Forged {
        lines: &[
            HEADER_2,
            TOTAL,
            GET,
            PLAN_2,
            TIMEOUT,
            TIMEOUT_PLAN_2,
            r#"{"fault":{"ok":20},"id":2,"index":"1.1/1.1","kind":"plan","outcome":"passed","parent":0,"run":true,"uses":[0]}"#,
            r#"{"cause":"completed","failed":0,"invs":3,"kind":"end","plans":3,"pruned":0,"run":3,"stopped":null}"#,
        ],
        told: "line 7 rule V8",
    },
    Forged {
        lines: &[
            r#"{"fuel":100000,"kind":"header","reduction":false,"version":2}"#,
            TOTAL,
            GET,
            PLAN_2,
            TIMEOUT,
            TIMEOUT_PLAN_2,
            r#"{"fault":{"ok":20},"id":2,"index":"1.1/1.1","kind":"plan","outcome":"passed","parent":0,"run":true,"uses":[0]}"#,
            r#"{"cause":"completed","failed":0,"invs":3,"kind":"end","plans":3,"pruned":0,"run":3,"stopped":null}"#,
        ],
        told: "line 4 rule V6 1.1/1.1=ok:0",
    },
    // All three.
    Forged {
        lines: &[
            HEADER_2,
            TOTAL,
            GET,
            PLAN_2,
            TIMEOUT,
            TIMEOUT_PLAN_2,
            r#"{"fault":{"ok":20},"id":2,"index":"1.1/1.1","kind":"plan","outcome":"passed","parent":0,"run":true,"uses":[0]}"#,
            UNUSED,
            r#"{"cause":"completed","failed":0,"invs":4,"kind":"end","plans":3,"pruned":0,"run":3,"stopped":null}"#,
        ],
        told: "line 8 rule V7",
    },
];

#[test]
fn a_line_is_told_of_the_first_rule(rt: HostRuntime) -> Result<(), Fail> {
    let sources = Sources::of(rt.alloc(), &CART).ok_or("refused sources")?;
    assert_eq!(rt; first_other_line(rt.alloc(), &sources, IN_ONE_LINE), None);
    Ok(())
}

const ALL: [(&Texts, &[Forged]); 4] = [
    (&CART, IN_TWO_LINES),
    (&CART, IN_ALL_LINES),
    (&TWICE, IN_ALL_LINES_TWICE),
    (&VALUES, IN_ALL_LINES_WITH_VALUES),
];

#[test]
fn the_first_line_is_told(rt: HostRuntime) -> Result<(), Fail> {
    for (texts, reports) in ALL {
        let sources = Sources::of(rt.alloc(), texts).ok_or("refused sources")?;
        assert_eq!(rt;
            first_other(rt.alloc(), &sources, reports),
            None,
            "{}",
            texts.test
        );
    }
    Ok(())
}
