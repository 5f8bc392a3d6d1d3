//! Reports of the second version, whose faults may be values.

use crate::checking::{Forged, first_other};
use crate::reports::{
    CART_YES, END, GET, HEADER, HEADER_2, PLAN, PLAN_2, SAME_PLAN, TIMEOUT, TIMEOUT_PLAN,
    TIMEOUT_PLAN_2, TOTAL, VALUES_END, ZERO, ZERO_PLAN,
};
use crate::sources::{CART, Sources, Texts, VALUES};
use std::test::Fail;

/// By a fault file with values.
const VALUED: &[Forged] = &[
    Forged {
        lines: &[
            HEADER_2,
            TOTAL,
            GET,
            PLAN_2,
            TIMEOUT,
            TIMEOUT_PLAN_2,
            ZERO,
            ZERO_PLAN,
            SAME_PLAN,
            VALUES_END,
        ],
        told: "yes plans 4 run 3 pruned 1 failed 0 invs 4",
    },
    // A plan line of the other version.
    Forged {
        lines: &[
            HEADER_2,
            TOTAL,
            GET,
            PLAN,
            TIMEOUT,
            TIMEOUT_PLAN_2,
            ZERO,
            ZERO_PLAN,
            SAME_PLAN,
            VALUES_END,
        ],
        told: "line 4 rule V1",
    },
    Forged {
        lines: &[
            HEADER_2,
            TOTAL,
            GET,
            PLAN_2,
            TIMEOUT,
            TIMEOUT_PLAN,
            ZERO,
            ZERO_PLAN,
            SAME_PLAN,
            VALUES_END,
        ],
        told: "line 6 rule V1",
    },
    Forged {
        lines: &[
            HEADER,
            TOTAL,
            GET,
            PLAN_2,
            TIMEOUT,
            TIMEOUT_PLAN_2,
            ZERO,
            ZERO_PLAN,
            SAME_PLAN,
            VALUES_END,
        ],
        told: "line 4 rule V1",
    },
    // The version of a report need not be that of the fault file.
    Forged {
        lines: &[HEADER, TOTAL, GET, PLAN, TIMEOUT, TIMEOUT_PLAN, END],
        told: "line 4 rule V6 1.1/1.1=ok:0",
    },
    // A value that is not configured.
    Forged {
        lines: &[
            HEADER_2,
            TOTAL,
            GET,
            PLAN_2,
            TIMEOUT,
            TIMEOUT_PLAN_2,
            ZERO,
            ZERO_PLAN,
            r#"{"fault":{"ok":21},"id":3,"index":"1.1/1.1","kind":"plan","outcome":"passed","parent":0,"run":false,"uses":[0]}"#,
            VALUES_END,
        ],
        told: "line 9 rule V3",
    },
    Forged {
        lines: &[
            HEADER_2,
            TOTAL,
            GET,
            PLAN_2,
            TIMEOUT,
            TIMEOUT_PLAN_2,
            ZERO,
            ZERO_PLAN,
            r#"{"fault":{"ok":"20"},"id":3,"index":"1.1/1.1","kind":"plan","outcome":"passed","parent":0,"run":false,"uses":[0]}"#,
            VALUES_END,
        ],
        told: "line 9 rule V3",
    },
    Forged {
        lines: &[
            HEADER_2,
            TOTAL,
            GET,
            PLAN_2,
            TIMEOUT,
            TIMEOUT_PLAN_2,
            ZERO,
            ZERO_PLAN,
            r#"{"fault":{"err":"unavailable"},"id":3,"index":"1.1/1.1","kind":"plan","outcome":"passed","parent":0,"run":false,"uses":[0]}"#,
            VALUES_END,
        ],
        told: "line 9 rule V3",
    },
    // A value that another line has.
    Forged {
        lines: &[
            HEADER_2,
            TOTAL,
            GET,
            PLAN_2,
            TIMEOUT,
            TIMEOUT_PLAN_2,
            ZERO,
            ZERO_PLAN,
            r#"{"fault":{"ok":0},"id":3,"index":"1.1/1.1","kind":"plan","outcome":"passed","parent":0,"run":false,"uses":[0]}"#,
            VALUES_END,
        ],
        told: "line 9 rule V3",
    },
    // A value that the record does not have.
    Forged {
        lines: &[
            HEADER_2,
            TOTAL,
            GET,
            PLAN_2,
            TIMEOUT,
            TIMEOUT_PLAN_2,
            ZERO,
            r#"{"fault":{"ok":20},"id":2,"index":"1.1/1.1","kind":"plan","outcome":"passed","parent":0,"run":true,"uses":[3]}"#,
            SAME_PLAN,
            VALUES_END,
        ],
        told: "line 8 rule V4",
    },
    Forged {
        lines: &[
            HEADER_2,
            TOTAL,
            GET,
            PLAN_2,
            TIMEOUT,
            TIMEOUT_PLAN_2,
            ZERO,
            ZERO_PLAN,
            r#"{"fault":{"ok":20},"id":3,"index":"1.1/1.1","kind":"plan","outcome":"passed","parent":0,"run":false,"uses":[0,1]}"#,
            VALUES_END,
        ],
        told: "line 9 rule V4",
    },
    Forged {
        lines: &[
            HEADER_2,
            TOTAL,
            GET,
            PLAN_2,
            TIMEOUT,
            TIMEOUT_PLAN_2,
            ZERO,
            ZERO_PLAN,
            r#"{"fault":{"ok":20},"id":3,"index":"1.1/1.1","kind":"plan","outcome":"assert_failed 1","parent":0,"run":false,"uses":[0]}"#,
            VALUES_END,
        ],
        told: "line 9 rule V5",
    },
    Forged {
        lines: &[
            HEADER_2,
            TOTAL,
            GET,
            PLAN_2,
            TIMEOUT,
            TIMEOUT_PLAN_2,
            ZERO,
            ZERO_PLAN,
            r#"{"fault":{"ok":20},"id":3,"index":"1.1/1.1","kind":"plan","outcome":"passed","parent":0,"run":true,"uses":[0]}"#,
            r#"{"cause":"completed","failed":0,"invs":4,"kind":"end","plans":4,"pruned":0,"run":4,"stopped":null}"#,
        ],
        told: "line 9 rule V8",
    },
    Forged {
        lines: &[
            r#"{"fuel":100000,"kind":"header","reduction":false,"version":2}"#,
            TOTAL,
            GET,
            PLAN_2,
            TIMEOUT,
            TIMEOUT_PLAN_2,
            ZERO,
            ZERO_PLAN,
            r#"{"fault":{"ok":20},"id":3,"index":"1.1/1.1","kind":"plan","outcome":"passed","parent":0,"run":true,"uses":[0]}"#,
            r#"{"cause":"completed","failed":0,"invs":4,"kind":"end","plans":4,"pruned":0,"run":4,"stopped":null}"#,
        ],
        told: "yes plans 4 run 4 pruned 0 failed 0 invs 4",
    },
    Forged {
        lines: &[
            HEADER_2,
            TOTAL,
            GET,
            PLAN_2,
            TIMEOUT,
            TIMEOUT_PLAN_2,
            ZERO,
            ZERO_PLAN,
            r#"{"cause":"completed","failed":0,"invs":4,"kind":"end","plans":3,"pruned":0,"run":3,"stopped":null}"#,
        ],
        told: "line 4 rule V6 1.1/1.1=ok:20",
    },
];

/// By a fault file with codes alone.
const CODED: &[Forged] = &[
    Forged {
        lines: &[HEADER_2, TOTAL, GET, PLAN_2, TIMEOUT, TIMEOUT_PLAN_2, END],
        told: CART_YES,
    },
    // A plan line of the other version.
    Forged {
        lines: &[HEADER, TOTAL, GET, PLAN_2, TIMEOUT, TIMEOUT_PLAN, END],
        told: "line 4 rule V1",
    },
    Forged {
        lines: &[HEADER, TOTAL, GET, PLAN, TIMEOUT, TIMEOUT_PLAN_2, END],
        told: "line 6 rule V1",
    },
    Forged {
        lines: &[HEADER_2, TOTAL, GET, PLAN, TIMEOUT, TIMEOUT_PLAN_2, END],
        told: "line 4 rule V1",
    },
    // No value is configured.
    Forged {
        lines: &[
            HEADER_2,
            TOTAL,
            GET,
            PLAN_2,
            TIMEOUT,
            r#"{"fault":{"ok":20},"id":1,"index":"1.1/1.1","kind":"plan","outcome":"passed","parent":0,"run":true,"uses":[2]}"#,
            END,
        ],
        told: "line 6 rule V3",
    },
];

const ALL: [(&Texts, &[Forged]); 2] = [(&VALUES, VALUED), (&CART, CODED)];

#[test]
fn faults_may_be_values(rt: HostRuntime) -> Result<(), Fail> {
    for (texts, reports) in ALL {
        let sources = Sources::of(rt.alloc(), texts).ok_or("refused sources")?;
        assert_eq!(rt;
            first_other(rt.alloc(), &sources, reports),
            None,
            "{}",
            texts.faults
        );
    }
    Ok(())
}
