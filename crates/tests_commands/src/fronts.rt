//! Campaigns of a method with two calls, each of whose callees calls another.
use crate::reports::{HEADER, NO_REDUCTION_HEADER};
use crate::running::{Case, ends_so};
use crate::texts::{FAULTS, NO_REDUCTION, TEST};
use std::test::Fail;

pub(crate) const FRONT: &[u8] = br#"
service front {
  method go() -> int {
    let x = 0;
    let y = 0;
    call x = b.get() on any { x = 0; }
    call y = c.get() on any { y = 0; }
    return x + y;
  }
}
service b { method get() -> int { let v = 0; call v = d.get(); return v; } }
service c { method get() -> int { let v = 0; call v = e.get(); return v; } }
service d { method get() -> int { return 1; } }
service e { method get() -> int { return 1; } }
"#;

pub(crate) const FRONT_TEST: &[u8] =
    b"test both { let r = 0; call r = front.go(); assert r == 2 or injected; }";

pub(crate) const FRONT_FAULTS: &[u8] = br#"
[[fault]]
callee = "b"
codes = ["timeout"]
[[fault]]
callee = "c"
codes = ["timeout"]
[[fault]]
callee = "d"
codes = ["timeout"]
[[fault]]
callee = "e"
codes = ["timeout"]
"#;

const FRONT_COMPLETED: &str = "completed plans 9 run 6 pruned 3 failed 0 invs 10\n";

/// The invocations and the plan without a fault.
pub(crate) const FRONT_FIRST: &str =
    r#"{"args":[],"calls":[{"args":[],"callee":"b.get","count":1,"reply":{"ok":1},"site":1},{"args":[],"callee":"c.get","count":1,"reply":{"ok":1},"site":2}],"id":0,"kind":"inv","method":"front.go","plan":0,"reply":{"ok":2},"steps":5}
{"args":[],"calls":[{"args":[],"callee":"d.get","count":1,"reply":{"ok":1},"site":1}],"id":1,"kind":"inv","method":"b.get","plan":0,"reply":{"ok":1},"steps":3}
{"args":[],"calls":[],"id":2,"kind":"inv","method":"d.get","plan":0,"reply":{"ok":1},"steps":1}
{"args":[],"calls":[{"args":[],"callee":"e.get","count":1,"reply":{"ok":1},"site":1}],"id":3,"kind":"inv","method":"c.get","plan":0,"reply":{"ok":1},"steps":3}
{"args":[],"calls":[],"id":4,"kind":"inv","method":"e.get","plan":0,"reply":{"ok":1},"steps":1}
{"code":null,"id":0,"index":null,"kind":"plan","outcome":"passed","parent":null,"run":true,"uses":[0,1,2,3,4]}
"#;

/// The plans with a fault of b, of d, of c and of e, and the invocations that they bring.
pub(crate) const FRONT_ONE_FAULT: &str =
    r#"{"args":[],"calls":[{"args":[],"callee":"b.get","count":1,"reply":{"err":"timeout"},"site":1},{"args":[],"callee":"c.get","count":1,"reply":{"ok":1},"site":2}],"id":5,"kind":"inv","method":"front.go","plan":1,"reply":{"ok":1},"steps":6}
{"code":"timeout","id":1,"index":"1.1/1.1","kind":"plan","outcome":"passed","parent":0,"run":true,"uses":[5,3,4]}
{"args":[],"calls":[{"args":[],"callee":"d.get","count":1,"reply":{"err":"timeout"},"site":1}],"id":6,"kind":"inv","method":"b.get","plan":2,"reply":{"err":"timeout"},"steps":2}
{"code":"timeout","id":2,"index":"1.1/1.1/1.1","kind":"plan","outcome":"passed","parent":0,"run":true,"uses":[5,6,3,4]}
{"args":[],"calls":[{"args":[],"callee":"b.get","count":1,"reply":{"ok":1},"site":1},{"args":[],"callee":"c.get","count":1,"reply":{"err":"timeout"},"site":2}],"id":7,"kind":"inv","method":"front.go","plan":3,"reply":{"ok":1},"steps":6}
{"code":"timeout","id":3,"index":"1.1/2.1","kind":"plan","outcome":"passed","parent":0,"run":true,"uses":[7,1,2]}
{"args":[],"calls":[{"args":[],"callee":"e.get","count":1,"reply":{"err":"timeout"},"site":1}],"id":8,"kind":"inv","method":"c.get","plan":4,"reply":{"err":"timeout"},"steps":2}
{"code":"timeout","id":4,"index":"1.1/2.1/1.1","kind":"plan","outcome":"passed","parent":0,"run":true,"uses":[7,1,2,8]}
"#;

pub(crate) const FRONT_BOTH: &str =
    r#"{"args":[],"calls":[{"args":[],"callee":"b.get","count":1,"reply":{"err":"timeout"},"site":1},{"args":[],"callee":"c.get","count":1,"reply":{"err":"timeout"},"site":2}],"id":9,"kind":"inv","method":"front.go","plan":5,"reply":{"ok":0},"steps":7}
{"code":"timeout","id":5,"index":"1.1/2.1","kind":"plan","outcome":"passed","parent":1,"run":true,"uses":[9]}
"#;

pub(crate) const FRONT_PRUNED: &str =
    r#"{"code":"timeout","id":6,"index":"1.1/2.1/1.1","kind":"plan","outcome":"passed","parent":1,"run":false,"uses":[9,8]}
{"code":"timeout","id":7,"index":"1.1/2.1","kind":"plan","outcome":"passed","parent":2,"run":false,"uses":[9,6]}
{"code":"timeout","id":8,"index":"1.1/2.1/1.1","kind":"plan","outcome":"passed","parent":2,"run":false,"uses":[9,6,8]}
{"cause":"completed","failed":0,"invs":10,"kind":"end","plans":9,"pruned":3,"run":6,"stopped":null}
"#;

/// The last plans without reduction.
pub(crate) const FRONT_RUN: &str =
    r#"{"code":"timeout","id":6,"index":"1.1/2.1/1.1","kind":"plan","outcome":"passed","parent":1,"run":true,"uses":[9,8]}
{"code":"timeout","id":7,"index":"1.1/2.1","kind":"plan","outcome":"passed","parent":2,"run":true,"uses":[9,6]}
{"code":"timeout","id":8,"index":"1.1/2.1/1.1","kind":"plan","outcome":"passed","parent":2,"run":true,"uses":[9,6,8]}
{"cause":"completed","failed":0,"invs":10,"kind":"end","plans":9,"pruned":0,"run":9,"stopped":null}
"#;

/// Of nine plans six bring something new.
const FRONTS: &[Case] = &[
    Case {
        words: &[TEST, FAULTS],
        sources: &[FRONT, FRONT_TEST, FRONT_FAULTS],
        code: 0,
        text: FRONT_COMPLETED,
        report: &[
            HEADER,
            FRONT_FIRST,
            FRONT_ONE_FAULT,
            FRONT_BOTH,
            FRONT_PRUNED,
        ],
    },
    Case {
        words: &[TEST, FAULTS, NO_REDUCTION],
        sources: &[FRONT, FRONT_TEST, FRONT_FAULTS],
        code: 0,
        text: "completed plans 9 run 9 pruned 0 failed 0 invs 10\n",
        report: &[
            NO_REDUCTION_HEADER,
            FRONT_FIRST,
            FRONT_ONE_FAULT,
            FRONT_BOTH,
            FRONT_RUN,
        ],
    },
    Case {
        words: &[TEST, FAULTS, &["--budget=5"]],
        sources: &[FRONT, FRONT_TEST, FRONT_FAULTS],
        code: 7,
        text: "budget spent at 1.1/1.1=timeout,1.1/2.1=timeout\n",
        report: &[
            HEADER,
            FRONT_FIRST,
            FRONT_ONE_FAULT,
            r#"{"cause":"budget","failed":0,"invs":9,"kind":"end","plans":5,"pruned":0,"run":5,"stopped":"1.1/1.1=timeout,1.1/2.1=timeout"}
"#,
        ],
    },
    Case {
        words: &[TEST, FAULTS, NO_REDUCTION, &["--budget=5"]],
        sources: &[FRONT, FRONT_TEST, FRONT_FAULTS],
        code: 7,
        text: "budget spent at 1.1/1.1=timeout,1.1/2.1=timeout\n",
        report: &[
            NO_REDUCTION_HEADER,
            FRONT_FIRST,
            FRONT_ONE_FAULT,
            r#"{"cause":"budget","failed":0,"invs":9,"kind":"end","plans":5,"pruned":0,"run":5,"stopped":"1.1/1.1=timeout,1.1/2.1=timeout"}
"#,
        ],
    },
    // As many runs as the campaign takes.
    Case {
        words: &[TEST, FAULTS, &["--budget=6"]],
        sources: &[FRONT, FRONT_TEST, FRONT_FAULTS],
        code: 0,
        text: FRONT_COMPLETED,
        report: &[
            HEADER,
            FRONT_FIRST,
            FRONT_ONE_FAULT,
            FRONT_BOTH,
            FRONT_PRUNED,
        ],
    },
    Case {
        words: &[TEST, FAULTS, NO_REDUCTION, &["--budget=6"]],
        sources: &[FRONT, FRONT_TEST, FRONT_FAULTS],
        code: 7,
        text: "budget spent at 1.1/1.1=timeout,1.1/2.1/1.1=timeout\n",
        report: &[
            NO_REDUCTION_HEADER,
            FRONT_FIRST,
            FRONT_ONE_FAULT,
            FRONT_BOTH,
            r#"{"cause":"budget","failed":0,"invs":10,"kind":"end","plans":6,"pruned":0,"run":6,"stopped":"1.1/1.1=timeout,1.1/2.1/1.1=timeout"}
"#,
        ],
    },
    Case {
        words: &[TEST, FAULTS, &["--budget=0"]],
        sources: &[FRONT, FRONT_TEST, FRONT_FAULTS],
        code: 7,
        text: "budget spent at none\n",
        report: &[
            HEADER,
            r#"{"cause":"budget","failed":0,"invs":0,"kind":"end","plans":0,"pruned":0,"run":0,"stopped":"none"}
"#,
        ],
    },
    Case {
        words: &[TEST, FAULTS, &["--budget=1"]],
        sources: &[FRONT, FRONT_TEST, FRONT_FAULTS],
        code: 7,
        text: "budget spent at 1.1/1.1=timeout\n",
        report: &[
            HEADER,
            FRONT_FIRST,
            r#"{"cause":"budget","failed":0,"invs":5,"kind":"end","plans":1,"pruned":0,"run":1,"stopped":"1.1/1.1=timeout"}
"#,
        ],
    },
    // A plan is pruned, and fails.
    Case {
        words: &[TEST, FAULTS],
        sources: &[
            FRONT,
            b"test both { let r = 0; call r = front.go(); assert r == 2 or injected_on d; }",
            FRONT_FAULTS,
        ],
        code: 1,
        text: "completed plans 9 run 6 pruned 3 failed 5 invs 10\nfirst failed plan 1\n",
        report: &[
            HEADER,
            FRONT_FIRST,
            r#"{"args":[],"calls":[{"args":[],"callee":"b.get","count":1,"reply":{"err":"timeout"},"site":1},{"args":[],"callee":"c.get","count":1,"reply":{"ok":1},"site":2}],"id":5,"kind":"inv","method":"front.go","plan":1,"reply":{"ok":1},"steps":6}
{"code":"timeout","id":1,"index":"1.1/1.1","kind":"plan","outcome":"assert_failed 1","parent":0,"run":true,"uses":[5,3,4]}
{"args":[],"calls":[{"args":[],"callee":"d.get","count":1,"reply":{"err":"timeout"},"site":1}],"id":6,"kind":"inv","method":"b.get","plan":2,"reply":{"err":"timeout"},"steps":2}
{"code":"timeout","id":2,"index":"1.1/1.1/1.1","kind":"plan","outcome":"passed","parent":0,"run":true,"uses":[5,6,3,4]}
{"args":[],"calls":[{"args":[],"callee":"b.get","count":1,"reply":{"ok":1},"site":1},{"args":[],"callee":"c.get","count":1,"reply":{"err":"timeout"},"site":2}],"id":7,"kind":"inv","method":"front.go","plan":3,"reply":{"ok":1},"steps":6}
{"code":"timeout","id":3,"index":"1.1/2.1","kind":"plan","outcome":"assert_failed 1","parent":0,"run":true,"uses":[7,1,2]}
{"args":[],"calls":[{"args":[],"callee":"e.get","count":1,"reply":{"err":"timeout"},"site":1}],"id":8,"kind":"inv","method":"c.get","plan":4,"reply":{"err":"timeout"},"steps":2}
{"code":"timeout","id":4,"index":"1.1/2.1/1.1","kind":"plan","outcome":"assert_failed 1","parent":0,"run":true,"uses":[7,1,2,8]}
{"args":[],"calls":[{"args":[],"callee":"b.get","count":1,"reply":{"err":"timeout"},"site":1},{"args":[],"callee":"c.get","count":1,"reply":{"err":"timeout"},"site":2}],"id":9,"kind":"inv","method":"front.go","plan":5,"reply":{"ok":0},"steps":7}
{"code":"timeout","id":5,"index":"1.1/2.1","kind":"plan","outcome":"assert_failed 1","parent":1,"run":true,"uses":[9]}
{"code":"timeout","id":6,"index":"1.1/2.1/1.1","kind":"plan","outcome":"assert_failed 1","parent":1,"run":false,"uses":[9,8]}
{"code":"timeout","id":7,"index":"1.1/2.1","kind":"plan","outcome":"passed","parent":2,"run":false,"uses":[9,6]}
{"code":"timeout","id":8,"index":"1.1/2.1/1.1","kind":"plan","outcome":"passed","parent":2,"run":false,"uses":[9,6,8]}
{"cause":"completed","failed":5,"invs":10,"kind":"end","plans":9,"pruned":3,"run":6,"stopped":null}
"#,
        ],
    },
];

#[test]
fn campaigns_of_nine_plans_end_so(rt: HostRuntime) -> Result<(), Fail> {
    for case in FRONTS {
        assert!(rt; ends_so(rt.alloc(), case)?, "{}", case.text);
    }
    Ok(())
}
