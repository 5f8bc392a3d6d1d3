//! Campaigns over files in memory: their plans, and how they end.
use crate::reports::{
    CART_END, CART_GET, CART_PLAN, CART_TIMEOUT, CART_TIMEOUT_PLAN, CART_TOTAL, HEADER,
    NO_REDUCTION_HEADER,
};
use crate::running::{Case, carried_out, ends_so};
use crate::texts::{
    CART, CART_FAULTS, CART_TEST, FAULTS, NO_REDUCTION, RETRY, RETRY_TEST, SHOP, SHOP_FAULTS,
    SHOP_TEST, TEST,
};
use std::test::Fail;

const CART_COMPLETED: &str = "completed plans 2 run 2 pruned 0 failed 0 invs 3\n";

/// Each of its plans takes seven units of fuel.
const CARTS: &[Case] = &[
    Case {
        words: &[TEST, FAULTS],
        sources: &[CART, CART_TEST, CART_FAULTS],
        code: 0,
        text: CART_COMPLETED,
        report: &[
            HEADER,
            CART_TOTAL,
            CART_GET,
            CART_PLAN,
            CART_TIMEOUT,
            CART_TIMEOUT_PLAN,
            CART_END,
        ],
    },
    Case {
        words: &[TEST, FAULTS, NO_REDUCTION],
        sources: &[CART, CART_TEST, CART_FAULTS],
        code: 0,
        text: CART_COMPLETED,
        report: &[
            NO_REDUCTION_HEADER,
            CART_TOTAL,
            CART_GET,
            CART_PLAN,
            CART_TIMEOUT,
            CART_TIMEOUT_PLAN,
            CART_END,
        ],
    },
    Case {
        words: &[TEST, FAULTS, &["--fuel=6"]],
        sources: &[CART, CART_TEST, CART_FAULTS],
        code: 6,
        text: "fuel spent at none\n",
        report: &[
            r#"{"fuel":6,"kind":"header","reduction":true,"version":1}
{"cause":"fuel","failed":0,"invs":0,"kind":"end","plans":0,"pruned":0,"run":0,"stopped":"none"}
"#,
        ],
    },
    Case {
        words: &[TEST, FAULTS, &["--fuel=7"]],
        sources: &[CART, CART_TEST, CART_FAULTS],
        code: 0,
        text: CART_COMPLETED,
        report: &[
            r#"{"fuel":7,"kind":"header","reduction":true,"version":1}
"#,
            CART_TOTAL,
            CART_GET,
            CART_PLAN,
            CART_TIMEOUT,
            CART_TIMEOUT_PLAN,
            CART_END,
        ],
    },
    Case {
        words: &[TEST, FAULTS, NO_REDUCTION, &["--fuel=6"]],
        sources: &[CART, CART_TEST, CART_FAULTS],
        code: 6,
        text: "fuel spent at none\n",
        report: &[
            r#"{"fuel":6,"kind":"header","reduction":false,"version":1}
{"cause":"fuel","failed":0,"invs":0,"kind":"end","plans":0,"pruned":0,"run":0,"stopped":"none"}
"#,
        ],
    },
    Case {
        words: &[TEST, FAULTS, NO_REDUCTION, &["--fuel=7"]],
        sources: &[CART, CART_TEST, CART_FAULTS],
        code: 0,
        text: CART_COMPLETED,
        report: &[
            r#"{"fuel":7,"kind":"header","reduction":false,"version":1}
"#,
            CART_TOTAL,
            CART_GET,
            CART_PLAN,
            CART_TIMEOUT,
            CART_TIMEOUT_PLAN,
            CART_END,
        ],
    },
    Case {
        words: &[TEST, FAULTS, &["--budget=1"]],
        sources: &[CART, CART_TEST, CART_FAULTS],
        code: 7,
        text: "budget spent at 1.1/1.1=timeout\n",
        report: &[
            HEADER,
            CART_TOTAL,
            CART_GET,
            CART_PLAN,
            r#"{"cause":"budget","failed":0,"invs":2,"kind":"end","plans":1,"pruned":0,"run":1,"stopped":"1.1/1.1=timeout"}
"#,
        ],
    },
    Case {
        words: &[TEST, FAULTS, &["--budget=002"]],
        sources: &[CART, CART_TEST, CART_FAULTS],
        code: 0,
        text: CART_COMPLETED,
        report: &[
            HEADER,
            CART_TOTAL,
            CART_GET,
            CART_PLAN,
            CART_TIMEOUT,
            CART_TIMEOUT_PLAN,
            CART_END,
        ],
    },
];

/// Fault files that mean the same code twice, and nothing.
const CART_CHOICES: &[Case] = &[
    Case {
        words: &[TEST, FAULTS],
        sources: &[
            CART,
            CART_TEST,
            b"[[fault]]\ncallee = \"price\"\ncodes = [\"timeout\", \"unavailable\", \"timeout\"]\n",
        ],
        code: 0,
        text: "completed plans 3 run 3 pruned 0 failed 0 invs 4\n",
        report: &[
            HEADER,
            CART_TOTAL,
            CART_GET,
            CART_PLAN,
            CART_TIMEOUT,
            CART_TIMEOUT_PLAN,
            r#"{"args":[2],"calls":[{"args":[2],"callee":"price.get","count":1,"reply":{"err":"unavailable"},"site":1}],"id":3,"kind":"inv","method":"cart.total","plan":2,"reply":{"ok":5},"steps":4}
{"code":"unavailable","id":2,"index":"1.1/1.1","kind":"plan","outcome":"passed","parent":0,"run":true,"uses":[3]}
{"cause":"completed","failed":0,"invs":4,"kind":"end","plans":3,"pruned":0,"run":3,"stopped":null}
"#,
        ],
    },
    Case {
        words: &[TEST, FAULTS, NO_REDUCTION],
        sources: &[
            CART,
            CART_TEST,
            b"[[fault]]\ncallee = \"price\"\ncodes = [\"timeout\", \"unavailable\", \"timeout\"]\n",
        ],
        code: 0,
        text: "completed plans 3 run 3 pruned 0 failed 0 invs 4\n",
        report: &[
            NO_REDUCTION_HEADER,
            CART_TOTAL,
            CART_GET,
            CART_PLAN,
            CART_TIMEOUT,
            CART_TIMEOUT_PLAN,
            r#"{"args":[2],"calls":[{"args":[2],"callee":"price.get","count":1,"reply":{"err":"unavailable"},"site":1}],"id":3,"kind":"inv","method":"cart.total","plan":2,"reply":{"ok":5},"steps":4}
{"code":"unavailable","id":2,"index":"1.1/1.1","kind":"plan","outcome":"passed","parent":0,"run":true,"uses":[3]}
{"cause":"completed","failed":0,"invs":4,"kind":"end","plans":3,"pruned":0,"run":3,"stopped":null}
"#,
        ],
    },
    Case {
        words: &[TEST, FAULTS],
        sources: &[CART, CART_TEST, b""],
        code: 0,
        text: "completed plans 1 run 1 pruned 0 failed 0 invs 2\n",
        report: &[
            HEADER,
            CART_TOTAL,
            CART_GET,
            CART_PLAN,
            r#"{"cause":"completed","failed":0,"invs":2,"kind":"end","plans":1,"pruned":0,"run":1,"stopped":null}
"#,
        ],
    },
    Case {
        words: &[TEST, FAULTS, NO_REDUCTION],
        sources: &[CART, CART_TEST, b""],
        code: 0,
        text: "completed plans 1 run 1 pruned 0 failed 0 invs 2\n",
        report: &[
            NO_REDUCTION_HEADER,
            CART_TOTAL,
            CART_GET,
            CART_PLAN,
            r#"{"cause":"completed","failed":0,"invs":2,"kind":"end","plans":1,"pruned":0,"run":1,"stopped":null}
"#,
        ],
    },
];

/// Plans of which each is pruned, or fails.
const CART_ENDS: &[Case] = &[
    // The callee itself fails so: what an injected failure brings was seen.
    Case {
        words: &[TEST, FAULTS],
        sources: &[
            b"service price { method get(id: int) -> int { fail timeout; } } service cart { method total(id: int) -> int { let p = 0; call p = price.get(id) on any { p = 5; } return p; } }",
            CART_TEST,
            CART_FAULTS,
        ],
        code: 1,
        text: "completed plans 2 run 1 pruned 1 failed 1 invs 2\nfirst failed plan 0\n",
        report: &[
            HEADER,
            r#"{"args":[2],"calls":[{"args":[2],"callee":"price.get","count":1,"reply":{"err":"timeout"},"site":1}],"id":0,"kind":"inv","method":"cart.total","plan":0,"reply":{"ok":5},"steps":4}
{"args":[2],"calls":[],"id":1,"kind":"inv","method":"price.get","plan":0,"reply":{"err":"timeout"},"steps":1}
{"code":null,"id":0,"index":null,"kind":"plan","outcome":"assert_failed 1","parent":null,"run":true,"uses":[0,1]}
{"code":"timeout","id":1,"index":"1.1/1.1","kind":"plan","outcome":"passed","parent":0,"run":false,"uses":[0]}
{"cause":"completed","failed":1,"invs":2,"kind":"end","plans":2,"pruned":1,"run":1,"stopped":null}
"#,
        ],
    },
    // Two calls of the test.
    Case {
        words: &[TEST, FAULTS],
        sources: &[
            CART,
            b"test twice { let r = 0; call r = cart.total(2); assert not injected; call r = cart.total(2); assert r == 20 or injected; }",
            CART_FAULTS,
        ],
        code: 1,
        text: "completed plans 3 run 2 pruned 1 failed 1 invs 3\nfirst failed plan 1\n",
        report: &[
            HEADER,
            CART_TOTAL,
            CART_GET,
            r#"{"code":null,"id":0,"index":null,"kind":"plan","outcome":"passed","parent":null,"run":true,"uses":[0,1,0,1]}
"#,
            CART_TIMEOUT,
            r#"{"code":"timeout","id":1,"index":"1.1/1.1","kind":"plan","outcome":"assert_failed 1","parent":0,"run":true,"uses":[2]}
{"code":"timeout","id":2,"index":"2.1/1.1","kind":"plan","outcome":"passed","parent":0,"run":false,"uses":[0,1,2]}
{"cause":"completed","failed":1,"invs":3,"kind":"end","plans":3,"pruned":1,"run":2,"stopped":null}
"#,
        ],
    },
];

/// The price isn't had in time, or it is another one, or the same.
const CART_VALUES: &[u8] =
    b"version = 2\n\n[[fault]]\ncallee = \"price\"\ncodes = [\"timeout\"]\nvalues = [0, 20]\n";

const VALUES: &str =
    r#"{"fault":null,"id":0,"index":null,"kind":"plan","outcome":"passed","parent":null,"run":true,"uses":[0,1]}
{"args":[2],"calls":[{"args":[2],"callee":"price.get","count":1,"reply":{"err":"timeout"},"site":1}],"id":2,"kind":"inv","method":"cart.total","plan":1,"reply":{"ok":5},"steps":4}
{"fault":{"err":"timeout"},"id":1,"index":"1.1/1.1","kind":"plan","outcome":"passed","parent":0,"run":true,"uses":[2]}
{"args":[2],"calls":[{"args":[2],"callee":"price.get","count":1,"reply":{"ok":0},"site":1}],"id":3,"kind":"inv","method":"cart.total","plan":2,"reply":{"ok":0},"steps":3}
{"fault":{"ok":0},"id":2,"index":"1.1/1.1","kind":"plan","outcome":"passed","parent":0,"run":true,"uses":[3]}
"#;

const VALUED: &[Case] = &[
    Case {
        words: &[TEST, FAULTS],
        sources: &[CART, CART_TEST, CART_VALUES],
        code: 0,
        text: "completed plans 4 run 3 pruned 1 failed 0 invs 4\n",
        report: &[
            r#"{"fuel":100000,"kind":"header","reduction":true,"version":2}
"#,
            CART_TOTAL,
            CART_GET,
            VALUES,
            r#"{"fault":{"ok":20},"id":3,"index":"1.1/1.1","kind":"plan","outcome":"passed","parent":0,"run":false,"uses":[0]}
{"cause":"completed","failed":0,"invs":4,"kind":"end","plans":4,"pruned":1,"run":3,"stopped":null}
"#,
        ],
    },
    Case {
        words: &[TEST, FAULTS, NO_REDUCTION],
        sources: &[CART, CART_TEST, CART_VALUES],
        code: 0,
        text: "completed plans 4 run 4 pruned 0 failed 0 invs 4\n",
        report: &[
            r#"{"fuel":100000,"kind":"header","reduction":false,"version":2}
"#,
            CART_TOTAL,
            CART_GET,
            VALUES,
            r#"{"fault":{"ok":20},"id":3,"index":"1.1/1.1","kind":"plan","outcome":"passed","parent":0,"run":true,"uses":[0]}
{"cause":"completed","failed":0,"invs":4,"kind":"end","plans":4,"pruned":0,"run":4,"stopped":null}
"#,
        ],
    },
    Case {
        words: &[TEST, FAULTS, &["--budget=2"]],
        sources: &[CART, CART_TEST, CART_VALUES],
        code: 7,
        text: "budget spent at 1.1/1.1=ok:0\n",
        report: &[
            r#"{"fuel":100000,"kind":"header","reduction":true,"version":2}
"#,
            CART_TOTAL,
            CART_GET,
            r#"{"fault":null,"id":0,"index":null,"kind":"plan","outcome":"passed","parent":null,"run":true,"uses":[0,1]}
{"args":[2],"calls":[{"args":[2],"callee":"price.get","count":1,"reply":{"err":"timeout"},"site":1}],"id":2,"kind":"inv","method":"cart.total","plan":1,"reply":{"ok":5},"steps":4}
{"fault":{"err":"timeout"},"id":1,"index":"1.1/1.1","kind":"plan","outcome":"passed","parent":0,"run":true,"uses":[2]}
{"cause":"budget","failed":0,"invs":3,"kind":"end","plans":2,"pruned":0,"run":2,"stopped":"1.1/1.1=ok:0"}
"#,
        ],
    },
];

const RETRY_FAULTS: &[u8] =
    b"[[fault]]\ncallee = \"price\"\nmethod = \"get\"\ncodes = [\"unavailable\"]\n";

const RETRY_FAILED: &str =
    "completed plans 3 run 3 pruned 0 failed 1 invs 4\nfirst failed plan 2\n";

const RETRY_FIRST: &str =
    r#"{"args":[2],"calls":[{"args":[2],"callee":"price.get","count":1,"reply":{"ok":20},"site":1}],"id":0,"kind":"inv","method":"shop.buy","plan":0,"reply":{"ok":20},"steps":7}
{"args":[2],"calls":[],"id":1,"kind":"inv","method":"price.get","plan":0,"reply":{"ok":20},"steps":1}
{"code":null,"id":0,"index":null,"kind":"plan","outcome":"passed","parent":null,"run":true,"uses":[0,1]}
"#;

const RETRY_LATER: &str =
    r#"{"args":[2],"calls":[{"args":[2],"callee":"price.get","count":1,"reply":{"err":"unavailable"},"site":1},{"args":[2],"callee":"price.get","count":2,"reply":{"ok":20},"site":1}],"id":2,"kind":"inv","method":"shop.buy","plan":1,"reply":{"ok":20},"steps":12}
{"code":"unavailable","id":1,"index":"1.1/1.1","kind":"plan","outcome":"passed","parent":0,"run":true,"uses":[2,1]}
{"args":[2],"calls":[{"args":[2],"callee":"price.get","count":1,"reply":{"err":"unavailable"},"site":1},{"args":[2],"callee":"price.get","count":2,"reply":{"err":"unavailable"},"site":1}],"id":3,"kind":"inv","method":"shop.buy","plan":2,"reply":{"err":"unavailable"},"steps":13}
{"code":"unavailable","id":2,"index":"1.1/1.2","kind":"plan","outcome":"call_failed 1 unavailable","parent":1,"run":true,"uses":[3]}
{"cause":"completed","failed":1,"invs":4,"kind":"end","plans":3,"pruned":0,"run":3,"stopped":null}
"#;

/// The plan with one fault takes most fuel: 16 units.
const RETRIES: &[Case] = &[
    Case {
        words: &[TEST, FAULTS],
        sources: &[RETRY, RETRY_TEST, RETRY_FAULTS],
        code: 1,
        text: RETRY_FAILED,
        report: &[HEADER, RETRY_FIRST, RETRY_LATER],
    },
    Case {
        words: &[TEST, FAULTS, NO_REDUCTION],
        sources: &[RETRY, RETRY_TEST, RETRY_FAULTS],
        code: 1,
        text: RETRY_FAILED,
        report: &[NO_REDUCTION_HEADER, RETRY_FIRST, RETRY_LATER],
    },
    Case {
        words: &[TEST, FAULTS, &["--fuel=16"]],
        sources: &[RETRY, RETRY_TEST, RETRY_FAULTS],
        code: 1,
        text: RETRY_FAILED,
        report: &[
            r#"{"fuel":16,"kind":"header","reduction":true,"version":1}
"#,
            RETRY_FIRST,
            RETRY_LATER,
        ],
    },
    Case {
        words: &[TEST, FAULTS, &["--fuel=15"]],
        sources: &[RETRY, RETRY_TEST, RETRY_FAULTS],
        code: 6,
        text: "fuel spent at 1.1/1.1=unavailable\n",
        report: &[
            r#"{"fuel":15,"kind":"header","reduction":true,"version":1}
"#,
            RETRY_FIRST,
            r#"{"cause":"fuel","failed":0,"invs":2,"kind":"end","plans":1,"pruned":0,"run":1,"stopped":"1.1/1.1=unavailable"}
"#,
        ],
    },
    Case {
        words: &[TEST, FAULTS, &["--fuel=10"]],
        sources: &[RETRY, RETRY_TEST, RETRY_FAULTS],
        code: 6,
        text: "fuel spent at none\n",
        report: &[
            r#"{"fuel":10,"kind":"header","reduction":true,"version":1}
"#,
            r#"{"cause":"fuel","failed":0,"invs":0,"kind":"end","plans":0,"pruned":0,"run":0,"stopped":"none"}
"#,
        ],
    },
];

#[test]
fn campaigns_end_so(rt: HostRuntime) -> Result<(), Fail> {
    for cases in [CARTS, CART_CHOICES, CART_ENDS, VALUED, RETRIES] {
        for case in cases {
            assert!(rt; ends_so(rt.alloc(), case)?, "{}", case.text);
        }
    }
    Ok(())
}

#[test]
fn a_campaign_of_a_shop_is_reduced(rt: HostRuntime) -> Result<(), Fail> {
    let done = carried_out(
        rt.alloc(),
        &[TEST, FAULTS],
        &[SHOP, SHOP_TEST, SHOP_FAULTS],
        &[],
        false,
    )?;
    assert!(rt;
        done.tells(
            0,
            "completed plans 343 run 55 pruned 288 failed 0 invs 68\n"
        )
    );
    Ok(())
}
