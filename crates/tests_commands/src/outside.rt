//! Each call of the outside failing, by itself or together with the put of the text.
use crate::reports::{
    CART_END, CART_GET, CART_PLAN, CART_TIMEOUT, CART_TIMEOUT_PLAN, CART_TOTAL, HEADER, PRICE_END,
    PRICE_GET, PRICE_PLAN,
};
use crate::running::{BEFORE, carried_out};
use crate::texts::{CART, CART_FAULTS, CART_TEST, FAULTS, FMT, PRICE, PRICE_TEST, TEST};
use std::alloc::{AllocError, Global};
use std::test::Fail;

/// Calls of a command that fail, and what it tells and leaves.
struct Failing {
    /// The numbers of the calls of the files, each with how many of its bytes an append adds.
    calls: &'static [(u64, u64)],
    put_fails: bool,
    code: u8,
    text: &'static str,
    report: &'static [&'static str],
}

impl Failing {
    fn ends_so(
        &self,
        alloc: Global,
        words: &[&[&str]],
        sources: &[&[u8]],
    ) -> Result<bool, AllocError> {
        let done = carried_out(alloc, words, sources, self.calls, self.put_fails)?;
        Ok(done.tells(self.code, self.text) && done.leaves(self.report))
    }
}

const WRITE_FAULT: &str = "write fault\n";

/// Of a test without faults: two loads, a create and four appends.
const OF_A_TEST: &[Failing] = &[
    Failing {
        calls: &[(1, 0)],
        put_fails: false,
        code: 4,
        text: "read fault services\n",
        report: &[BEFORE],
    },
    Failing {
        calls: &[(2, 0)],
        put_fails: false,
        code: 4,
        text: "read fault test\n",
        report: &[BEFORE],
    },
    Failing {
        calls: &[(3, 0)],
        put_fails: false,
        code: 5,
        text: WRITE_FAULT,
        report: &[BEFORE],
    },
    Failing {
        calls: &[(4, 0)],
        put_fails: false,
        code: 5,
        text: WRITE_FAULT,
        report: &[],
    },
    Failing {
        calls: &[(5, 0)],
        put_fails: false,
        code: 5,
        text: WRITE_FAULT,
        report: &[HEADER],
    },
    Failing {
        calls: &[(6, 0)],
        put_fails: false,
        code: 5,
        text: WRITE_FAULT,
        report: &[HEADER, PRICE_GET],
    },
    Failing {
        calls: &[(7, 0)],
        put_fails: false,
        code: 5,
        text: WRITE_FAULT,
        report: &[HEADER, PRICE_GET, PRICE_PLAN],
    },
    Failing {
        calls: &[(8, 0)],
        put_fails: false,
        code: 0,
        text: "completed plans 1 run 1 pruned 0 failed 0 invs 1\n",
        report: &[HEADER, PRICE_GET, PRICE_PLAN, PRICE_END],
    },
    Failing {
        calls: &[],
        put_fails: true,
        code: 5,
        text: "",
        report: &[HEADER, PRICE_GET, PRICE_PLAN, PRICE_END],
    },
    Failing {
        calls: &[(3, 0)],
        put_fails: true,
        code: 5,
        text: "",
        report: &[BEFORE],
    },
];

/// Of a campaign: three loads, a create and seven appends.
const OF_A_CAMPAIGN: &[Failing] = &[
    Failing {
        calls: &[(1, 0)],
        put_fails: false,
        code: 4,
        text: "read fault services\n",
        report: &[BEFORE],
    },
    Failing {
        calls: &[(2, 0)],
        put_fails: false,
        code: 4,
        text: "read fault test\n",
        report: &[BEFORE],
    },
    Failing {
        calls: &[(3, 0)],
        put_fails: false,
        code: 4,
        text: "read fault faults\n",
        report: &[BEFORE],
    },
    Failing {
        calls: &[(4, 0)],
        put_fails: false,
        code: 5,
        text: WRITE_FAULT,
        report: &[BEFORE],
    },
    Failing {
        calls: &[(5, 0)],
        put_fails: false,
        code: 5,
        text: WRITE_FAULT,
        report: &[],
    },
    Failing {
        calls: &[(6, 0)],
        put_fails: false,
        code: 5,
        text: WRITE_FAULT,
        report: &[HEADER],
    },
    Failing {
        calls: &[(7, 0)],
        put_fails: false,
        code: 5,
        text: WRITE_FAULT,
        report: &[HEADER, CART_TOTAL],
    },
    Failing {
        calls: &[(8, 0)],
        put_fails: false,
        code: 5,
        text: WRITE_FAULT,
        report: &[HEADER, CART_TOTAL, CART_GET],
    },
    Failing {
        calls: &[(9, 0)],
        put_fails: false,
        code: 5,
        text: WRITE_FAULT,
        report: &[HEADER, CART_TOTAL, CART_GET, CART_PLAN],
    },
    Failing {
        calls: &[(10, 0)],
        put_fails: false,
        code: 5,
        text: WRITE_FAULT,
        report: &[HEADER, CART_TOTAL, CART_GET, CART_PLAN, CART_TIMEOUT],
    },
    Failing {
        calls: &[(11, 0)],
        put_fails: false,
        code: 5,
        text: WRITE_FAULT,
        report: &[
            HEADER,
            CART_TOTAL,
            CART_GET,
            CART_PLAN,
            CART_TIMEOUT,
            CART_TIMEOUT_PLAN,
        ],
    },
    Failing {
        calls: &[(12, 0)],
        put_fails: false,
        code: 0,
        text: "completed plans 2 run 2 pruned 0 failed 0 invs 3\n",
        report: &[
            HEADER,
            CART_TOTAL,
            CART_GET,
            CART_PLAN,
            CART_TIMEOUT,
            CART_TIMEOUT_PLAN,
            CART_END,
        ],
    },
    // A part of the line is added, of the first of two numbers, or all of it.
    Failing {
        calls: &[(7, 10)],
        put_fails: false,
        code: 5,
        text: WRITE_FAULT,
        report: &[HEADER, CART_TOTAL, r#"{"args":[2"#],
    },
    Failing {
        calls: &[(7, 10), (7, 3)],
        put_fails: false,
        code: 5,
        text: WRITE_FAULT,
        report: &[HEADER, CART_TOTAL, r#"{"args":[2"#],
    },
    Failing {
        calls: &[(11, 1000)],
        put_fails: false,
        code: 5,
        text: WRITE_FAULT,
        report: &[
            HEADER,
            CART_TOTAL,
            CART_GET,
            CART_PLAN,
            CART_TIMEOUT,
            CART_TIMEOUT_PLAN,
            CART_END,
        ],
    },
    Failing {
        calls: &[],
        put_fails: true,
        code: 5,
        text: "",
        report: &[
            HEADER,
            CART_TOTAL,
            CART_GET,
            CART_PLAN,
            CART_TIMEOUT,
            CART_TIMEOUT_PLAN,
            CART_END,
        ],
    },
    Failing {
        calls: &[(3, 10)],
        put_fails: true,
        code: 5,
        text: "",
        report: &[BEFORE],
    },
    Failing {
        calls: &[(4, 10)],
        put_fails: true,
        code: 5,
        text: "",
        report: &[BEFORE],
    },
    Failing {
        calls: &[(7, 0)],
        put_fails: true,
        code: 5,
        text: "",
        report: &[HEADER, CART_TOTAL],
    },
    Failing {
        calls: &[(7, 10)],
        put_fails: true,
        code: 5,
        text: "",
        report: &[HEADER, CART_TOTAL, r#"{"args":[2"#],
    },
];

#[test]
fn a_call_of_a_test_fails(rt: HostRuntime) -> Result<(), Fail> {
    for failing in OF_A_TEST {
        assert!(rt; failing.ends_so(rt.alloc(), &[TEST], &[PRICE, PRICE_TEST])?);
    }
    for failing in OF_A_CAMPAIGN {
        let sources = [CART, CART_TEST, CART_FAULTS];
        assert!(rt; failing.ends_so(rt.alloc(), &[TEST, FAULTS], &sources)?);
    }
    Ok(())
}

/// Services to be printed, or none, and the one load and the put failing.
const FORMATTED: &[(&[&[u8]], Failing)] = &[
    (
        &[],
        Failing {
            calls: &[],
            put_fails: false,
            code: 4,
            text: "read fault services\n",
            report: &[BEFORE],
        },
    ),
    (
        &[PRICE],
        Failing {
            calls: &[(1, 0)],
            put_fails: false,
            code: 4,
            text: "read fault services\n",
            report: &[BEFORE],
        },
    ),
    (
        &[PRICE],
        Failing {
            calls: &[],
            put_fails: true,
            code: 5,
            text: "",
            report: &[BEFORE],
        },
    ),
    (
        &[PRICE],
        Failing {
            calls: &[(1, 0)],
            put_fails: true,
            code: 5,
            text: "",
            report: &[BEFORE],
        },
    ),
    (
        &[b""],
        Failing {
            calls: &[],
            put_fails: true,
            code: 5,
            text: "",
            report: &[BEFORE],
        },
    ),
];

#[test]
fn a_call_of_fmt_fails(rt: HostRuntime) -> Result<(), Fail> {
    for (sources, failing) in FORMATTED {
        assert!(rt; failing.ends_so(rt.alloc(), &[FMT], sources)?);
    }
    Ok(())
}

const REPLAYED: &str = "1.1 cart.total ok 5\n1.1/1.1 price.get fault timeout\noutcome passed\n";

/// Of a replay: two loads.
const OF_A_REPLAY: &[Failing] = &[
    Failing {
        calls: &[(1, 0)],
        put_fails: false,
        code: 4,
        text: "read fault services\n",
        report: &[BEFORE],
    },
    Failing {
        calls: &[(2, 0)],
        put_fails: false,
        code: 4,
        text: "read fault test\n",
        report: &[BEFORE],
    },
    Failing {
        calls: &[(3, 0)],
        put_fails: false,
        code: 0,
        text: REPLAYED,
        report: &[BEFORE],
    },
    Failing {
        calls: &[],
        put_fails: true,
        code: 5,
        text: "",
        report: &[BEFORE],
    },
    Failing {
        calls: &[(2, 0)],
        put_fails: true,
        code: 5,
        text: "",
        report: &[BEFORE],
    },
];

#[test]
fn a_call_of_a_replay_fails(rt: HostRuntime) -> Result<(), Fail> {
    let words: &[&str] = &[
        "replay",
        "--services=s.fb",
        "--test=t.fb",
        "--plan=1.1/1.1=timeout",
    ];
    for failing in OF_A_REPLAY {
        assert!(rt; failing.ends_so(rt.alloc(), &[words], &[CART, CART_TEST])?);
    }
    Ok(())
}
