//! Tests without faults, and commands that are refused.
use crate::reports::{HEADER, PRICE_END, PRICE_GET, PRICE_PLAN};
use crate::running::{BEFORE, Case, carried_out, ends_so, is_refused, is_usage};
use crate::texts::{FAULTS, FMT, PRICE, PRICE_TEST, TEST};
use fb_cli::{Status, exit_code};
use std::alloc::AllocError;
use std::io;
use std::test::Fail;

const FAILED_END: &str =
    r#"{"cause":"completed","failed":1,"invs":1,"kind":"end","plans":1,"pruned":0,"run":1,"stopped":null}
"#;

const COMPLETED: &str = "completed plans 1 run 1 pruned 0 failed 0 invs 1\n";

const FAILED: &str = "completed plans 1 run 1 pruned 0 failed 1 invs 1\nfirst failed plan 0\n";

#[test]
fn a_process_without_words_has_a_code(rt: HostRuntime) {
    let no_text = io::Error::from(io::ErrorKind::InvalidData);
    assert_eq!(rt; exit_code(&Err(no_text)), 11);
    assert_eq!(rt; exit_code(&Err(io::Error::from(AllocError))), 9);
    assert_eq!(rt; exit_code(&Ok(Status::Failures)), 1);
}

/// The first run takes four units of fuel.
const RUNS: &[Case] = &[
    Case {
        words: &[TEST],
        sources: &[PRICE, PRICE_TEST],
        code: 0,
        text: COMPLETED,
        report: &[HEADER, PRICE_GET, PRICE_PLAN, PRICE_END],
    },
    Case {
        words: &[TEST, &["--fuel=4"]],
        sources: &[PRICE, PRICE_TEST],
        code: 0,
        text: COMPLETED,
        report: &[
            r#"{"fuel":4,"kind":"header","reduction":true,"version":1}
"#,
            PRICE_GET,
            PRICE_PLAN,
            PRICE_END,
        ],
    },
    Case {
        words: &[TEST, &["--fuel=3"]],
        sources: &[PRICE, PRICE_TEST],
        code: 6,
        text: "fuel spent at none\n",
        report: &[
            r#"{"fuel":3,"kind":"header","reduction":true,"version":1}
{"cause":"fuel","failed":0,"invs":0,"kind":"end","plans":0,"pruned":0,"run":0,"stopped":"none"}
"#,
        ],
    },
    // A false assertion.
    Case {
        words: &[TEST],
        sources: &[
            PRICE,
            b"test one { let r = 0; call r = price.get(2); assert r == 21; }",
        ],
        code: 1,
        text: FAILED,
        report: &[
            HEADER,
            PRICE_GET,
            r#"{"code":null,"id":0,"index":null,"kind":"plan","outcome":"assert_failed 1","parent":null,"run":true,"uses":[0]}
"#,
            FAILED_END,
        ],
    },
    // An overflow that isn't handled.
    Case {
        words: &[TEST],
        sources: &[
            PRICE,
            b"test one { let r = 0; call r = price.get(9223372036854775807); assert r == 20; }",
        ],
        code: 1,
        text: FAILED,
        report: &[
            HEADER,
            r#"{"args":[9223372036854775807],"calls":[],"id":0,"kind":"inv","method":"price.get","plan":0,"reply":{"err":"internal"},"steps":1}
{"code":null,"id":0,"index":null,"kind":"plan","outcome":"call_failed 1 internal","parent":null,"run":true,"uses":[0]}
"#,
            FAILED_END,
        ],
    },
];

#[test]
fn tests_are_run_and_reported(rt: HostRuntime) -> Result<(), Fail> {
    for case in RUNS {
        assert!(rt; ends_so(rt.alloc(), case)?, "{}", case.text);
    }
    Ok(())
}

/// Services, a test of them that passes, and what is told.
const PASSED: &[(&[u8], &[u8], &str)] = &[
    (
        PRICE,
        b"test t { assert 1 + 1 == 2; }",
        "completed plans 1 run 1 pruned 0 failed 0 invs 0\n",
    ),
    (
        b"service big { method next(n: int) -> int { return n + 1; } } service top { method ask(n: int) -> int { let v = 0; call v = big.next(n) on internal { v = 7; } return v; } }",
        b"test e { let r = 0; call r = top.ask(9223372036854775807); assert r == 7; }",
        "completed plans 1 run 1 pruned 0 failed 0 invs 2\n",
    ),
    (
        b"service w { method big(n: int) -> int { let t = \"\"; repeat 16 { t = t ++ t ++ \"a\"; } if n > 0 { t = t ++ \"a\"; } return len(t); } }",
        b"test f { let r = 0; call r = w.big(0); assert r == 65535; call r = w.big(1) on internal { r = 1; } assert r == 1; }",
        "completed plans 1 run 1 pruned 0 failed 0 invs 2\n",
    ),
    (
        b"service sum { method all(xs: list<int>) -> int { let t = 0; for x in xs { t = t + x; } return t; } }",
        b"test i { let r = 0; call r = sum.all(list<int>[1, 2, 3]); assert r == 6; assert len(list<text>[]) == 0; }",
        COMPLETED,
    ),
];

#[test]
fn every_accepted_program_is_run(rt: HostRuntime) -> Result<(), Fail> {
    for (services, test, text) in PASSED {
        let done = carried_out(rt.alloc(), &[TEST], &[*services, *test], &[], false)?;
        assert!(rt; done.tells(0, text), "{text}");
    }
    Ok(())
}

/// Services that no grammar reads, and what is told.
const NOT_SPELLED: &[(&[u8], &str)] = &[
    (b"service Price {}", "refused services BadToken 8\n"),
    (b"service 9", "refused services Unexpected 8\n"),
    (b"service", "refused services Unexpected 7\n"),
    (
        b"service a { method m() -> int { return ((((((((((((((((((((((((((((((((((((((((",
        "refused services TooDeep 71\n",
    ),
    (b"service a {\xff", "refused services NotText 11\n"),
];

#[test]
fn services_are_refused_at_their_first_fault(rt: HostRuntime) -> Result<(), Fail> {
    for (services, text) in NOT_SPELLED {
        for words in [TEST, FMT] {
            assert!(rt;
                is_refused(rt.alloc(), &[words], &[*services, PRICE_TEST], text)?,
                "{text}"
            );
        }
    }
    Ok(())
}

/// Services and a test of which one breaks a rule, and what is told.
const NOT_ACCEPTED: &[(&[u8], &[u8], &str)] = &[
    (
        b"service price {}",
        b"test one { repeat 1001 {} }",
        "refused test TooMany 18\n",
    ),
    (
        b"service a {} service a {}",
        b"test",
        "refused services DuplicateName 2.0.0\n",
    ),
    (
        b"service price {}",
        PRICE_TEST,
        "refused test UnknownCallee 0.0.2\n",
    ),
    (
        b"service a { method m() -> int { let x = 0; call x = b.m(); return x; } } service b { method m() -> int { let x = 0; call x = a.m(); return x; } }",
        PRICE_TEST,
        "refused services Cycle 1.1.0 a.m b.m\n",
    ),
];

#[test]
fn a_program_is_refused_at_the_first_rule_that_it_breaks(rt: HostRuntime) -> Result<(), Fail> {
    for (services, test, text) in NOT_ACCEPTED {
        assert!(rt;
            is_refused(rt.alloc(), &[TEST], &[*services, *test], text)?,
            "{text}"
        );
    }
    Ok(())
}

#[test]
fn an_input_over_its_limit_is_too_long(rt: HostRuntime) -> Result<(), Fail> {
    let alloc = rt.alloc();
    let services = vec![in alloc; b' '; 1_048_577]?;
    for words in [TEST, FMT] {
        let sources = [services.as_slice(), PRICE_TEST];
        let text = "refused services TooLong\n";
        assert!(rt; is_refused(alloc, &[words], &sources, text)?);
    }
    let test = vec![in alloc; b' '; 262_145]?;
    assert!(rt; is_refused(alloc, &[TEST], &[PRICE, &test], "refused test TooLong\n")?);
    Ok(())
}

/// Inputs as the report's file, and what is told.
const SAME_NAMES: &[(&str, &str)] = &[
    ("s.fb", "same name s.fb\n"),
    ("t.fb", "same name t.fb\n"),
    ("f.toml", "same name f.toml\n"),
];

#[test]
fn a_report_with_the_name_of_an_input_is_refused(rt: HostRuntime) -> Result<(), Fail> {
    for (name, text) in SAME_NAMES {
        let words: [&[&str]; 3] = [
            &["test", "--services", "s.fb", "--test", "t.fb"],
            FAULTS,
            &["--report", name],
        ];
        let done = carried_out(rt.alloc(), &words, &[PRICE, PRICE_TEST, b""], &[], false)?;
        assert!(rt; done.tells(2, text) && done.leaves(&[BEFORE]), "{name}");
        assert_eq!(rt; done.loads, 0);
    }
    Ok(())
}

/// Words that say no job.
const NO_JOBS: &[&[&str]] = &[
    &[],
    &["print", "--services", "s.fb"],
    &["--services", "s.fb"],
    &["fmt"],
    &["fmt", "s.fb"],
    &["fmt", "--services"],
    &["fmt", "--test", "s.fb"],
    &["fmt", "--services", "s.fb", "t.fb"],
    &["fmt", "--services", "s.fb", "--services", "s.fb"],
    &["fmt", "--services", "s.fb", "--help"],
    &["fmt", "--services", "s.fb", "--budget=1"],
    &["test", "--services", "s.fb", "--test", "t.fb"],
    &["test", "--services", "s.fb", "--report", "r.jsonl"],
    &["test", "--test", "t.fb", "--report", "r.jsonl"],
    &["check"],
];

/// Words that `test` doesn't take beside those that it needs.
const NO_OPTIONS: &[&[&str]] = &[
    &["f.toml"],
    &["--faults"],
    &["--faults=f.toml", "--faults=f.toml"],
    &["--no-reduction", "--no-reduction"],
    &["--no-reduction=true"],
    &["--reduction"],
    &["--fuel=0"],
    &["--fuel=1000001"],
    &["--budget"],
    &["--budget="],
    &["--budget=1", "--budget=1"],
    &["--budget=1000001"],
    &["--budget=-1"],
    &["--budget=+5"],
    &["--budget= 5"],
    &["--budget=5 "],
    &["--budget=0x5"],
    &["--budget=five"],
    &["--budget=1000000000000000000000000000000000000000"],
];

#[test]
fn words_that_say_no_job_are_refused(rt: HostRuntime) -> Result<(), Fail> {
    for words in NO_JOBS {
        assert!(rt; is_usage(rt.alloc(), &[*words])?);
    }
    for words in NO_OPTIONS {
        assert!(rt; is_usage(rt.alloc(), &[TEST, *words])?);
    }
    Ok(())
}
