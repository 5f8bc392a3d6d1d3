//! Trials, which use no file.
use crate::running::{BEFORE, carried_out, is_usage};
use std::test::Fail;

/// The words of a trial, and what it tells.
const TOLD: &[(&[&str], u8, &str)] = &[
    (
        &["trial", "1", "1"],
        0,
        "trial plans 1 run 1 pruned 0 failed 0 invs 1 check yes\n",
    ),
    (
        &["trial", "0", "2"],
        0,
        "trial plans 2 run 2 pruned 0 failed 0 invs 3 check yes\n",
    ),
    (
        &["trial", "7", "12"],
        1,
        "trial plans 150 run 49 pruned 101 failed 102 invs 69 check yes\n",
    ),
];

#[test]
fn trials_tell_their_totals(rt: HostRuntime) -> Result<(), Fail> {
    for (words, code, text) in TOLD {
        let done = carried_out(rt.alloc(), &[*words], &[], &[], false)?;
        assert!(rt; done.tells(*code, text), "{text}");
        assert!(rt; done.leaves(&[BEFORE]) && done.loads == 0, "{text}");
    }
    Ok(())
}

#[test]
fn a_trial_whose_put_fails_is_a_write_fault(rt: HostRuntime) -> Result<(), Fail> {
    let done = carried_out(rt.alloc(), &[&["trial", "1", "1"]], &[], &[], true)?;
    assert!(rt; done.tells(5, "") && done.leaves(&[BEFORE]));
    Ok(())
}

const NO_TRIALS: &[&[&str]] = &[
    &["trial"],
    &["trial", "7"],
    &["trial", "7", "12", "1"],
    &["trial", "7", "0"],
    &["trial", "7", "13"],
    &["trial", "+7", "12"],
    &["trial", "-7", "12"],
    &["trial", "", "12"],
    &["trial", "18446744073709551616", "12"],
    &["trial", "7", "12", "--fuel=4"],
];

#[test]
fn other_words_are_no_trial(rt: HostRuntime) -> Result<(), Fail> {
    for words in NO_TRIALS {
        assert!(rt; is_usage(rt.alloc(), &[*words])?);
    }
    Ok(())
}
