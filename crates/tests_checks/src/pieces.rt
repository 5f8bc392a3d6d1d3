//! Reports that come in pieces.
ghost use Rattle.std.specs.Prelude.{◌≡◌, ◌<◌};

use crate::checking::report;
use crate::reports::{
    CART_YES, END, FIRST_END, GET, HEADER, PLAN, PRUNED, TIMEOUT, TIMEOUT_PLAN, TOTAL,
};
use crate::sources::{CART, Sources};
use crate::texts::verdict_text;
use fb_base::Steps;
use fb_verify::{Checker, Fed};
use std::alloc::Global;
use std::marker::Brand;
use std::sync::ledger::{Blank, Ledger};
use std::test::Fail;

/// What is told of a report in pieces, and how many of its pieces came before a line was found to break a rule.
#[derive(Drop)]
struct Done {
    told: String,
    going: usize,
}

/// Feeds pieces of so many bytes, of which the last may have fewer.
fn fed<L: Ledger>(
    alloc: Global,
    sources: &Sources,
    report: &[u8],
    size: usize,
    blank: Blank,
) -> Option<Done>
    requires size { 0 < size }
    requires name { blank.name ≡ L.name }
    requires parts { blank.parts ≡ L.parts }
    requires some { 0 < L.parts }
{
    let mut checker = Checker::new(alloc, &sources.program, &sources.test, &sources.faults);
    let mut evals = Steps::<L>::new(blank);
    let mut going = 0_usize;
    for piece in report.chunks(size) {
        match checker.feed(piece, &mut evals).ok()? {
            Fed::Going => going = going.saturating_add(1),
            Fed::Broken => {}
        }
    }
    let verdict = checker.finish().ok()?;
    let told = verdict_text(alloc, &verdict)?;
    Some(Done { told, going })
}

/// Feeds a report in two pieces.
fn fed_cut<L: Ledger>(
    alloc: Global,
    sources: &Sources,
    front: &[u8],
    back: &[u8],
    blank: Blank,
) -> Option<String>
    requires name { blank.name ≡ L.name }
    requires parts { blank.parts ≡ L.parts }
    requires some { 0 < L.parts }
{
    let mut checker = Checker::new(alloc, &sources.program, &sources.test, &sources.faults);
    let mut evals = Steps::<L>::new(blank);
    checker.feed(front, &mut evals).ok()?;
    checker.feed(back, &mut evals).ok()?;
    let verdict = checker.finish().ok()?;
    verdict_text(alloc, &verdict)
}

/// The first place before its end at which a report is cut and something else is told.
fn first_other_cut(alloc: Global, sources: &Sources, report: &[u8], told: &str) -> Option<usize> {
    let count = report.len();
    for place in 0..count {
        let (front, back) = report.split_at_checked(place)?;
        let text = fed_cut::<Brand>(alloc, sources, front, back, Blank::new(1));
        if text.is_none_or(|text| text.as_str() != told) {
            return Some(place);
        }
    }
    None
}

/// The lines of a report up to the first that breaks a rule, those below it, and what is told.
type Broken = (
    &'static [&'static str],
    &'static [&'static str],
    &'static str,
);

const BROKEN: [Broken; 5] = [
    (&[TOTAL], &[HEADER, END], "line 1 rule V1"),
    (
        &[HEADER, TOTAL, GET, TIMEOUT_PLAN],
        &[END],
        "line 4 rule V1",
    ),
    (
        &[HEADER, TOTAL, GET, PLAN, TIMEOUT, PRUNED],
        &[END, "["],
        "line 6 rule V7",
    ),
    (
        &[HEADER, TOTAL, GET, PLAN, FIRST_END, ""],
        &["", HEADER],
        "line 6 rule NotJson",
    ),
    (
        &[HEADER, TOTAL, GET, PLAN, TIMEOUT, TIMEOUT_PLAN, FIRST_END],
        &[],
        "line 7 rule V1",
    ),
];

/// Reports of which no line breaks a rule by itself and the lines above it, and what is told.
const UNBROKEN: [(&[&str], &str); 3] = [
    (
        &[HEADER, TOTAL, GET, PLAN, TIMEOUT, TIMEOUT_PLAN, END],
        CART_YES,
    ),
    (
        &[HEADER, TOTAL, GET, PLAN, FIRST_END],
        "line 4 rule V6 1.1/1.1=timeout",
    ),
    (&[HEADER, TOTAL, GET, PLAN], "line 5 rule V1"),
];

/// Whether it is told so, and broken with the last byte of the line.
fn is_broken_so(alloc: Global, sources: &Sources, case: &Broken) -> Option<bool> {
    let (above, below, told) = *case;
    let count = report(alloc, above, &[]).ok()?.len();
    let bytes = report(alloc, above, below).ok()?;
    let done = fed::<Brand>(alloc, sources, &bytes, 1, Blank::new(1))?;
    Some(done.told.as_str() == told && done.going.saturating_add(1) == count)
}

/// Whether it is told so, and never broken.
fn ends_so(alloc: Global, sources: &Sources, lines: &[&str], told: &str) -> Option<bool> {
    let bytes = report(alloc, lines, &[]).ok()?;
    let done = fed::<Brand>(alloc, sources, &bytes, 1, Blank::new(1))?;
    Some(done.told.as_str() == told && done.going == bytes.len())
}

#[test]
fn a_report_may_come_byte_by_byte(rt: HostRuntime) -> Result<(), Fail> {
    let sources = Sources::of(rt.alloc(), &CART).ok_or("refused sources")?;
    for case in &BROKEN {
        assert_eq!(rt;
            is_broken_so(rt.alloc(), &sources, case),
            Some(true),
            "{}",
            case.2
        );
    }
    for (lines, told) in UNBROKEN {
        assert_eq!(rt;
            ends_so(rt.alloc(), &sources, lines, told),
            Some(true),
            "{told}"
        );
    }
    Ok(())
}

#[test]
fn a_report_may_be_cut_anywhere(rt: HostRuntime) -> Result<(), Fail> {
    let sources = Sources::of(rt.alloc(), &CART).ok_or("refused sources")?;
    let lines = [HEADER, TOTAL, GET, PLAN, TIMEOUT, TIMEOUT_PLAN, END];
    let bytes = report(rt.alloc(), &lines, &[])?;
    let other = first_other_cut(rt.alloc(), &sources, &bytes, CART_YES);
    assert_eq!(rt; other, None);
    Ok(())
}
