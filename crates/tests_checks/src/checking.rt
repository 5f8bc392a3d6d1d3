//! Checks of reports, of which it is told what is found.
ghost use Rattle.std.specs.Prelude.{◌≡◌, ◌<◌};

use crate::sources::Sources;
use crate::texts::verdict_text;
use fb_base::Steps;
use fb_verify::{Verdict, verify};
use std::alloc::{AllocError, Global};
use std::marker::Brand;
use std::sync::ledger::{Blank, Ledger};

/// A report by its lines, and what is told of it.
pub(crate) struct Forged {
    pub(crate) lines: &'static [&'static str],
    pub(crate) told: &'static str,
}

/// Lines of which each may stand at one place of a report, and what is told of each such report.
pub(crate) struct Others {
    pub(crate) above: &'static [&'static str],
    pub(crate) lines: &'static [&'static str],
    pub(crate) below: &'static [&'static str],
    pub(crate) told: &'static str,
}

fn add_lines(bytes: &mut Vec<u8>, lines: &[&str]) -> Result<(), AllocError> {
    for line in lines {
        bytes.extend_from_slice(line.as_bytes())?;
        bytes.push(b'\n')?;
    }
    Ok(())
}

/// The bytes of a report: its lines, in two pieces, each with a line feed behind it.
pub(crate) fn report(alloc: Global, above: &[&str], below: &[&str]) -> Result<Vec<u8>, AllocError> {
    let mut bytes = Vec::new(alloc);
    add_lines(&mut bytes, above)?;
    add_lines(&mut bytes, below)?;
    Ok(bytes)
}

fn verified<L: Ledger>(
    alloc: Global,
    sources: &Sources,
    report: &[u8],
    blank: Blank,
) -> Option<Verdict>
    requires name { blank.name ≡ L.name }
    requires parts { blank.parts ≡ L.parts }
    requires some { 0 < L.parts }
{
    let mut evals = Steps::<L>::new(blank);
    verify(
        alloc,
        &sources.program,
        &sources.test,
        &sources.faults,
        report,
        &mut evals,
    )
    .ok()
}

/// Whether this is told of the report.
pub(crate) fn tells(alloc: Global, sources: &Sources, report: &[u8], told: &str) -> Option<bool> {
    let verdict = verified::<Brand>(alloc, sources, report, Blank::new(1))?;
    let text = verdict_text(alloc, &verdict)?;
    Some(text.as_str() == told)
}

impl Forged {
    fn is_told(&self, alloc: Global, sources: &Sources) -> Option<bool> {
        let bytes = report(alloc, self.lines, &[]).ok()?;
        tells(alloc, sources, &bytes, self.told)
    }
}

/// The place, from 0, of the first report of which something else is told.
pub(crate) fn first_other(alloc: Global, sources: &Sources, reports: &[Forged]) -> Option<usize> {
    for (place, forged) in reports.iter().enumerate() {
        if forged.is_told(alloc, sources) != Some(true) {
            return Some(place);
        }
    }
    None
}

impl Others {
    fn report_with(&self, alloc: Global, line: &str) -> Result<Vec<u8>, AllocError> {
        let mut bytes = report(alloc, self.above, &[line])?;
        add_lines(&mut bytes, self.below)?;
        Ok(bytes)
    }

    fn is_told_with(&self, alloc: Global, sources: &Sources, line: &str) -> Option<bool> {
        let bytes = self.report_with(alloc, line).ok()?;
        tells(alloc, sources, &bytes, self.told)
    }

    /// The first line with which something else is told.
    fn first_other(&self, alloc: Global, sources: &Sources) -> Option<&'static str> {
        for line in self.lines {
            if self.is_told_with(alloc, sources, line) != Some(true) {
                return Some(*line);
            }
        }
        None
    }
}

/// The first line with which something else is told, of all.
pub(crate) fn first_other_line(
    alloc: Global,
    sources: &Sources,
    all: &[Others],
) -> Option<&'static str> {
    for others in all {
        let found = others.first_other(alloc, sources);
        if found.is_some() {
            return found;
        }
    }
    None
}
