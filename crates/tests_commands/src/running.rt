//! Commands over files in memory, and what they told and left.
use fb_cli::run;
use fb_files::{MemoryFiles, MemorySink};
use std::alloc::{AllocError, Global};
use std::str;

pub(crate) const USAGE: &str = "usage: filibuster test, check, replay, fmt or trial\n";

/// What the report's file holds before each command.
pub(crate) const BEFORE: &str = "as before\n";

/// The names of the services, the test and the faults.
const NAMES: [&str; 3] = ["s.fb", "t.fb", "f.toml"];

/// A command, and what it tells and leaves.
pub(crate) struct Case {
    /// Its words, in pieces.
    pub(crate) words: &'static [&'static [&'static str]],
    /// What the services, the test and the faults hold; the last ones may be missing.
    pub(crate) sources: &'static [&'static [u8]],
    pub(crate) code: u8,
    pub(crate) text: &'static str,
    /// What the report's file holds afterwards, in pieces.
    pub(crate) report: &'static [&'static str],
}

/// What a command did: its exit code, what it sent, what the report's file holds, and how many files it loaded.
#[derive(Drop)]
pub(crate) struct Done {
    code: u8,
    sent: Vec<u8>,
    report: Vec<u8>,
    pub(crate) loads: usize,
    is_put_once: bool,
}

impl Done {
    /// It ended with this code and text. Each status has a text of its own.
    pub(crate) fn tells(&self, code: u8, text: &str) -> bool {
        self.is_put_once && self.code == code && self.sent.as_slice() == text.as_bytes()
    }

    /// What the report's file holds, where that is text.
    pub(crate) fn report(&self) -> &str {
        str::from_utf8(&self.report).unwrap_or("")
    }

    /// The report's file holds these texts, one behind another.
    pub(crate) fn leaves(&self, report: &[&str]) -> bool {
        is_joined(&self.report, report)
    }
}

fn is_joined(bytes: &[u8], texts: &[&str]) -> bool {
    let mut left = bytes;
    for text in texts {
        match left.strip_prefix(text.as_bytes()) {
            Some(rest) => left = rest,
            None => return false,
        }
    }
    left.is_empty()
}

fn strings(alloc: Global, words: &[&[&str]]) -> Result<Vec<String>, AllocError> {
    let mut all = Vec::new(alloc);
    for piece in words {
        for word in *piece {
            all.push(String::from_str(alloc, word)?)?;
        }
    }
    Ok(all)
}

fn joined(alloc: Global, texts: &[&str]) -> Result<Vec<u8>, AllocError> {
    let mut bytes = Vec::new(alloc);
    for text in texts {
        bytes.extend_from_slice(text.as_bytes())?;
    }
    Ok(bytes)
}

fn files_of(
    alloc: Global,
    sources: &[&[u8]],
    report: Vec<u8>,
) -> Result<Vec<(String, Vec<u8>)>, AllocError> {
    let mut files = Vec::new(alloc);
    for (name, content) in NAMES.iter().zip(sources) {
        let content = Vec::from_slice(alloc, content)?;
        files.push((String::from_str(alloc, name)?, content))?;
    }
    files.push((String::from_str(alloc, "r.jsonl")?, report))?;
    Ok(files)
}

/// The puts that fail: always the second, so that a command that made two would be seen.
fn failing_puts(alloc: Global, first: bool) -> Result<Vec<u64>, AllocError> {
    let mut all = Vec::new(alloc);
    all.push(2)?;
    if first {
        all.push(1)?;
    }
    Ok(all)
}

// Apart from its callers, so that they needn't know what a command ensures.
fn code_of(alloc: Global, words: &[String], files: &mut MemoryFiles, out: &mut MemorySink) -> u8 {
    run(alloc, words, files, out).code()
}

/// Runs a command over files, of which that of the report holds these texts. Calls of the files fail as planned, an append after
/// it added some bytes; so may the put.
pub(crate) fn carried_out_over(
    alloc: Global,
    words: &[&[&str]],
    sources: &[&[u8]],
    report: &[&str],
    fails: &[(u64, u64)],
    put_fails: bool,
) -> Result<Done, AllocError> {
    let fails = Vec::from_slice(alloc, fails)?;
    let held = files_of(alloc, sources, joined(alloc, report)?)?;
    let mut files = MemoryFiles::new_partial(alloc, held, fails)?;
    let mut out = MemorySink::new(alloc, failing_puts(alloc, put_fails)?)?;
    let code = code_of(alloc, &strings(alloc, words)?, &mut files, &mut out);
    Ok(Done {
        code,
        sent: Vec::from_slice(alloc, out.sent())?,
        report: Vec::from_slice(alloc, files.content("r.jsonl").unwrap_or(b""))?,
        loads: files.asked().len(),
        is_put_once: out.faults() == u64::from(put_fails),
    })
}

/// Runs a command over files, of which that of the report is as before each command.
pub(crate) fn carried_out(
    alloc: Global,
    words: &[&[&str]],
    sources: &[&[u8]],
    fails: &[(u64, u64)],
    put_fails: bool,
) -> Result<Done, AllocError> {
    carried_out_over(alloc, words, sources, &[BEFORE], fails, put_fails)
}

/// The command tells and leaves what the case says.
pub(crate) fn ends_so(alloc: Global, case: &Case) -> Result<bool, AllocError> {
    let done = carried_out(alloc, case.words, case.sources, &[], false)?;
    Ok(done.tells(case.code, case.text) && done.leaves(case.report))
}

/// The command is refused with this text, and leaves the report's file as it was.
pub(crate) fn is_refused(
    alloc: Global,
    words: &[&[&str]],
    sources: &[&[u8]],
    text: &str,
) -> Result<bool, AllocError> {
    let done = carried_out(alloc, words, sources, &[], false)?;
    Ok(done.tells(3, text) && done.leaves(&[BEFORE]))
}

/// The words say no job, so that nothing is loaded.
pub(crate) fn is_usage(alloc: Global, words: &[&[&str]]) -> Result<bool, AllocError> {
    let done = carried_out(alloc, words, &[], &[], false)?;
    Ok(done.tells(2, USAGE) && done.leaves(&[BEFORE]) && done.loads == 0)
}
