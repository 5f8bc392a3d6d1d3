//! The program: it hands the words of its command line, the files of the system and the standard output to `run`, and
//! ends with the exit code of the answer.
#![tactic(auto)]

use fb_cli::{Status, exit_code, run};
use fb_files::{DiskFiles, StdoutSink};
use std::process::ExitCode;
use std::{env, io};

/// The words after the program's name.
fn words(rt: &HostRuntime) -> io::Result<Vec<String>> {
    let mut words = Vec::new(rt.alloc());
    for word in env::args(rt)?.skip(1) {
        words.push(word)?;
    }
    Ok(words)
}

/// Carries out the command of the words. An error says that the system gave no words.
fn carry_out(rt: HostRuntime) -> io::Result<Status> {
    let alloc = rt.alloc();
    let words = words(&rt)?;
    let mut files = DiskFiles::new(alloc, rt);
    let mut out = StdoutSink::new(rt);
    Ok(run(alloc, &words, &mut files, &mut out))
}

fn main(rt: HostRuntime) -> ExitCode {
    ExitCode::from(exit_code(&carry_out(rt)))
}
