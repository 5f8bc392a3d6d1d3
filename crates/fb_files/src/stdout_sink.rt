//! The standard output.
ghost use Rattle.std.specs.Prelude.{◌≡◌, None};
ghost use Rattle.fb_base.specs.Count.{NeverFell};
ghost use Rattle.fb_files.specs.Faults.{faults_after, write_failed};

use crate::faults::faults_after;
use crate::whole::write_whole;
use crate::{Sink, WriteError};
use std::io;

/// What a runtime prints to. It tells nothing of what was sent. Each error of the system is counted. A put that
/// answered Ok has flushed its bytes.
#[derive(Drop)]
pub struct StdoutSink<R> {
    runtime: R,
    faults: u64,
}

impl<R: Print> StdoutSink<R> {
    /// No call was made yet.
    pub fn new(runtime: R) -> Self
        ensures sent { ⟦<StdoutSink<R> as Sink>⟧.sent result ≡ None }
        ensures faults { ⟦<StdoutSink<R> as Sink>⟧.faults result ≡ 0 }
    {
        StdoutSink { runtime, faults: 0 }
    }

    /// How often the system has failed.
    pub fn faults(&self) -> u64
        ensures { result ≡ ⟦<StdoutSink<R> as Sink>⟧.faults self.now }
    {
        self.faults
    }
}

impl<R: Print> Sink for StdoutSink<R> {
    ghost sent = { λ sink. None };

    ghost faults = { λ sink. sink.faults };

    fn put(&mut self, bytes: &[u8]) -> Result<(), WriteError>
        ensures faults { self.new.faults ≡ faults_after (write_failed result) self.old.faults }
        ensures count { NeverFell self.old.faults self.new.faults }
    {
        let answer = write_whole(&mut io::writer(&self.runtime), bytes);
        self.faults = faults_after(self.faults, matches!(answer, Err(WriteError::Failed)));
        answer
    }
}
