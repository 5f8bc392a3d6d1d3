//! Files of the system.
ghost use Rattle.std.specs.Prelude.{◌≡◌, ◌≤◌, None, IfOk, IsSome, length, string_bytes};
ghost use Rattle.fb_base.specs.Count.{NeverFell};
ghost use Rattle.fb_files.specs.DiskFiles.{created_name};
ghost use Rattle.fb_files.specs.Faults.{faults_after, load_failed, write_failed};
ghost use Rattle.fb_files.specs.Files.{created_by};

use crate::faults::faults_after;
use crate::whole::{read_whole, write_whole};
use crate::{Files, LoadError, WriteError};
use std::alloc::Global;
use std::fs::File;
use std::rt;

/// Files of the system, by their paths. They tell nothing of what they hold. Each error of the system is counted.
/// Nothing is buffered, and a file that was created is closed by the next create.
#[derive(Drop)]
pub struct DiskFiles<R: rt::Files> {
    alloc: Global,
    runtime: R,
    created: Option<Created<R::File>>,
    faults: u64,
}

// The file that is being written.
#[derive(Drop)]
struct Created<F> {
    name: String,
    file: F,
}

impl<R: rt::Files> DiskFiles<R> {
    /// No call was made yet. `alloc` serves the name of the file that is being written.
    pub fn new(alloc: Global, runtime: R) -> Self
        ensures held { ⟦<DiskFiles<R> as Files>⟧.held result ≡ None }
        ensures created { ⟦<DiskFiles<R> as Files>⟧.created result ≡ None }
        ensures asked { ⟦<DiskFiles<R> as Files>⟧.asked result ≡ None }
        ensures faults { ⟦<DiskFiles<R> as Files>⟧.faults result ≡ 0 }
    {
        DiskFiles {
            alloc,
            runtime,
            created: None,
            faults: 0,
        }
    }

    /// How often the system has failed.
    pub fn faults(&self) -> u64
        ensures { result ≡ ⟦<DiskFiles<R> as Files>⟧.faults self.now }
    {
        self.faults
    }
}

fn load_file<R: rt::Files>(
    runtime: &R,
    alloc: Global,
    name: &str,
    limit: u64,
) -> Result<Vec<u8>, LoadError>
    ensures { IfOk result (λ bytes. length bytes.items ≤ limit) }
{
    let mut file = File::open(runtime, name)?;
    read_whole(alloc, &mut file, limit)
}

fn create_file<R: rt::Files>(
    runtime: &R,
    alloc: Global,
    name: &str,
) -> Result<Created<R::File>, WriteError>
    ensures { IfOk result (λ created. string_bytes created.name ≡ name.now) }
{
    Ok(Created {
        name: String::from_str(alloc, name)?,
        file: File::create(runtime, name)?,
    })
}

impl<R: rt::Files> Files for DiskFiles<R> {
    ghost held = { λ disk. None };

    ghost created = { λ disk. created_name disk.created };

    ghost asked = { λ disk. None };

    ghost faults = { λ disk. disk.faults };

    fn load(&mut self, alloc: Global, name: &str, limit: u64) -> Result<Vec<u8>, LoadError>
        ensures bound { IfOk result (λ bytes. length bytes.items ≤ limit) }
        ensures faults { self.new.faults ≡ faults_after (load_failed result) self.old.faults }
        ensures count { NeverFell self.old.faults self.new.faults }
        ensures created { self.new.created ≡ self.old.created }
    {
        let answer = load_file(&self.runtime, alloc, name, limit);
        self.faults = faults_after(self.faults, matches!(answer, Err(LoadError::Failed)));
        answer
    }

    fn create(&mut self, name: &str) -> Result<(), WriteError>
        ensures created { created_name self.new.created ≡ created_by name.now result }
        ensures faults { self.new.faults ≡ faults_after (write_failed result) self.old.faults }
        ensures count { NeverFell self.old.faults self.new.faults }
    {
        self.created = None;
        match create_file(&self.runtime, self.alloc, name) {
            Ok(created) => {
                self.created = Some(created);
                Ok(())
            }
            Err(error) => {
                self.faults = faults_after(self.faults, error == WriteError::Failed);
                Err(error)
            }
        }
    }

    fn append(&mut self, bytes: &[u8]) -> Result<(), WriteError>
        requires { IsSome self.old.created }
        ensures created { created_name self.new.created ≡ created_name self.old.created }
        ensures faults { self.new.faults ≡ faults_after (write_failed result) self.old.faults }
        ensures count { NeverFell self.old.faults self.new.faults }
    {
        let answer = match &mut self.created {
            Some(created) => write_whole(&mut created.file, bytes),
            None => unreachable!(),
        };
        self.faults = faults_after(self.faults, matches!(answer, Err(WriteError::Failed)));
        answer
    }
}
