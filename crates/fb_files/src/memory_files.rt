//! Files in memory.
ghost use Rattle.std.specs.Prelude.{◌≡◌, ◌≢◌, ◌↔◌, [], None, Some, Err, IsSome, IfSome, IfOk, IsErrOf, IsTrue, OnOk, OnErr, is_ok, if◌then◌else◌, map, take, option_map, option_copied, position, string_bytes};
ghost use Rattle.std.specs.Option.{ForSome};
ghost use Rattle.fb_base.specs.Count.{NeverFell};
ghost use Rattle.fb_files.specs.Faults.{load_failed, write_failed};
ghost use Rattle.fb_files.specs.Files.{Becomes, Grows, AddsLoad, created_by};
ghost use Rattle.fb_files.specs.PlannedFaults.{unused, after_call};
ghost use Rattle.fb_files.specs.MemoryFiles.{has_name, held_of, asked_of, loaded, Answers, added_by, EndsAsPlanned};

use crate::planned_faults::{PlannedFaults, part_at};
use crate::{Files, LoadError, WriteError};
use std::alloc::{AllocError, Global};

/// Files in memory, which tell all. Loads, creates and appends are counted together from 1, also those that are
/// refused memory.
#[derive(Drop)]
pub struct MemoryFiles {
    alloc: Global,
    files: Vec<(String, Vec<u8>)>,
    created: Option<String>,
    asked: Vec<(String, bool)>,
    plan: PlannedFaults,
    parts: Vec<(u64, u64)>,
    ghost created_is_held: { ForSome created (λ name. IsSome (held_of files.items (string_bytes name))) },
}

impl MemoryFiles {
    ghost use Rattle.fb_files.specs.Planned.{plan_of_files, parts_of_files};

    /// Of two files with one name the first counts. The calls whose numbers are in `fails` fail and change no file.
    pub fn new(
        alloc: Global,
        files: Vec<(String, Vec<u8>)>,
        fails: Vec<u64>,
    ) -> Result<Self, AllocError>
        ensures held { IfOk result
            (λ made. ⟦<MemoryFiles as Files>⟧.held made ≡ Some (held_of files.items)) }
        ensures created { IfOk result (λ made. ⟦<MemoryFiles as Files>⟧.created made ≡ None) }
        ensures asked { IfOk result (λ made. ⟦<MemoryFiles as Files>⟧.asked made ≡ Some []) }
        ensures faults { IfOk result (λ made. ⟦<MemoryFiles as Files>⟧.faults made ≡ 0) }
        ensures plan { IfOk result (λ made. plan_of_files made ≡ unused fails) }
        ensures parts { IfOk result (λ made. (parts_of_files made).items ≡ []) }
    {
        Ok(MemoryFiles {
            alloc,
            files,
            created: None,
            asked: Vec::new(alloc),
            plan: PlannedFaults::new(fails),
            parts: Vec::new(alloc),
        })
    }

    /// As `new`, but each failing append first adds as many of its bytes as stand beside its number, or all where they
    /// are fewer. Of two pairs with one number the first counts.
    pub fn new_partial(
        alloc: Global,
        files: Vec<(String, Vec<u8>)>,
        fails: Vec<(u64, u64)>,
    ) -> Result<Self, AllocError>
        ensures held { IfOk result
            (λ made. ⟦<MemoryFiles as Files>⟧.held made ≡ Some (held_of files.items)) }
        ensures created { IfOk result (λ made. ⟦<MemoryFiles as Files>⟧.created made ≡ None) }
        ensures asked { IfOk result (λ made. ⟦<MemoryFiles as Files>⟧.asked made ≡ Some []) }
        ensures faults { IfOk result (λ made. ⟦<MemoryFiles as Files>⟧.faults made ≡ 0) }
        ensures calls { IfOk result (λ made. (plan_of_files made).calls ≡ 0) }
        ensures fails { IfOk result
            (λ made. (plan_of_files made).fails.items ≡ map (λ fail. fail.0) fails.items) }
        ensures parts { IfOk result (λ made. parts_of_files made ≡ fails) }
    {
        let numbers = numbers_of(alloc, &fails)?;
        Ok(MemoryFiles {
            alloc,
            files,
            created: None,
            asked: Vec::new(alloc),
            plan: PlannedFaults::new(numbers),
            parts: fails,
        })
    }

    /// The bytes that are held under a name.
    pub fn content(&self, name: &str) -> Option<&[u8]>
        ensures { IfSome (⟦<MemoryFiles as Files>⟧.held self.now)
            (λ held. option_copied result ≡ held name.now) }
    {
        find(&self.files, name)
    }

    /// The name of each load so far, and whether it failed.
    pub fn asked(&self) -> &[(String, bool)]
        ensures { ⟦<MemoryFiles as Files>⟧.asked self.now ≡ Some (asked_of result.now) }
    {
        &self.asked
    }

    /// How many calls have failed.
    pub fn faults(&self) -> u64
        ensures { result ≡ ⟦<MemoryFiles as Files>⟧.faults self.now }
    {
        self.plan.faults()
    }
}

impl Files for MemoryFiles {
    ghost use Rattle.fb_files.specs.Planned.{plan_of_files, parts_of_files, next_call_fails, next_part};

    ghost held = { λ memory. Some (held_of memory.files.items) };

    ghost created = { λ memory. option_map string_bytes memory.created };

    ghost asked = { λ memory. Some (asked_of memory.asked.items) };

    ghost faults = { λ memory. memory.plan.faults };

    fn load(&mut self, alloc: Global, name: &str, limit: u64) -> Result<Vec<u8>, LoadError>
        ensures answer { Answers (if next_call_fails self.old then Err LoadError.Failed
            else loaded (held_of self.old.files.items name.now) limit) result }
        ensures plan { plan_of_files self.new ≡ after_call (load_failed result) (plan_of_files self.old) }
        ensures count { NeverFell self.old.plan.faults self.new.plan.faults }
        ensures asks { AddsLoad name.now result
            (asked_of self.old.asked.items) (asked_of self.new.asked.items) }
        ensures parts { parts_of_files self.new ≡ parts_of_files self.old }
        ensures held { self.new.files.items ≡ self.old.files.items }
        ensures created { self.new.created ≡ self.old.created }
    {
        let is_planned = self.plan.next_fails();
        // The memory for what was asked is taken first, so that a load that is answered can be told.
        let asked = String::from_str(self.alloc, name)?;
        self.asked.reserve(1)?;
        let answer = if is_planned {
            Err(LoadError::Failed)
        } else {
            load_held(alloc, &self.files, name, limit)
        };
        let failed = matches!(answer, Err(LoadError::Failed));
        self.plan.note(failed);
        self.asked.push_reserved((asked, failed));
        answer
    }

    fn create(&mut self, name: &str) -> Result<(), WriteError>
        ensures emptied { OnOk result
            (Becomes name.now [] (held_of self.old.files.items) (held_of self.new.files.items)) }
        ensures kept { OnErr result (self.new.files.items ≡ self.old.files.items) }
        ensures created { option_map string_bytes self.new.created ≡ created_by name.now result }
        ensures fails { IsErrOf result WriteError.Failed ↔ IsTrue (next_call_fails self.old) }
        ensures plan { plan_of_files self.new ≡ after_call (next_call_fails self.old) (plan_of_files self.old) }
        ensures parts { parts_of_files self.new ≡ parts_of_files self.old }
        ensures count { NeverFell self.old.plan.faults self.new.plan.faults }
        ensures asked { self.new.asked.items ≡ self.old.asked.items }
    {
        self.created = None;
        if self.plan.next_fails() {
            self.plan.note(true);
            return Err(WriteError::Failed);
        }
        let created = String::from_str(self.alloc, name)?;
        empty_file(self.alloc, &mut self.files, name)?;
        self.created = Some(created);
        Ok(())
    }

    fn append(&mut self, bytes: &[u8]) -> Result<(), WriteError>
        requires { IsSome self.old.created }
        ensures grows { IfSome self.old.created (λ name.
            Grows (string_bytes name) (added_by result (next_part self.old) bytes.now)
            (held_of self.old.files.items) (held_of self.new.files.items)) }
        ensures created { self.new.created ≡ self.old.created }
        ensures fails { EndsAsPlanned (next_call_fails self.old) (next_part self.old) result }
        ensures plan { plan_of_files self.new ≡ after_call (write_failed result) (plan_of_files self.old) }
        ensures parts { parts_of_files self.new ≡ parts_of_files self.old }
        ensures count { NeverFell self.old.plan.faults self.new.plan.faults }
        ensures asked { self.new.asked.items ≡ self.old.asked.items }
    {
        let fails = self.plan.next_fails();
        match &self.created {
            None => unreachable!(),
            Some(name) if fails => {
                let part = part_at(&self.parts, self.plan.calls());
                add_bytes(&mut self.files, name.as_str(), front_of(bytes, part))?;
                self.plan.note(true);
                Err(WriteError::Failed)
            }
            Some(name) => Ok(add_bytes(&mut self.files, name.as_str(), bytes)?),
        }
    }
}

// The bytes of the first file with this name.
fn find<'a>(files: &'a [(String, Vec<u8>)], name: &str) -> Option<&'a [u8]>
    ensures { option_copied result ≡ held_of files.now name.now }
{
    files
        .iter()
        .find(|file| file.0.as_str() == name)
        .map(|file| file.1.as_slice())
}

// The place of the first file with this name.
fn place_of(files: &[(String, Vec<u8>)], name: &str) -> Option<usize>
    ensures { result ≡ position (has_name name.now) files.now }
{
    files.iter().position(|file| file.0.as_str() == name)
}

// What is loaded of the files where the call isn't planned to fail.
fn load_held(
    alloc: Global,
    files: &[(String, Vec<u8>)],
    name: &str,
    limit: u64,
) -> Result<Vec<u8>, LoadError>
    ensures { Answers (loaded (held_of files.now name.now) limit) result }
{
    match find(files, name) {
        None => Err(LoadError::Failed),
        Some(bytes) if bytes.len() as u64 > limit => Err(LoadError::TooLong),
        Some(bytes) => Ok(Vec::from_slice(alloc, bytes)?),
    }
}

// The file with this name is empty, whether or not there was one.
fn empty_file(
    alloc: Global,
    files: &mut Vec<(String, Vec<u8>)>,
    name: &str,
) -> Result<(), AllocError>
    ensures ok { OnOk result
        (Becomes name.now [] (held_of files.old.items) (held_of files.new.items)) }
    ensures err { OnErr result (files.new.items ≡ files.old.items) }
{
    match place_of(files, name) {
        Some(place) => files[place].1.clear(),
        None => files.push((String::from_str(alloc, name)?, Vec::new(alloc)))?,
    }
    Ok(())
}

// The numbers of the calls that fail.
fn numbers_of(alloc: Global, fails: &[(u64, u64)]) -> Result<Vec<u64>, AllocError>
    ensures { IfOk result (λ numbers. numbers.items ≡ map (λ fail. fail.0) fails.now) }
{
    fails.iter().map(|fail| fail.0).collect(alloc)
}

// At most so many bytes.
fn front_of(bytes: &[u8], count: u64) -> &[u8]
    ensures { result.now ≡ take count bytes.now }
{
    if count < bytes.len() as u64 {
        &bytes[..count as usize]
    } else {
        bytes
    }
}

// Adds bytes to the file with this name. No bytes take no memory.
fn add_bytes(files: &mut Vec<(String, Vec<u8>)>, name: &str, bytes: &[u8]) -> Result<(), AllocError>
    requires { IsSome (held_of files.old.items name.now) }
    ensures grows { Grows name.now (if is_ok result then bytes.now else [])
        (held_of files.old.items) (held_of files.new.items) }
    ensures held { IsSome (held_of files.new.items name.now) }
    ensures memory { OnErr result (bytes.now ≢ []) }
{
    if bytes.is_empty() {
        return Ok(());
    }
    match place_of(files, name) {
        Some(place) => files[place].1.extend_from_slice(bytes),
        None => unreachable!(),
    }
}
