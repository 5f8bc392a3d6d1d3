//! A fault file.
ghost use Rattle.std.specs.Prelude.{◌≡◌, ◌≤◌, nat_le, Ok, Err, if◌then◌else◌, IfOk, map, length, option_map};
ghost use Rattle.toml.specs.View.{view, table_view};
ghost use Rattle.fb_config.specs.Documents.{Gives};
ghost use Rattle.fb_config.specs.FaultFiles.{version_read, version_of, list_read, ListsAs, table_read, file_read};

use crate::document::{read_document, value_at};
use crate::error::{FaultsError, FaultsWhy};
use crate::fault_file::FaultFile;
use crate::keys::Keys;
use crate::read_item::read_items;
use fb_check::Program;
use std::alloc::Global;
use toml::{Table, Value as Data};

const MOST_ITEMS: usize = 1024;

fn version_of(number: Option<i64>) -> Result<u32, FaultsWhy>
    ensures { result ≡ version_of number }
{
    match number {
        Some(1) => Ok(1),
        Some(2) => Ok(2),
        _ => Err(FaultsWhy::BadVersion),
    }
}

/// The version, which may be absent.
fn read_version(given: Option<&Data>) -> Result<u32, FaultsWhy>
    ensures { result ≡ version_read (option_map (λ v. view v.now) given.entry) }
{
    match given {
        Some(value) => version_of(value.as_integer()),
        None => Ok(1),
    }
}

fn not_too_many(items: &[Data]) -> Result<&[Data], FaultsWhy>
    ensures { ListsAs result (if nat_le (length items.now) 1024 then Ok (map view items.now) else Err FaultsWhy.TooMany) }
{
    if MOST_ITEMS < items.len() {
        return Err(FaultsWhy::TooMany);
    }
    Ok(items)
}

/// The items of the file, none where they are absent.
fn read_list<'a>(given: Option<&'a Data>) -> Result<&'a [Data], FaultsWhy>
    ensures list { ListsAs result (list_read (option_map (λ v. view v.now) given.entry)) }
    ensures few { IfOk result (λ list. length list.now ≤ 1024) }
{
    match given {
        Some(value) => match value.as_array() {
            Some(items) => not_too_many(items.as_slice()),
            None => Err(FaultsWhy::NotATable { item: 0 }),
        },
        None => Ok(&[]),
    }
}

/// The file that a table is.
#[tactic(auto, unfolding(crate::specs::FaultFiles::table_read))]
fn read_table(alloc: Global, program: &Program, table: &Table) -> Result<FaultFile, FaultsError>
    ensures { Gives (λ file. file) (table_read program.now.tree (table_view table.now)) result }
{
    if !Keys::Top.know_all(table) {
        return Err(FaultsError::Refused(FaultsWhy::UnknownKey { item: 0 }));
    }
    let version = read_version(value_at(table, "version"))?;
    let list = read_list(value_at(table, "fault"))?;
    let items = read_items(alloc, program, version, list)?;
    Ok(FaultFile { version, items })
}

/// The file that the bytes write, or its first refusal.
#[tactic(auto, unfolding(crate::specs::FaultFiles::file_read))]
pub fn read_file(alloc: Global, program: &Program, bytes: &[u8]) -> Result<FaultFile, FaultsError>
    ensures { Gives (λ file. file) (file_read program.now.tree bytes.now) result }
{
    let table = read_document(alloc, bytes)?;
    let file = read_table(alloc, program, &table);
    file
}
