//! The replies that an item of a fault file configures.
ghost use Rattle.std.specs.Prelude.{◌≡◌, ◌++◌, None, if◌then◌else◌, IfOk, map, option_map};
ghost use Rattle.std.specs.List.{list_all};
ghost use Rattle.toml.specs.View.{view};
ghost use Rattle.fb_base.specs.Values.{has_kind};
ghost use Rattle.fb_config.specs.Documents.{Gives, all_of};
ghost use Rattle.fb_config.specs.Values.{error_of, error_of_text, reply_of, reply_of_kinds, are_few, replies_in};
ghost use Rattle.fb_config.specs.ReadItems.{codes_read, values_read, replies_read};
ghost use Rattle.fb_config.specs.Sorts.{reply_by};

use crate::error::{FaultsError, FaultsWhy};
use crate::read_value::value_of;
use fb_base::{Code, Kind, List, Reply, Value};
use std::alloc::{AllocError, Global};
use toml::Value as Data;

/// How a list of an item is read.
#[derive(Drop)]
pub enum Sort<'a> {
    /// As codes of errors.
    Errors,
    /// As values, each of all these kinds.
    Values(&'a [Kind]),
}

fn error_of_text(text: &str) -> Option<Reply>
    ensures { result ≡ error_of_text text.now }
{
    match Code::read(text.as_bytes()) {
        Ok(code) => Some(Reply::Err(code)),
        Err(_) => None,
    }
}

/// The error of a code.
fn error_of(given: &Data) -> Option<Reply>
    ensures { result ≡ error_of (view given.now) }
{
    match given.as_str() {
        Some(text) => error_of_text(text),
        None => None,
    }
}

fn has_kinds(value: &Value, kinds: &[Kind]) -> bool
    ensures { result ≡ list_all (has_kind value.now) kinds.now }
{
    kinds.iter().all(|kind| value.has_kind(*kind))
}

fn reply_of_kinds(kinds: &[Kind], value: Value) -> Option<Reply>
    ensures { result ≡ reply_of_kinds kinds.now value }
{
    if has_kinds(&value, kinds) {
        Some(Reply::Ok(value))
    } else {
        None
    }
}

/// The value, where it has all of the kinds.
fn reply_of(alloc: Global, kinds: &[Kind], given: &Data) -> Result<Option<Reply>, AllocError>
    ensures { IfOk result (λ reply. reply ≡ reply_of kinds.now (view given.now)) }
{
    match value_of(alloc, given)? {
        Some(value) => Ok(reply_of_kinds(kinds, value)),
        None => Ok(None),
    }
}

impl<'a> Sort<'a> {
    fn read(&self, alloc: Global, given: &Data) -> Result<Option<Reply>, AllocError>
        ensures { IfOk result (λ reply. reply ≡ reply_by self.now (view given.now)) }
    {
        match self {
            Sort::Errors => Ok(error_of(given)),
            Sort::Values(kinds) => reply_of(alloc, kinds, given),
        }
    }

    fn read_all(&self, alloc: Global, items: &[Data]) -> Result<Option<List<Reply>>, AllocError>
        ensures { IfOk result (λ made. made ≡ all_of (reply_by self.now) (map view items.now)) }
    {
        let mut replies = List::new(alloc);
        for item in items {
            match self.read(alloc, item)? {
                Some(reply) => replies.push(reply)?,
                None => return Ok(None),
            }
        }
        Ok(Some(replies))
    }

    /// The replies of 1 to 16 items.
    fn read_few(&self, alloc: Global, items: &[Data]) -> Result<Option<List<Reply>>, AllocError>
        ensures { IfOk result (λ made. made ≡ (if are_few (map view items.now) then all_of (reply_by self.now) (map view items.now) else None)) }
    {
        if items.is_empty() || 16 < items.len() {
            return Ok(None);
        }
        self.read_all(alloc, items)
    }

    /// The replies of such a list.
    #[tactic(auto, unfolding(crate::specs::Values::replies_in))]
    fn read_list(&self, alloc: Global, given: &Data) -> Result<Option<List<Reply>>, AllocError>
        ensures { IfOk result (λ made. made ≡ replies_in (reply_by self.now) (view given.now)) }
    {
        match given.as_array() {
            Some(items) => self.read_few(alloc, items.as_slice()),
            None => Ok(None),
        }
    }
}

/// The errors of an item, which may be absent where values are there.
fn read_codes(
    alloc: Global,
    item: u32,
    codes: Option<&Data>,
    values: Option<&Data>,
) -> Result<List<Reply>, FaultsError>
    ensures { Gives (λ replies. replies) (codes_read item (option_map (λ v. view v.now) values.entry) (option_map (λ v. view v.now) codes.entry)) result }
{
    match codes {
        Some(given) => match Sort::Errors.read_list(alloc, given)? {
            Some(replies) => Ok(replies),
            None => Err(FaultsError::Refused(FaultsWhy::BadCode { item })),
        },
        None => {
            if values.is_some() {
                return Ok(List::new(alloc));
            }
            Err(FaultsError::Refused(FaultsWhy::BadCode { item }))
        }
    }
}

/// The values of an item, which may be absent.
fn read_values(
    alloc: Global,
    item: u32,
    kinds: &[Kind],
    values: Option<&Data>,
) -> Result<List<Reply>, FaultsError>
    ensures { Gives (λ replies. replies) (values_read item kinds.now (option_map (λ v. view v.now) values.entry)) result }
{
    match values {
        Some(given) => match Sort::Values(kinds).read_list(alloc, given)? {
            Some(replies) => Ok(replies),
            None => Err(FaultsError::Refused(FaultsWhy::BadValue { item })),
        },
        None => Ok(List::new(alloc)),
    }
}

/// The items of both lists, which are moved.
fn joined(front: List<Reply>, back: List<Reply>) -> Result<List<Reply>, AllocError>
    ensures { IfOk result (λ all. all ≡ front ++ back) }
{
    let mut all = front;
    for reply in back.into_vec() {
        all.push(reply)?;
    }
    Ok(all)
}

/// The replies of an item: its errors, then its values.
#[tactic(auto, unfolding(crate::specs::ReadItems::replies_read))]
pub fn read_replies(
    alloc: Global,
    item: u32,
    kinds: &[Kind],
    codes: Option<&Data>,
    values: Option<&Data>,
) -> Result<List<Reply>, FaultsError>
    ensures { Gives (λ replies. replies) (replies_read item kinds.now (option_map (λ v. view v.now) codes.entry) (option_map (λ v. view v.now) values.entry)) result }
{
    let errors = read_codes(alloc, item, codes, values)?;
    let values = read_values(alloc, item, kinds, values)?;
    Ok(joined(errors, values)?)
}
