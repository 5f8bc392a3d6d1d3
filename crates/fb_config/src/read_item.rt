//! The items of a fault file.
ghost use Rattle.std.specs.Prelude.{◌≡◌, ◌≤◌, IfOk, filter, map, length, option_map};
ghost use Rattle.toml.specs.View.{view};
ghost use Rattle.fb_syntax.specs.Views.{view_method, view_service};
ghost use Rattle.fb_config.specs.Documents.{Gives};
ghost use Rattle.fb_config.specs.ReadItems.{service_with, method_with, callee_read, method_read, is_meant, kinds_meant, item_read};
ghost use Rattle.fb_config.specs.FaultFiles.{items_from};

use crate::document::value_at;
use crate::error::{FaultsError, FaultsWhy};
use crate::fault_item::FaultItem;
use crate::keys::Keys;
use crate::read_replies::read_replies;
use fb_base::{Kind, List, Name};
use fb_check::Program;
use fb_syntax::{Method, Service};
use std::alloc::{AllocError, Global};
use toml::Value as Data;

/// The service with this name, which is sought from the first on.
fn service_with<'a>(services: &'a [Service], name: &str) -> Option<&'a Service>
    ensures { option_map (λ s. view_service s.now) result ≡ service_with (map view_service services.now) name.now }
{
    for service in services {
        if name == service.name.as_str() {
            return Some(service);
        }
    }
    None
}

/// The method with this name.
fn method_with<'a>(methods: &'a [Method], name: &str) -> Option<&'a Method>
    ensures { option_map (λ m. view_method m.now) result ≡ method_with (map view_method methods.now) name.now }
{
    for method in methods {
        if name == method.name.as_str() {
            return Some(method);
        }
    }
    None
}

/// The service that is named.
fn read_callee<'a>(services: &'a [Service], given: Option<&Data>) -> Option<&'a Service>
    ensures { option_map (λ s. view_service s.now) result ≡ callee_read (map view_service services.now) (option_map (λ v. view v.now) given.entry) }
{
    match given {
        Some(value) => match value.as_str() {
            Some(name) => service_with(services, name),
            None => None,
        },
        None => None,
    }
}

/// The method that is named, if one is.
fn read_method(methods: &[Method], given: Option<&Data>) -> Option<Option<Name>>
    ensures { result ≡ method_read (map view_method methods.now) (option_map (λ v. view v.now) given.entry) }
{
    match given {
        Some(value) => match value.as_str() {
            Some(name) => match method_with(methods, name) {
                Some(method) => Some(Some(method.name)),
                None => None,
            },
            None => None,
        },
        None => Some(None),
    }
}

/// Whether a method is meant where this one is named, or none.
pub fn is_meant(named: &Option<Name>, method: &Name) -> bool
    ensures { result ≡ is_meant named.now method.now }
{
    match named {
        Some(name) => name.bytes() == method.bytes(),
        None => true,
    }
}

fn kinds_where(
    alloc: Global,
    methods: &[Method],
    named: &Option<Name>,
) -> Result<Vec<Kind>, AllocError>
    ensures { IfOk result (λ kinds. kinds.items ≡ map (λ method. method.gives) (filter (λ method. is_meant named.now method.name) methods.now)) }
{
    methods
        .iter()
        .filter(|method| is_meant(named, &method.name))
        .map(|method| method.gives)
        .collect(alloc)
}

/// The kinds of the methods that are meant.
fn kinds_meant(
    alloc: Global,
    methods: &[Method],
    named: &Option<Name>,
) -> Result<Vec<Kind>, AllocError>
    ensures { IfOk result (λ kinds. kinds.items ≡ kinds_meant (map view_method methods.now) named.now) }
{
    kinds_where(alloc, methods, named)
}

/// An item, counted from 1, or the first rule that it breaks. The callee is sought among all services.
#[tactic(auto, unfolding(crate::specs::ReadItems::item_read))]
fn read_item(
    alloc: Global,
    program: &Program,
    version: u32,
    item: u32,
    given: &Data,
) -> Result<FaultItem, FaultsError>
    ensures { Gives (λ read. read) (item_read program.now.tree version item (view given.now)) result }
{
    let Some(table) = given.as_table() else {
        return Err(FaultsError::Refused(FaultsWhy::NotATable { item }));
    };
    let keys = Keys::Item { version };
    if !keys.know_all(table) {
        return Err(FaultsError::Refused(FaultsWhy::UnknownKey { item }));
    }
    let Some(service) = read_callee(program.tree().list.as_slice(), value_at(table, "callee"))
    else {
        return Err(FaultsError::Refused(FaultsWhy::UnknownCallee { item }));
    };
    let Some(method) = read_method(service.methods.as_slice(), value_at(table, "method")) else {
        return Err(FaultsError::Refused(FaultsWhy::UnknownMethod { item }));
    };
    let kinds = kinds_meant(alloc, service.methods.as_slice(), &method)?;
    let replies = read_replies(
        alloc,
        item,
        kinds.as_slice(),
        value_at(table, "codes"),
        value_at(table, "values"),
    )?;
    let callee = service.name;
    Ok(FaultItem {
        callee,
        method,
        replies,
    })
}

/// The items of a file, or the first refusal of one.
pub fn read_items(
    alloc: Global,
    program: &Program,
    version: u32,
    list: &[Data],
) -> Result<List<FaultItem>, FaultsError>
    requires { length list.now ≤ 1024 }
    ensures { Gives (λ items. items) (items_from program.now.tree version 1 (map view list.now)) result }
{
    let mut items = List::new(alloc);
    let mut number = 1;
    for given in list {
        let item = read_item(alloc, program, version, number, given)?;
        items.push(item)?;
        number += 1;
    }
    Ok(items)
}
