//! The choices for each method.
ghost use Rattle.std.specs.Prelude.{◌≡◌, ◌++◌, bytes_eq, filter, flat_map, fold, map, IfOk, OnOk};
ghost use Rattle.fb_syntax.specs.Views.{view_method, view_service};
ghost use Rattle.fb_check.specs.Declarations.{declarations_of};
ghost use Rattle.fb_config.specs.Choices.{means, replies_for, choices_of, choices_in, choices_by};
ghost use Rattle.fb_config.specs.Once.{with_reply};

use crate::fault_item::FaultItem;
use crate::read_item::is_meant;
use crate::reply_set::ReplySet;
use fb_base::{Kind, List, MethodName, Name, Reply};
use fb_check::Program;
use fb_syntax::{Method, Service};
use std::alloc::{AllocError, Global};

/// A fault file's version, and by number what each method gives and its choices.
#[derive(Drop)]
pub struct ChoiceTable {
    pub version: u32,
    pub kinds: List<Kind>,
    pub choices: List<List<Reply>>,
}

/// Whether the item means the method.
fn means(item: &FaultItem, name: &MethodName) -> bool
    ensures { result ≡ means item.now name.now }
{
    item.callee.bytes() == name.service.bytes() && is_meant(&item.method, &name.method)
}

/// Adds copies of the replies.
fn add_all(known: &mut ReplySet, alloc: Global, replies: &[Reply]) -> Result<(), AllocError>
    ensures { OnOk result (known.new ≡ fold with_reply known.old replies.now) }
{
    for reply in replies {
        known.add(reply.copy(alloc)?)?;
    }
    Ok(())
}

/// Adds the replies of an item that means the method.
fn add_item(
    known: &mut ReplySet,
    alloc: Global,
    item: &FaultItem,
    name: &MethodName,
) -> Result<(), AllocError>
    ensures { OnOk result (known.new ≡ fold with_reply known.old (replies_for name.now item.now)) }
{
    if means(item, name) {
        return add_all(known, alloc, item.replies.as_slice());
    }
    Ok(())
}

/// The choices for a method.
#[tactic(auto, unfolding(crate::specs::Choices::choices_of))]
fn choices_of(
    alloc: Global,
    items: &[&FaultItem],
    name: &MethodName,
) -> Result<List<Reply>, AllocError>
    ensures { IfOk result (λ choices. choices ≡ choices_of (map (λ item. item.now) items.now) name.now) }
{
    let mut known = ReplySet::new(alloc);
    for item in items {
        add_item(&mut known, alloc, item, name)?;
    }
    known.into_list(alloc)
}

/// The items that mean methods of one service.
fn items_for<'a>(
    alloc: Global,
    items: &'a [FaultItem],
    service: &Name,
) -> Result<Vec<&'a FaultItem>, AllocError>
    ensures { IfOk result (λ kept. map (λ item. item.now) kept.items ≡ filter (λ item. bytes_eq item.callee service.now) items.now) }
{
    let mut kept = Vec::new(alloc);
    for item in items {
        if item.callee.bytes() == service.bytes() {
            kept.push(item)?;
        }
    }
    Ok(kept)
}

/// Adds the choices for each of a service's methods, by the items that mean some of them.
fn add_methods(
    choices: &mut List<List<Reply>>,
    alloc: Global,
    items: &[&FaultItem],
    service: &Name,
    methods: &[Method],
) -> Result<(), AllocError>
    ensures { OnOk result (choices.new ≡ choices.old ++ choices_in (map (λ item. item.now) items.now) service.now (map view_method methods.now)) }
{
    for method in methods {
        let name = MethodName {
            service: *service,
            method: method.name,
        };
        choices.push(choices_of(alloc, items, &name)?)?;
    }
    Ok(())
}

/// Adds the choices for each method of a service.
fn add_service(
    choices: &mut List<List<Reply>>,
    alloc: Global,
    items: &[FaultItem],
    service: &Service,
) -> Result<(), AllocError>
    ensures { OnOk result (choices.new ≡ choices.old ++ choices_by items.now (view_service service.now)) }
{
    let kept = items_for(alloc, items, &service.name)?;
    let methods = service.methods.as_slice();
    add_methods(choices, alloc, kept.as_slice(), &service.name, methods)
}

/// The choices for each method, by number.
fn choices_of_services(
    alloc: Global,
    services: &[Service],
    items: &[FaultItem],
) -> Result<List<List<Reply>>, AllocError>
    ensures { IfOk result (λ choices. choices ≡ flat_map (choices_by items.now) (map view_service services.now)) }
{
    let mut choices = List::new(alloc);
    for service in services {
        add_service(&mut choices, alloc, items, service)?;
    }
    Ok(choices)
}

/// The choices for each method, by number.
pub fn choices_by_number(
    alloc: Global,
    program: &Program,
    items: &[FaultItem],
) -> Result<List<List<Reply>>, AllocError>
    ensures { IfOk result (λ choices. choices ≡ map (λ signature. choices_of items.now signature.name) (declarations_of program.now.tree).methods) }
{
    choices_of_services(alloc, program.tree().list.as_slice(), items)
}
