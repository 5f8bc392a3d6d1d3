//! The fault file of generated services.
ghost use Rattle.std.specs.Prelude.{◌≡◌, ◌≤◌, ◌-◌, ◌++◌, string_bytes, IfOk, OnOk};
ghost use Rattle.fb_gen.specs.Texts.{faults_text, item_text};

use crate::names::service_name;
use std::alloc::{AllocError, Global};

/// Adds the item of a service.
fn push_item(text: &mut String, service: u64) -> Result<(), AllocError>
    requires first { 1 ≤ service }
    requires last { service ≤ 12 }
    ensures { OnOk result (string_bytes text.new ≡ string_bytes text.old ++ item_text service) }
{
    text.push_str("[[fault]]\ncallee = \"")?;
    text.push_str(service_name(service).as_str())?;
    text.push_str("\"\ncodes = [\"timeout\"]\n\n")?;
    Ok(())
}

/// An item for each service but the first.
pub fn faults_text(alloc: Global, size: u64) -> Result<String, AllocError>
    requires some { 1 ≤ size }
    requires few { size ≤ 12 }
    ensures { IfOk result (λ text. string_bytes text ≡ faults_text size) }
{
    let mut text = String::new(alloc);
    let count = size - 1;
    for place in 0..count {
        push_item(&mut text, place + 2)?;
    }
    Ok(text)
}
