//! The texts of a number and a size.
ghost use Rattle.std.specs.Prelude.{◌≡◌, ◌≤◌, ◌-◌, ◌∷◌, map, IfOk, OnOk};
ghost use Rattle.fb_syntax.specs.Views.{view_service, view_services};
ghost use Rattle.fb_gen.specs.Draws.{later_services};
ghost use Rattle.fb_gen.specs.Trees.{service_of, services_of};
ghost use Rattle.fb_gen.specs.Texts.{GivesGenerated};

use crate::faults::faults_text;
use crate::service::service;
use crate::test::test;
use fb_print::{print_services, print_test};
use fb_syntax::Services;
use std::alloc::{AllocError, Global};

const MOST_SERVICES: u32 = 12;

/// Services, a test of them, and their fault file.
#[derive(Drop)]
pub struct Generated {
    pub services: String,
    pub test: String,
    pub faults: String,
}

/// Why nothing was generated.
#[derive(Clone, Copy, Debug, Drop, PartialEq, Eq)]
pub enum GenError {
    /// There are 1 to 12 services.
    BadSize,
    Memory,
}

impl From<AllocError> for GenError {
    ghost use Rattle.std.specs.Prelude.{◌≡◌};
    ghost use Rattle.fb_gen.specs.declared.generating.GenError.TheVariants.{Memory};

    ghost from_gives = { λ _ e. e ≡ Memory };

    fn from(_e: AllocError) -> GenError {
        GenError::Memory
    }
}

/// The services of a number and a size.
fn services(alloc: Global, number: u64, size: u64) -> Result<Services, AllocError>
    requires some { 1 ≤ size }
    requires few { size ≤ 12 }
    ensures { IfOk result (λ services. view_services services ≡ services_of number size) }
{
    let mut list = Vec::new(alloc);
    list.push(service(alloc, number, size, 1)?)?;
    let count = size - 1;
    for place in 0..count {
        list.push(service(alloc, number, size, place + 2)?)?;
    }
    Ok(Services { list })
}

/// The texts of a number and a size.
pub fn generate(alloc: Global, number: u64, size: u32) -> Result<Generated, GenError>
    ensures { GivesGenerated number size result }
{
    if size == 0 || MOST_SERVICES < size {
        return Err(GenError::BadSize);
    }
    let size = size as u64;
    let services = print_services(alloc, &services(alloc, number, size)?)?;
    let test = print_test(alloc, &test(alloc)?)?;
    let faults = faults_text(alloc, size)?;
    Ok(Generated {
        services,
        test,
        faults,
    })
}
