//! What is kept of each method for look-ups by name and by number.
ghost use Rattle.std.specs.Prelude.{◌≡◌, ◌++◌, map, flat_map, All, IfOk};
ghost use Rattle.fb_syntax.specs.Views.{view_method, view_service};
ghost use Rattle.fb_syntax.specs.Kept.{KeepsMethod, KeepsService};
ghost use Rattle.fb_check.specs.Tables.{body_tables};

use crate::body_tables::BodyTables;
use crate::declarations::Declarations;
use crate::signatures::Signatures;
use fb_base::{Kind, List};
use fb_syntax::{Method, Service};
use std::alloc::{AllocError, Global};

/// What is kept of accepted services.
#[derive(Drop)]
pub struct Tables {
    pub declared: Declarations,
    /// For each method what is kept of its body.
    pub bodies: Vec<BodyTables>,
    /// The length of the longest chain of calls below each method.
    pub ranks: List<u32>,
}

/// The kind that each method gives.
pub fn kinds_given(alloc: Global, methods: &Signatures) -> Result<Vec<Kind>, AllocError>
    ensures { IfOk result (λ kinds. kinds.items ≡ map (λ signature. signature.gives) methods.now) }
{
    let mut kinds = Vec::new(alloc);
    for signature in methods.as_slice() {
        kinds.push(signature.gives)?;
    }
    Ok(kinds)
}

/// The tables of the methods of one service more.
fn with_bodies(
    alloc: Global,
    declared: &Declarations,
    methods: &[Method],
    before: Vec<BodyTables>,
) -> Result<Vec<BodyTables>, AllocError>
    requires { All KeepsMethod (map view_method methods.now) }
    ensures { IfOk result (λ bodies. bodies.items ≡ before.items ++ map (λ method. body_tables declared.now method.body) (map view_method methods.now)) }
{
    let mut bodies = before;
    for method in methods {
        bodies.push(BodyTables::of(alloc, declared, &method.body)?)?;
    }
    Ok(bodies)
}

/// The tables of each method's body.
pub fn bodies_of(
    alloc: Global,
    declared: &Declarations,
    services: &[Service],
) -> Result<Vec<BodyTables>, AllocError>
    requires { All KeepsService (map view_service services.now) }
    ensures { IfOk result (λ bodies. bodies.items ≡ map (λ method. body_tables declared.now method.body) (flat_map (λ service. service.methods) (map view_service services.now))) }
{
    let mut bodies = Vec::new(alloc);
    for service in services {
        bodies = with_bodies(alloc, declared, service.methods.as_slice(), bodies)?;
    }
    Ok(bodies)
}
