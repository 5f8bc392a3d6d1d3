//! What services declare, collected.
ghost use Rattle.std.specs.Prelude.{◌≡◌, ◌+◌, ◌<◌, ◌≤◌, ◌^◌, ◌++◌, length, map, All, IfOk};
ghost use Rattle.fb_syntax.specs.Views.{view_param, view_method, view_service, view_services};
ghost use Rattle.fb_syntax.specs.Limits.{most_methods};
ghost use Rattle.fb_syntax.specs.Kept.{KeepsServicesLimits};
ghost use Rattle.fb_check.specs.Declarations.{kinds_of_parameters, signature_of, service_signatures, declarations_of};

use crate::declarations::Declarations;
use crate::names::Names;
use crate::signature::Signature;
use crate::signatures::Signatures;
use fb_base::{Kind, List, MethodName, Name};
use fb_syntax::{Method, Param, Services};
use std::alloc::{AllocError, Global};

fn kinds_of_parameters(alloc: Global, params: &[Param]) -> Result<List<Kind>, AllocError>
    ensures { IfOk result (λ kinds. kinds ≡ kinds_of_parameters (map view_param params.now)) }
{
    let mut kinds = List::new(alloc);
    for param in params {
        kinds.push(param.kind)?;
    }
    Ok(kinds)
}

/// The signature of a method, which stands at these positions.
fn signature_of(
    alloc: Global,
    name: Name,
    service: u32,
    position: u32,
    method: &Method,
) -> Result<Signature, AllocError>
    ensures { IfOk result (λ signature. signature ≡ signature_of name service position (view_method method.now)) }
{
    Ok(Signature {
        name: MethodName {
            service: name,
            method: method.name,
        },
        service,
        method: position,
        params: kinds_of_parameters(alloc, method.params.as_slice())?,
        gives: method.gives,
    })
}

/// The methods of one service more.
fn with_methods(
    alloc: Global,
    before: Signatures,
    name: Name,
    service: u32,
    methods: &[Method],
) -> Result<Signatures, AllocError>
    requires few { length methods.now ≤ most_methods }
    requires room { length before + most_methods < 2 ^ 32 }
    ensures { IfOk result (λ more. more ≡ before ++ service_signatures name service 1 (map view_method methods.now)) }
{
    let mut signatures = before;
    let mut position = 0;
    for method in methods {
        position += 1;
        signatures = signatures.with(signature_of(alloc, name, service, position, method)?)?;
    }
    Ok(signatures)
}

impl Declarations {
    /// What these services declare.
    pub fn of(alloc: Global, services: &Services) -> Result<Declarations, AllocError>
        requires { KeepsServicesLimits (view_services services.now) }
        ensures { IfOk result (λ declared. declared ≡ declarations_of (view_services services.now)) }
    {
        let mut names = Names::new(alloc);
        let mut methods = Signatures::new(alloc);
        let mut position = 0;
        for service in &services.list {
            position += 1;
            names = names.with(service.name)?;
            methods = with_methods(
                alloc,
                methods,
                service.name,
                position,
                service.methods.as_slice(),
            )?;
        }
        Ok(Declarations {
            services: names,
            methods,
        })
    }
}
