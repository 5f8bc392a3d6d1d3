//! The names of services, methods and parameters: each differs from the earlier ones of its sort.
ghost use Rattle.std.specs.Prelude.{◌≡◌, ◌+◌, ◌<◌, ◌≤◌, ◌^◌, [], ◌∷◌, ◌++◌, length, map, bytes_eq, All, IfOk};
ghost use Rattle.std.specs.List.{list_any};
ghost use Rattle.fb_syntax.specs.Views.{view_param, view_method, view_service};
ghost use Rattle.fb_syntax.specs.Limits.{most_params, most_methods, most_services};
ghost use Rattle.fb_syntax.specs.Kept.{KeepsMethod, KeepsService};
ghost use Rattle.fb_check.specs.FirstRefusal.{Tells, new_name, parameters_named, methods_named, services_named};

use crate::error::{CheckError, CheckRule};
use crate::names::Names;
use crate::place::Place;
use fb_base::Name;
use fb_syntax::{Method, Param, Service};
use std::alloc::Global;

fn is_known(earlier: &Names<Name>, name: &Name) -> bool
    ensures { result ≡ list_any (bytes_eq name.now) earlier.now }
{
    earlier.position(name).is_some()
}

/// One name more, unless an earlier one is the same.
fn with_new(
    earlier: Names<Name>,
    name: Name,
    service: u32,
    method: u32,
) -> Result<Names<Name>, CheckError>
    requires { length earlier + 1 < 2 ^ 32 }
    ensures told { Tells result (new_name earlier name service method) }
    ensures more { IfOk result (λ more. more ≡ earlier ++ name ∷ []) }
{
    if is_known(&earlier, &name) {
        return Err(CheckError::Refused {
            place: Place {
                service,
                method,
                statement: 0,
            },
            rule: CheckRule::DuplicateName,
        });
    }
    Ok(earlier.with(name)?)
}

/// The parameters of a method.
#[tactic(auto, unfolding(crate::specs::FirstRefusal::parameters_named))]
fn parameters_named(
    alloc: Global,
    service: u32,
    method: u32,
    params: &[Param],
) -> Result<(), CheckError>
    requires { length params.now ≤ most_params }
    ensures { Tells result (parameters_named service method [] (map view_param params.now)) }
{
    let mut earlier = Names::new(alloc);
    for param in params {
        earlier = with_new(earlier, param.name, service, method)?;
    }
    Ok(())
}

/// The methods of a service, each with its parameters.
#[tactic(auto, unfolding(crate::specs::FirstRefusal::methods_named))]
fn methods_named(alloc: Global, service: u32, methods: &[Method]) -> Result<(), CheckError>
    requires few { length methods.now ≤ most_methods }
    requires kept { All KeepsMethod (map view_method methods.now) }
    ensures { Tells result (methods_named service 1 [] (map view_method methods.now)) }
{
    let mut earlier = Names::new(alloc);
    let mut position = 0;
    for method in methods {
        position += 1;
        earlier = with_new(earlier, method.name, service, position)?;
        parameters_named(alloc, service, position, method.params.as_slice())?;
    }
    Ok(())
}

/// The services, each with its methods.
#[tactic(auto, unfolding(crate::specs::FirstRefusal::services_named))]
pub fn services_named(alloc: Global, services: &[Service]) -> Result<(), CheckError>
    requires few { length services.now ≤ most_services }
    requires kept { All KeepsService (map view_service services.now) }
    ensures { Tells result (services_named 1 [] (map view_service services.now)) }
{
    let mut earlier = Names::new(alloc);
    let mut position = 0;
    for service in services {
        position += 1;
        earlier = with_new(earlier, service.name, position, 0)?;
        methods_named(alloc, position, service.methods.as_slice())?;
    }
    Ok(())
}
