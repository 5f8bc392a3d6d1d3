//! The checks of whole bodies, in source order.
ghost use Rattle.std.specs.Prelude.{◌≡◌, ◌+◌, ◌<◌, ◌≤◌, ◌^◌, [], length, map, All, IfOk};
ghost use Rattle.fb_syntax.specs.Views.{view_param, view_method, view_service, view_block};
ghost use Rattle.fb_syntax.specs.Counts.{statements_count};
ghost use Rattle.fb_syntax.specs.Limits.{most_methods, most_services, longest_body};
ghost use Rattle.fb_syntax.specs.Kept.{KeepsMethod, KeepsService};
ghost use Rattle.fb_check.specs.Scopes.{with_parameters};
ghost use Rattle.fb_check.specs.FirstRefusal.{Tells, body_check, method_check, methods_check, services_check};

use crate::binding::Binding;
use crate::context::Context;
use crate::declarations::Declarations;
use crate::ends::block_ends;
use crate::error::{CheckError, CheckRule};
use crate::owner::Owner;
use crate::place::Place;
use crate::scope::Scope;
use crate::walk::Walk;
use fb_syntax::{Block, Method, Param, Service};
use std::alloc::{AllocError, Global};

impl<'a> Context<'a> {
    /// The whole body, which begins with these variables.
    pub fn check(&self, scope: Scope, block: &Block) -> Result<(), CheckError>
        requires { statements_count (view_block block.now) < longest_body }
        ensures { Tells result (body_check self.now scope (view_block block.now)) }
    {
        let mut walk = Walk { scope, number: 0 };
        self.statements(&mut walk, false, block.stmts.as_slice())?;
        Ok(())
    }
}

/// The variables with which a method begins.
fn scope_of(alloc: Global, params: &[Param]) -> Result<Scope, AllocError>
    ensures { IfOk result (λ scope. scope ≡ with_parameters [] (map view_param params.now)) }
{
    let mut scope = Scope::new(alloc);
    for param in params {
        scope.declare(Binding {
            name: param.name,
            kind: param.kind,
        })?;
    }
    Ok(scope)
}

#[tactic(auto, unfolding(crate::specs::FirstRefusal::method_check))]
fn method_check(
    alloc: Global,
    declared: &Declarations,
    service: u32,
    position: u32,
    method: &Method,
) -> Result<(), CheckError>
    requires { statements_count (view_block method.now.body) < longest_body }
    ensures { Tells result (method_check declared.now service position (view_method method.now)) }
{
    let about = Context {
        declared,
        owner: Owner::Method {
            gives: method.gives,
        },
        service,
        method: position,
    };
    about.check(scope_of(alloc, method.params.as_slice())?, &method.body)?;
    if !block_ends(&method.body) {
        return Err(CheckError::Refused {
            place: Place {
                service,
                method: position,
                statement: 0,
            },
            rule: CheckRule::MissingEnd,
        });
    }
    Ok(())
}

#[tactic(auto, unfolding(crate::specs::FirstRefusal::methods_check))]
fn methods_check(
    alloc: Global,
    declared: &Declarations,
    service: u32,
    methods: &[Method],
) -> Result<(), CheckError>
    requires few { length methods.now ≤ most_methods }
    requires kept { All KeepsMethod (map view_method methods.now) }
    ensures { Tells result (methods_check declared.now service 1 (map view_method methods.now)) }
{
    let mut position = 0;
    for method in methods {
        position += 1;
        method_check(alloc, declared, service, position, method)?;
    }
    Ok(())
}

/// The bodies of all methods, service by service.
#[tactic(auto, unfolding(crate::specs::FirstRefusal::services_check))]
pub fn services_check(
    alloc: Global,
    declared: &Declarations,
    services: &[Service],
) -> Result<(), CheckError>
    requires few { length services.now ≤ most_services }
    requires kept { All KeepsService (map view_service services.now) }
    ensures { Tells result (services_check declared.now 1 (map view_service services.now)) }
{
    let mut position = 0;
    for service in services {
        position += 1;
        methods_check(alloc, declared, position, service.methods.as_slice())?;
    }
    Ok(())
}
