//! A generated service.
ghost use Rattle.std.specs.Prelude.{◌≡◌, ◌≤◌, ◌<◌, ◌+◌, ◌-◌, ◌++◌, ◌∷◌, [], ℕ, None, map, IfOk, OnOk};
ghost use Rattle.std.specs.List.{flat_map};
ghost use Rattle.fb_syntax.specs.Views.{view_service, view_method, view_stmt, view_block, view_handler, handlers_of, statements_of};
ghost use Rattle.fb_gen.specs.Draws.{draws_before, later_services, state_after};
ghost use Rattle.fb_gen.specs.Trees.{body_of, call_of, called_and_summed, handled_by, handlers_if, method_of, service_of, statements_for, summed};

use crate::draws::Draws;
use crate::expressions::{int, sum, variable};
use crate::names::{method_name, parameter, reply, service_name, total};
use fb_base::Kind;
use fb_syntax::{Block, Handler, Method, Param, Service, Stmt};
use std::alloc::{AllocError, Global};

/// `on any { v = 0; }`
#[tactic(auto, unfolding(fb_syntax::specs::Views::view_stmt))]
fn handler(alloc: Global) -> Result<Handler, AllocError>
    ensures { IfOk result (λ handler. view_handler handler ≡ (None, statements_of (handled_by ∷ []))) }
{
    let mut stmts = Vec::new(alloc);
    stmts.push(Stmt::Assign {
        name: reply(),
        value: int(0),
    })?;
    Ok(Handler {
        code: None,
        body: Block { stmts },
    })
}

/// That handler, or none.
fn handlers_if(alloc: Global, handled: bool) -> Result<Vec<Handler>, AllocError>
    ensures { IfOk result (λ handlers. handlers_of (map view_handler handlers.items) ≡ handlers_if handled) }
{
    let mut handlers = Vec::new(alloc);
    if !handled {
        return Ok(handlers);
    }
    handlers.push(handler(alloc)?)?;
    Ok(handlers)
}

/// The call of a service.
#[tactic(auto, using(fb_syntax::specs::ViewEquations::view_call))]
fn call(alloc: Global, callee: u64, handled: bool) -> Result<Stmt, AllocError>
    requires first { 1 ≤ callee }
    requires last { callee ≤ 12 }
    ensures { IfOk result (λ call. view_stmt call ≡ call_of callee handled) }
{
    let mut args = Vec::new(alloc);
    args.push(sum(alloc, parameter(), int(1))?)?;
    let handlers = handlers_if(alloc, handled)?;
    Ok(Stmt::Call {
        name: reply(),
        service: service_name(callee),
        method: method_name(),
        args,
        handlers,
    })
}

/// `t = t + v;`
#[tactic(auto, unfolding(fb_syntax::specs::Views::view_stmt))]
fn summed(alloc: Global) -> Result<Stmt, AllocError>
    ensures { IfOk result (λ stmt. view_stmt stmt ≡ summed) }
{
    let value = sum(alloc, total(), variable(reply()))?;
    Ok(Stmt::Assign {
        name: total(),
        value,
    })
}

/// Adds a call and the sum with what it gives.
fn push_call(
    stmts: &mut Vec<Stmt>,
    alloc: Global,
    callee: u64,
    handled: bool,
) -> Result<(), AllocError>
    requires first { 1 ≤ callee }
    requires last { callee ≤ 12 }
    ensures { OnOk result (map view_stmt stmts.new.items ≡ map view_stmt stmts.old.items ++ called_and_summed callee handled) }
{
    stmts.push(call(alloc, callee, handled)?)?;
    stmts.push(summed(alloc)?)?;
    Ok(())
}

/// Draws for a callee, and adds its call where the service is its parent.
fn push_callee(
    stmts: &mut Vec<Stmt>,
    alloc: Global,
    draws: &mut Draws,
    service: u64,
    callee: u64,
) -> Result<(), AllocError>
    requires first { 2 ≤ callee }
    requires last { callee ≤ 12 }
    requires small { draws.old.state < 65537 }
    ensures added { OnOk result ((number : ℕ) → draws.old.state ≡ state_after number (draws_before callee) →
        map view_stmt stmts.new.items ≡ map view_stmt stmts.old.items ++ statements_for number service callee) }
    ensures drawn { (number : ℕ) → draws.old.state ≡ state_after number (draws_before callee) → draws.new.state ≡ state_after number (draws_before (callee + 1)) }
    ensures small { draws.new.state < 65537 }
{
    let parent = 1 + draws.draw(callee - 1);
    let handled = draws.draw(2) == 0;
    if parent == service {
        push_call(stmts, alloc, callee, handled)?;
    }
    Ok(())
}

/// Adds the calls that a service makes.
fn push_callees(
    stmts: &mut Vec<Stmt>,
    alloc: Global,
    number: u64,
    size: u64,
    service: u64,
) -> Result<(), AllocError>
    requires some { 1 ≤ size }
    requires few { size ≤ 12 }
    ensures { OnOk result (map view_stmt stmts.new.items ≡ map view_stmt stmts.old.items ++ flat_map (statements_for number service) (later_services (size - 1))) }
{
    let mut draws = Draws::new(number);
    let count = size - 1;
    for place in 0..count {
        push_callee(stmts, alloc, &mut draws, service, place + 2)?;
    }
    Ok(())
}

#[tactic(auto, unfolding(fb_syntax::specs::Views::view_stmt))]
fn body(alloc: Global, number: u64, size: u64, service: u64) -> Result<Block, AllocError>
    requires some { 1 ≤ size }
    requires few { size ≤ 12 }
    ensures { IfOk result (λ body. view_block body ≡ statements_of (body_of number size service)) }
{
    let mut stmts = Vec::new(alloc);
    stmts.push(Stmt::Let {
        name: total(),
        value: variable(parameter()),
    })?;
    stmts.push(Stmt::Let {
        name: reply(),
        value: int(0),
    })?;
    push_callees(&mut stmts, alloc, number, size, service)?;
    stmts.push(Stmt::Return {
        value: variable(total()),
    })?;
    Ok(Block { stmts })
}

fn method(alloc: Global, number: u64, size: u64, service: u64) -> Result<Method, AllocError>
    requires some { 1 ≤ size }
    requires few { size ≤ 12 }
    ensures { IfOk result (λ method. view_method method ≡ method_of number size service) }
{
    let mut params = Vec::new(alloc);
    params.push(Param {
        name: parameter(),
        kind: Kind::Int,
    })?;
    let body = body(alloc, number, size, service)?;
    Ok(Method {
        name: method_name(),
        params,
        gives: Kind::Int,
        body,
    })
}

/// The service with this number.
pub fn service(alloc: Global, number: u64, size: u64, service: u64) -> Result<Service, AllocError>
    requires some { 1 ≤ size }
    requires few { size ≤ 12 }
    requires first { 1 ≤ service }
    requires last { service ≤ 12 }
    ensures { IfOk result (λ made. view_service made ≡ service_of number size service) }
{
    let mut methods = Vec::new(alloc);
    methods.push(method(alloc, number, size, service)?)?;
    Ok(Service {
        name: service_name(service),
        methods,
    })
}
