//! The values of expressions.
ghost use Rattle.std.specs.Prelude.{◌≡◌, map, Some, IfSome};
ghost use Rattle.std.specs.Option.{option_copied};
ghost use Rattle.fb_base.specs.Operators.{Answered, value_of_unary, value_of_binary, value_of_list};
ghost use Rattle.fb_syntax.specs.Views.{view_expr, view_link, expressions_of, links_of};
ghost use Rattle.fb_meaning.specs.Expressions.{value_of, values_of, value_of_links, value_of_operands, is_injected_on, is_some_injected, answer};
ghost use Rattle.fb_meaning.specs.Variables.{value_named};
ghost use Rattle.fb_expression.specs.Reading.{environment_of};
ghost use Rattle.fb_expression.specs.Applying.{then_with};
ghost use Rattle.fb_expression.specs.Deciding.{Decides};

use crate::environment::Environment;
use fb_base::{List, Name, Op1, Op2, OpError, Value, apply1, apply2, list_of};
use fb_syntax::{Expr, Link};
use std::alloc::Global;

/// A copy of a variable's value.
fn variable(alloc: Global, here: &Environment<'_>, name: &Name) -> Result<Value, OpError>
    ensures { Answered (value_named here.now.variables.now name.now) result }
{
    match here.variables.get(name) {
        Some(value) => Ok(value.copy(alloc)?),
        None => Err(OpError::Fault),
    }
}

/// The value of an expression that is a variable in scope, where it stands: an operator needs no copy of it.
#[tactic(auto, unfolding(fb_meaning::specs::Expressions::value_of, fb_syntax::specs::Views::view_expr))]
fn held<'a>(here: &'a Environment<'_>, e: &Expr) -> Option<&'a Value>
    ensures { IfSome result (λ value. value_of here.now.program.now.tree (environment_of here.now) (view_expr e.now) ≡ Some value.now) }
{
    match e {
        Expr::Var(name) => here.variables.get(name),
        _ => None,
    }
}

/// Whether any callee has been injected.
fn some_injected(here: &Environment<'_>) -> Result<Value, OpError>
    ensures { Answered (answer is_some_injected (option_copied here.now.injected)) result }
{
    match here.injected {
        Some(callees) => Ok(Value::Bool(callees.is_some())),
        None => Err(OpError::Fault),
    }
}

/// Whether a method of the service has been injected, or the one that is named.
fn injected_on(
    here: &Environment<'_>,
    service: &Name,
    method: &Option<Name>,
) -> Result<Value, OpError>
    ensures { Answered (answer (is_injected_on here.now.program.now.tree service.now method.now) (option_copied here.now.injected)) result }
{
    match here.injected {
        Some(callees) => Ok(Value::Bool(callees.is_on(here.program, service, method))),
        None => Err(OpError::Fault),
    }
}

/// Whether an operand of `and` or `or` decides: it has this truth value.
fn decides(deciding: bool, operand: &Value) -> Result<bool, OpError>
    ensures { Decides deciding operand.now result }
{
    match operand {
        Value::Bool(b) => Ok(*b == deciding),
        _ => Err(OpError::Fault),
    }
}

/// The value of an expression, or that it faults.
///
/// Operands are evaluated from left to right, and the first fault ends it; `and` and `or` stop where they are decided.
/// The kinds need not fit: a misfit is a fault.
#[cycle(values)]
#[tactic(auto, unfolding(fb_meaning::specs::Expressions::value_of, fb_syntax::specs::Views::view_expr))]
pub fn value_of(alloc: Global, here: &Environment<'_>, e: &Expr) -> Result<Value, OpError>
    ensures { Answered (value_of here.now.program.now.tree (environment_of here.now) (view_expr e.now)) result }
{
    match e {
        Expr::Int(n) => Ok(Value::Int(*n)),
        Expr::Text(text) => Ok(Value::Text(text.copy(alloc)?)),
        Expr::Bool(b) => Ok(Value::Bool(*b)),
        Expr::Var(name) => variable(alloc, here, name),
        Expr::List { base: _, items } => list_value(alloc, here, items.as_slice()),
        Expr::Len(e) => unary(alloc, here, Op1::Len, e),
        Expr::At { list, place } => match held(here, list) {
            Some(list) => applied(alloc, here, Op2::At, list, place),
            None => {
                let list = value_of(alloc, here, list)?;
                applied(alloc, here, Op2::At, &list, place)
            }
        },
        Expr::Neg(e) => unary(alloc, here, Op1::Neg, e),
        Expr::Not(e) => unary(alloc, here, Op1::Not, e),
        Expr::Compare { op, left, right } => {
            let left = value_of(alloc, here, left)?;
            applied(alloc, here, *op, &left, right)
        }
        Expr::Chain { first, rest } => {
            let left = value_of(alloc, here, first)?;
            chained(alloc, here, left, rest.as_slice())
        }
        Expr::All(operands) => decided(alloc, here, false, operands.as_slice()),
        Expr::Any(operands) => decided(alloc, here, true, operands.as_slice()),
        Expr::Injected => some_injected(here),
        Expr::InjectedOn { service, method } => injected_on(here, service, method),
    }
}

#[cycle(values)]
fn unary(alloc: Global, here: &Environment<'_>, op: Op1, operand: &Expr) -> Result<Value, OpError>
    ensures { Answered (then_with (value_of here.now.program.now.tree (environment_of here.now) (view_expr operand.now)) (value_of_unary op)) result }
{
    if let Some(operand) = held(here, operand) {
        return apply1(op, operand);
    }
    let operand = value_of(alloc, here, operand)?;
    apply1(op, &operand)
}

/// An operator, what is left of it, and its other operand.
#[cycle(values)]
fn applied(
    alloc: Global,
    here: &Environment<'_>,
    op: Op2,
    left: &Value,
    right: &Expr,
) -> Result<Value, OpError>
    ensures { Answered (then_with (value_of here.now.program.now.tree (environment_of here.now) (view_expr right.now)) (value_of_binary op left.now)) result }
{
    if let Some(right) = held(here, right) {
        return apply2(alloc, op, left, right);
    }
    let right = value_of(alloc, here, right)?;
    apply2(alloc, op, left, &right)
}

/// Each operator is applied to what is left of it and its own operand.
#[cycle(values)]
#[tactic(auto, unfolding(fb_meaning::specs::Expressions::value_of_links))]
fn chained(
    alloc: Global,
    here: &Environment<'_>,
    left: Value,
    links: &[Link],
) -> Result<Value, OpError>
    ensures { Answered (value_of_links here.now.program.now.tree (environment_of here.now) left (links_of (map view_link links.now))) result }
{
    let mut value = left;
    for link in links {
        value = applied(alloc, here, link.op, &value, &link.right)?;
    }
    Ok(value)
}

/// The list of the items' values.
#[cycle(values)]
fn list_value(alloc: Global, here: &Environment<'_>, items: &[Expr]) -> Result<Value, OpError>
    ensures { Answered (then_with (values_of here.now.program.now.tree (environment_of here.now) (expressions_of (map view_expr items.now))) value_of_list) result }
{
    let values = values_of(alloc, here, items)?;
    list_of(alloc, values.into_vec())
}

/// The values of expressions, from left to right.
#[cycle(values)]
#[tactic(auto, unfolding(fb_meaning::specs::Expressions::values_of))]
pub fn values_of(
    alloc: Global,
    here: &Environment<'_>,
    args: &[Expr],
) -> Result<List<Value>, OpError>
    ensures { Answered (values_of here.now.program.now.tree (environment_of here.now) (expressions_of (map view_expr args.now))) result }
{
    let mut values = List::new(alloc);
    for arg in args {
        values.push(value_of(alloc, here, arg)?)?;
    }
    Ok(values)
}

/// What `and` or `or` gives: the first operand with this truth value decides, and without one it is the other.
#[cycle(values)]
#[tactic(auto, unfolding(fb_meaning::specs::Expressions::value_of_operands))]
fn decided(
    alloc: Global,
    here: &Environment<'_>,
    deciding: bool,
    operands: &[Expr],
) -> Result<Value, OpError>
    ensures { Answered (value_of_operands here.now.program.now.tree (environment_of here.now) deciding (expressions_of (map view_expr operands.now))) result }
{
    for operand in operands {
        let value = value_of(alloc, here, operand)?;
        if decides(deciding, &value)? {
            return Ok(Value::Bool(deciding));
        }
    }
    Ok(Value::Bool(!deciding))
}
