//! Expressions of generated programs.
ghost use Rattle.std.specs.Prelude.{◌≡◌, IfOk};
ghost use Rattle.fb_syntax.specs.Trees.{IntLiteral, Variable};
ghost use Rattle.fb_syntax.specs.Views.{view_expr};
ghost use Rattle.fb_gen.specs.Trees.{sum_of};

use fb_base::{Name, Op2};
use fb_syntax::{Expr, Link};
use std::alloc::{AllocError, Global};

#[tactic(auto, unfolding(fb_syntax::specs::Views::view_expr))]
pub fn int(number: i64) -> Expr
    ensures { view_expr result ≡ IntLiteral number }
{
    Expr::Int(number)
}

#[tactic(auto, unfolding(fb_syntax::specs::Views::view_expr))]
pub fn variable(name: Name) -> Expr
    ensures { view_expr result ≡ Variable name }
{
    Expr::Var(name)
}

/// `left + right`
#[tactic(auto, using(fb_syntax::specs::ViewEquations::view_chain))]
pub fn sum(alloc: Global, left: Name, right: Expr) -> Result<Expr, AllocError>
    ensures { IfOk result (λ sum. view_expr sum ≡ sum_of left (view_expr right)) }
{
    let mut rest = Vec::new(alloc);
    rest.push(Link {
        op: Op2::Add,
        right,
    })?;
    let first = Box::new(alloc, variable(left))?;
    Ok(Expr::Chain { first, rest })
}
