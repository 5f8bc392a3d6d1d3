//! The test of generated services.
ghost use Rattle.std.specs.Prelude.{◌≡◌, codes, IfOk};
ghost use Rattle.fb_syntax.specs.Views.{view_expr, view_stmt, view_test};
ghost use Rattle.fb_gen.specs.Trees.{test_call, test_claim, test_comparison, test_tree};

use crate::expressions::{int, variable};
use crate::names::{method_name, service_name};
use fb_base::{Name, Op2};
use fb_syntax::{Block, Expr, Stmt, Test};
use std::alloc::{AllocError, Global};

/// The variable of the test.
fn answer() -> Name
    ensures { result ≡ codes "r" }
{
    Name::read(b"r").unwrap()
}

/// `call r = s1.m(1);`
#[tactic(auto, using(fb_syntax::specs::ViewEquations::view_call))]
fn call(alloc: Global) -> Result<Stmt, AllocError>
    ensures { IfOk result (λ call. view_stmt call ≡ test_call) }
{
    let mut args = Vec::new(alloc);
    args.push(int(1))?;
    Ok(Stmt::Call {
        name: answer(),
        service: service_name(1),
        method: method_name(),
        args,
        handlers: Vec::new(alloc),
    })
}

/// `r > 0`
#[tactic(auto, unfolding(fb_syntax::specs::Views::view_expr))]
fn comparison(alloc: Global) -> Result<Expr, AllocError>
    ensures { IfOk result (λ expr. view_expr expr ≡ test_comparison) }
{
    let left = Box::new(alloc, variable(answer()))?;
    let right = Box::new(alloc, int(0))?;
    Ok(Expr::Compare {
        op: Op2::Gt,
        left,
        right,
    })
}

/// `r > 0 or injected`
#[tactic(auto, using(fb_syntax::specs::ViewEquations::view_any), unfolding(fb_syntax::specs::Views::view_expr))]
fn claim(alloc: Global) -> Result<Expr, AllocError>
    ensures { IfOk result (λ expr. view_expr expr ≡ test_claim) }
{
    let mut operands = Vec::new(alloc);
    operands.push(comparison(alloc)?)?;
    operands.push(Expr::Injected)?;
    Ok(Expr::Any(operands))
}

/// The test, which is the same for each number and size.
#[tactic(auto, unfolding(fb_syntax::specs::Views::view_stmt))]
pub fn test(alloc: Global) -> Result<Test, AllocError>
    ensures { IfOk result (λ test. view_test test ≡ test_tree) }
{
    let mut stmts = Vec::new(alloc);
    stmts.push(Stmt::Let {
        name: answer(),
        value: int(0),
    })?;
    stmts.push(call(alloc)?)?;
    stmts.push(Stmt::Assert {
        cond: claim(alloc)?,
    })?;
    Ok(Test {
        name: Name::read(b"trial").unwrap(),
        body: Block { stmts },
    })
}
