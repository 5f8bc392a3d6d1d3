//! Which blocks end: those with a `return`, a `fail` or an `if` whose two branches end.
ghost use Rattle.std.specs.Prelude.{◌≡◌};
ghost use Rattle.fb_syntax.specs.Views.{view_stmt, view_block};
ghost use Rattle.fb_check.specs.Ends.{statement_ends, block_ends};

use fb_syntax::{Block, Stmt};

#[cycle(ends)]
#[tactic(auto, unfolding(fb_syntax::specs::Views::view_stmt))]
fn statement_ends(stmt: &Stmt) -> bool
    ensures { result ≡ statement_ends (view_stmt stmt.now) }
{
    match stmt {
        Stmt::Return { .. } | Stmt::Fail { .. } => true,
        Stmt::If { yes, no, .. } => match no {
            Some(no) => block_ends(yes) && block_ends(no),
            None => false,
        },
        Stmt::Let { .. } | Stmt::Assign { .. } | Stmt::Break | Stmt::Assert { .. } => false,
        Stmt::Repeat { .. } | Stmt::For { .. } | Stmt::Call { .. } => false,
    }
}

/// Whether one of the block's statements ends.
#[cycle(ends)]
pub fn block_ends(block: &Block) -> bool
    ensures { result ≡ block_ends (view_block block.now) }
{
    for stmt in &block.stmts {
        if statement_ends(stmt) {
            return true;
        }
    }
    false
}
