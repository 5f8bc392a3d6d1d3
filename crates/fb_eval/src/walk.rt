//! The walk along the counts of a body, by which what isn't executed is passed over.
ghost use Rattle.std.specs.Prelude.{◌≡◌};
ghost use Rattle.fb_syntax.specs.Views.{view_stmt, view_block};
ghost use Rattle.fb_check.specs.Counts.{AreSmall, together};
ghost use Rattle.fb_meaning.specs.Positions.{past, alone, one_block, statement_counts, block_counts};
ghost use Rattle.fb_meaning.specs.Bodies.{inside_of};
ghost use Rattle.fb_eval.specs.Places.{place_of, StatementStands, BlockStands};

use fb_check::Counts;
use fb_syntax::{Block, Stmt};

/// The position of a body's first statement.
pub(crate) const BEGINNING: Counts = Counts {
    statements: 0,
    blocks: 0,
    sites: 0,
    asserts: 0,
};

fn plus(at: Counts, counts: Counts) -> Counts
    requires { AreSmall (together at counts) }
    ensures { result ≡ together at counts }
{
    Counts {
        statements: at.statements + counts.statements,
        blocks: at.blocks + counts.blocks,
        sites: at.sites + counts.sites,
        asserts: at.asserts + counts.asserts,
    }
}

/// The place of a position's entry among the counts.
fn place(at: Counts) -> usize
    ensures { result ≡ place_of at }
{
    at.statements as usize + at.blocks as usize
}

/// The position behind a statement.
pub(crate) fn behind_statement(counts: &[Counts], at: Counts, stmt: &Stmt) -> Counts
    requires { StatementStands counts.now at (view_stmt stmt.now) }
    ensures { result ≡ past at (statement_counts (view_stmt stmt.now)) }
{
    let there = counts[place(at)];
    plus(at, there)
}

/// The position behind a block.
pub(crate) fn behind_block(counts: &[Counts], at: Counts, block: &Block) -> Counts
    requires { BlockStands counts.now at (view_block block.now) }
    ensures { result ≡ past at (block_counts (view_block block.now)) }
{
    let there = counts[place(at)];
    plus(at, there)
}

/// The position of what is inside a statement.
#[tactic(auto, unfolding(fb_syntax::specs::Views::view_stmt))]
pub(crate) fn inside(at: Counts, stmt: &Stmt) -> Counts
    requires { AreSmall (inside_of at (view_stmt stmt.now)) }
    ensures { result ≡ inside_of at (view_stmt stmt.now) }
{
    let statements = at.statements + 1;
    match stmt {
        Stmt::Call { .. } => Counts {
            statements,
            sites: at.sites + 1,
            ..at
        },
        Stmt::Assert { .. } => Counts {
            statements,
            asserts: at.asserts + 1,
            ..at
        },
        Stmt::Let { .. }
        | Stmt::Assign { .. }
        | Stmt::If { .. }
        | Stmt::Repeat { .. }
        | Stmt::For { .. }
        | Stmt::Break
        | Stmt::Return { .. }
        | Stmt::Fail { .. } => Counts { statements, ..at },
    }
}

/// The position of the first statement of a block.
pub(crate) fn in_block(at: Counts) -> Counts
    requires { AreSmall (past at one_block) }
    ensures { result ≡ past at one_block }
{
    Counts {
        blocks: at.blocks + 1,
        ..at
    }
}
