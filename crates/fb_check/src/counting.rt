//! What stands in each statement and each block of a body.
//!
//! An entry gets its place where the statement or block begins, and its counts once what is inside has been counted.
ghost use Rattle.std.specs.Prelude.{◌≡◌, ◌++◌, map, IfOk, OnOk};
ghost use Rattle.fb_syntax.specs.Views.{view_stmt, view_block, view_handler, statements_of, handlers_of};
ghost use Rattle.fb_check.specs.Counts.{statement_counts, block_counts, inside_counts, all_counts, handler_counts, statement_entries, block_entries, entries_inside, entries_of, handler_entries, AreSmall};

use crate::counts::Counts;
use fb_syntax::{Block, Handler, Stmt};
use std::alloc::AllocError;

/// Adds the entries of a statement and of what is inside it.
#[cycle(counting)]
fn add_statement(stmt: &Stmt, entries: &mut Vec<Counts>) -> Result<Counts, AllocError>
    requires { AreSmall (statement_counts (view_stmt stmt.now)) }
    ensures counts { IfOk result (λ counts. counts ≡ statement_counts (view_stmt stmt.now)) }
    ensures added { OnOk result (entries.new.items ≡ entries.old.items ++ statement_entries (view_stmt stmt.now)) }
{
    let place = entries.len();
    entries.push(Counts::none())?;
    let inside = add_inside(stmt, entries)?;
    let counts = Counts::of_statement(stmt).plus(inside);
    entries[place] = counts;
    Ok(counts)
}

/// Adds the entries of what is inside a statement.
#[cycle(counting)]
#[tactic(auto, unfolding(fb_syntax::specs::Views::view_stmt))]
fn add_inside(stmt: &Stmt, entries: &mut Vec<Counts>) -> Result<Counts, AllocError>
    requires { AreSmall (inside_counts (view_stmt stmt.now)) }
    ensures counts { IfOk result (λ counts. counts ≡ inside_counts (view_stmt stmt.now)) }
    ensures added { OnOk result (entries.new.items ≡ entries.old.items ++ entries_inside (view_stmt stmt.now)) }
{
    match stmt {
        Stmt::If { yes, no, .. } => match no {
            Some(no) => {
                let counts = add_block(yes, entries)?;
                let others = add_block(no, entries)?;
                Ok(counts.plus(others))
            }
            None => add_block(yes, entries),
        },
        Stmt::Repeat { body, .. } => add_block(body, entries),
        Stmt::For { body, .. } => add_block(body, entries),
        Stmt::Call { handlers, .. } => add_handlers(handlers.as_slice(), entries),
        Stmt::Let { .. }
        | Stmt::Assign { .. }
        | Stmt::Break
        | Stmt::Return { .. }
        | Stmt::Fail { .. }
        | Stmt::Assert { .. } => Ok(Counts::none()),
    }
}

/// Adds the entries of a block and of what is inside it.
#[cycle(counting)]
fn add_block(block: &Block, entries: &mut Vec<Counts>) -> Result<Counts, AllocError>
    requires { AreSmall (block_counts (view_block block.now)) }
    ensures counts { IfOk result (λ counts. counts ≡ block_counts (view_block block.now)) }
    ensures added { OnOk result (entries.new.items ≡ entries.old.items ++ block_entries (view_block block.now)) }
{
    let place = entries.len();
    entries.push(Counts::none())?;
    let inside = add_statements(block.stmts.as_slice(), entries)?;
    let counts = Counts::of_block().plus(inside);
    entries[place] = counts;
    Ok(counts)
}

/// Adds the entries of statements, each with what is inside it.
#[cycle(counting)]
pub fn add_statements(stmts: &[Stmt], entries: &mut Vec<Counts>) -> Result<Counts, AllocError>
    requires { AreSmall (all_counts (statements_of (map view_stmt stmts.now))) }
    ensures counts { IfOk result (λ counts. counts ≡ all_counts (statements_of (map view_stmt stmts.now))) }
    ensures added { OnOk result (entries.new.items ≡ entries.old.items ++ entries_of (statements_of (map view_stmt stmts.now))) }
{
    let mut counts = Counts::none();
    for stmt in stmts {
        let more = add_statement(stmt, entries)?;
        counts = counts.plus(more);
    }
    Ok(counts)
}

#[cycle(counting)]
fn add_handlers(handlers: &[Handler], entries: &mut Vec<Counts>) -> Result<Counts, AllocError>
    requires { AreSmall (handler_counts (handlers_of (map view_handler handlers.now))) }
    ensures counts { IfOk result (λ counts. counts ≡ handler_counts (handlers_of (map view_handler handlers.now))) }
    ensures added { OnOk result (entries.new.items ≡ entries.old.items ++ handler_entries (handlers_of (map view_handler handlers.now))) }
{
    let mut counts = Counts::none();
    for handler in handlers {
        let more = add_block(&handler.body, entries)?;
        counts = counts.plus(more);
    }
    Ok(counts)
}
