//! The checks of statements, in source order.
ghost use Rattle.std.specs.Prelude.{◌≡◌, ◌+◌, ◌<◌, ◌^◌, map, true};
ghost use Rattle.fb_syntax.specs.Views.{view_stmt, view_block, view_handler, statements_of, handlers_of};
ghost use Rattle.fb_check.specs.Walking.{Gives, within};
ghost use Rattle.fb_check.specs.StatementChecks.{statement_check, statements_check, handlers_check, for_block_check};
ghost use Rattle.fb_syntax.specs.Counts.{summed, statements_count, summed_handlers};

use crate::context::Context;
use crate::error::{CheckError, CheckRule};
use crate::parts::unless;
use crate::walk::Walk;
use fb_base::{Kind, Name};
use fb_syntax::{Block, Handler, Stmt};

impl<'a> Context<'a> {
    /// One statement, with those inside it.
    #[cycle(statements)]
    #[tactic(auto, unfolding(crate::specs::StatementChecks::statement_check, fb_syntax::specs::Views::view_stmt))]
    fn statement(&self, walk: &mut Walk, looping: bool, stmt: &Stmt) -> Result<(), CheckError>
        requires room { walk.old.number + summed (λ s. 1) (view_stmt stmt.now) < 2 ^ 32 }
        ensures { Gives walk.new result (statement_check self.now looping (view_stmt stmt.now) walk.old) }
    {
        walk.number += 1;
        match stmt {
            Stmt::Let { name, value } => {
                let kind = self.kind_here(walk, value)?;
                self.declare(walk, *name, kind)
            }
            Stmt::Assign { name, value } => {
                let kind = self.kind_here(walk, value)?;
                self.want_target(walk, name, kind)
            }
            Stmt::If { cond, yes, no } => {
                self.want_kind(walk, cond, Kind::Bool)?;
                self.block(walk, looping, yes)?;
                match no {
                    Some(no) => self.block(walk, looping, no),
                    None => Ok(()),
                }
            }
            Stmt::Repeat { body, .. } => self.block(walk, true, body),
            Stmt::For { name, over, body } => {
                let list = self.kind_here(walk, over)?;
                match list.item() {
                    Some(item) => self.for_block(walk, *name, item, body),
                    None => self.here(walk, Err(CheckRule::WrongKind)),
                }
            }
            Stmt::Break => self.here(walk, unless(CheckRule::BreakOutside, looping)),
            Stmt::Return { value } => {
                let gives = self.here(walk, self.in_method())?;
                self.want_kind(walk, value, gives)
            }
            Stmt::Fail { .. } => {
                self.here(walk, self.in_method())?;
                Ok(())
            }
            Stmt::Call {
                name,
                service,
                method,
                args,
                handlers,
            } => {
                self.call(walk, name, service, method, args.as_slice())?;
                self.handlers(walk, looping, handlers.as_slice())
            }
            Stmt::Assert { cond } => {
                self.here(walk, self.in_test())?;
                self.want_kind(walk, cond, Kind::Bool)
            }
        }
    }

    /// A block, at whose end its variables end.
    #[cycle(statements)]
    fn block(&self, walk: &mut Walk, looping: bool, block: &Block) -> Result<(), CheckError>
        requires room { walk.old.number + statements_count (view_block block.now) < 2 ^ 32 }
        ensures { Gives walk.new result (within (statements_check self.now looping (view_block block.now)) walk.old) }
    {
        let before = walk.scope.len();
        self.statements(walk, looping, block.stmts.as_slice())?;
        walk.scope.leave(before);
        Ok(())
    }

    /// The block of a `for`, at whose end its variable ends too.
    #[cycle(statements)]
    fn for_block(
        &self,
        walk: &mut Walk,
        name: Name,
        item: Kind,
        block: &Block,
    ) -> Result<(), CheckError>
        requires room { walk.old.number + statements_count (view_block block.now) < 2 ^ 32 }
        ensures { Gives walk.new result (within (for_block_check self.now name item (statements_check self.now true (view_block block.now))) walk.old) }
    {
        let before = walk.scope.len();
        self.declare(walk, name, item)?;
        self.statements(walk, true, block.stmts.as_slice())?;
        walk.scope.leave(before);
        Ok(())
    }

    #[cycle(statements)]
    #[tactic(auto, unfolding(crate::specs::StatementChecks::statement_check))]
    pub fn statements(
        &self,
        walk: &mut Walk,
        looping: bool,
        stmts: &[Stmt],
    ) -> Result<(), CheckError>
        requires room { walk.old.number + statements_count (statements_of (map view_stmt stmts.now)) < 2 ^ 32 }
        ensures { Gives walk.new result (statements_check self.now looping (statements_of (map view_stmt stmts.now)) walk.old) }
    {
        for stmt in stmts {
            self.statement(walk, looping, stmt)?;
        }
        Ok(())
    }

    #[cycle(statements)]
    #[tactic(auto, unfolding(crate::specs::StatementChecks::statement_check))]
    fn handlers(
        &self,
        walk: &mut Walk,
        looping: bool,
        handlers: &[Handler],
    ) -> Result<(), CheckError>
        requires room { walk.old.number + summed_handlers (λ s. 1) (handlers_of (map view_handler handlers.now)) < 2 ^ 32 }
        ensures { Gives walk.new result (handlers_check self.now looping (handlers_of (map view_handler handlers.now)) walk.old) }
    {
        for handler in handlers {
            self.block(walk, looping, &handler.body)?;
        }
        Ok(())
    }
}
