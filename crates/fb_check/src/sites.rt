//! The call sites of a body.
ghost use Rattle.std.specs.Prelude.{◌≡◌, ◌++◌, map, OnOk};
ghost use Rattle.fb_syntax.specs.Views.{view_stmt, view_block, view_handler, handlers_of};
ghost use Rattle.fb_check.specs.Sites.{statement_sites, sites, handler_sites, callee_numbers};

use crate::declarations::Declarations;
use fb_base::List;
use fb_syntax::{Block, Handler, Stmt};
use std::alloc::AllocError;

impl Declarations {
    /// Adds the numbers of the methods that a block calls, in the order in which its sites begin.
    #[cycle(sites)]
    pub fn add_sites(&self, block: &Block, found: &mut List<Option<u32>>) -> Result<(), AllocError>
        ensures { OnOk result (found.new ≡ found.old ++ callee_numbers self.now (sites (view_block block.now))) }
    {
        for stmt in &block.stmts {
            self.add_statement_sites(stmt, found)?;
        }
        Ok(())
    }

    #[cycle(sites)]
    #[tactic(auto, unfolding(fb_syntax::specs::Views::view_stmt))]
    fn add_statement_sites(
        &self,
        stmt: &Stmt,
        found: &mut List<Option<u32>>,
    ) -> Result<(), AllocError>
        ensures { OnOk result (found.new ≡ found.old ++ callee_numbers self.now (statement_sites (view_stmt stmt.now))) }
    {
        match stmt {
            Stmt::If { yes, no, .. } => {
                self.add_sites(yes, found)?;
                match no {
                    Some(no) => self.add_sites(no, found),
                    None => Ok(()),
                }
            }
            Stmt::Repeat { body, .. } => self.add_sites(body, found),
            Stmt::For { body, .. } => self.add_sites(body, found),
            Stmt::Call {
                service,
                method,
                handlers,
                ..
            } => {
                found.push(self.number(service, method))?;
                self.add_handler_sites(handlers.as_slice(), found)
            }
            Stmt::Let { .. }
            | Stmt::Assign { .. }
            | Stmt::Break
            | Stmt::Return { .. }
            | Stmt::Fail { .. }
            | Stmt::Assert { .. } => Ok(()),
        }
    }

    #[cycle(sites)]
    fn add_handler_sites(
        &self,
        handlers: &[Handler],
        found: &mut List<Option<u32>>,
    ) -> Result<(), AllocError>
        ensures { OnOk result (found.new ≡ found.old ++ callee_numbers self.now (handler_sites (handlers_of (map view_handler handlers.now)))) }
    {
        for handler in handlers {
            self.add_sites(&handler.body, found)?;
        }
        Ok(())
    }
}
