use crate::counting::add_statements;
use crate::counts::Counts;
use crate::declarations::Declarations;
use fb_base::{List, MethodId};
use fb_syntax::Block;
use std::alloc::{AllocError, Global};

/// What is kept of a body for look-ups by number.
#[derive(Drop)]
pub struct BodyTables {
    /// For each call site the number of the method that it calls.
    pub callees: List<Option<u32>>,
    /// What stands in each statement and each block inside the body.
    pub counts: List<Counts>,
}

impl BodyTables {
    ghost use Rattle.std.specs.Prelude.{◌≡◌, option_map, option_and_then, IfOk};
    ghost use Rattle.fb_syntax.specs.Views.{view_block};
    ghost use Rattle.fb_syntax.specs.Kept.{KeepsBody};
    ghost use Rattle.fb_check.specs.Programs.{item_numbered};
    ghost use Rattle.fb_check.specs.Tables.{body_tables};

    /// The tables of a body that may call what is declared.
    pub fn of(
        alloc: Global,
        declared: &Declarations,
        body: &Block,
    ) -> Result<BodyTables, AllocError>
        requires { KeepsBody (view_block body.now) }
        ensures { IfOk result (λ tables. tables ≡ body_tables declared.now (view_block body.now)) }
    {
        let mut callees = List::new(alloc);
        declared.add_sites(body, &mut callees)?;
        let mut counts = Vec::new(alloc);
        add_statements(body.stmts.as_slice(), &mut counts)?;
        Ok(BodyTables {
            callees,
            counts: List::of(counts),
        })
    }

    /// The method that a site calls, by the number of the site.
    pub fn callee(&self, site: u32) -> Option<MethodId>
        ensures { option_map (λ m. m.0) result ≡ option_and_then (λ callee. callee) (item_numbered self.now.callees site) }
    {
        if site == 0 {
            return None;
        }
        match self.callees.get(site as usize - 1) {
            Some(Some(callee)) => Some(MethodId(*callee)),
            _ => None,
        }
    }
}
