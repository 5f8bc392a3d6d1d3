use fb_syntax::Stmt;

/// What stands in a statement or a block, itself included.
#[derive(Debug, Clone, Copy, PartialEq, Eq)]
pub struct Counts {
    pub statements: u32,
    pub blocks: u32,
    pub sites: u32,
    pub asserts: u32,
}

impl Counts {
    ghost use Rattle.std.specs.Prelude.{◌≡◌};
    ghost use Rattle.fb_syntax.specs.Views.{view_stmt};
    ghost use Rattle.fb_check.specs.Counts.{AreSmall, no_counts, together, own_counts};

    pub(crate) fn none() -> Counts
        ensures { result ≡ no_counts }
    {
        Counts {
            statements: 0,
            blocks: 0,
            sites: 0,
            asserts: 0,
        }
    }

    /// A block, without what is in it.
    pub(crate) fn of_block() -> Counts
        ensures { result ≡ record no_counts { blocks = 1 } }
    {
        Counts {
            blocks: 1,
            ..Counts::none()
        }
    }

    /// A statement, without what is in it.
    #[tactic(auto, unfolding(fb_syntax::specs::Views::view_stmt))]
    pub(crate) fn of_statement(stmt: &Stmt) -> Counts
        ensures { result ≡ own_counts (view_stmt stmt.now) }
    {
        let (sites, asserts) = match stmt {
            Stmt::Call { .. } => (1, 0),
            Stmt::Assert { .. } => (0, 1),
            Stmt::Let { .. }
            | Stmt::Assign { .. }
            | Stmt::If { .. }
            | Stmt::Repeat { .. }
            | Stmt::For { .. }
            | Stmt::Break
            | Stmt::Return { .. }
            | Stmt::Fail { .. } => (0, 0),
        };
        Counts {
            statements: 1,
            blocks: 0,
            sites,
            asserts,
        }
    }

    pub(crate) fn plus(self, other: Counts) -> Counts
        requires { AreSmall (together self other) }
        ensures { result ≡ together self other }
    {
        Counts {
            statements: self.statements + other.statements,
            blocks: self.blocks + other.blocks,
            sites: self.sites + other.sites,
            asserts: self.asserts + other.asserts,
        }
    }
}
