ghost use Rattle.std.specs.Prelude.{◌≡◌, map};
ghost use Rattle.fb_syntax.specs.TokenKinds.{junction_word};
ghost use Rattle.fb_syntax.specs.Views.{view_expr, view_link, view_items, links_of, junction_of};
ghost use Rattle.fb_syntax.specs.Levels.{operator_level, chain_level, link_level, level_of, in_parentheses};

use crate::expr::{Expr, Link};
use crate::reserved::Reserved;
use fb_base::Op2;

/// The levels of expressions in the grammar, from the loosest on.
///
/// What is read at a level is also read at each one before it.
#[derive(Clone, Copy)]
pub enum Level {
    /// Anything, also operands with `or` between them.
    Expr,
    /// Operands with `and` between them.
    All,
    /// `not e`
    Neg,
    /// One comparison.
    Compared,
    /// A chain of `+`, `-` and `++`.
    Sum,
    /// A chain of `*`, `/` and `%`.
    Product,
    /// `-e`
    Unary,
    /// `e[i]`
    Post,
    Atom,
}

impl Level {
    /// The level by which an expression is spelled.
    #[tactic(auto, unfolding(crate::specs::Views::view_expr))]
    fn of(expr: &Expr) -> Level
        ensures { result ≡ level_of (view_expr expr.now) }
    {
        match expr {
            Expr::Any(_) => Level::Expr,
            Expr::All(_) => Level::All,
            Expr::Not(_) => Level::Neg,
            Expr::Compare { .. } => Level::Compared,
            Expr::Chain { rest, .. } => Level::of_chain(rest),
            Expr::Neg(_) => Level::Unary,
            Expr::At { .. } => Level::Post,
            Expr::Int(_)
            | Expr::Text(_)
            | Expr::Bool(_)
            | Expr::Var(_)
            | Expr::List { .. }
            | Expr::Len(_)
            | Expr::Injected
            | Expr::InjectedOn { .. } => Level::Atom,
        }
    }

    /// The level of a chain with these links.
    pub fn of_chain(links: &[Link]) -> Level
        ensures { result ≡ chain_level (links_of (map view_link links.now)) }
    {
        match links {
            [first, ..] => Level::of_operator(first.op),
            [] => Level::Sum,
        }
    }

    /// The level of what an operator makes of its operands.
    fn of_operator(operator: Op2) -> Level
        ensures { result ≡ operator_level operator }
    {
        match operator {
            Op2::Eq | Op2::Ne | Op2::Lt | Op2::Le | Op2::Gt | Op2::Ge => Level::Compared,
            Op2::Add | Op2::Sub | Op2::Join => Level::Sum,
            Op2::Mul | Op2::Div | Op2::Rem => Level::Product,
            Op2::At => Level::Post,
        }
    }

    /// What the grammar reads between the operators of a chain of this level.
    pub fn operands(self) -> Level
        ensures { result ≡ link_level self }
    {
        match self {
            Level::Product => Level::Unary,
            _ => Level::Product,
        }
    }

    /// Whether an expression needs parentheses where the grammar reads this level.
    pub fn parenthesizes(self, expr: &Expr) -> bool
        ensures { result ≡ in_parentheses self (view_expr expr.now) }
    {
        (Level::of(expr) as u8) < self as u8
    }
}

/// What joins the operands of a list.
#[derive(Clone, Copy)]
pub enum Junction {
    And,
    Or,
}

/// The levels of operators that are applied from the left.
#[derive(Clone, Copy)]
pub enum Series {
    Sum,
    Product,
}

impl Junction {
    pub fn word(self) -> Reserved
        ensures { result ≡ junction_word self }
    {
        match self {
            Junction::And => Reserved::And,
            Junction::Or => Reserved::Or,
        }
    }

    /// Two operands or more that it joins.
    #[tactic(auto, using(crate::specs::ViewEquations::view_all, crate::specs::ViewEquations::view_any))]
    pub fn joined(self, operands: Vec<Expr>) -> Expr
        ensures { view_expr result ≡ junction_of self (view_items operands) }
    {
        match self {
            Junction::And => Expr::All(operands),
            Junction::Or => Expr::Any(operands),
        }
    }
}
