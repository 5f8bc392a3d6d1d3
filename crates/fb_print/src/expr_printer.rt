//! Expressions in canonical text.
ghost use Rattle.std.specs.Prelude.{◌≡◌, ◌++◌, OnOk, map};
ghost use Rattle.std.specs.List.{flat_map, join_by};
ghost use Rattle.fb_syntax.specs.Keywords.{reserved_text};
ghost use Rattle.fb_syntax.specs.Trees.{ListLiteral, InjectedOn};
ghost use Rattle.fb_syntax.specs.Views.{view_expr, expressions_of};
ghost use Rattle.fb_print.specs.Items.{items_text};
ghost use Rattle.fb_print.specs.Expressions.{operator_items, bool_word, kind_items, method_part, bare_items};
ghost use Rattle.fb_print.specs.Printed.{expr_text, link_text, listed_text};

use crate::printer::Printer;
use fb_base::{Kind, Name, Op2};
use fb_syntax::{Expr, Level, Link};
use std::alloc::AllocError;

/// The operator between the blanks on its sides.
fn operator_text(operator: Op2) -> &'static str
    ensures { result.now ≡ items_text (operator_items operator) }
{
    match operator {
        Op2::Add => " + ",
        Op2::Sub => " - ",
        Op2::Mul => " * ",
        Op2::Div => " / ",
        Op2::Rem => " % ",
        Op2::Eq => " == ",
        Op2::Ne => " != ",
        Op2::Lt => " < ",
        Op2::Le => " <= ",
        Op2::Gt => " > ",
        Op2::Ge => " >= ",
        Op2::Join => " ++ ",
        Op2::At => " [ ",
    }
}

/// A kind as it is spelled.
pub fn kind_text(kind: Kind) -> &'static str
    ensures { result.now ≡ items_text (kind_items kind) }
{
    match kind {
        Kind::Int => "int",
        Kind::Bool => "bool",
        Kind::Text => "text",
        Kind::Ints => "list<int>",
        Kind::Bools => "list<bool>",
        Kind::Texts => "list<text>",
    }
}

fn bool_text(b: bool) -> &'static str
    ensures { result.now ≡ reserved_text (bool_word b) }
{
    if b { "true" } else { "false" }
}

impl Printer {
    /// An expression where the grammar reads this level, in parentheses if it needs them.
    #[cycle(expr)]
    pub fn expr(&mut self, wanted: Level, expr: &Expr) -> Result<(), AllocError>
        ensures { OnOk result (self.new ≡ self.old ++ expr_text wanted expr.now) }
    {
        if !wanted.parenthesizes(expr) {
            return self.bare(expr);
        }
        self.put("(")?;
        self.bare(expr)?;
        self.put(")")
    }

    /// Expressions where the grammar reads this level, with a text between them.
    #[cycle(expr)]
    pub fn exprs(&mut self, wanted: Level, between: &str, exprs: &[Expr]) -> Result<(), AllocError>
        ensures { OnOk result (self.new ≡ self.old ++ join_by (expr_text wanted) between.now exprs.now) }
    {
        let [first, rest @ ..] = exprs else {
            return Ok(());
        };
        self.expr(wanted, first)?;
        for expr in rest {
            self.put(between)?;
            self.expr(wanted, expr)?;
        }
        Ok(())
    }

    /// Any expressions with commas between them, between what opens and what closes.
    #[cycle(expr)]
    pub fn listed(&mut self, opening: &str, exprs: &[Expr], closing: &str) -> Result<(), AllocError>
        ensures { OnOk result (self.new ≡ self.old ++ (opening.now ++ (listed_text exprs.now ++ closing.now))) }
    {
        self.put(opening)?;
        self.exprs(Level::Expr, ", ", exprs)?;
        self.put(closing)
    }

    /// The further operands of a chain, each behind its operator.
    #[cycle(expr)]
    fn links(&mut self, wanted: Level, links: &[Link]) -> Result<(), AllocError>
        ensures { OnOk result (self.new ≡ self.old ++ flat_map (link_text wanted) links.now) }
    {
        for link in links {
            self.put(operator_text(link.op))?;
            self.expr(wanted, &link.right)?;
        }
        Ok(())
    }

    /// A list literal.
    #[cycle(expr)]
    fn list(&mut self, base: Kind, items: &[Expr]) -> Result<(), AllocError>
        ensures { OnOk result (self.new ≡ self.old ++ items_text (bare_items (ListLiteral base (expressions_of (map view_expr items.now))))) }
    {
        self.put("list<")?;
        self.put(kind_text(base))?;
        self.listed(">[", items, "]")
    }

    /// The method at which a fault may have been injected, if one is named.
    fn method_part(&mut self, method: &Option<Name>) -> Result<(), AllocError>
        ensures { OnOk result (self.new ≡ self.old ++ items_text (method_part method.now)) }
    {
        match method {
            Some(method) => {
                self.put(".")?;
                self.name(method)
            }
            None => Ok(()),
        }
    }

    #[tactic(auto, unfolding(crate::specs::Expressions::bare_items))]
    fn injected_on(&mut self, service: &Name, method: &Option<Name>) -> Result<(), AllocError>
        ensures { OnOk result (self.new ≡ self.old ++ items_text (bare_items (InjectedOn service.now method.now))) }
    {
        self.put("injected_on ")?;
        self.name(service)?;
        self.method_part(method)
    }

    /// An expression without parentheses round the whole.
    #[cycle(expr)]
    #[tactic(auto, unfolding(fb_syntax::specs::Views::view_expr, crate::specs::Expressions::bare_items))]
    fn bare(&mut self, expr: &Expr) -> Result<(), AllocError>
        ensures { OnOk result (self.new ≡ self.old ++ items_text (bare_items (view_expr expr.now))) }
    {
        match expr {
            Expr::Int(number) => self.number(*number),
            Expr::Text(text) => self.literal(text),
            Expr::Bool(b) => self.put(bool_text(*b)),
            Expr::Var(name) => self.name(name),
            Expr::List { base, items } => self.list(*base, items),
            Expr::Len(expr) => {
                self.put("len(")?;
                self.expr(Level::Expr, expr)?;
                self.put(")")
            }
            Expr::At { list, place } => {
                self.expr(Level::Atom, list)?;
                self.put("[")?;
                self.expr(Level::Expr, place)?;
                self.put("]")
            }
            Expr::Neg(expr) => {
                self.put("-")?;
                self.expr(Level::Unary, expr)
            }
            Expr::Not(expr) => {
                self.put("not ")?;
                self.expr(Level::Neg, expr)
            }
            Expr::Compare { op, left, right } => {
                self.expr(Level::Sum, left)?;
                self.put(operator_text(*op))?;
                self.expr(Level::Sum, right)
            }
            Expr::Chain { first, rest } => {
                let wanted = Level::of_chain(rest).operands();
                self.expr(wanted, first)?;
                self.links(wanted, rest)
            }
            Expr::All(operands) => self.exprs(Level::Neg, " and ", operands),
            Expr::Any(operands) => self.exprs(Level::All, " or ", operands),
            Expr::Injected => self.put("injected"),
            Expr::InjectedOn { service, method } => self.injected_on(service, method),
        }
    }
}
