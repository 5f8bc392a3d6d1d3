//! The kinds of expressions.
ghost use Rattle.std.specs.Prelude.{◌≡◌, map};
ghost use Rattle.fb_syntax.specs.Views.{view_expr, view_link, expressions_of, links_of};
ghost use Rattle.fb_check.specs.ExpressionKinds.{kind_of, all_have, kind_of_links, or_rule, in_test, unary_kind, applied_kind, made_kind, question_kind};

use crate::context::Context;
use crate::error::CheckRule;
use crate::kinds::{kind_of_binary, kind_of_unary};
use crate::owner::Owner;
use crate::scope::Scope;
use fb_base::{Kind, Op1, Op2};
use fb_syntax::{Expr, Link};

/// A kind, where the operands fit.
fn fitting(kind: Option<Kind>) -> Result<Kind, CheckRule>
    ensures { result ≡ or_rule CheckRule.WrongKind kind }
{
    match kind {
        Some(kind) => Ok(kind),
        None => Err(CheckRule::WrongKind),
    }
}

impl<'a> Context<'a> {
    /// What only a test may have.
    pub fn in_test(&self) -> Result<(), CheckRule>
        ensures { result ≡ in_test self.now.owner }
    {
        match self.owner {
            Owner::Method { .. } => Err(CheckRule::TestOnly),
            Owner::Test => Ok(()),
        }
    }

    /// A question about what is there, or isn't.
    fn question(&self, there: bool) -> Result<Kind, CheckRule>
        ensures { result ≡ question_kind self.now.owner there }
    {
        self.in_test()?;
        if !there {
            return Err(CheckRule::UnknownCallee);
        }
        Ok(Kind::Bool)
    }

    /// The kind of an expression.
    #[cycle(kinds)]
    #[tactic(auto, unfolding(crate::specs::ExpressionKinds::kind_of, fb_syntax::specs::Views::view_expr))]
    pub fn kind_of(&self, scope: &Scope, e: &Expr) -> Result<Kind, CheckRule>
        ensures { result ≡ kind_of self.now scope.now (view_expr e.now) }
    {
        match e {
            Expr::Int(_) => Ok(Kind::Int),
            Expr::Text(_) => Ok(Kind::Text),
            Expr::Bool(_) => Ok(Kind::Bool),
            Expr::Var(name) => match scope.kind_named(name) {
                Some(kind) => Ok(kind),
                None => Err(CheckRule::UnknownName),
            },
            Expr::List { base, items } => { self.made(scope, *base, items.as_slice(), base.list()) }
            Expr::Len(e) => self.unary(scope, Op1::Len, e),
            Expr::At { list, place } => {
                let left = self.kind_of(scope, list)?;
                self.applied(scope, Op2::At, left, place)
            }
            Expr::Neg(e) => self.unary(scope, Op1::Neg, e),
            Expr::Not(e) => self.unary(scope, Op1::Not, e),
            Expr::Compare { op, left, right } => {
                let left = self.kind_of(scope, left)?;
                self.applied(scope, *op, left, right)
            }
            Expr::Chain { first, rest } => {
                let left = self.kind_of(scope, first)?;
                self.kind_of_links(scope, left, rest.as_slice())
            }
            Expr::All(items) => self.made(scope, Kind::Bool, items.as_slice(), Some(Kind::Bool)),
            Expr::Any(items) => self.made(scope, Kind::Bool, items.as_slice(), Some(Kind::Bool)),
            Expr::Injected => self.question(true),
            Expr::InjectedOn { service, method } => {
                self.question(self.declared.is_declared(service, method))
            }
        }
    }

    #[cycle(kinds)]
    fn unary(&self, scope: &Scope, op: Op1, operand: &Expr) -> Result<Kind, CheckRule>
        ensures { result ≡ unary_kind op (kind_of self.now scope.now (view_expr operand.now)) }
    {
        let found = self.kind_of(scope, operand)?;
        fitting(kind_of_unary(op, found))
    }

    /// An operator, what is left of it, and its other operand.
    #[cycle(kinds)]
    fn applied(&self, scope: &Scope, op: Op2, left: Kind, operand: &Expr) -> Result<Kind, CheckRule>
        ensures { result ≡ applied_kind op left (kind_of self.now scope.now (view_expr operand.now)) }
    {
        let right = self.kind_of(scope, operand)?;
        fitting(kind_of_binary(op, left, right))
    }

    /// What items of one kind make, where all have it.
    #[cycle(kinds)]
    fn made(
        &self,
        scope: &Scope,
        wanted: Kind,
        items: &[Expr],
        made: Option<Kind>,
    ) -> Result<Kind, CheckRule>
        ensures { result ≡ made_kind made (all_have self.now scope.now wanted (expressions_of (map view_expr items.now))) }
    {
        if !self.all_have(scope, wanted, items)? {
            return Err(CheckRule::WrongKind);
        }
        fitting(made)
    }

    /// Whether all items have a kind, once each has been found to have some.
    #[cycle(kinds)]
    #[tactic(auto, unfolding(crate::specs::ExpressionKinds::all_have))]
    fn all_have(&self, scope: &Scope, wanted: Kind, items: &[Expr]) -> Result<bool, CheckRule>
        ensures { result ≡ all_have self.now scope.now wanted (expressions_of (map view_expr items.now)) }
    {
        let mut fit = true;
        for item in items {
            let found = self.kind_of(scope, item)?;
            fit = fit && found == wanted;
        }
        Ok(fit)
    }

    /// Each operator is applied to what is left of it and its own operand.
    #[cycle(kinds)]
    #[tactic(auto, unfolding(crate::specs::ExpressionKinds::kind_of_links))]
    fn kind_of_links(&self, scope: &Scope, left: Kind, links: &[Link]) -> Result<Kind, CheckRule>
        ensures { result ≡ kind_of_links self.now scope.now left (links_of (map view_link links.now)) }
    {
        let mut applied = left;
        for link in links {
            applied = self.applied(scope, link.op, applied, &link.right)?;
        }
        Ok(applied)
    }
}
