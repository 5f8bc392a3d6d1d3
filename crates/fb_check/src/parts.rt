//! The parts of a statement that are checked without going into another.
ghost use Rattle.std.specs.Prelude.{◌≡◌, Ok, map, IfOk};
ghost use Rattle.fb_syntax.specs.Views.{view_expr, expressions_of};
ghost use Rattle.fb_check.specs.ExpressionKinds.{or_rule, unless, in_method};
ghost use Rattle.fb_check.specs.Walking.{Gives, here, kind_here, want_kind, want_kinds, want_target, declare};
ghost use Rattle.fb_check.specs.StatementChecks.{call_check};

use crate::binding::Binding;
use crate::context::Context;
use crate::error::{CheckError, CheckRule};
use crate::owner::Owner;
use crate::place::Place;
use crate::walk::Walk;
use fb_base::{Kind, Name};
use fb_syntax::Expr;

/// A value, or the rule that is broken where there is none.
fn or_rule<T>(rule: CheckRule, found: Option<T>) -> Result<T, CheckRule>
    ensures { result ≡ or_rule rule found }
{
    match found {
        Some(found) => Ok(found),
        None => Err(rule),
    }
}

/// Nothing where it holds, and else the rule that is broken.
pub fn unless(rule: CheckRule, holds: bool) -> Result<(), CheckRule>
    ensures { result ≡ unless rule holds }
{
    if holds { Ok(()) } else { Err(rule) }
}

impl<'a> Context<'a> {
    /// What is found without going on, or the rule that is broken here.
    pub fn here<T>(&self, walk: &Walk, found: Result<T, CheckRule>) -> Result<T, CheckError>
        ensures { Gives walk.now result (here self.now found walk.now) }
    {
        match found {
            Ok(found) => Ok(found),
            Err(rule) => Err(CheckError::Refused {
                place: Place {
                    service: self.service,
                    method: self.method,
                    statement: walk.number,
                },
                rule,
            }),
        }
    }

    /// What only a method may have: the kind of what it gives.
    pub fn in_method(&self) -> Result<Kind, CheckRule>
        ensures { result ≡ in_method self.now.owner }
    {
        match self.owner {
            Owner::Method { gives } => Ok(gives),
            Owner::Test => Err(CheckRule::MethodOnly),
        }
    }

    pub fn kind_here(&self, walk: &Walk, e: &Expr) -> Result<Kind, CheckError>
        ensures { Gives walk.now result (kind_here self.now (view_expr e.now) walk.now) }
    {
        self.here(walk, self.kind_of(&walk.scope, e))
    }

    /// An expression of this kind.
    #[tactic(auto, unfolding(crate::specs::Walking::want_kind))]
    pub fn want_kind(&self, walk: &Walk, e: &Expr, wanted: Kind) -> Result<(), CheckError>
        ensures { Gives walk.now result (want_kind self.now (view_expr e.now) wanted walk.now) }
    {
        let found = self.kind_here(walk, e)?;
        self.here(walk, unless(CheckRule::WrongKind, found == wanted))
    }

    /// A variable of this kind, which takes a value.
    #[tactic(auto, unfolding(crate::specs::Walking::want_target))]
    pub fn want_target(&self, walk: &Walk, name: &Name, given: Kind) -> Result<(), CheckError>
        ensures { Gives walk.now result (want_target self.now name.now given walk.now) }
    {
        let found = walk.scope.kind_named(name);
        let found = self.here(walk, or_rule(CheckRule::UnknownName, found))?;
        self.here(walk, unless(CheckRule::WrongKind, given == found))
    }

    /// A new variable.
    #[tactic(auto, unfolding(crate::specs::Walking::declare))]
    pub fn declare(&self, walk: &mut Walk, name: Name, kind: Kind) -> Result<(), CheckError>
        ensures { Gives walk.new result (declare self.now name kind walk.old) }
    {
        let declared = walk.scope.declare(Binding { name, kind })?;
        if !declared {
            return self.here(walk, Err(CheckRule::DuplicateName));
        }
        Ok(())
    }

    /// Each argument has the kind of its parameter.
    #[tactic(auto, unfolding(crate::specs::Walking::want_kinds))]
    fn want_kinds(&self, walk: &Walk, args: &[Expr], kinds: &[Kind]) -> Result<(), CheckError>
        ensures { Gives walk.now result (want_kinds self.now (expressions_of (map view_expr args.now)) kinds.now walk.now) }
    {
        for (arg, kind) in args.iter().zip(kinds) {
            self.want_kind(walk, arg, *kind)?;
        }
        Ok(())
    }

    /// A call, up to its handlers.
    #[tactic(auto, using(crate::proofs::Arguments::counted_arguments), unfolding(crate::specs::StatementChecks::call_check))]
    pub fn call(
        &self,
        walk: &Walk,
        target: &Name,
        service: &Name,
        method: &Name,
        args: &[Expr],
    ) -> Result<(), CheckError>
        ensures { Gives walk.now result (call_check self.now target.now service.now method.now (expressions_of (map view_expr args.now)) walk.now) }
    {
        let Some(callee) = self.declared.callee(service, method) else {
            return self.here(walk, Err(CheckRule::UnknownCallee));
        };
        let params = callee.params.as_slice();
        self.here(
            walk,
            unless(CheckRule::WrongCount, args.len() == params.len()),
        )?;
        self.want_kinds(walk, args, params)?;
        self.want_target(walk, target, callee.gives)
    }
}
