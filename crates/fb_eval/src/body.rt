//! A body that is evaluated.
ghost use Rattle.std.specs.Prelude.{◌≡◌, ◌+◌, ◌<◌, ◌^◌, ◌≤◌, suc, length, [], IfOk, OnOk, OnErr, codes};
ghost use Rattle.fb_check.specs.Counts.{entries_of};
ghost use Rattle.fb_eval.specs.declared.body.Whose.TheVariants as whose;
ghost use Rattle.fb_check.specs.Programs.{methods_of};
ghost use Rattle.std.specs.Option.{option_map};
ghost use Rattle.fb_syntax.specs.Views.{view_expr};
ghost use Rattle.fb_expression.specs.Reading.{environment_of};
ghost use Rattle.fb_meaning.specs.Evaluations.{begun};
ghost use Rattle.fb_meaning.specs.Bodies.{environment, fault_flow, unhandled_flow, values_in};
ghost use Rattle.fb_eval.specs.States.{IsBodyOf, IsReady, IsReadyToCall, IsTold, invocations, whose_of, flow_of, state_of, value_now, condition_now, items_now};

use crate::flow::Flow;
use crate::fuel::Fuel;
use crate::progress::Progress;
use crate::stop::Exhausted;
use fb_base::{Code, Items, MethodId, OpError, Reply, Value};
use fb_check::{CheckedTest, Counts, Program};
use fb_expression::{Environment, value_of};
use fb_index::Index;
use fb_syntax::Expr;
use fb_tree::Outcome;
use std::alloc::{AllocError, Global};

/// Whose a body is.
#[derive(Clone, Copy, PartialEq, Eq)]
pub(crate) enum Whose {
    Method,
    Test,
}

/// What stays while a body is evaluated.
#[derive(Drop)]
pub(crate) struct Body<'a> {
    pub(crate) alloc: Global,
    pub(crate) program: &'a Program,
    pub(crate) whose: Whose,
    /// Where the invocation stands in its run.
    pub(crate) index: Index,
    /// What stands in each statement and each block of the body.
    pub(crate) counts: &'a [Counts],
}

impl<'a> Body<'a> {
    /// The body of a method that is called at this index.
    pub(crate) fn of_method(
        alloc: Global,
        program: &'a Program,
        method: MethodId,
        index: Index,
    ) -> Body<'a>
        requires { method.0 < length (methods_of program.now.tree) }
        ensures program { result.program.now ≡ program.now }
        ensures index { result.index ≡ index }
        ensures body { IsBodyOf result method }
    {
        Body {
            alloc,
            program,
            whose: Whose::Method,
            index,
            counts: program.counts(method),
        }
    }

    /// The body of a test.
    pub(crate) fn of_test(alloc: Global, program: &'a Program, test: &'a CheckedTest) -> Body<'a>
        ensures program { result.program.now ≡ program.now }
        ensures whose { result.whose ≡ whose.Test }
        ensures index { result.index ≡ [] }
        ensures counts { result.counts.now ≡ entries_of test.now.tree.body }
    {
        Body {
            alloc,
            program,
            whose: Whose::Test,
            index: Index::root(),
            counts: test.counts(),
        }
    }

    /// Takes the unit of a statement, or of a turn of a loop.
    pub(crate) fn begin(&self, progress: &mut Progress, fuel: &mut Fuel) -> Result<(), Exhausted>
        requires { IsReady self.now progress.old fuel.old }
        ensures unit { OnOk result (fuel.old ≡ suc fuel.new) }
        ensures begun { OnOk result (state_of progress.new fuel.new ≡ begun fuel.new (state_of progress.old fuel.old)) }
        ensures ready { OnOk result (IsReadyToCall self.now progress.new fuel.new) }
        ensures ticks { OnOk result (invocations progress.new ≡ invocations progress.old) }
        ensures spent { OnErr result (fuel.old ≡ 0) }
        ensures fuel { fuel.new ≤ fuel.old }
    {
        fuel.take(1)?;
        progress.steps += 1;
        Ok(())
    }

    /// What an expression reads.
    pub(crate) fn reads<'p>(&'p self, progress: &'p Progress) -> Environment<'p>
        requires { IsTold self.now progress.now }
        ensures program { result.program.now ≡ self.now.program.now }
        ensures reads { environment_of result ≡ environment (whose_of self.now.whose) (state_of progress.now 0) }
    {
        Environment {
            program: self.program,
            variables: &progress.variables,
            injected: progress.injected.as_ref(),
        }
    }

    /// The value of an expression, none where it faults.
    pub(crate) fn value(&self, progress: &Progress, e: &Expr) -> Result<Option<Value>, AllocError>
        requires { IsTold self.now progress.now }
        ensures { IfOk result (λ value. value ≡ value_now self.now progress.now (view_expr e.now)) }
    {
        match value_of(self.alloc, &self.reads(progress), e) {
            Ok(value) => Ok(Some(value)),
            Err(OpError::Fault) => Ok(None),
            Err(OpError::Memory) => Err(AllocError),
        }
    }

    /// Whether a condition holds, none where it faults.
    pub(crate) fn condition(
        &self,
        progress: &Progress,
        cond: &Expr,
    ) -> Result<Option<bool>, AllocError>
        requires { IsTold self.now progress.now }
        ensures { IfOk result (λ holds. holds ≡ condition_now self.now progress.now (view_expr cond.now)) }
    {
        match self.value(progress, cond)? {
            Some(Value::Bool(holds)) => Ok(Some(holds)),
            Some(_) => Ok(None),
            None => Ok(None),
        }
    }

    /// The items of a list, none where the expression faults.
    pub(crate) fn items(
        &self,
        progress: &Progress,
        over: &Expr,
    ) -> Result<Option<Items>, AllocError>
        requires { IsTold self.now progress.now }
        ensures { IfOk result (λ items. option_map values_in items ≡ items_now self.now progress.now (view_expr over.now)) }
    {
        match self.value(progress, over)? {
            Some(Value::List(items)) => Ok(Some(items)),
            Some(_) => Ok(None),
            None => Ok(None),
        }
    }

    /// An expression of the statement at this position faults.
    pub(crate) fn fault(&self, at: Counts) -> Flow
        requires { at.statements + 1 < 2 ^ 32 }
        ensures { flow_of result ≡ fault_flow (whose_of self.now.whose) (at.statements + 1) }
    {
        match self.whose {
            Whose::Method => Flow::Gave(Reply::Err(internal())),
            Whose::Test => Flow::Ended(Outcome::Fault(at.statements + 1)),
        }
    }

    /// No handler takes the error of the call at this site.
    pub(crate) fn unhandled(&self, site: u32, code: Code) -> Flow
        ensures { flow_of result ≡ unhandled_flow (whose_of self.now.whose) site code }
    {
        match self.whose {
            Whose::Method => Flow::Gave(Reply::Err(code)),
            Whose::Test => Flow::Ended(Outcome::CallFailed(site, code)),
        }
    }
}

/// What a method answers where an expression faults.
pub(crate) fn internal() -> Code
    ensures { result ≡ codes "internal" }
{
    Code::read(b"internal").unwrap()
}
