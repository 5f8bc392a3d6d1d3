//! Statements without blocks, of which none makes a call.
ghost use Rattle.std.specs.Prelude.{◌≡◌, ◌+◌, ◌<◌, ◌^◌, ℕ, IfOk, OnOk};
ghost use Rattle.fb_syntax.specs.Views.{view_expr};
ghost use Rattle.fb_transport.specs.Sources.{Source};
ghost use Rattle.fb_eval.specs.declared.progress.Progress.{Progress};
ghost use Rattle.fb_eval.specs.Means.{let_means, assign_means, return_means, fail_means, assert_means};
ghost use Rattle.fb_eval.specs.States.{IsReady, IsTold, invocations, here_of, state_of, went};

use crate::body::{Body, Whose};
use crate::flow::Flow;
use crate::progress::Progress;
use fb_base::{Code, Name, Reply};
use fb_check::Counts;
use fb_syntax::Expr;
use fb_tree::Outcome;
use std::alloc::AllocError;

impl<'a> Body<'a> {
    /// Declares a variable.
    #[tactic(auto, unfolding(crate::specs::Means::let_means))]
    pub(crate) fn declare(
        &self,
        progress: &mut Progress,
        at: Counts,
        name: Name,
        value: &Expr,
    ) -> Result<Flow, AllocError>
        requires told { IsTold self.now progress.old }
        requires small { at.statements + 1 < 2 ^ 32 }
        ensures means { IfOk result (λ flow. (source : Source) (fuel : ℕ) →
            let_means (here_of self.now source) at name (view_expr value.now) (state_of progress.old fuel) ≡ went progress.new fuel flow) }
        ensures ready { OnOk result ((fuel : ℕ) → IsReady self.now progress.old fuel → IsReady self.now progress.new fuel) }
        ensures ticks { OnOk result (invocations progress.new ≡ invocations progress.old) }
    {
        match self.value(progress, value)? {
            None => Ok(self.fault(at)),
            Some(value) => {
                if progress.variables.declare(name, value)? {
                    Ok(Flow::Next)
                } else {
                    Ok(self.fault(at))
                }
            }
        }
    }

    /// Gives a variable another value.
    #[tactic(auto, unfolding(crate::specs::Means::assign_means))]
    pub(crate) fn assign(
        &self,
        progress: &mut Progress,
        at: Counts,
        name: &Name,
        value: &Expr,
    ) -> Result<Flow, AllocError>
        requires told { IsTold self.now progress.old }
        requires small { at.statements + 1 < 2 ^ 32 }
        ensures means { IfOk result (λ flow. (source : Source) (fuel : ℕ) →
            assign_means (here_of self.now source) at name.now (view_expr value.now) (state_of progress.old fuel) ≡ went progress.new fuel flow) }
        ensures ready { OnOk result ((fuel : ℕ) → IsReady self.now progress.old fuel → IsReady self.now progress.new fuel) }
        ensures ticks { OnOk result (invocations progress.new ≡ invocations progress.old) }
    {
        match self.value(progress, value)? {
            None => Ok(self.fault(at)),
            Some(value) => {
                if progress.variables.assign(name, value) {
                    Ok(Flow::Next)
                } else {
                    Ok(self.fault(at))
                }
            }
        }
    }

    /// Answers with a value, which only a method does.
    #[tactic(auto, unfolding(crate::specs::Means::return_means))]
    pub(crate) fn answer(
        &self,
        progress: &Progress,
        at: Counts,
        value: &Expr,
    ) -> Result<Flow, AllocError>
        requires told { IsTold self.now progress.now }
        requires small { at.statements + 1 < 2 ^ 32 }
        ensures { IfOk result (λ flow. (source : Source) (fuel : ℕ) →
            return_means (here_of self.now source) at (view_expr value.now) (state_of progress.now fuel) ≡ went progress.now fuel flow) }
    {
        match self.value(progress, value)? {
            None => Ok(self.fault(at)),
            Some(value) => match self.whose {
                Whose::Method => Ok(Flow::Gave(Reply::Ok(value))),
                Whose::Test => Ok(self.fault(at)),
            },
        }
    }

    /// Answers with an error, which only a method does.
    #[tactic(auto, unfolding(crate::specs::Means::fail_means))]
    pub(crate) fn fail(&self, at: Counts, code: Code) -> Flow
        requires { at.statements + 1 < 2 ^ 32 }
        ensures { (source : Source) (progress : Progress) (fuel : ℕ) →
            fail_means (here_of self.now source) at code (state_of progress fuel) ≡ went progress fuel result }
    {
        match self.whose {
            Whose::Method => Flow::Gave(Reply::Err(code)),
            Whose::Test => self.fault(at),
        }
    }

    /// Claims that a condition holds, which only a test does.
    #[tactic(auto, unfolding(crate::specs::Means::assert_means))]
    pub(crate) fn assert(
        &self,
        progress: &Progress,
        at: Counts,
        cond: &Expr,
    ) -> Result<Flow, AllocError>
        requires told { IsTold self.now progress.now }
        requires small { at.statements + 1 < 2 ^ 32 }
        requires asserts { at.asserts + 1 < 2 ^ 32 }
        ensures { IfOk result (λ flow. (source : Source) (fuel : ℕ) →
            assert_means (here_of self.now source) at (view_expr cond.now) (state_of progress.now fuel) ≡ went progress.now fuel flow) }
    {
        match self.condition(progress, cond)? {
            None => Ok(self.fault(at)),
            Some(holds) => match self.whose {
                Whose::Method => Ok(self.fault(at)),
                Whose::Test if holds => Ok(Flow::Next),
                Whose::Test => Ok(Flow::Ended(Outcome::AssertFailed(at.asserts + 1))),
            },
        }
    }
}
