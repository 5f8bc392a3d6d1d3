//! The statements of a body, each with what is inside it.
//!
//! Every statement takes its unit first, so that the evaluation ends by its fuel.
ghost use Rattle.std.specs.Prelude.{◌+◌, ◌<◌, ◌^◌, map};
ghost use Rattle.std.specs.Option.{option_map};
ghost use Rattle.fb_syntax.specs.Views.{view_expr, view_stmt, view_block, statements_of};
ghost use Rattle.fb_meaning.specs.Bodies.{values_in};
ghost use Rattle.fb_eval.specs.Places.{StatementStands, StatementsStand, BlockStands, OtherStands};
ghost use Rattle.fb_eval.specs.Means.{act_means, statement_means, statements_mean, block_means, if_means, repeat_means, for_each_means, for_means, turn_means};
ghost use Rattle.fb_eval.specs.States.{IsReady, IsReadyToCall};
ghost use Rattle.fb_eval.specs.Moments.{Goes, moment};

use crate::body::Body;
use crate::calling::Calling;
use crate::decides::Decides;
use crate::flow::Flow;
use crate::fuel::Fuel;
use crate::progress::Progress;
use crate::stop::Stop;
use crate::walk::{behind_block, behind_statement, in_block, inside};
use fb_base::{Items, Name, Steps, Value};
use fb_check::Counts;
use fb_expression::item_at;
use fb_meaning::statements_follow_rules;
use fb_syntax::{Block, Expr, Stmt};
use std::sync::ledger::Ledger;

impl<'a> Body<'a> {
    /// A statement: its unit, and then what it does.
    #[cycle(evaluation)]
    fn statement<D: Decides, L: Ledger>(
        &self,
        progress: &mut Progress,
        decider: &mut D,
        fuel: &mut Fuel,
        evals: &mut Steps<L>,
        at: Counts,
        stmt: &Stmt,
    ) -> Result<Flow, Stop>
        requires ready { IsReady self.now progress.old fuel.old }
        requires stands { StatementStands self.now.counts.now at (view_stmt stmt.now) }
        ensures { Goes 0 self.now (λ here. statement_means here at (view_stmt stmt.now)) progress.old progress.new (moment (D.ways decider.old) (D.wanted decider.old) fuel.old evals.old) (moment (D.ways decider.new) (D.wanted decider.new) fuel.new evals.new) (D.has_lacked decider.new) result }
    {
        statements_follow_rules();
        self.begin(progress, fuel)?;
        self.act(progress, decider, fuel, evals, at, stmt)
    }

    /// A statement whose unit is taken.
    #[cycle(evaluation)]
    fn act<D: Decides, L: Ledger>(
        &self,
        progress: &mut Progress,
        decider: &mut D,
        fuel: &mut Fuel,
        evals: &mut Steps<L>,
        at: Counts,
        stmt: &Stmt,
    ) -> Result<Flow, Stop>
        requires ready { IsReadyToCall self.now progress.old fuel.old }
        requires stands { StatementStands self.now.counts.now at (view_stmt stmt.now) }
        ensures { Goes 1 self.now (λ here. act_means here at (view_stmt stmt.now)) progress.old progress.new (moment (D.ways decider.old) (D.wanted decider.old) fuel.old evals.old) (moment (D.ways decider.new) (D.wanted decider.new) fuel.new evals.new) (D.has_lacked decider.new) result }
    {
        let inside = inside(at, stmt);
        match stmt {
            Stmt::Let { name, value } => {
                let flow = self.declare(progress, at, *name, value)?;
                Ok(flow)
            }
            Stmt::Assign { name, value } => {
                let flow = self.assign(progress, at, name, value)?;
                Ok(flow)
            }
            Stmt::If { cond, yes, no } => {
                self.branch(progress, decider, fuel, evals, at, inside, cond, yes, no)
            }
            Stmt::Repeat { times, body } => {
                self.repeat(progress, decider, fuel, evals, inside, *times, body)
            }
            Stmt::For { name, over, body } => {
                self.for_each(
                    progress, decider, fuel, evals, at, inside, *name, over, body,
                )
            }
            Stmt::Break => Ok(Flow::Broke),
            Stmt::Return { value } => {
                let flow = self.answer(progress, at, value)?;
                Ok(flow)
            }
            Stmt::Fail { code } => Ok(self.fail(at, *code)),
            Stmt::Call {
                name,
                service,
                method,
                args,
                handlers,
            } => {
                let call = Calling {
                    at,
                    inside,
                    target: name,
                    service,
                    method,
                    args: args.as_slice(),
                    handlers: handlers.as_slice(),
                };
                self.call(progress, decider, fuel, evals, &call)
            }
            Stmt::Assert { cond } => {
                let flow = self.assert(progress, at, cond)?;
                Ok(flow)
            }
        }
    }

    /// Statements, one after the other.
    #[cycle(evaluation)]
    pub(crate) fn statements<D: Decides, L: Ledger>(
        &self,
        progress: &mut Progress,
        decider: &mut D,
        fuel: &mut Fuel,
        evals: &mut Steps<L>,
        mut at: Counts,
        stmts: &[Stmt],
    ) -> Result<Flow, Stop>
        requires ready { IsReady self.now progress.old fuel.old }
        requires stands { StatementsStand self.now.counts.now at (statements_of (map view_stmt stmts.now)) }
        ensures { Goes 0 self.now (λ here. statements_mean here at (statements_of (map view_stmt stmts.now))) progress.old progress.new (moment (D.ways decider.old) (D.wanted decider.old) fuel.old evals.old) (moment (D.ways decider.new) (D.wanted decider.new) fuel.new evals.new) (D.has_lacked decider.new) result }
    {
        let mut left = stmts;
        while let [stmt, rest @ ..] = left {
            let flow = self.statement(progress, decider, fuel, evals, at, stmt)?;
            match flow {
                Flow::Next => {}
                other => return Ok(other),
            }
            at = behind_statement(self.counts, at, stmt);
            left = rest;
        }
        Ok(Flow::Next)
    }

    /// A block, at whose end its variables end.
    #[cycle(evaluation)]
    pub(crate) fn block<D: Decides, L: Ledger>(
        &self,
        progress: &mut Progress,
        decider: &mut D,
        fuel: &mut Fuel,
        evals: &mut Steps<L>,
        at: Counts,
        block: &Block,
    ) -> Result<Flow, Stop>
        requires ready { IsReady self.now progress.old fuel.old }
        requires stands { BlockStands self.now.counts.now at (view_block block.now) }
        ensures { Goes 0 self.now (λ here. block_means here at (view_block block.now)) progress.old progress.new (moment (D.ways decider.old) (D.wanted decider.old) fuel.old evals.old) (moment (D.ways decider.new) (D.wanted decider.new) fuel.new evals.new) (D.has_lacked decider.new) result }
    {
        let before = progress.variables.len();
        let flow = self.statements(
            progress,
            decider,
            fuel,
            evals,
            in_block(at),
            block.stmts.as_slice(),
        )?;
        progress.variables.leave(before);
        Ok(flow)
    }

    /// The first block where the condition holds, and else the other one, if there is one.
    #[cycle(evaluation)]
    fn branch<D: Decides, L: Ledger>(
        &self,
        progress: &mut Progress,
        decider: &mut D,
        fuel: &mut Fuel,
        evals: &mut Steps<L>,
        at: Counts,
        inside: Counts,
        cond: &Expr,
        yes: &Block,
        no: &Option<Block>,
    ) -> Result<Flow, Stop>
        requires ready { IsReady self.now progress.old fuel.old }
        requires small { at.statements + 1 < 2 ^ 32 }
        requires stands { BlockStands self.now.counts.now inside (view_block yes.now) }
        requires other { OtherStands self.now.counts.now inside (view_block yes.now) (option_map view_block no.now) }
        ensures { Goes 0 self.now (λ here. if_means here at inside (view_expr cond.now) (view_block yes.now) (option_map view_block no.now)) progress.old progress.new (moment (D.ways decider.old) (D.wanted decider.old) fuel.old evals.old) (moment (D.ways decider.new) (D.wanted decider.new) fuel.new evals.new) (D.has_lacked decider.new) result }
    {
        let holds = self.condition(progress, cond)?;
        match holds {
            None => Ok(self.fault(at)),
            Some(true) => self.block(progress, decider, fuel, evals, inside, yes),
            Some(false) => match no {
                None => Ok(Flow::Next),
                Some(no) => {
                    let other = behind_block(self.counts, inside, yes);
                    self.block(progress, decider, fuel, evals, other, no)
                }
            },
        }
    }

    /// So many turns of a block.
    #[cycle(evaluation)]
    fn repeat<D: Decides, L: Ledger>(
        &self,
        progress: &mut Progress,
        decider: &mut D,
        fuel: &mut Fuel,
        evals: &mut Steps<L>,
        inside: Counts,
        times: u32,
        body: &Block,
    ) -> Result<Flow, Stop>
        requires ready { IsReady self.now progress.old fuel.old }
        requires stands { BlockStands self.now.counts.now inside (view_block body.now) }
        ensures { Goes 0 self.now (λ here. repeat_means here inside (view_block body.now) times) progress.old progress.new (moment (D.ways decider.old) (D.wanted decider.old) fuel.old evals.old) (moment (D.ways decider.new) (D.wanted decider.new) fuel.new evals.new) (D.has_lacked decider.new) result }
    {
        for _turn in 0..times {
            self.begin(progress, fuel)?;
            let flow = self.block(progress, decider, fuel, evals, inside, body)?;
            match flow {
                Flow::Next => {}
                Flow::Broke => return Ok(Flow::Next),
                other => return Ok(other),
            }
        }
        Ok(Flow::Next)
    }

    /// A turn of a block for each item of a list, which is evaluated once.
    #[cycle(evaluation)]
    fn for_each<D: Decides, L: Ledger>(
        &self,
        progress: &mut Progress,
        decider: &mut D,
        fuel: &mut Fuel,
        evals: &mut Steps<L>,
        at: Counts,
        inside: Counts,
        name: Name,
        over: &Expr,
        body: &Block,
    ) -> Result<Flow, Stop>
        requires ready { IsReady self.now progress.old fuel.old }
        requires small { at.statements + 1 < 2 ^ 32 }
        requires stands { BlockStands self.now.counts.now inside (view_block body.now) }
        ensures { Goes 0 self.now (λ here. for_each_means here at inside name (view_expr over.now) (view_block body.now)) progress.old progress.new (moment (D.ways decider.old) (D.wanted decider.old) fuel.old evals.old) (moment (D.ways decider.new) (D.wanted decider.new) fuel.new evals.new) (D.has_lacked decider.new) result }
    {
        let list = self.items(progress, over)?;
        match list {
            None => Ok(self.fault(at)),
            Some(items) => self.turns(
                progress, decider, fuel, evals, at, inside, name, &items, body,
            ),
        }
    }

    /// A turn of a block for each item. One item at a time is copied.
    #[cycle(evaluation)]
    fn turns<D: Decides, L: Ledger>(
        &self,
        progress: &mut Progress,
        decider: &mut D,
        fuel: &mut Fuel,
        evals: &mut Steps<L>,
        at: Counts,
        inside: Counts,
        name: Name,
        items: &Items,
        body: &Block,
    ) -> Result<Flow, Stop>
        requires ready { IsReady self.now progress.old fuel.old }
        requires small { at.statements + 1 < 2 ^ 32 }
        requires stands { BlockStands self.now.counts.now inside (view_block body.now) }
        ensures { Goes 0 self.now (λ here. for_means here at inside name (view_block body.now) (values_in items.now)) progress.old progress.new (moment (D.ways decider.old) (D.wanted decider.old) fuel.old evals.old) (moment (D.ways decider.new) (D.wanted decider.new) fuel.new evals.new) (D.has_lacked decider.new) result }
    {
        let count = items.len();
        for place in 0..count {
            let Some(item) = item_at(self.alloc, items, place)? else {
                return Ok(Flow::Next);
            };
            self.begin(progress, fuel)?;
            let flow = self.turn(progress, decider, fuel, evals, at, inside, name, item, body)?;
            match flow {
                Flow::Next => {}
                Flow::Broke => return Ok(Flow::Next),
                other => return Ok(other),
            }
        }
        Ok(Flow::Next)
    }

    /// A turn whose variable holds an item at first, and ends with the turn.
    #[cycle(evaluation)]
    fn turn<D: Decides, L: Ledger>(
        &self,
        progress: &mut Progress,
        decider: &mut D,
        fuel: &mut Fuel,
        evals: &mut Steps<L>,
        at: Counts,
        inside: Counts,
        name: Name,
        item: Value,
        body: &Block,
    ) -> Result<Flow, Stop>
        requires ready { IsReady self.now progress.old fuel.old }
        requires small { at.statements + 1 < 2 ^ 32 }
        requires stands { BlockStands self.now.counts.now inside (view_block body.now) }
        ensures { Goes 0 self.now (λ here. turn_means here at inside name (view_block body.now) item) progress.old progress.new (moment (D.ways decider.old) (D.wanted decider.old) fuel.old evals.old) (moment (D.ways decider.new) (D.wanted decider.new) fuel.new evals.new) (D.has_lacked decider.new) result }
    {
        let before = progress.variables.len();
        if !progress.variables.declare(name, item)? {
            return Ok(self.fault(at));
        }
        let flow = self.statements(
            progress,
            decider,
            fuel,
            evals,
            in_block(inside),
            body.stmts.as_slice(),
        )?;
        progress.variables.leave(before);
        Ok(flow)
    }
}
