ghost use Rattle.std.specs.Prelude.{◌≡◌, ◌<◌, IfOk};
ghost use Rattle.fb_syntax.specs.Input.{comes};
ghost use Rattle.fb_syntax.specs.Reading.{Gives, name, open_sign};
ghost use Rattle.fb_syntax.specs.Views.{view_expr, view_items, view_stmt, view_block, view_handler, view_stmt_list, view_handler_list};
ghost use Rattle.fb_syntax.specs.StatementReading.{begins_statement, whole_expr, expr_end, new_value, turns, arguments, handled, let_statement, assign_statement, break_statement, return_statement, fail_statement, assert_statement, block, if_statement, repeat_statement, for_statement, handler, handlers, handlers_from, call_statement, statement, deeper_blocks, statements_at};

use crate::expr::Expr;
use crate::parse_error::ParseError;
use crate::parser::Parser;
use crate::reserved::Reserved;
use crate::sign::Sign;
use crate::stmt::{Block, Handler, Stmt};
use crate::token::What;
use fb_base::Code;
use std::alloc::Global;

/// The most `(`, `[`, `not` and unary `-` that are open at once in an expression.
const DEEPEST_EXPRESSION: u32 = 32;

/// The most arguments of a call.
const MOST_ARGUMENTS: u32 = 16;

/// The most handlers of a call.
const MOST_HANDLERS: u32 = 16;

/// The most turns that a `repeat` says.
const MOST_TURNS: u64 = 1_000;

/// Parts of statements.
impl<'a> Parser<'a> {
    #[tactic(auto, unfolding(crate::specs::StatementReading::whole_expr))]
    fn whole_expr(&mut self, alloc: Global) -> Result<Expr, ParseError>
        ensures { Gives view_expr self.new result (whole_expr self.old) }
    {
        self.expr(alloc, DEEPEST_EXPRESSION)
    }

    /// An expression, and the sign that ends its statement.
    #[tactic(auto, unfolding(crate::specs::StatementReading::expr_end))]
    fn expr_end(&mut self, alloc: Global) -> Result<Expr, ParseError>
        ensures { Gives view_expr self.new result (expr_end self.old) }
    {
        let value = self.whole_expr(alloc)?;
        self.want_sign(Sign::Semicolon)?;
        Ok(value)
    }

    /// `= e ;`
    #[tactic(auto, unfolding(crate::specs::StatementReading::new_value))]
    fn new_value(&mut self, alloc: Global) -> Result<Expr, ParseError>
        ensures { Gives view_expr self.new result (new_value self.old) }
    {
        self.want_sign(Sign::Assign)?;
        self.expr_end(alloc)
    }

    /// As many turns as a literal says.
    #[tactic(auto, unfolding(crate::specs::StatementReading::turns))]
    fn turns(&mut self) -> Result<u32, ParseError>
        ensures { Gives (λ times. times) self.new result (turns self.old) }
    {
        let Some(first) = self.first() else {
            return self.unexpected();
        };
        let Some(times) = first.number() else {
            return self.unexpected();
        };
        if MOST_TURNS < times {
            return self.too_many();
        }
        self.step();
        Ok(times as u32)
    }

    /// `( e, .. )`
    #[tactic(auto, unfolding(crate::specs::StatementReading::arguments))]
    fn arguments(&mut self, alloc: Global) -> Result<Vec<Expr>, ParseError>
        ensures { Gives view_items self.new result (arguments self.old) }
    {
        self.want_sign(Sign::OpenParen)?;
        let args = self.items(alloc, DEEPEST_EXPRESSION, MOST_ARGUMENTS, Sign::CloseParen)?;
        self.want_sign(Sign::CloseParen)?;
        Ok(args)
    }

    fn code(&mut self) -> Result<Code, ParseError>
        ensures { Gives (λ code. code) self.new result (name self.old) }
    {
        let name = self.name()?;
        match Code::read(name.bytes()) {
            Ok(code) => Ok(code),
            // A code is spelled like a name, so this never comes.
            Err(_) => self.unexpected(),
        }
    }

    /// What a handler is for: a code, or none for any.
    #[tactic(auto, unfolding(crate::specs::StatementReading::handled))]
    fn handled(&mut self) -> Result<Option<Code>, ParseError>
        ensures { Gives (λ code. code) self.new result (handled self.old) }
    {
        if self.comes_word(Reserved::Any) {
            self.step();
            return Ok(None);
        }
        let code = self.code()?;
        Ok(Some(code))
    }
}

/// Statements that hold no block.
impl<'a> Parser<'a> {
    #[tactic(auto, unfolding(crate::specs::StatementReading::let_statement, crate::specs::Views::view_stmt))]
    fn let_stmt(&mut self, alloc: Global) -> Result<Stmt, ParseError>
        ensures { Gives view_stmt self.new result (let_statement self.old) }
    {
        self.step();
        let name = self.name()?;
        let value = self.new_value(alloc)?;
        Ok(Stmt::Let { name, value })
    }

    #[tactic(auto, unfolding(crate::specs::StatementReading::assign_statement, crate::specs::Views::view_stmt))]
    fn assign_stmt(&mut self, alloc: Global) -> Result<Stmt, ParseError>
        ensures { Gives view_stmt self.new result (assign_statement self.old) }
    {
        let name = self.name()?;
        let value = self.new_value(alloc)?;
        Ok(Stmt::Assign { name, value })
    }

    #[tactic(auto, unfolding(crate::specs::StatementReading::break_statement, crate::specs::Views::view_stmt))]
    fn break_stmt(&mut self) -> Result<Stmt, ParseError>
        ensures { Gives view_stmt self.new result (break_statement self.old) }
    {
        self.step();
        self.want_sign(Sign::Semicolon)?;
        Ok(Stmt::Break)
    }

    #[tactic(auto, unfolding(crate::specs::StatementReading::return_statement, crate::specs::Views::view_stmt))]
    fn return_stmt(&mut self, alloc: Global) -> Result<Stmt, ParseError>
        ensures { Gives view_stmt self.new result (return_statement self.old) }
    {
        self.step();
        let value = self.expr_end(alloc)?;
        Ok(Stmt::Return { value })
    }

    #[tactic(auto, unfolding(crate::specs::StatementReading::fail_statement, crate::specs::Views::view_stmt))]
    fn fail_stmt(&mut self) -> Result<Stmt, ParseError>
        ensures { Gives view_stmt self.new result (fail_statement self.old) }
    {
        self.step();
        let code = self.code()?;
        self.want_sign(Sign::Semicolon)?;
        Ok(Stmt::Fail { code })
    }

    #[tactic(auto, unfolding(crate::specs::StatementReading::assert_statement, crate::specs::Views::view_stmt))]
    fn assert_stmt(&mut self, alloc: Global) -> Result<Stmt, ParseError>
        ensures { Gives view_stmt self.new result (assert_statement self.old) }
    {
        self.step();
        let cond = self.expr_end(alloc)?;
        Ok(Stmt::Assert { cond })
    }

    /// Goes behind a block's opening brace, and gives how many more blocks may then be opened.
    #[tactic(auto, unfolding(crate::specs::Reading::open_sign, crate::specs::Reading::open_level, crate::specs::StatementReading::deeper_blocks))]
    fn open_block(&mut self, depth: u32) -> Result<u32, ParseError>
        ensures opened { Gives statements_at self.new result (open_sign Sign.OpenBrace (deeper_blocks depth) self.old) }
        ensures less { IfOk result (λ inner. inner < depth) }
    {
        if !self.comes_sign(Sign::OpenBrace) {
            return self.unexpected();
        }
        if depth == 0 {
            return self.too_deep();
        }
        self.step();
        Ok(depth - 1)
    }

    /// Whether a statement comes.
    #[tactic(auto, unfolding(crate::specs::Input::comes))]
    fn comes_stmt(&self) -> bool
        ensures { result ≡ comes begins_statement self.now }
    {
        match self.first() {
            Some(first) => first.begins_stmt(),
            None => false,
        }
    }
}

/// Statements that hold blocks. So many blocks may still be opened as `depth` says.
impl<'a> Parser<'a> {
    #[cycle(stmt)]
    #[tactic(auto, unfolding(crate::specs::StatementReading::block))]
    pub fn block(&mut self, alloc: Global, depth: u32) -> Result<Block, ParseError>
        ensures { Gives view_block self.new result (block (deeper_blocks depth) self.old) }
    {
        let inner = self.open_block(depth)?;
        let stmts = self.stmts(alloc, inner)?;
        self.want_sign(Sign::CloseBrace)?;
        Ok(Block { stmts })
    }

    /// Statements, as long as one comes.
    #[cycle(stmt)]
    fn stmts(&mut self, alloc: Global, depth: u32) -> Result<Vec<Stmt>, ParseError>
        ensures { Gives view_stmt_list self.new result (statements_at depth self.old) }
    {
        let mut stmts = Vec::new(alloc);
        'statements: while self.comes_stmt() {
            let stmt = self.stmt(alloc, depth)?;
            stmts.push(stmt)?;
        }
        Ok(stmts)
    }

    #[cycle(stmt)]
    #[tactic(auto, unfolding(crate::specs::StatementReading::statement, crate::specs::StatementReading::statement_by))]
    fn stmt(&mut self, alloc: Global, depth: u32) -> Result<Stmt, ParseError>
        ensures { Gives view_stmt self.new result (statement (deeper_blocks depth) self.old) }
    {
        let Some(What::Word(word)) = self.first() else {
            return self.unexpected();
        };
        match Reserved::of(word.bytes()) {
            None => self.assign_stmt(alloc),
            Some(Reserved::Let) => self.let_stmt(alloc),
            Some(Reserved::If) => self.if_stmt(alloc, depth),
            Some(Reserved::Repeat) => self.repeat_stmt(alloc, depth),
            Some(Reserved::For) => self.for_stmt(alloc, depth),
            Some(Reserved::Break) => self.break_stmt(),
            Some(Reserved::Return) => self.return_stmt(alloc),
            Some(Reserved::Fail) => self.fail_stmt(),
            Some(Reserved::Call) => self.call_stmt(alloc, depth),
            Some(Reserved::Assert) => self.assert_stmt(alloc),
            Some(_) => self.unexpected(),
        }
    }

    #[cycle(stmt)]
    #[tactic(auto, using(crate::specs::ViewEquations::view_if_alone, crate::specs::ViewEquations::view_if_else), unfolding(crate::specs::StatementReading::if_statement))]
    fn if_stmt(&mut self, alloc: Global, depth: u32) -> Result<Stmt, ParseError>
        ensures { Gives view_stmt self.new result (if_statement (deeper_blocks depth) self.old) }
    {
        self.step();
        let cond = self.whole_expr(alloc)?;
        let yes = self.block(alloc, depth)?;
        if !self.comes_word(Reserved::Else) {
            return Ok(Stmt::If {
                cond,
                yes,
                no: None,
            });
        }
        self.step();
        let no = self.block(alloc, depth)?;
        Ok(Stmt::If {
            cond,
            yes,
            no: Some(no),
        })
    }

    #[cycle(stmt)]
    #[tactic(auto, using(crate::specs::ViewEquations::view_repeat), unfolding(crate::specs::StatementReading::repeat_statement))]
    fn repeat_stmt(&mut self, alloc: Global, depth: u32) -> Result<Stmt, ParseError>
        ensures { Gives view_stmt self.new result (repeat_statement (deeper_blocks depth) self.old) }
    {
        self.step();
        let times = self.turns()?;
        let body = self.block(alloc, depth)?;
        Ok(Stmt::Repeat { times, body })
    }

    #[cycle(stmt)]
    #[tactic(auto, using(crate::specs::ViewEquations::view_for), unfolding(crate::specs::StatementReading::for_statement))]
    fn for_stmt(&mut self, alloc: Global, depth: u32) -> Result<Stmt, ParseError>
        ensures { Gives view_stmt self.new result (for_statement (deeper_blocks depth) self.old) }
    {
        self.step();
        let name = self.name()?;
        self.want_word(Reserved::In)?;
        let over = self.whole_expr(alloc)?;
        let body = self.block(alloc, depth)?;
        Ok(Stmt::For { name, over, body })
    }

    #[cycle(stmt)]
    #[tactic(auto, using(crate::specs::ViewEquations::view_call), unfolding(crate::specs::StatementReading::call_statement))]
    fn call_stmt(&mut self, alloc: Global, depth: u32) -> Result<Stmt, ParseError>
        ensures { Gives view_stmt self.new result (call_statement (deeper_blocks depth) self.old) }
    {
        self.begin_call()?;
        let name = self.name()?;
        self.want_sign(Sign::Assign)?;
        let service = self.name()?;
        self.want_sign(Sign::Dot)?;
        let method = self.name()?;
        let args = self.arguments(alloc)?;
        let handlers = self.handlers(alloc, depth)?;
        Ok(Stmt::Call {
            name,
            service,
            method,
            args,
            handlers,
        })
    }

    /// What follows a call's arguments: handlers, or the sign that ends the statement.
    #[cycle(stmt)]
    #[tactic(auto, unfolding(crate::specs::StatementReading::handlers))]
    fn handlers(&mut self, alloc: Global, depth: u32) -> Result<Vec<Handler>, ParseError>
        ensures { Gives view_handler_list self.new result (handlers (deeper_blocks depth) self.old) }
    {
        if self.comes_sign(Sign::Semicolon) {
            self.step();
            return Ok(Vec::new(alloc));
        }
        if !self.comes_word(Reserved::On) {
            return self.unexpected();
        }
        self.handlers_from(alloc, depth, MOST_HANDLERS)
    }

    /// Handlers, as long as one comes: so many at most.
    #[cycle(stmt)]
    #[tactic(auto, unfolding(crate::specs::Reading::repeated))]
    fn handlers_from(
        &mut self,
        alloc: Global,
        depth: u32,
        mut room: u32,
    ) -> Result<Vec<Handler>, ParseError>
        ensures { Gives view_handler_list self.new result (handlers_from (deeper_blocks depth) room self.old) }
    {
        let mut handlers = Vec::new(alloc);
        'handlers: while self.comes_word(Reserved::On) {
            if room == 0 {
                return self.too_many();
            }
            room -= 1;
            let handler = self.handler(alloc, depth)?;
            handlers.push(handler)?;
        }
        Ok(handlers)
    }

    #[cycle(stmt)]
    #[tactic(auto, unfolding(crate::specs::StatementReading::handler))]
    fn handler(&mut self, alloc: Global, depth: u32) -> Result<Handler, ParseError>
        ensures { Gives view_handler self.new result (handler (deeper_blocks depth) self.old) }
    {
        self.step();
        let code = self.handled()?;
        let body = self.block(alloc, depth)?;
        Ok(Handler { code, body })
    }
}
