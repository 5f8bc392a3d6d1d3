//! Statements in canonical text.
ghost use Rattle.std.specs.Prelude.{◌≡◌, ◌++◌, OnOk, map};
ghost use Rattle.fb_syntax.specs.Views.{view_expr, view_stmt, view_handler, expressions_of, handlers_of};
ghost use Rattle.std.specs.List.{flat_map};
ghost use Rattle.fb_print.specs.Items.{items_text};
ghost use Rattle.fb_print.specs.Statements.{assignment, call_items, statement_items, after_items};
ghost use Rattle.fb_print.specs.Printed.{expr_text, line_text, block_text, else_text, handler_text};

use crate::printer::Printer;
use fb_base::{Code, Name};
use fb_syntax::{Block, Expr, Handler, Level, Stmt};
use std::alloc::AllocError;

impl Printer {
    /// Statements between braces. The opening one follows what stands on a line of this depth.
    #[cycle(stmt)]
    pub fn block(&mut self, depth: usize, block: &Block) -> Result<(), AllocError>
        ensures { OnOk result (self.new ≡ self.old ++ block_text depth block.now) }
    {
        let Some(inner) = depth.checked_add(1) else {
            return Err(AllocError);
        };
        self.put(" {")?;
        self.lines(inner, &block.stmts)?;
        self.line(depth)?;
        self.put("}")
    }

    /// Statements, each on a line of its own.
    #[cycle(stmt)]
    fn lines(&mut self, depth: usize, stmts: &[Stmt]) -> Result<(), AllocError>
        ensures { OnOk result (self.new ≡ self.old ++ flat_map (line_text depth) stmts.now) }
    {
        for stmt in stmts {
            self.line(depth)?;
            self.stmt(depth, stmt)?;
        }
        Ok(())
    }

    /// What follows the arguments of a call.
    #[cycle(stmt)]
    fn after(&mut self, depth: usize, handlers: &[Handler]) -> Result<(), AllocError>
        ensures { OnOk result (self.new ≡ self.old ++ items_text (after_items depth (handlers_of (map view_handler handlers.now)))) }
    {
        if handlers.is_empty() {
            return self.put(";");
        }
        self.handlers(depth, handlers)
    }

    /// Handlers, each on the line of the brace before it.
    #[cycle(stmt)]
    fn handlers(&mut self, depth: usize, handlers: &[Handler]) -> Result<(), AllocError>
        ensures { OnOk result (self.new ≡ self.old ++ flat_map (handler_text depth) handlers.now) }
    {
        for handler in handlers {
            self.handler(depth, handler)?;
        }
        Ok(())
    }

    #[cycle(stmt)]
    fn handler(&mut self, depth: usize, handler: &Handler) -> Result<(), AllocError>
        ensures { OnOk result (self.new ≡ self.old ++ handler_text depth handler.now) }
    {
        self.put(" on ")?;
        self.handled(&handler.code)?;
        self.block(depth, &handler.body)
    }

    /// What is done where a condition doesn't hold, if anything is.
    #[cycle(stmt)]
    fn otherwise(&mut self, depth: usize, no: &Option<Block>) -> Result<(), AllocError>
        ensures { OnOk result (self.new ≡ self.old ++ else_text depth no.now) }
    {
        match no {
            Some(no) => {
                self.put(" else")?;
                self.block(depth, no)
            }
            None => Ok(()),
        }
    }

    #[cycle(stmt)]
    #[tactic(auto, unfolding(fb_syntax::specs::Views::view_stmt, crate::specs::Statements::statement_items))]
    fn stmt(&mut self, depth: usize, stmt: &Stmt) -> Result<(), AllocError>
        ensures { OnOk result (self.new ≡ self.old ++ items_text (statement_items depth (view_stmt stmt.now))) }
    {
        match stmt {
            Stmt::Let { name, value } => {
                self.put("let ")?;
                self.assignment(name, value)
            }
            Stmt::Assign { name, value } => self.assignment(name, value),
            Stmt::If { cond, yes, no } => {
                self.headed("if ", cond)?;
                self.block(depth, yes)?;
                self.otherwise(depth, no)
            }
            Stmt::Repeat { times, body } => {
                self.repeat_head(*times)?;
                self.block(depth, body)
            }
            Stmt::For { name, over, body } => {
                self.for_head(name, over)?;
                self.block(depth, body)
            }
            Stmt::Break => self.put("break;"),
            Stmt::Return { value } => {
                self.headed("return ", value)?;
                self.put(";")
            }
            Stmt::Fail { code } => {
                self.put("fail ")?;
                self.code(code)?;
                self.put(";")
            }
            Stmt::Call {
                name,
                service,
                method,
                args,
                handlers,
            } => {
                self.call(name, service, method, args)?;
                self.after(depth, handlers)
            }
            Stmt::Assert { cond } => {
                self.headed("assert ", cond)?;
                self.put(";")
            }
        }
    }
}

impl Printer {
    ghost use Rattle.fb_print.specs.Items.{spelling};
    ghost use Rattle.fb_print.specs.Statements.{repeat_head, for_head, assigned, callee_items, code_item};

    /// A word and an expression.
    fn headed(&mut self, word: &str, expr: &Expr) -> Result<(), AllocError>
        ensures { OnOk result (self.new ≡ self.old ++ (word.now ++ expr_text Level.Expr expr.now)) }
    {
        self.put(word)?;
        self.expr(Level::Expr, expr)
    }

    fn repeat_head(&mut self, times: u32) -> Result<(), AllocError>
        ensures { OnOk result (self.new ≡ self.old ++ items_text (repeat_head times)) }
    {
        self.put("repeat ")?;
        self.number(i64::from(times))
    }

    fn for_head(&mut self, name: &Name, over: &Expr) -> Result<(), AllocError>
        ensures { OnOk result (self.new ≡ self.old ++ items_text (for_head name.now (view_expr over.now))) }
    {
        self.put("for ")?;
        self.name(name)?;
        self.headed(" in ", over)
    }

    /// The variable that takes a value.
    fn target(&mut self, name: &Name) -> Result<(), AllocError>
        ensures { OnOk result (self.new ≡ self.old ++ (name.now ++ items_text assigned)) }
    {
        self.name(name)?;
        self.put(" = ")
    }

    fn assignment(&mut self, name: &Name, value: &Expr) -> Result<(), AllocError>
        ensures { OnOk result (self.new ≡ self.old ++ items_text (assignment name.now (view_expr value.now))) }
    {
        self.target(name)?;
        self.expr(Level::Expr, value)?;
        self.put(";")
    }

    /// A method of a service.
    fn callee(&mut self, service: &Name, method: &Name) -> Result<(), AllocError>
        ensures { OnOk result (self.new ≡ self.old ++ items_text (callee_items service.now method.now)) }
    {
        self.name(service)?;
        self.put(".")?;
        self.name(method)
    }

    /// A call up to the end of its arguments.
    fn call(
        &mut self,
        name: &Name,
        service: &Name,
        method: &Name,
        args: &[Expr],
    ) -> Result<(), AllocError>
        ensures { OnOk result (self.new ≡ self.old ++ items_text (call_items name.now service.now method.now (expressions_of (map view_expr args.now)))) }
    {
        self.put("call ")?;
        self.target(name)?;
        self.callee(service, method)?;
        self.listed("(", args, ")")
    }

    /// Which errors a handler is for.
    fn handled(&mut self, code: &Option<Code>) -> Result<(), AllocError>
        ensures { OnOk result (self.new ≡ self.old ++ spelling (code_item code.now)) }
    {
        match code {
            Some(code) => self.code(code),
            None => self.put("any"),
        }
    }
}
