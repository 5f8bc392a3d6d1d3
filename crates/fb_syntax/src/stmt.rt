use crate::expr::Expr;
use fb_base::{Code, Name};

/// Statements between braces, in their order.
#[cycle(stmt)]
#[derive(Drop)]
pub struct Block {
    pub stmts: Vec<Stmt>,
}

/// A statement.
#[cycle(stmt)]
#[derive(Drop)]
pub enum Stmt {
    /// Declares a variable.
    Let {
        name: Name,
        value: Expr,
    },
    /// Gives a variable another value.
    Assign {
        name: Name,
        value: Expr,
    },
    /// `if cond { .. } else { .. }`
    If {
        cond: Expr,
        yes: Block,
        no: Option<Block>,
    },
    /// Runs a block so many times, at most 1,000.
    Repeat {
        times: u32,
        body: Block,
    },
    /// Runs a block once for each item of a list.
    For {
        name: Name,
        over: Expr,
        body: Block,
    },
    /// Ends the innermost loop.
    Break,
    /// Ends a method with a value.
    Return {
        value: Expr,
    },
    /// Ends a method with an error.
    Fail {
        code: Code,
    },
    /// Calls a service's method, and keeps what it gives in the variable `name`.
    Call {
        name: Name,
        service: Name,
        method: Name,
        args: Vec<Expr>,
        handlers: Vec<Handler>,
    },
    /// What a test claims.
    Assert {
        cond: Expr,
    },
}

/// What is done where a call gives an error.
#[cycle(stmt)]
#[derive(Drop)]
pub struct Handler {
    /// The one error that is meant; none means `any`.
    pub code: Option<Code>,
    pub body: Block,
}
