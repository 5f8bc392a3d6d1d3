//! The language as text: tokens, plain trees and their parsers.
//!
//! `parse_services` and `parse_test` give the tree of a text exactly where the grammar says that the text has it, and
//! else the first refusal and its place. The trees are `Services` and `Test`; contracts speak of them by their plain
//! trees. The crate stands on `fb_base` alone.
#![tactic(auto)]

mod expr;
mod expr_parser;
mod file_parser;
mod front;
mod laws;
mod levels;
mod lexer;
mod literal;
mod operators;
mod parse;
mod parse_error;
mod parser;
mod reserved;
mod services;
mod sign;
mod stmt;
mod stmt_parser;
mod test;
mod token;
mod token_kind;

pub use expr::{Expr, Link};
pub use laws::{
    expressions_are_exact, nested_conjunctions_meet_the_limit, parsed_trees_keep_the_limits,
    refusals_are_needed,
};
pub use levels::Level;
pub use lexer::{lex, lexing_is_exact, literals_are_text};
pub use parse::{parse_services, parse_test, services_are_exact, tests_are_exact};
pub use parse_error::{ParseError, ParseWhy};
pub use services::{Method, Param, Service, Services};
pub use sign::Sign;
pub use stmt::{Block, Handler, Stmt};
pub use test::Test;
pub use token::{Token, What};
