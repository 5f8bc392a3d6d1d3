//! Generated programs.
//!
//! `generate` gives services, a test and a fault file as texts that a number and a size decide. It stands on fb_syntax for
//! trees and on fb_print for their canonical text.
#![tactic(auto)]

mod draws;
mod expressions;
mod faults;
mod generating;
mod names;
mod service;
mod test;

pub use generating::{GenError, Generated, generate};
