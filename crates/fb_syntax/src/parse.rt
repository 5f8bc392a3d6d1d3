//! The parsers of whole texts.
ghost use Rattle.std.specs.Prelude.{◌≡◌, ℕ, ◌≤◌, ◌↔◌, List, Ok, length, IfOk};
ghost use Rattle.fb_syntax.specs.Limits.{longest_source};
ghost use Rattle.fb_syntax.specs.Trees.{ServicesTree, TestTree};
ghost use Rattle.fb_syntax.specs.Views.{view_services, view_test};
ghost use Rattle.fb_syntax.specs.FileReading.{GivesTree, services_of, test_of};
ghost use Rattle.fb_syntax.specs.FileGrammar.{IsReadAs, HasServices, HasTest};
ghost use Rattle.fb_syntax.specs.Kept.{KeepsServicesLimits, KeepsTestLimits};

use crate::lexer::lex;
use crate::parse_error::ParseError;
use crate::parser::Parser;
use crate::services::Services;
use crate::test::Test;
use std::alloc::Global;

/// Reads the services of a text of at most 1 MiB.
///
/// A refusal tells the first fault: bytes that are no text, then the first byte at which no token, blank or comment
/// begins, then the first token that the grammar doesn't want or that goes beyond a limit. The tree keeps no places.
#[tactic(auto, using(crate::proofs::FileExact::services_read, crate::proofs::FileExact::services_limited))]
pub fn parse_services(alloc: Global, bytes: &[u8]) -> Result<Services, ParseError>
    requires { length bytes.now ≤ longest_source }
    ensures read { GivesTree view_services result (services_of bytes.now) }
    ensures spelled { IsReadAs view_services HasServices bytes.now result }
    ensures limits { IfOk result (λ services. KeepsServicesLimits (view_services services)) }
{
    read_services(alloc, bytes)
}

/// Reads the test of a text of at most 1 MiB, with the same refusals.
#[tactic(auto, using(crate::proofs::FileExact::test_read, crate::proofs::FileExact::test_limited))]
pub fn parse_test(alloc: Global, bytes: &[u8]) -> Result<Test, ParseError>
    requires { length bytes.now ≤ longest_source }
    ensures read { GivesTree view_test result (test_of bytes.now) }
    ensures spelled { IsReadAs view_test HasTest bytes.now result }
    ensures limits { IfOk result (λ test. KeepsTestLimits (view_test test)) }
{
    read_test(alloc, bytes)
}

/// A text has exactly the tree that is read from it, and one that is refused has none.
pub fn services_are_exact()
    ensures { (bytes : List ℕ) (tree : ServicesTree) → (services_of bytes ≡ Ok tree) ↔ HasServices bytes tree }
{}

/// The same of tests.
pub fn tests_are_exact()
    ensures { (bytes : List ℕ) (tree : TestTree) → (test_of bytes ≡ Ok tree) ↔ HasTest bytes tree }
{}

#[tactic(auto, unfolding(crate::specs::FileReading::services_of))]
fn read_services(alloc: Global, bytes: &[u8]) -> Result<Services, ParseError>
    requires { length bytes.now ≤ longest_source }
    ensures { GivesTree view_services result (services_of bytes.now) }
{
    let tokens = lex(alloc, bytes)?;
    let mut parser = Parser::new(tokens.as_slice(), bytes.len() as u64);
    parser.services(alloc)
}

#[tactic(auto, unfolding(crate::specs::FileReading::test_of))]
fn read_test(alloc: Global, bytes: &[u8]) -> Result<Test, ParseError>
    requires { length bytes.now ≤ longest_source }
    ensures { GivesTree view_test result (test_of bytes.now) }
{
    let tokens = lex(alloc, bytes)?;
    let mut parser = Parser::new(tokens.as_slice(), bytes.len() as u64);
    parser.test(alloc)
}
