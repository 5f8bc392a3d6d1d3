//! Laws of the canonical text. Each is a function that does nothing: what it ensures is the law.
ghost use Rattle.std.specs.Prelude.{◌≡◌, ◌↔◌, ℕ, true, List, Ok};
ghost use Rattle.fb_syntax.specs.Trees.{Expression, ServicesTree, TestTree};
ghost use Rattle.fb_syntax.specs.Input.{Input};
ghost use Rattle.fb_syntax.specs.ExpressionGrammar.{SpellsExpression};
ghost use Rattle.fb_syntax.specs.FileReading.{services_of, test_of};
ghost use Rattle.fb_syntax.specs.FileGrammar.{HasServices, HasTest};
ghost use Rattle.fb_syntax.specs.declared.levels.Level.{Level};
ghost use Rattle.fb_syntax.specs.Levels.{in_parentheses};
ghost use Rattle.fb_print.specs.Expressions.{bare_items};
ghost use Rattle.fb_print.specs.Services.{services_text, test_text};
ghost use Rattle.fb_print.specs.Spelled.{tokens_of, Begins, Reads};

use fb_syntax::{services_are_exact, tests_are_exact};

/// An operand stands in parentheses exactly where the grammar wouldn't read it there as that operand without them.
///
/// The expression is one that some tokens spell. At the level that is read in a place, its canonical tokens without
/// parentheses are read as it, or it is printed in parentheses there.
pub fn parentheses_are_needed()
    ensures { (depth : ℕ) (from to : Input) (e : Expression) → SpellsExpression depth from to e →
        (wanted : Level) (start rest : Input) → Begins (tokens_of (bare_items e)) start rest →
        (in_parentheses wanted e ≡ true) ↔ ¬ Reads wanted depth start rest e }
{}

/// The canonical text of a tree that some text has is itself a text of that tree.
pub fn canonical_texts_have_their_trees()
    ensures services { (bytes : List ℕ) (tree : ServicesTree) → HasServices bytes tree → HasServices (services_text tree) tree }
    ensures test { (bytes : List ℕ) (tree : TestTree) → HasTest bytes tree → HasTest (test_text tree) tree }
{}

/// The canonical text of a tree that a parse gives parses to the same tree. So printing that parse again gives that text.
pub fn canonical_texts_are_read_back()
    ensures services { (bytes : List ℕ) (tree : ServicesTree) →
        services_of bytes ≡ Ok tree → services_of (services_text tree) ≡ Ok tree }
    ensures test { (bytes : List ℕ) (tree : TestTree) → test_of bytes ≡ Ok tree → test_of (test_text tree) ≡ Ok tree }
{
    services_are_exact();
    tests_are_exact();
    canonical_texts_have_their_trees();
}
