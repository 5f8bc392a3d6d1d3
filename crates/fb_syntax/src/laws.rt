//! Laws of the grammar. Each is a function that does nothing: what it ensures is the law.
ghost use Rattle.std.specs.Prelude.{◌≡◌, ◌↔◌, ℕ, ◌+◌, ◌≤◌, false, List, length, Ok, Err};
ghost use Rattle.fb_syntax.specs.Limits.{longest_source, deepest};
ghost use Rattle.fb_syntax.specs.Trees.{Expression, ServicesTree, TestTree};
ghost use Rattle.fb_syntax.specs.Input.{Input, comes};
ghost use Rattle.fb_syntax.specs.ExpressionReading.{expr, deeper_at};
ghost use Rattle.fb_syntax.specs.ExpressionGrammar.{SpellsExpression, goes_on_expr};
ghost use Rattle.fb_syntax.specs.FileGrammar.{HasServices, HasTest, SpellsServices, SpellsTest};
ghost use Rattle.fb_syntax.specs.declared.parse_error.ParseWhy.{ParseWhy};
ghost use Rattle.fb_syntax.specs.FileReading.{services_of, test_of};
ghost use Rattle.fb_syntax.specs.Refusals.{IsRefused};
ghost use Rattle.fb_syntax.specs.Kept.{KeepsServicesLimits, KeepsTestLimits};
ghost use Rattle.fb_syntax.specs.NestedConjunctions.{nested_conjunctions, returning};

/// What is read as an expression is spelled so. What is spelled so is read, where the next token can't go on with it. Of
/// `(`, `[`, `not` and unary `-` at most `depth` are open at once.
pub fn expressions_are_exact()
    ensures sound { (depth : ℕ) (input rest : Input) (e : Expression) →
        expr (deeper_at depth) input ≡ Ok (e, rest) → SpellsExpression depth input rest e }
    ensures complete { (depth : ℕ) (start rest : Input) (e : Expression) →
        SpellsExpression depth start rest e → comes goes_on_expr rest ≡ false →
        expr (deeper_at depth) start ≡ Ok (e, rest) }
{}

/// The trees of a text of at most 1 MiB keep the language's limits, and their names, numbers and texts are such.
pub fn parsed_trees_keep_the_limits()
    ensures services { (bytes : List ℕ) (tree : ServicesTree) →
        length bytes ≤ longest_source → HasServices bytes tree → KeepsServicesLimits tree }
    ensures test { (bytes : List ℕ) (tree : TestTree) →
        length bytes ≤ longest_source → HasTest bytes tree → KeepsTestLimits tree }
{}

/// Parentheses that the grammar needs are counted: of conjunctions within each other, each but the outermost needs them,
/// so that one more of them keeps the limits than tokens may be open at once.
pub fn nested_conjunctions_meet_the_limit()
    ensures { (count : ℕ) →
        KeepsServicesLimits (returning (nested_conjunctions count)) ↔ (count ≤ deepest + 1) }
{}

/// A text is refused by the lexer, or by the parser at its end, or at a token with which the tokens before it begin no text
/// that has a tree.
pub fn refusals_are_needed()
    ensures services { (bytes : List ℕ) (why : ParseWhy) → services_of bytes ≡ Err why → IsRefused SpellsServices bytes why }
    ensures test { (bytes : List ℕ) (why : ParseWhy) → test_of bytes ≡ Err why → IsRefused SpellsTest bytes why }
{}
