//! Laws of acceptance. Each is a function that does nothing: what it ensures is the law.
//!
//! What they ask of sources is what [`Program`](crate::Program) and [`CheckedTest`](crate::CheckedTest) hold.
ghost use Rattle.std.specs.Prelude.{◌≡◌, ◌↔◌, ◌<◌, ◌++◌, ℕ, List, drop, is_some, IsNone, Some, option_map};
ghost use Rattle.fb_base.specs.declared.method.MethodName.{MethodName};
ghost use Rattle.fb_syntax.specs.Trees.{Statement, Statements, ServicesTree, TestTree};
ghost use Rattle.fb_graph.specs.Chain.{IsRank};
ghost use Rattle.fb_graph.specs.Cycle.{IsOnNoCycle};
ghost use Rattle.fb_check.specs.declared.counts.Counts.{Counts};
ghost use Rattle.fb_check.specs.FirstRefusal.{first_refusal, first_refusal_of_test};
ghost use Rattle.fb_check.specs.Accepted.{IsAccepted, IsAcceptedTest};
ghost use Rattle.fb_check.specs.Declarations.{declarations_of, number_in, service_in};
ghost use Rattle.fb_check.specs.Calls.{graph_of};
ghost use Rattle.fb_check.specs.Counts.{statement_counts, block_counts, statement_entries, block_entries, entries_inside, entries_of, StandsAt};
ghost use Rattle.fb_check.specs.Programs.{signature_at, item_numbered, IsMethodAt, site_at, callee_at, test_site_at, test_callee_at};

use fb_graph::{chains_are_tested, chains_end, first_cycle_is_first, ranks_fall};

/// Nothing is refused exactly where the source is accepted: names are unique and known, kinds agree, each method's
/// block ends, each `break` stands in a loop, answers stand only in methods, asserts and questions only in tests, and
/// each method has a rank below 32.
pub fn acceptance_is_exact()
    ensures services { (tree : ServicesTree) → IsNone (first_refusal tree) ↔ IsAccepted tree }
    ensures test { (tree : ServicesTree) (test : TestTree) → IsNone (first_refusal tree) →
        IsNone (first_refusal_of_test tree test) ↔ IsAcceptedTest tree test }
{
    chains_are_tested();
    chains_end();
    first_cycle_is_first();
}

/// Looking up by name and by number agree: a number has a name exactly where the name has the number, of methods and of
/// services by their positions. The tree of a method is one of its service's, and both have the method's name.
pub fn lookups_join()
    ensures methods { (tree : ServicesTree) → IsNone (first_refusal tree) → (method : ℕ) (name : MethodName) →
        (option_map (λ s. s.name) (signature_at tree method) ≡ Some name)
        ↔ (number_in (declarations_of tree) name.service name.method ≡ Some method) }
    ensures services { (tree : ServicesTree) → IsNone (first_refusal tree) → (position : ℕ) (name : List ℕ) →
        (option_map (λ s. s.name) (item_numbered tree.services position) ≡ Some name)
        ↔ (service_in (declarations_of tree) name ≡ Some position) }
    ensures trees { (tree : ServicesTree) (method position : ℕ) (name : MethodName) →
        option_map (λ s. s.name) (signature_at tree method) ≡ Some name →
        option_map (λ s. s.service) (signature_at tree method) ≡ Some position →
        IsMethodAt tree method position name }
{}

/// Each call site of an accepted body has a callee.
pub fn sites_have_callees()
    ensures services { (tree : ServicesTree) → IsNone (first_refusal tree) → (method site : ℕ) →
        is_some (callee_at tree method site) ≡ is_some (site_at tree method site) }
    ensures test { (tree : ServicesTree) (test : TestTree) → IsNone (first_refusal tree) →
        IsNone (first_refusal_of_test tree test) → (site : ℕ) →
        is_some (test_callee_at tree test site) ≡ is_some (test_site_at test site) }
{}

/// A method's rank is above those of the methods that it calls, so no method of accepted services calls itself through
/// calls.
pub fn ranks_are_above_callees()
    ensures above { (tree : ServicesTree) (method site callee k j : ℕ) → callee_at tree method site ≡ Some callee →
        IsRank (graph_of tree) method k → IsRank (graph_of tree) callee j → j < k }
    ensures no_cycle { (tree : ServicesTree) → IsNone (first_refusal tree) → (method : ℕ) →
        IsOnNoCycle (graph_of tree) method }
{
    chains_are_tested();
    chains_end();
    ranks_fall();
}

/// A list that has the entries of a statement or of a block from a place on has its counts there, then the entries of
/// what is inside it, and behind as many entries as it has statements and blocks what follows it.
pub fn counts_have_places()
    ensures statement { (entries rest : List Counts) (k : ℕ) (s : Statement) → drop k entries ≡ statement_entries s ++ rest →
        StandsAt entries k (statement_counts s) (entries_inside s) rest }
    ensures block { (entries rest : List Counts) (k : ℕ) (block : Statements) → drop k entries ≡ block_entries block ++ rest →
        StandsAt entries k (block_counts block) (entries_of block) rest }
{}
