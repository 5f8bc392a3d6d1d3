//! What holds of ranks and cycles. These calls do nothing: their contracts are the laws.
ghost use Rattle.std.specs.Prelude.{◌≡◌, ◌↔◌, ℕ, ◌<◌, true, length};
ghost use Rattle.fb_graph.specs.Graph.{Graph, Calls};
ghost use Rattle.fb_graph.specs.Chain.{HasChain, IsRank, has_chain};
ghost use Rattle.fb_graph.specs.Cycle.{IsOnNoCycle, TellsFirstCycle};
ghost use Rattle.fb_graph.specs.FirstCycle.{first_cycle};

/// A method's rank is above those of the methods that it calls.
pub fn ranks_fall()
    ensures { (graph : Graph) (m : ℕ) (n : ℕ) (k : ℕ) (j : ℕ) →
        IsRank graph m k → Calls graph m n → IsRank graph n j → j < k }
{}

/// Where no method has a chain of so many calls below it, no method is on a cycle.
pub fn chains_end()
    ensures { (graph : Graph) (limit : ℕ) → ((m : ℕ) → m < length graph → ¬ (HasChain graph m limit)) →
        (m : ℕ) → IsOnNoCycle graph m }
{}

/// The test of chains finds those that are there.
pub fn chains_are_tested()
    ensures { (graph : Graph) (m : ℕ) (k : ℕ) → (has_chain graph m k ≡ true) ↔ HasChain graph m k }
{}

/// The first cycle is that of the first method on a cycle, and its first shortest one; without one no method is on a
/// cycle.
pub fn first_cycle_is_first()
    ensures { (graph : Graph) → TellsFirstCycle graph (first_cycle graph) }
{}
