//! A graph of calls.
ghost use Rattle.std.specs.Prelude.{◌≡◌, length};
ghost use Rattle.fb_graph.specs.Graph.{IsNumbered, callees};

use fb_base::List;
use std::marker::Model;

/// For each method, by its number from 0, the methods that it calls, in the order of its call sites.
///
/// A number beyond the last method's is one that calls nothing.
#[derive(Drop)]
pub struct CallGraph {
    callees: List<List<u32>>,
}

impl Model for CallGraph {
    ghost use Rattle.fb_graph.specs.Graph.{Graph, IsNumbered};

    ghost Value = { Graph };

    ghost view = { λ g. g.callees };

    ghost invariant = { λ g. IsNumbered g.callees };
}

impl CallGraph {
    /// The graph with these callees, a list for each method.
    pub fn of(callees: List<List<u32>>) -> CallGraph
        requires { IsNumbered callees }
        ensures { result ≡ callees }
    {
        CallGraph { callees }
    }

    /// The number of methods.
    pub fn len(&self) -> u32
        ensures { result ≡ length self.now }
    {
        self.callees.len() as u32
    }

    /// What a method calls, in the order of its call sites.
    pub fn callees(&self, method: u32) -> &[u32]
        ensures { result.now ≡ callees self.now method }
    {
        match self.callees.get(method as usize) {
            Some(callees) => callees.as_slice(),
            None => &[],
        }
    }
}
