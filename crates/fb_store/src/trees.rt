//! The decision trees behind a store.
ghost use Rattle.std.specs.Prelude.{◌≡◌, None, List, OnOk, OnErr};
ghost use Rattle.fb_base.specs.declared.method.MethodId.{MethodId};
ghost use Rattle.fb_base.specs.declared.reply.Reply.{Reply};
ghost use Rattle.fb_base.specs.declared.value.Value.{Value};
ghost use Rattle.fb_store.specs.declared.place.Place.{Place};
ghost use Rattle.fb_store.specs.Trees.{root_in, branch_in, AreAlike, AddsRoot, AddsBranch};

use crate::place::Place;
use crate::tables::put;
use fb_base::{List, MethodId, Reply, Value};
use indexmap::IndexMap;
use std::alloc::{AllocError, Global};

/// For each method and arguments a tree, by the numbers of records.
#[derive(Drop)]
pub struct Trees {
    alloc: Global,
    /// For each method, from arguments to the record that came first.
    roots: IndexMap<MethodId, IndexMap<Vec<Value>, usize>>,
    /// For each place, from values that another record than the place's got to the first of these.
    values: IndexMap<Place, IndexMap<Value, usize>>,
    /// The same for errors.
    errors: IndexMap<Place, IndexMap<Vec<u8>, usize>>,
}

impl Trees {
    #[tactic(auto, unfolding(crate::specs::Trees::root_in, crate::specs::Trees::branch_in))]
    pub fn new(alloc: Global) -> Trees
        ensures roots { (method : MethodId) (args : List Value) → root_in result method args ≡ None }
        ensures branches { (place : Place) (reply : Reply) → branch_in result place reply ≡ None }
    {
        Trees {
            alloc,
            roots: IndexMap::new(alloc),
            values: IndexMap::new(alloc),
            errors: IndexMap::new(alloc),
        }
    }

    /// The record at which a tree begins.
    #[tactic(auto, unfolding(crate::specs::Trees::root_in))]
    pub fn root(&self, method: MethodId, args: &[Value]) -> Option<usize>
        ensures { result ≡ root_in self.now method args.now }
    {
        self.roots.get(&method)?.get(args).copied()
    }

    /// The record to which a reply leads that isn't the place's own.
    #[tactic(auto, unfolding(crate::specs::Trees::branch_in))]
    pub fn branch(&self, place: Place, reply: &Reply) -> Option<usize>
        ensures { result ≡ branch_in self.now place reply.now }
    {
        match reply {
            Reply::Ok(value) => self.values.get(&place)?.get(value).copied(),
            Reply::Err(code) => self.errors.get(&place)?.get(code.bytes()).copied(),
        }
    }

    /// Begins a tree at a record.
    #[tactic(auto, unfolding(crate::specs::Trees::root_in, crate::specs::Trees::branch_in))]
    pub fn add_root(
        &mut self,
        method: MethodId,
        args: &List<Value>,
        id: usize,
    ) -> Result<(), AllocError>
        ensures added { OnOk result (AddsRoot self.old self.new method args.now id) }
        ensures err { OnErr result (AreAlike self.old self.new) }
    {
        let key = args.copy(self.alloc)?.into_vec();
        put(self.alloc, &mut self.roots, method, key, id)
    }

    /// Lets a reply lead from a place to a record.
    #[tactic(auto, unfolding(crate::specs::Trees::root_in, crate::specs::Trees::branch_in))]
    pub fn add_branch(&mut self, place: Place, reply: &Reply, id: usize) -> Result<(), AllocError>
        ensures added { OnOk result (AddsBranch self.old self.new place reply.now id) }
        ensures err { OnErr result (AreAlike self.old self.new) }
    {
        match reply {
            Reply::Ok(value) => {
                let key = value.copy(self.alloc)?;
                put(self.alloc, &mut self.values, place, key, id)
            }
            Reply::Err(code) => {
                let key = Vec::from_slice(self.alloc, code.bytes())?;
                put(self.alloc, &mut self.errors, place, key, id)
            }
        }
    }
}
