//! Which extensions have a line.
ghost use Rattle.std.specs.Prelude.{◌≡◌, [], OnOk};
ghost use Rattle.fb_book.specs.Children.{first_missing, is_told, with_child};

use crate::child::Child;
use fb_base::Reply;
use indexmap::IndexSet;
use std::alloc::{AllocError, Global};
use std::marker::Model;

/// The extensions that have a line, found by a hash.
#[derive(Drop)]
pub struct Children {
    known: IndexSet<Child>,
}

impl Model for Children {
    ghost use Rattle.std.specs.Prelude.{List};
    ghost use Rattle.fb_book.specs.declared.child.Child.{Child as ChildOf};

    ghost Value = { List ChildOf };

    ghost view = { λ c. c.known.keys };
}

impl Children {
    pub fn new(alloc: Global) -> Children
        ensures { result ≡ [] }
    {
        Children {
            known: IndexSet::new(alloc),
        }
    }

    pub fn has(&self, child: Child) -> bool
        ensures { result ≡ is_told self.now child }
    {
        self.known.contains(&child)
    }

    pub fn add(&mut self, child: Child) -> Result<(), AllocError>
        ensures { OnOk result (self.new ≡ with_child self.old child) }
    {
        self.known.insert(child)?;
        Ok(())
    }

    /// The first extension at a call, by its choices in their order, that has no line.
    pub fn first_missing(&self, parent: u64, call: usize, choices: &[Reply]) -> Option<Child>
        ensures { result ≡ first_missing self.now parent call 0 choices.now }
    {
        let mut choice = 0;
        let mut left = choices;
        while let [_, rest @ ..] = left {
            let child = Child {
                parent,
                call,
                choice,
            };
            if !self.has(child) {
                return Some(child);
            }
            choice += 1;
            left = rest;
        }
        None
    }
}
