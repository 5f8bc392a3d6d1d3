//! The items of a list value.
ghost use Rattle.std.specs.Prelude.{◌≡◌, ◌<◌, ◌≤◌, IfOk, OnOk};
ghost use Rattle.fb_base.specs.Values.{has_list_kind, weight_of_items, length_of_items, AreProper};
ghost use Rattle.fb_base.specs.Weight.{heaviest};

use crate::kind::Kind;
use crate::text::Text;
use crate::weighed::Weighed;
use std::alloc::{AllocError, Global};

/// The items of a list value. There is one empty list, which has each list kind.
#[derive(Drop)]
pub enum Items {
    Empty,
    Ints(Weighed<i64>),
    Bools(Weighed<bool>),
    Texts(Weighed<Text>),
}

impl Items {
    /// What holds of all items that a program has.
    pub fn proper(&self)
        ensures { AreProper self.now }
    {
        match self {
            Items::Empty => {}
            Items::Ints(list) => list.proper(),
            Items::Bools(list) => list.proper(),
            Items::Texts(list) => list.proper(),
        }
    }

    /// Whether the list of these items has that kind.
    pub fn has_kind(&self, kind: Kind) -> bool
        ensures { result ≡ has_list_kind self.now kind }
    {
        match (self, kind) {
            (Items::Empty, Kind::Ints | Kind::Bools | Kind::Texts)
            | (Items::Ints(_), Kind::Ints)
            | (Items::Bools(_), Kind::Bools)
            | (Items::Texts(_), Kind::Texts) => true,
            _ => false,
        }
    }

    /// The weight of the list of these items.
    pub fn weight(&self) -> u64
        ensures value { result ≡ weight_of_items self.now }
        ensures light { result ≤ heaviest }
    {
        match self {
            Items::Empty => 1,
            Items::Ints(list) => list.weight(),
            Items::Bools(list) => list.weight(),
            Items::Texts(list) => list.weight(),
        }
    }

    /// The number of items.
    pub fn len(&self) -> usize
        ensures value { result ≡ length_of_items self.now }
        ensures short { result < heaviest }
    {
        match self {
            Items::Empty => 0,
            Items::Ints(list) => list.len(),
            Items::Bools(list) => list.len(),
            Items::Texts(list) => list.len(),
        }
    }

    /// The same items, in memory of their own.
    pub fn copy(&self, alloc: Global) -> Result<Items, AllocError>
        ensures { IfOk result (λ made. made ≡ self.now) }
    {
        match self {
            Items::Empty => Ok(Items::Empty),
            Items::Ints(list) => Ok(Items::Ints(list.copy(alloc)?)),
            Items::Bools(list) => Ok(Items::Bools(list.copy(alloc)?)),
            Items::Texts(list) => Ok(Items::Texts(list.copy(alloc)?)),
        }
    }
}
