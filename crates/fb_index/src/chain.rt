//! A list that grows at its end and shares what stands before.
ghost use Rattle.std.specs.Prelude.{◌≡◌, ℕ, List, [], ◌∷◌, ◌++◌, ◌<◌, ◌↔◌, length, take, map, IfOk, IsTrue, MatchOption, string_bytes};
ghost use Rattle.std.specs.List.{join_with_byte};
ghost use Rattle.std.specs.Cmp.Lexicographic.{slice_cmp};

use crate::spelling::{Spelled, joined};
use std::alloc::{AllocError, Global};
use std::cmp::Ordering;
use std::marker::Model;
use std::rc::Rc;

/// What the lists of this crate are made of.
pub trait Item {
    /// Whether two items are the same, as contracts see them.
    fn same(&self, other: &Self) -> bool
        ensures { IsTrue result ↔ (self.now ≡ other.now) };
}

/// A list that is shared by its owners. Adding at its end and one more owner cost the same at any length.
#[cycle(chain)]
pub struct Chain<T> {
    last: Option<Rc<Node<T>>>,
}

#[cycle(chain)]
#[derive(Drop)]
struct Node<T> {
    len: u64,
    before: Chain<T>,
    item: T,
}

impl<T> Model for Chain<T> {
    ghost use Rattle.std.specs.Prelude.{List, length};
    ghost use Rattle.std.specs.Coded.{coded_list};

    ghost Value = { List T };

    ghost coded = { coded_list T.code };

    ghost use Rattle.fb_index.specs.Chain.{items_of, IsCounted};

    ghost view = { λ c. items_of c.last };

    ghost invariant = { λ c. IsCounted c.last };

    ghost size = { length };

    ghost use Rattle.std.proofs.Common.{arith, length-append};

    ghost size_decreases = { λ a h. Prim.grind (arith, length-append) };
}

impl<T: Drop> Drop for Chain<T> {
    // a loop, since a long list would need a deep recursion
    fn drop(mut self) {
        loop {
            match self {
                Chain { last: None } => return,
                Chain { last: Some(node) } => match Rc::into_inner(node) {
                    None => return,
                    Some(node) => {
                        drop(node.item);
                        self = node.before;
                    }
                },
            }
        }
    }
}

impl<T: Drop> Chain<T> {
    pub fn new() -> Chain<T>
        ensures { result ≡ [] }
    {
        Chain { last: None }
    }

    pub fn len(&self) -> u64
        ensures { result ≡ length self.now }
    {
        match &self.last {
            None => 0,
            Some(node) => node.len,
        }
    }

    /// One more owner.
    pub fn copy(&self) -> Result<Chain<T>, AllocError>
        ensures { IfOk result (λ copy. copy ≡ self.now) }
    {
        match &self.last {
            None => Ok(Chain { last: None }),
            Some(node) => Ok(Chain {
                last: Some(node.clone()?),
            }),
        }
    }

    /// This list and one more item, which becomes the last.
    pub fn with(&self, alloc: Global, item: T) -> Result<Chain<T>, AllocError>
        ensures { IfOk result (λ longer. longer ≡ self.now ++ item ∷ []) }
    {
        let Some(len) = self.len().checked_add(1) else {
            return Err(AllocError);
        };
        let before = self.copy()?;
        let node = Rc::new(alloc, Node { len, before, item })?;
        Ok(Chain { last: Some(node) })
    }

    /// What stands before the last item, and the last item.
    pub fn split_last(&self) -> Option<(&Chain<T>, &T)>
        ensures { MatchOption result (self.now ≡ [])
            (λ parts. self.now ≡ parts.0.now ++ parts.1.now ∷ []) }
    {
        match &self.last {
            None => None,
            Some(node) => Some((&node.before, &node.item)),
        }
    }

    /// The first `len` items, or all where there are fewer.
    pub fn front(&self, len: u64) -> &Chain<T>
        ensures { result.now ≡ take len self.now }
    {
        let mut front = self;
        while front.len() > len {
            let Some((before, _)) = front.split_last() else {
                return front;
            };
            front = before;
        }
        front
    }

    /// The items, the first one first.
    pub fn items(&self, alloc: Global) -> Result<Vec<&T>, AllocError>
        ensures { IfOk result (λ items. map (λ item. item.now) items.items ≡ self.now) }
    {
        let mut items = Vec::new(alloc);
        let mut left = self;
        while let Some((before, item)) = left.split_last() {
            items.push(item)?;
            left = before;
        }
        items.reverse();
        Ok(items)
    }
}

impl<T: Item + Drop> Chain<T> {
    /// Whether both lists have the same items in the same order.
    pub fn same(&self, other: &Chain<T>) -> bool
        ensures { IsTrue result ↔ (self.now ≡ other.now) }
    {
        if self.len() != other.len() {
            return false;
        }
        let mut left = self;
        let mut right = other;
        while let Some((before, item)) = left.split_last() {
            let Some((other_before, other_item)) = right.split_last() else {
                return false;
            };
            if !item.same(other_item) {
                return false;
            }
            left = before;
            right = other_before;
        }
        right.len() == 0
    }
}

impl<T: Spelled + Drop> Chain<T> {
    /// The texts of the items, joined by a sign.
    pub fn text(&self, alloc: Global, sign: char) -> Result<String, AllocError>
        requires { sign < 128 }
        ensures { IfOk result (λ text. string_bytes text ≡ join_with_byte sign (map T.spelling self.now)) }
    {
        let items = self.items(alloc)?;
        joined(alloc, items.as_slice(), sign)
    }
}

impl<T: Ord + Drop> Chain<T> {
    /// The dictionary order: the first pair of items that differ decides, and a proper front comes first.
    pub fn cmp(&self, other: &Chain<T>) -> Ordering
        ensures { result ≡ slice_cmp T.cmp self.now other.now }
    {
        let mut left = self.front(other.len());
        let mut right = other.front(self.len());
        let mut order = self.len().cmp(&other.len());
        while let Some((before, item)) = left.split_last() {
            let Some((other_before, other_item)) = right.split_last() else {
                return order;
            };
            order = item.cmp(other_item).then(order);
            left = before;
            right = other_before;
        }
        order
    }
}
