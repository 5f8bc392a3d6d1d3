//! Lists that aren't empty and whose weight is kept.
ghost use Rattle.std.specs.Prelude.{◌≡◌, ◌<◌, ◌≤◌, ◌+◌, ◌^◌, ◌++◌, ◌↔◌, length, All, IfOk, IfSome, OnSome, IsSome, vec_len};
ghost use Rattle.fb_base.specs.Weight.{IsWeighed, weight_of_list, heaviest, light_list};
ghost use Rattle.fb_base.specs.Operators.{Answered};

use crate::duplicate::copy_onto;
use crate::item::Item;
use crate::operator::OpError;
use std::alloc::{AllocError, Global};
use std::marker::Model;

/// The most that a value weighs.
pub(crate) const HEAVIEST: u64 = 65_536;

/// A list that isn't empty and weighs at most 65,536.
#[derive(Drop)]
pub struct Weighed<T: Item> {
    items: Vec<T>,
    weight: u64,
}

impl<T: Item> Model for Weighed<T> {
    ghost use Rattle.std.specs.Prelude.{List as ListOf, ◌≡◌};
    ghost use Rattle.std.specs.Coded.{coded_list};
    ghost use Rattle.fb_base.specs.Weight.{IsWeighed, weight_of_list};

    ghost Value = { ListOf T };

    ghost coded = { coded_list T.code };

    ghost view = { λ w. w.items.items };

    ghost invariant = { λ w. (w.weight ≡ weight_of_list T.weight w.items.items) × IsWeighed T.weight T.proper w.items.items };
}

impl<T: Item> Weighed<T> {
    /// The list of these items, where they don't weigh too much.
    pub fn of(items: Vec<T>) -> Option<Weighed<T>>
        requires { 0 < vec_len items }
        ensures { result ≡ light_list T.weight items.items }
    {
        let weight = weight_of(items.as_slice())?;
        Some(Weighed { items, weight })
    }

    /// What holds of each such list.
    pub fn proper(&self)
        ensures { IsWeighed T.weight T.proper self.now }
    {
        let _read = &self.items;
    }

    /// The items, of which there is at least one.
    pub fn items(&self) -> &[T]
        ensures { result.now ≡ self.now }
    {
        self.items.as_slice()
    }

    /// The number of items.
    pub fn len(&self) -> usize
        ensures value { result ≡ length self.now }
        ensures some { 0 < result }
        ensures short { result < heaviest }
    {
        self.items.len()
    }

    /// One more than the sum of the items' weights.
    pub fn weight(&self) -> u64
        ensures value { result ≡ weight_of_list T.weight self.now }
        ensures light { result ≤ heaviest }
    {
        self.weight
    }

    /// The same list, in memory of its own.
    pub fn copy(&self, alloc: Global) -> Result<Weighed<T>, AllocError>
        ensures { IfOk result (λ made. made ≡ self.now) }
    {
        Ok(Weighed {
            items: copy_of_both(alloc, self.items.as_slice(), &[])?,
            weight: self.weight,
        })
    }

    /// The items of both lists, in memory of their own. It is a fault where they weigh too much.
    pub fn joined(&self, alloc: Global, after: &Weighed<T>) -> Result<Weighed<T>, OpError>
        ensures { Answered (light_list T.weight (self.now ++ after.now)) result }
    {
        let weight = self.weight + after.weight - 1;
        if HEAVIEST < weight {
            return Err(OpError::Fault);
        }
        let items = copy_of_both(alloc, self.items.as_slice(), after.items.as_slice())?;
        Ok(Weighed { items, weight })
    }
}

fn copy_of_both<T: Item>(alloc: Global, front: &[T], back: &[T]) -> Result<Vec<T>, AllocError>
    requires { length front.now + length back.now < 2 ^ 64 }
    ensures { IfOk result (λ made. made.items ≡ front.now ++ back.now) }
{
    let mut made = Vec::with_capacity(alloc, front.len() + back.len())?;
    copy_onto(&mut made, alloc, front)?;
    copy_onto(&mut made, alloc, back)?;
    Ok(made)
}

fn weight_of<T: Item>(items: &[T]) -> Option<u64>
    ensures weight { IfSome result (λ weight. weight ≡ weight_of_list T.weight items.now) }
    ensures light { IsSome result ↔ (weight_of_list T.weight items.now ≤ heaviest) }
    ensures proper { OnSome result (All T.proper items.now) }
{
    let mut weight = 1;
    for item in items {
        let added = item.weight();
        if HEAVIEST - weight < added {
            return None;
        }
        weight += added;
    }
    Some(weight)
}
