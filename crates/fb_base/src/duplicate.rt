//! Copies that are equal to what they are copied from.
ghost use Rattle.std.specs.Prelude.{◌≡◌, ◌++◌, IfOk, OnOk};

use crate::code::Code;
use crate::name::Name;
use crate::reply::Reply;
use crate::text::Text;
use crate::value::Value;
use std::alloc::{AllocError, Global};

/// What can be copied: the copy is equal, and has memory of its own.
pub trait Duplicate: Drop {
    fn duplicate(&self, alloc: Global) -> Result<Self, AllocError>
        ensures { IfOk result (λ made. made ≡ self.now) };
}

impl Duplicate for i64 {
    fn duplicate(&self, _alloc: Global) -> Result<i64, AllocError> {
        Ok(*self)
    }
}

impl Duplicate for bool {
    fn duplicate(&self, _alloc: Global) -> Result<bool, AllocError> {
        Ok(*self)
    }
}

impl Duplicate for Name {
    fn duplicate(&self, _alloc: Global) -> Result<Name, AllocError> {
        Ok(*self)
    }
}

impl Duplicate for Code {
    fn duplicate(&self, _alloc: Global) -> Result<Code, AllocError> {
        Ok(*self)
    }
}

impl Duplicate for Text {
    fn duplicate(&self, alloc: Global) -> Result<Text, AllocError> {
        self.copy(alloc)
    }
}

impl Duplicate for Value {
    fn duplicate(&self, alloc: Global) -> Result<Value, AllocError> {
        self.copy(alloc)
    }
}

impl Duplicate for Reply {
    fn duplicate(&self, alloc: Global) -> Result<Reply, AllocError> {
        self.copy(alloc)
    }
}

/// Adds copies of the items at the end.
pub(crate) fn copy_onto<T: Duplicate>(
    made: &mut Vec<T>,
    alloc: Global,
    items: &[T],
) -> Result<(), AllocError>
    ensures { OnOk result (made.new.items ≡ made.old.items ++ items.now) }
{
    for item in items {
        made.push(item.duplicate(alloc)?)?;
    }
    Ok(())
}
