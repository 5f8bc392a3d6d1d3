//! How a method is named, and its number.

use crate::name::Name;

/// A method by its service and its own name, as `price.get`.
#[derive(Clone, Copy, PartialEq, Eq, PartialOrd, Ord)]
pub struct MethodName {
    pub service: Name,
    pub method: Name,
}

/// The number of a method: methods are numbered from 0 in source order, over all services.
#[derive(Debug, Clone, Copy, PartialEq, Eq, PartialOrd, Ord, Hash)]
pub struct MethodId(pub u32);
