use crate::stmt::Block;
use fb_base::{Kind, Name};

/// The services of a file, in their order.
#[derive(Drop)]
pub struct Services {
    pub list: Vec<Service>,
}

/// A service.
#[derive(Drop)]
pub struct Service {
    pub name: Name,
    pub methods: Vec<Method>,
}

/// A method of a service.
#[derive(Drop)]
pub struct Method {
    pub name: Name,
    pub params: Vec<Param>,
    /// The kind of the value that it gives.
    pub gives: Kind,
    pub body: Block,
}

/// A parameter of a method.
#[derive(Drop)]
pub struct Param {
    pub name: Name,
    pub kind: Kind,
}
