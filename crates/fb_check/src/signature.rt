use fb_base::{Kind, List, MethodName};

/// What a call needs to know of a method, and where the method stands.
#[derive(Drop)]
pub struct Signature {
    pub name: MethodName,
    /// The position of its service, counted from 1.
    pub service: u32,
    /// Its position in the service, counted from 1.
    pub method: u32,
    /// The kinds of its parameters.
    pub params: List<Kind>,
    pub gives: Kind,
}
