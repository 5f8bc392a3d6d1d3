use crate::stmt::Block;
use fb_base::Name;

/// A test of services.
#[derive(Drop)]
pub struct Test {
    pub name: Name,
    pub body: Block,
}
