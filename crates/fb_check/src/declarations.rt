use crate::names::Names;
use crate::signatures::Signatures;
use fb_base::Name;

/// What a file of services declares, as far as a call needs to know it.
#[derive(Drop)]
pub struct Declarations {
    pub services: Names<Name>,
    pub methods: Signatures,
}
