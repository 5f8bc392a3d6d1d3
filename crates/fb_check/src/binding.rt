use fb_base::{Kind, Name};

/// A variable and the kind of its values.
#[derive(Clone, Copy)]
pub struct Binding {
    pub name: Name,
    pub kind: Kind,
}
