use fb_base::Kind;

/// Whose body it is.
#[derive(Clone, Copy)]
pub enum Owner {
    /// A method's, which gives values of this kind.
    Method { gives: Kind },
    Test,
}
