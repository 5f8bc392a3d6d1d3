use fb_base::{Kind, Name, Op2, Text};

/// An expression.
///
/// The names in it are not yet known to mean anything, and its kinds need not fit.
#[cycle(expr)]
#[derive(Drop)]
pub enum Expr {
    /// A number, as it is written.
    Int(i64),
    /// A text literal, its escapes read.
    Text(Text),
    /// `true` or `false`.
    Bool(bool),
    /// A variable.
    Var(Name),
    /// A list literal: `base` is the kind of its items.
    List {
        base: Kind,
        items: Vec<Expr>,
    },
    /// The length of a text or a list: `len(e)`.
    Len(Box<Expr>),
    /// An item of a list, its places counted from 0: `e[i]`.
    At {
        list: Box<Expr>,
        place: Box<Expr>,
    },
    /// `-e`
    Neg(Box<Expr>),
    /// `not e`
    Not(Box<Expr>),
    /// One comparison, as `a <= b`.
    Compare {
        op: Op2,
        left: Box<Expr>,
        right: Box<Expr>,
    },
    /// Operators of one level, applied from the left: one link at least.
    Chain {
        first: Box<Expr>,
        rest: Vec<Link>,
    },
    /// Two operands or more with `and` between them.
    All(Vec<Expr>),
    /// Two operands or more with `or` between them.
    Any(Vec<Expr>),
    /// Whether a fault was injected anywhere.
    Injected,
    /// Whether a fault was injected at a service, or at one of its methods.
    InjectedOn {
        service: Name,
        method: Option<Name>,
    },
}

/// A further operand of a chain, and the operator before it.
#[cycle(expr)]
#[derive(Drop)]
pub struct Link {
    pub op: Op2,
    pub right: Expr,
}
