use crate::declarations::Declarations;
use crate::owner::Owner;
use std::marker::Model;

/// What a body may use, whose it is, and where it stands.
#[derive(Drop)]
pub struct Context<'a> {
    pub declared: &'a Declarations,
    pub owner: Owner,
    /// The positions of its service and method, counted from 1; 0 for a test.
    pub service: u32,
    pub method: u32,
}

impl<'a> Model for Context<'a> {
    ghost use Rattle.fb_check.specs.ExpressionKinds.{Context as ContextOf};

    ghost Value = { ContextOf };

    ghost view = { λ c. record { declared = c.declared.now; owner = c.owner; service = c.service; method = c.method } };
}
