use crate::sign::Sign;
use fb_base::{Name, Text};

/// What a token is.
#[derive(Drop)]
pub enum What {
    /// A name or a reserved word.
    Word(Name),
    /// A number, from 0 to the greatest of an i64.
    Int(i64),
    /// A text, its escapes read.
    Text(Text),
    Sign(Sign),
}

/// A token and its place in the text: from its first byte up to the byte behind its last one.
#[derive(Drop)]
pub struct Token {
    pub what: What,
    pub from: u32,
    pub to: u32,
}
