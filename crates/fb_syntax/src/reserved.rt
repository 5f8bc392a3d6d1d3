ghost use Rattle.std.specs.Prelude.{◌≡◌, find, bytes_eq};
ghost use Rattle.fb_syntax.specs.Keywords.{reserved_text, reserved_of};

/// A reserved word, which is no name.
#[derive(Debug, Clone, Copy)]
pub enum Reserved {
    Service,
    Method,
    Test,
    Let,
    If,
    Else,
    Repeat,
    For,
    In,
    Break,
    Return,
    Fail,
    Call,
    On,
    Any,
    Assert,
    Injected,
    InjectedOn,
    And,
    Or,
    Not,
    True,
    False,
    Int,
    Bool,
    Text,
    List,
    Len,
}

const ALL: [Reserved; 28] = [
    Reserved::Service,
    Reserved::Method,
    Reserved::Test,
    Reserved::Let,
    Reserved::If,
    Reserved::Else,
    Reserved::Repeat,
    Reserved::For,
    Reserved::In,
    Reserved::Break,
    Reserved::Return,
    Reserved::Fail,
    Reserved::Call,
    Reserved::On,
    Reserved::Any,
    Reserved::Assert,
    Reserved::Injected,
    Reserved::InjectedOn,
    Reserved::And,
    Reserved::Or,
    Reserved::Not,
    Reserved::True,
    Reserved::False,
    Reserved::Int,
    Reserved::Bool,
    Reserved::Text,
    Reserved::List,
    Reserved::Len,
];

impl Reserved {
    /// The bytes that spell the word.
    pub fn text(self) -> &'static [u8]
        ensures { result.now ≡ reserved_text self }
    {
        match self {
            Reserved::Service => b"service",
            Reserved::Method => b"method",
            Reserved::Test => b"test",
            Reserved::Let => b"let",
            Reserved::If => b"if",
            Reserved::Else => b"else",
            Reserved::Repeat => b"repeat",
            Reserved::For => b"for",
            Reserved::In => b"in",
            Reserved::Break => b"break",
            Reserved::Return => b"return",
            Reserved::Fail => b"fail",
            Reserved::Call => b"call",
            Reserved::On => b"on",
            Reserved::Any => b"any",
            Reserved::Assert => b"assert",
            Reserved::Injected => b"injected",
            Reserved::InjectedOn => b"injected_on",
            Reserved::And => b"and",
            Reserved::Or => b"or",
            Reserved::Not => b"not",
            Reserved::True => b"true",
            Reserved::False => b"false",
            Reserved::Int => b"int",
            Reserved::Bool => b"bool",
            Reserved::Text => b"text",
            Reserved::List => b"list",
            Reserved::Len => b"len",
        }
    }

    /// The reserved word that these bytes spell.
    #[tactic(auto, unfolding(crate::specs::Keywords::reserved_of))]
    pub fn of(word: &[u8]) -> Option<Reserved>
        ensures { result ≡ reserved_of word.now }
    {
        first_of(&ALL, word)
    }
}

fn first_of(all: &[Reserved], word: &[u8]) -> Option<Reserved>
    ensures { result ≡ find (λ reserved. bytes_eq word.now (reserved_text reserved)) all.now }
{
    all.iter().copied().find(|reserved| word == reserved.text())
}
