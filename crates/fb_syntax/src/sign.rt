ghost use Rattle.std.specs.Prelude.{◌≡◌, find, nat_eq};
ghost use Rattle.std.specs.List.{starts_with};
ghost use Rattle.fb_syntax.specs.Signs.{sign_text};
ghost use Rattle.fb_syntax.specs.Lexing.{first_sign};

/// A sign of the language.
#[derive(Debug, Clone, Copy)]
pub enum Sign {
    /// `{`
    OpenBrace,
    /// `}`
    CloseBrace,
    /// `(`
    OpenParen,
    /// `)`
    CloseParen,
    /// `[`
    OpenBracket,
    /// `]`
    CloseBracket,
    /// `,`
    Comma,
    /// `;`
    Semicolon,
    /// `:`
    Colon,
    /// `.`
    Dot,
    /// `->`
    Arrow,
    /// `=`
    Assign,
    /// `==`
    Equal,
    /// `!=`
    NotEqual,
    /// `<`
    Less,
    /// `<=`
    LessEqual,
    /// `>`
    Greater,
    /// `>=`
    GreaterEqual,
    /// `+`
    Plus,
    /// `++`
    PlusPlus,
    /// `-`
    Minus,
    /// `*`
    Star,
    /// `/`
    Slash,
    /// `%`
    Percent,
}

/// All signs, each before those that begin it.
const LONGEST_FIRST: [Sign; 24] = [
    Sign::Arrow,
    Sign::Equal,
    Sign::NotEqual,
    Sign::LessEqual,
    Sign::GreaterEqual,
    Sign::PlusPlus,
    Sign::OpenBrace,
    Sign::CloseBrace,
    Sign::OpenParen,
    Sign::CloseParen,
    Sign::OpenBracket,
    Sign::CloseBracket,
    Sign::Comma,
    Sign::Semicolon,
    Sign::Colon,
    Sign::Dot,
    Sign::Assign,
    Sign::Less,
    Sign::Greater,
    Sign::Plus,
    Sign::Minus,
    Sign::Star,
    Sign::Slash,
    Sign::Percent,
];

impl Sign {
    /// The bytes that spell the sign.
    pub(crate) fn text(self) -> &'static [u8]
        ensures { result.now ≡ sign_text self }
    {
        match self {
            Sign::OpenBrace => b"{",
            Sign::CloseBrace => b"}",
            Sign::OpenParen => b"(",
            Sign::CloseParen => b")",
            Sign::OpenBracket => b"[",
            Sign::CloseBracket => b"]",
            Sign::Comma => b",",
            Sign::Semicolon => b";",
            Sign::Colon => b":",
            Sign::Dot => b".",
            Sign::Arrow => b"->",
            Sign::Assign => b"=",
            Sign::Equal => b"==",
            Sign::NotEqual => b"!=",
            Sign::Less => b"<",
            Sign::LessEqual => b"<=",
            Sign::Greater => b">",
            Sign::GreaterEqual => b">=",
            Sign::Plus => b"+",
            Sign::PlusPlus => b"++",
            Sign::Minus => b"-",
            Sign::Star => b"*",
            Sign::Slash => b"/",
            Sign::Percent => b"%",
        }
    }

    /// The longest sign at the front of the bytes.
    #[tactic(auto, unfolding(crate::specs::Lexing::first_sign))]
    pub(crate) fn first(bytes: &[u8]) -> Option<Sign>
        ensures { result ≡ first_sign bytes.now }
    {
        first_of(&LONGEST_FIRST, bytes)
    }
}

fn first_of(signs: &[Sign], bytes: &[u8]) -> Option<Sign>
    ensures { result ≡ find (λ sign. starts_with nat_eq bytes.now (sign_text sign)) signs.now }
{
    signs
        .iter()
        .copied()
        .find(|sign| bytes.starts_with(sign.text()))
}
