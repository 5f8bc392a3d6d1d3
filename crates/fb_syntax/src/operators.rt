ghost use Rattle.std.specs.Prelude.{◌≡◌};
ghost use Rattle.fb_syntax.specs.TokenKinds.{by_sign, comparison_sign, sum_sign, product_sign, series_operator, base_of, base_word, turns_of};
ghost use Rattle.fb_syntax.specs.ExpressionReading.{begins_expr, word_begins, opens};
ghost use Rattle.fb_syntax.specs.StatementReading.{word_begins_statement, begins_statement};

use crate::levels::Series;
use crate::reserved::Reserved;
use crate::sign::Sign;
use crate::token::What;
use fb_base::{Kind, Op2};

impl Sign {
    fn comparison(self) -> Option<Op2>
        ensures { result ≡ comparison_sign self }
    {
        match self {
            Sign::Equal => Some(Op2::Eq),
            Sign::NotEqual => Some(Op2::Ne),
            Sign::Less => Some(Op2::Lt),
            Sign::LessEqual => Some(Op2::Le),
            Sign::Greater => Some(Op2::Gt),
            Sign::GreaterEqual => Some(Op2::Ge),
            _ => None,
        }
    }

    fn sum(self) -> Option<Op2>
        ensures { result ≡ sum_sign self }
    {
        match self {
            Sign::Plus => Some(Op2::Add),
            Sign::Minus => Some(Op2::Sub),
            Sign::PlusPlus => Some(Op2::Join),
            _ => None,
        }
    }

    fn product(self) -> Option<Op2>
        ensures { result ≡ product_sign self }
    {
        match self {
            Sign::Star => Some(Op2::Mul),
            Sign::Slash => Some(Op2::Div),
            Sign::Percent => Some(Op2::Rem),
            _ => None,
        }
    }
}

impl Reserved {
    /// The kind that the word names, of those that a list's items have.
    fn base(self) -> Option<Kind>
        ensures { result ≡ base_word self }
    {
        match self {
            Reserved::Int => Some(Kind::Int),
            Reserved::Bool => Some(Kind::Bool),
            Reserved::Text => Some(Kind::Text),
            _ => None,
        }
    }

    /// Whether an expression can begin with the word.
    fn begins_expr(self) -> bool
        ensures { result ≡ word_begins (Some self) }
    {
        match self {
            Reserved::True
            | Reserved::False
            | Reserved::Not
            | Reserved::List
            | Reserved::Len
            | Reserved::Injected
            | Reserved::InjectedOn => true,
            _ => false,
        }
    }

    /// Whether a statement can begin with the word.
    fn begins_stmt(self) -> bool
        ensures { result ≡ word_begins_statement (Some self) }
    {
        match self {
            Reserved::Let
            | Reserved::If
            | Reserved::Repeat
            | Reserved::For
            | Reserved::Break
            | Reserved::Return
            | Reserved::Fail
            | Reserved::Call
            | Reserved::Assert => true,
            _ => false,
        }
    }
}

impl What {
    /// The comparison that the token stands for.
    pub(crate) fn comparison(&self) -> Option<Op2>
        ensures { result ≡ by_sign comparison_sign self.now }
    {
        match self {
            What::Sign(sign) => sign.comparison(),
            _ => None,
        }
    }

    /// The operator of this level that the token stands for.
    pub(crate) fn operator(&self, series: Series) -> Option<Op2>
        ensures { result ≡ series_operator series self.now }
    {
        match self {
            What::Sign(sign) => match series {
                Series::Sum => sign.sum(),
                Series::Product => sign.product(),
            },
            _ => None,
        }
    }

    /// The kind of a list's items that the token stands for.
    pub(crate) fn base(&self) -> Option<Kind>
        ensures { result ≡ base_of self.now }
    {
        match self {
            What::Word(found) => match Reserved::of(found.bytes()) {
                Some(word) => word.base(),
                None => None,
            },
            _ => None,
        }
    }

    /// Whether an expression can begin with the token.
    pub(crate) fn begins_expr(&self) -> bool
        ensures { result ≡ begins_expr self.now }
    {
        match self {
            What::Int(_) => true,
            What::Text(_) => true,
            What::Word(found) => match Reserved::of(found.bytes()) {
                Some(word) => word.begins_expr(),
                None => true,
            },
            What::Sign(_) => self.is_sign(Sign::OpenParen) || self.is_sign(Sign::Minus),
        }
    }

    /// Whether the token opens an operand of an expression.
    pub(crate) fn opens(&self) -> bool
        ensures { result ≡ opens self.now }
    {
        self.is_word(Reserved::Not) || self.is_sign(Sign::OpenParen) || self.is_sign(Sign::Minus)
    }

    /// Whether a statement can begin with the token.
    pub(crate) fn begins_stmt(&self) -> bool
        ensures { result ≡ begins_statement self.now }
    {
        match self {
            What::Word(found) => match Reserved::of(found.bytes()) {
                Some(word) => word.begins_stmt(),
                None => true,
            },
            _ => false,
        }
    }

    /// The number that the token is, if it is one.
    pub(crate) fn number(&self) -> Option<u64>
        ensures { result ≡ turns_of self.now }
    {
        match self {
            What::Int(number) => u64::try_from(*number).ok(),
            _ => None,
        }
    }
}
