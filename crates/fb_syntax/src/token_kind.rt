ghost use Rattle.std.specs.Prelude.{◌≡◌};
ghost use Rattle.fb_syntax.specs.TokenKinds.{is_sign, is_word, name_of};

use crate::reserved::Reserved;
use crate::sign::Sign;
use crate::token::What;
use fb_base::Name;

impl What {
    pub(crate) fn is_sign(&self, sign: Sign) -> bool
        ensures { result ≡ is_sign sign self.now }
    {
        match self {
            What::Sign(found) => *found as u8 == sign as u8,
            _ => false,
        }
    }

    pub(crate) fn is_word(&self, word: Reserved) -> bool
        ensures { result ≡ is_word word self.now }
    {
        match self {
            What::Word(found) => found.bytes() == word.text(),
            _ => false,
        }
    }

    /// The name that the token is, if it is one.
    pub(crate) fn name(&self) -> Option<Name>
        ensures { result ≡ name_of self.now }
    {
        match self {
            What::Word(found) if Reserved::of(found.bytes()).is_none() => Some(*found),
            _ => None,
        }
    }
}
