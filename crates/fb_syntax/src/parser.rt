ghost use Rattle.std.specs.Prelude.{◌≡◌, Err};
ghost use Rattle.std.specs.Option.{option_copied};
ghost use Rattle.fb_syntax.specs.Input.{place, first_what, behind, comes};
ghost use Rattle.fb_syntax.specs.TokenKinds.{is_sign, is_word, is_name};
ghost use Rattle.fb_syntax.specs.Reading.{Gives, want, name};
ghost use Rattle.fb_syntax.specs.StatementReading.{begin_call};

use crate::parse_error::{ParseError, ParseWhy};
use crate::reserved::Reserved;
use crate::sign::Sign;
use crate::token::{Token, What};
use fb_base::Name;
use std::marker::Model;

/// The most calls of a body.
const MOST_CALLS: u32 = 1_024;

/// What is left of a text's tokens.
#[derive(Drop)]
pub struct Parser<'a> {
    left: &'a [Token],
    /// The length of the text.
    end: u64,
    /// The calls of this body so far.
    calls: u32,
}

impl<'a> Model for Parser<'a> {
    ghost use Rattle.fb_syntax.specs.Input.{Input};

    ghost Value = { Input };

    ghost view = { λ p. record { left = p.left.now; end = p.end; calls = p.calls } };
}

impl<'a> Parser<'a> {
    /// Begins with all tokens of a text of this length.
    pub fn new(left: &'a [Token], end: u64) -> Parser<'a>
        ensures { result ≡ record { left = left.now; end = end; calls = 0 } }
    {
        Parser {
            left,
            end,
            calls: 0,
        }
    }

    /// Where the first token begins, or the text ends.
    pub fn place(&self) -> u64
        ensures { result ≡ place self.now }
    {
        match self.left {
            [first, ..] => u64::from(first.from),
            [] => self.end,
        }
    }

    pub fn unexpected<T>(&self) -> Result<T, ParseError>
        ensures { result ≡ Err (ParseError.Refused (ParseWhy.Unexpected (place self.now))) }
    {
        Err(ParseError::Refused(ParseWhy::Unexpected {
            offset: self.place(),
        }))
    }

    pub fn too_deep<T>(&self) -> Result<T, ParseError>
        ensures { result ≡ Err (ParseError.Refused (ParseWhy.TooDeep (place self.now))) }
    {
        Err(ParseError::Refused(ParseWhy::TooDeep {
            offset: self.place(),
        }))
    }

    pub fn too_many<T>(&self) -> Result<T, ParseError>
        ensures { result ≡ Err (ParseError.Refused (ParseWhy.TooMany (place self.now))) }
    {
        Err(ParseError::Refused(ParseWhy::TooMany {
            offset: self.place(),
        }))
    }

    /// What the first token is.
    pub fn first(&self) -> Option<&What>
        ensures { option_copied result ≡ first_what self.now }
    {
        match self.left {
            [first, ..] => Some(&first.what),
            [] => None,
        }
    }

    /// Whether the first token is this sign.
    #[tactic(auto, unfolding(crate::specs::Input::comes))]
    pub fn comes_sign(&self, sign: Sign) -> bool
        ensures { result ≡ comes (is_sign sign) self.now }
    {
        match self.left {
            [first, ..] => first.what.is_sign(sign),
            [] => false,
        }
    }

    /// Whether the first token is this word.
    #[tactic(auto, unfolding(crate::specs::Input::comes))]
    pub fn comes_word(&self, word: Reserved) -> bool
        ensures { result ≡ comes (is_word word) self.now }
    {
        match self.left {
            [first, ..] => first.what.is_word(word),
            [] => false,
        }
    }

    /// Whether the first token is a name.
    #[tactic(auto, unfolding(crate::specs::Input::comes))]
    pub fn comes_name(&self) -> bool
        ensures { result ≡ comes is_name self.now }
    {
        match self.left {
            [first, ..] => first.what.name().is_some(),
            [] => false,
        }
    }

    /// Goes behind the first token.
    pub fn step(&mut self)
        ensures { self.new ≡ behind self.old }
    {
        if let [_, rest @ ..] = self.left {
            self.left = rest;
        }
    }

    #[tactic(auto, unfolding(crate::specs::Reading::want))]
    pub fn want_sign(&mut self, sign: Sign) -> Result<(), ParseError>
        ensures { Gives (λ u. u) self.new result (want (is_sign sign) self.old) }
    {
        if !self.comes_sign(sign) {
            return self.unexpected();
        }
        self.step();
        Ok(())
    }

    #[tactic(auto, unfolding(crate::specs::Reading::want))]
    pub fn want_word(&mut self, word: Reserved) -> Result<(), ParseError>
        ensures { Gives (λ u. u) self.new result (want (is_word word) self.old) }
    {
        if !self.comes_word(word) {
            return self.unexpected();
        }
        self.step();
        Ok(())
    }

    #[tactic(auto, unfolding(crate::specs::Reading::name))]
    pub fn name(&mut self) -> Result<Name, ParseError>
        ensures { Gives (λ name. name) self.new result (name self.old) }
    {
        let [first, ..] = self.left else {
            return self.unexpected();
        };
        match first.what.name() {
            Some(name) => {
                self.step();
                Ok(name)
            }
            None => self.unexpected(),
        }
    }

    /// Goes behind the word `call`, which is one more call of the body.
    #[tactic(auto, unfolding(crate::specs::StatementReading::begin_call))]
    pub fn begin_call(&mut self) -> Result<(), ParseError>
        ensures { Gives (λ u. u) self.new result (begin_call self.old) }
    {
        if MOST_CALLS <= self.calls {
            return self.too_many();
        }
        self.step();
        self.calls += 1;
        Ok(())
    }

    /// From here on the calls of another body are counted.
    pub fn begin_body(&mut self)
        ensures { self.new ≡ record self.old { calls = 0 } }
    {
        self.calls = 0;
    }
}
