ghost use Rattle.std.specs.Prelude.{◌≡◌, ℕ, ◌≤◌, ◌<◌, ◌+◌, ◌^◌, ◌++◌, ◌↔◌, List, Ok, Err, Some, IsUtf8, None, if◌then◌else◌, length, OnOk, IfOk};
ghost use Rattle.std.specs.Option.{ForSome};
ghost use Rattle.std.specs.Str.{is_utf8};
ghost use Rattle.fb_syntax.specs.declared.token.Token.{Token};
ghost use Rattle.fb_syntax.specs.Limits.{longest_source};
ghost use Rattle.fb_syntax.specs.Stops.{StopsAt};
ghost use Rattle.fb_syntax.specs.Tokens.{HasTokens, IsStuckAt, literal};
ghost use Rattle.fb_syntax.specs.declared.parse_error.ParseWhy.TheVariants.{NotText, BadToken};
ghost use Rattle.fb_syntax.specs.Lexing.{GivesTokens, Finds, Advances, front, lexed, lexed_from, not_text_at, refused_byte, token_at};

use crate::front::Front;
use crate::parse_error::{ParseError, ParseWhy};
use crate::token::Token;
use fb_base::List;
use std::alloc::{AllocError, Global};

/// The tokens of a text of at most 1 MiB, in their order.
#[tactic(auto, unfolding(crate::specs::Lexing::lexed))]
pub fn lex(alloc: Global, bytes: &[u8]) -> Result<List<Token>, ParseError>
    requires { length bytes.now ≤ longest_source }
    ensures { GivesTokens result (lexed bytes.now) }
{
    match not_text_at(bytes) {
        Some(offset) => Err(ParseError::Refused(ParseWhy::NotText { offset })),
        None => lex_text(alloc, bytes),
    }
}

/// A text has exactly the tokens that `lexed` gives; it is refused at the one place at which nothing begins, or as no
/// text.
pub fn lexing_is_exact()
    ensures tokens { (bytes : List ℕ) (tokens : List Token) → (lexed bytes ≡ Ok tokens) ↔ HasTokens bytes tokens }
    ensures stuck { (bytes : List ℕ) (at : ℕ) → (lexed bytes ≡ Err (BadToken at)) ↔ IsStuckAt bytes at }
    ensures no_text { (bytes : List ℕ) (at : ℕ) → (lexed bytes ≡ Err (NotText at)) ↔ ((¬ IsUtf8 bytes) × StopsAt bytes at) }
{}

/// A literal in UTF-8 has UTF-8 between its quotes once its escapes are read, so that this is no condition on it.
pub fn literals_are_text()
    ensures { (before text rest : List ℕ) → IsUtf8 (before ++ (literal text ++ rest)) → IsUtf8 text }
{}

/// Where the bytes stop being text, if they do.
fn not_text_at(bytes: &[u8]) -> Option<u64>
    ensures { result ≡ (if is_utf8 bytes.now then None else Some (not_text_at bytes.now)) }
{
    match str::from_utf8(bytes) {
        Ok(_) => None,
        Err(error) => {
            let valid = error.valid_up_to();
            Some(refused_byte(valid, error.error_len(), bytes[valid], bytes.len()))
        }
    }
}

/// The byte that no text continues, where `wrong` bytes are at fault behind the `valid` ones, or none are and the text
/// only ends inside a character.
fn refused_byte(valid: usize, wrong: Option<usize>, first: u8, len: usize) -> u64
    requires { ForSome wrong (λ k. valid + k ≤ len) }
    ensures { result ≡ refused_byte valid wrong first len }
{
    let Some(wrong) = wrong else {
        return len as u64;
    };
    // Only these bytes begin a character of several bytes.
    if 0xC2 <= first && first <= 0xF4 {
        return (valid + wrong) as u64;
    }
    valid as u64
}

fn lex_text(alloc: Global, bytes: &[u8]) -> Result<List<Token>, ParseError>
    requires { length bytes.now ≤ longest_source }
    ensures { GivesTokens result (lexed_from 0 0 bytes.now) }
{
    let mut tokens = List::new(alloc);
    let mut at = 0;
    let mut left = bytes;
    while !left.is_empty() {
        let found = next(alloc, at, left)?;
        let len = found.len;
        push(&mut tokens, at, found)?;
        at += len as u32;
        left = &left[len..];
    }
    Ok(tokens)
}

/// What stands first in the rest of the text, which begins at this place.
fn next(alloc: Global, at: u32, left: &[u8]) -> Result<Front, ParseError>
    requires { length left.now ≤ longest_source }
    ensures found { Finds at result (front left.now) }
    ensures advances { IfOk result (λ found. Advances left.now found) }
{
    match Front::read(alloc, left)? {
        Some(found) => Ok(found),
        None => Err(ParseError::Refused(ParseWhy::BadToken { offset: at as u64 })),
    }
}

/// Adds the token that begins at this place, if it is one.
fn push(tokens: &mut List<Token>, at: u32, found: Front) -> Result<(), AllocError>
    requires { at + found.len < 2 ^ 32 }
    ensures { OnOk result (tokens.new ≡ tokens.old ++ token_at at found.what found.len) }
{
    let Front { what, len } = found;
    let Some(what) = what else {
        return Ok(());
    };
    let to = at + len as u32;
    tokens.push(Token { what, from: at, to })
}
