ghost use Rattle.std.specs.Prelude.{◌≡◌, ◌<◌, ◌^◌, true, false, [], length, IfOk, option_map};
ghost use Rattle.fb_syntax.specs.Lexing.{step_of, text_from, front_text};

use crate::front::Front;
use crate::token::What;
use fb_base::{Text, TextError};
use std::alloc::{AllocError, Global};

/// What a byte means between the quotes of a text.
#[derive(Clone, Copy)]
pub enum Step {
    /// The text ends with this quote.
    Closed,
    /// This byte can't stand here.
    Misfit,
    /// The next byte belongs to this one.
    Escape,
    /// This byte of the text.
    Byte(u8),
}

/// A text behind its opening quote: its bytes, and how many bytes it takes, both quotes counted.
#[derive(Drop)]
struct Literal {
    text: Vec<u8>,
    len: usize,
}

/// The text that begins with this quote.
#[tactic(auto, unfolding(crate::specs::Lexing::text_from))]
pub fn text(alloc: Global, bytes: &[u8]) -> Result<Option<Front>, AllocError>
    requires { length bytes.now < 2 ^ 32 }
    ensures { IfOk result (λ found. found ≡ front_text bytes.now) }
{
    let [_, rest @ ..] = bytes else {
        return Ok(None);
    };
    let Some(literal) = read_literal(alloc, rest)? else {
        return Ok(None);
    };
    match Text::of(alloc, literal.text.as_slice()) {
        Ok(text) => Ok(Some(Front {
            what: Some(What::Text(text)),
            len: literal.len,
        })),
        Err(TextError::NotText) => Ok(None),
        Err(TextError::Memory) => Err(AllocError),
    }
}

#[tactic(auto, unfolding(crate::specs::Lexing::text_from))]
fn read_literal(alloc: Global, bytes: &[u8]) -> Result<Option<Literal>, AllocError>
    requires { length bytes.now < 2 ^ 32 }
    ensures { IfOk result (λ found. option_map (λ l. (l.text.items, l.len)) found ≡ text_from false [] 1 bytes.now) }
{
    let mut text = Vec::new(alloc);
    let mut len = 1;
    let mut escaping = false;
    let mut left = bytes;
    while let [byte, rest @ ..] = left {
        len += 1;
        match step_of(escaping, *byte) {
            Step::Closed => return Ok(Some(Literal { text, len })),
            Step::Misfit => return Ok(None),
            Step::Escape => {
                escaping = true;
                left = rest;
            }
            Step::Byte(byte) => {
                text.push(byte)?;
                escaping = false;
                left = rest;
            }
        }
    }
    Ok(None)
}

fn step_of(escaping: bool, byte: u8) -> Step
    ensures { result ≡ step_of escaping byte }
{
    if escaping { escaped(byte) } else { plain(byte) }
}

fn escaped(byte: u8) -> Step
    ensures { result ≡ step_of true byte }
{
    match byte {
        b'"' => Step::Byte(b'"'),
        b'\\' => Step::Byte(b'\\'),
        b'n' => Step::Byte(b'\n'),
        b't' => Step::Byte(b'\t'),
        _ => Step::Misfit,
    }
}

fn plain(byte: u8) -> Step
    ensures { result ≡ step_of false byte }
{
    match byte {
        b'"' => Step::Closed,
        b'\\' => Step::Escape,
        0..=31 => Step::Misfit,
        _ => Step::Byte(byte),
    }
}
