ghost use Rattle.std.specs.Prelude.{◌≡◌, ◌≤◌, ◌<◌, nat_lt, ◌^◌, if◌then◌else◌, IfOk, length, not, ◌==◌};
ghost use Rattle.std.specs.List.{prefix_len};
ghost use Rattle.std.specs.Char.{is_ascii_digit};
ghost use Rattle.fb_base.specs.Name.{is_name_byte};
ghost use Rattle.fb_syntax.specs.Tokens.{is_blank, number_of};
ghost use Rattle.fb_syntax.specs.Lexing.{front, front_comment, front_word, front_number, front_sign};

use crate::literal::text;
use crate::sign::Sign;
use crate::token::What;
use fb_base::Name;
use std::alloc::{AllocError, Global};

/// What stands first in a text: a token, or no token but a blank or a comment; and how many bytes it takes.
#[derive(Drop)]
pub struct Front {
    pub what: Option<What>,
    pub len: usize,
}

impl Front {
    /// What stands first, if it is a blank, a comment or a token.
    #[tactic(auto, unfolding(crate::specs::Lexing::front))]
    pub fn read(alloc: Global, bytes: &[u8]) -> Result<Option<Front>, AllocError>
        requires { length bytes.now < 2 ^ 32 }
        ensures { IfOk result (λ found. found ≡ front bytes.now) }
    {
        let [first, ..] = bytes else {
            return Ok(None);
        };
        let first = *first;
        if is_blank(first) {
            return Ok(Some(Front { what: None, len: 1 }));
        }
        if first == b'#' {
            return Ok(comment(bytes));
        }
        if first == b'"' {
            return text(alloc, bytes);
        }
        if first.is_ascii_lowercase() {
            return Ok(word(bytes));
        }
        if first.is_ascii_digit() {
            return Ok(number(bytes));
        }
        Ok(sign(bytes))
    }
}

fn is_blank(byte: u8) -> bool
    ensures { result ≡ is_blank byte }
{
    byte == b' ' || byte == b'\t' || byte == b'\r' || byte == b'\n'
}

fn comment_len(bytes: &[u8]) -> usize
    ensures { result ≡ prefix_len (λ b. not (b == 10)) bytes.now }
{
    bytes.iter().take_while(|byte| **byte != b'\n').count()
}

#[tactic(auto, unfolding(crate::specs::Lexing::front_comment))]
fn comment(bytes: &[u8]) -> Option<Front>
    ensures { result ≡ front_comment bytes.now }
{
    Some(Front {
        what: None,
        len: comment_len(bytes),
    })
}

fn word_len(bytes: &[u8]) -> usize
    ensures same { result ≡ prefix_len is_name_byte bytes.now }
    ensures within { result ≤ length bytes.now }
{
    bytes
        .iter()
        .take_while(|byte| byte.is_ascii_lowercase() || byte.is_ascii_digit() || **byte == b'_')
        .count()
}

#[tactic(auto, unfolding(crate::specs::Lexing::front_word))]
fn word(bytes: &[u8]) -> Option<Front>
    ensures { result ≡ front_word bytes.now }
{
    let len = word_len(bytes);
    match Name::read(&bytes[..len]) {
        Ok(name) => Some(Front {
            what: Some(What::Word(name)),
            len,
        }),
        Err(_) => None,
    }
}

fn digits_len(bytes: &[u8]) -> usize
    ensures same { result ≡ prefix_len is_ascii_digit bytes.now }
    ensures within { result ≤ length bytes.now }
{
    bytes
        .iter()
        .take_while(|byte| byte.is_ascii_digit())
        .count()
}

#[tactic(auto, unfolding(crate::specs::Lexing::front_number))]
fn number(bytes: &[u8]) -> Option<Front>
    ensures { result ≡ front_number bytes.now }
{
    let len = digits_len(bytes);
    let number = number_of(&bytes[..len])?;
    Some(Front {
        what: Some(What::Int(number as i64)),
        len,
    })
}

/// The number that decimal digits spell, where an i64 holds it.
fn number_of(digits: &[u8]) -> Option<u64>
    ensures { result ≡ (if nat_lt (number_of digits.now) (2 ^ 63) then Some (number_of digits.now) else None) }
{
    let mut number = 0u64;
    for digit in digits {
        let digit = u64::from(digit.saturating_sub(b'0'));
        if (i64::MAX as u64 - digit) / 10 < number {
            return None;
        }
        number = number * 10 + digit;
    }
    Some(number)
}

#[tactic(auto, unfolding(crate::specs::Lexing::front_sign))]
fn sign(bytes: &[u8]) -> Option<Front>
    ensures { result ≡ front_sign bytes.now }
{
    match Sign::first(bytes) {
        Some(sign) => Some(Front {
            what: Some(What::Sign(sign)),
            len: sign.text().len(),
        }),
        None => None,
    }
}
