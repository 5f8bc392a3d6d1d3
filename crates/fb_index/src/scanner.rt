//! Reading a text from its front.
ghost use Rattle.std.specs.Prelude.{◌≡◌, ◌≢◌, ◌≤◌, ◌-◌, ℕ, List, ◌∷◌, length, codes, IfSome, is_some, MatchBool, MatchResult};
ghost use Rattle.std.specs.Fmt.{decimal};
ghost use Rattle.fb_index.specs.Automaton.{Reads, begins_with, run};
ghost use Rattle.fb_index.specs.Entry.{IsNumber};
ghost use Rattle.fb_index.specs.Reading.{with_digit, number_automaton, with_name_byte, code_automaton, word_automaton, is_nothing};

use fb_base::Code;
use std::marker::Model;

const LONGEST_CODE: usize = 64;

/// The bytes of a text that are still to be read.
#[derive(Drop)]
pub struct Scanner<'a> {
    left: &'a [u8],
}

impl<'a> Model for Scanner<'a> {
    ghost use Rattle.std.specs.Prelude.{List, ℕ};

    ghost Value = { List ℕ };

    ghost view = { λ s. s.left.now };
}

impl<'a> Scanner<'a> {
    pub fn new(bytes: &'a [u8]) -> Scanner<'a>
        ensures { result ≡ bytes.entry.now }
    {
        Scanner { left: bytes }
    }

    /// How many bytes are left.
    pub fn len(&self) -> usize
        ensures { result ≡ length self.now }
    {
        self.left.len()
    }

    /// Whether this byte comes next.
    pub fn next_is(&self, sign: u8) -> bool
        ensures { result ≡ begins_with sign self.now }
    {
        match self.left {
            [next, ..] => *next == sign,
            [] => false,
        }
    }

    /// The bytes that are left.
    pub fn left(&self) -> &[u8]
        ensures { result.now ≡ self.now }
    {
        self.left
    }

    /// Takes this byte, if it comes next.
    pub fn take(&mut self, sign: u8) -> bool
        ensures { MatchBool result (self.old ≡ sign ∷ self.new)
            ((self.new ≡ self.old) × ((rest : List ℕ) → self.old ≢ sign ∷ rest)) }
    {
        match self.left {
            [next, rest @ ..] if *next == sign => {
                self.left = rest;
                true
            }
            _ => false,
        }
    }

    /// Takes the `:` that leads from the code `ok` to a value, if it comes next.
    pub fn takes_value(&mut self, code: &Code) -> bool
        ensures { MatchBool result ((code.now ≡ codes "ok") × (self.old ≡ 58 ∷ self.new))
            ((self.new ≡ self.old) × (code.now ≡ codes "ok" → (rest : List ℕ) → self.old ≢ 58 ∷ rest)) }
    {
        if code.bytes() != b"ok".as_slice() {
            return false;
        }
        self.take(b':')
    }

    /// Takes this word, or as much of it as is there.
    pub fn word(&mut self, word: &[u8]) -> bool
        ensures { let stop = run (word_automaton word.now) self.old in
            (stop.1 ≡ self.new) × (is_nothing stop.0 ≡ result) }
    {
        let mut rest = word;
        while let [next, later @ ..] = rest {
            if !self.take(*next) {
                return false;
            }
            rest = later;
        }
        true
    }

    /// Takes a number: 1 to 4294967295 in decimal digits, with no zero at the front.
    pub fn number(&mut self) -> Option<u32>
        ensures number { IfSome result IsNumber }
        ensures reads { Reads number_automaton decimal self.old result self.new }
    {
        let (number, rest) = leading_number(self.left);
        self.left = rest;
        if number == 0 {
            return None;
        }
        Some(number)
    }

    /// Takes a code, of at most 64 bytes.
    pub fn code(&mut self) -> Option<Code>
        ensures { Reads code_automaton (λ code. code) self.old result self.new }
    {
        let (len, rest) = leading_code(self.left);
        let Ok(code) = Code::read(&self.left[..len]) else {
            return None;
        };
        self.left = rest;
        Some(code)
    }
}

/// What a text is read as, where nothing is left of it. Otherwise how many of its bytes were taken.
pub fn whole<T: Drop>(item: Option<T>, bytes: &[u8], left: usize) -> Result<T, u64>
    requires { left ≤ length bytes.now }
    ensures { MatchResult result (λ found. (item ≡ Some found) × (left ≡ 0))
        (λ offset. (offset ≡ length bytes.now - left) × (left ≡ 0 → item ≡ None)) }
{
    let offset = (bytes.len() - left) as u64;
    match item {
        Some(found) if left == 0 => Ok(found),
        _ => Err(offset),
    }
}

/// The number at the front, 0 where there is none, and what follows it.
fn leading_number(bytes: &[u8]) -> (u32, &[u8])
    ensures { run number_automaton bytes.now ≡ (result.0, result.1.now) }
{
    let mut number = 0;
    let mut left = bytes;
    while let [byte, rest @ ..] = left {
        match with_digit(number, *byte) {
            Some(next) => number = next,
            None => return (number, left),
        }
        left = rest;
    }
    (number, left)
}

/// The number with one more digit, where it still is one.
fn with_digit(number: u32, byte: u8) -> Option<u32>
    ensures { result ≡ with_digit number byte }
{
    if !byte.is_ascii_digit() {
        return None;
    }
    let next = number.checked_mul(10)?.checked_add(u32::from(byte - b'0'))?;
    if next == 0 {
        return None;
    }
    Some(next)
}

/// The length of the code at the front, 0 where there is none, and what follows it.
fn leading_code(bytes: &[u8]) -> (usize, &[u8])
    ensures { run code_automaton bytes.now ≡ (result.0, result.1.now) }
{
    let mut len = 0;
    let mut left = bytes;
    while let [byte, rest @ ..] = left {
        if !continues_code(len, *byte) {
            return (len, left);
        }
        len += 1;
        left = rest;
    }
    (len, left)
}

/// Whether a code of this length, with this byte behind it, still begins one.
fn continues_code(len: usize, byte: u8) -> bool
    ensures { result ≡ is_some (with_name_byte len byte) }
{
    if LONGEST_CODE <= len {
        return false;
    }
    if len == 0 {
        return byte.is_ascii_lowercase();
    }
    byte.is_ascii_lowercase() || byte.is_ascii_digit() || byte == b'_'
}
