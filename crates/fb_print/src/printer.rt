//! A text that grows at its end, token by token.
ghost use Rattle.std.specs.Prelude.{◌≡◌, ◌++◌, OnOk};
ghost use Rattle.std.specs.Fmt.{signed_decimal};
ghost use Rattle.fb_syntax.specs.Tokens.{literal};
ghost use Rattle.fb_print.specs.Items.{Line, spelling};

use fb_base::{Code, Name, Text};
use std::alloc::{AllocError, Global};
use std::marker::Model;

/// A canonical text up to some place in it.
#[derive(Drop)]
pub struct Printer {
    text: String,
}

impl Model for Printer {
    ghost use Rattle.std.specs.Prelude.{ℕ, List, string_bytes};

    ghost Value = { List ℕ };

    ghost view = { λ p. string_bytes p.text };
}

impl Printer {
    ghost use Rattle.std.specs.Prelude.{[], string_bytes};

    /// Begins with no text.
    pub fn new(alloc: Global) -> Printer
        ensures { result ≡ [] }
    {
        Printer {
            text: String::new(alloc),
        }
    }

    /// The whole text.
    pub fn finish(self) -> String
        ensures { string_bytes result ≡ self }
    {
        self.text
    }

    /// Words and signs, and the blanks between them.
    pub fn put(&mut self, text: &str) -> Result<(), AllocError>
        ensures { OnOk result (self.new ≡ self.old ++ text.now) }
    {
        self.text.push_str(text)
    }

    pub fn name(&mut self, name: &Name) -> Result<(), AllocError>
        ensures { OnOk result (self.new ≡ self.old ++ name.now) }
    {
        self.put(name.as_str())
    }

    pub fn code(&mut self, code: &Code) -> Result<(), AllocError>
        ensures { OnOk result (self.new ≡ self.old ++ code.now) }
    {
        self.put(code.as_str())
    }

    pub fn number(&mut self, number: i64) -> Result<(), AllocError>
        ensures { OnOk result (self.new ≡ self.old ++ signed_decimal number) }
    {
        write!(self.text, "{number}")
    }

    /// A text between its quotes, with its escapes.
    pub fn literal(&mut self, text: &Text) -> Result<(), AllocError>
        ensures { OnOk result (self.new ≡ self.old ++ literal text.now) }
    {
        self.put("\"")?;
        self.escaped(text.as_str())?;
        self.put("\"")
    }

    /// Ends a line, and indents the next one by so many levels.
    pub fn line(&mut self, depth: usize) -> Result<(), AllocError>
        ensures { OnOk result (self.new ≡ self.old ++ spelling (Line depth)) }
    {
        self.put("\n")?;
        for _ in 0..depth {
            self.put("  ")?;
        }
        Ok(())
    }
}

impl Printer {
    ghost use Rattle.std.specs.List.{flat_map};
    ghost use Rattle.std.specs.Char.{encode_utf8};
    ghost use Rattle.fb_syntax.specs.Tokens.{escaped};

    #[tactic(auto, using(crate::proofs::Escapes::one_char_more))]
    fn escaped(&mut self, text: &str) -> Result<(), AllocError>
        ensures { OnOk result (self.new ≡ self.old ++ flat_map escaped text.now) }
    {
        for c in text.chars() {
            self.escaped_char(c)?;
        }
        Ok(())
    }

    #[tactic(auto, using(crate::proofs::Escapes::plain_char))]
    fn escaped_char(&mut self, c: char) -> Result<(), AllocError>
        ensures { OnOk result (self.new ≡ self.old ++ flat_map escaped (encode_utf8 c)) }
    {
        match c {
            '"' => self.put("\\\""),
            '\\' => self.put("\\\\"),
            '\n' => self.put("\\n"),
            '\t' => self.put("\\t"),
            other => self.text.push(other),
        }
    }
}
