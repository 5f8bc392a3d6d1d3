//! Texts: the values of kind text.
ghost use Rattle.std.specs.Prelude.{◌≡◌, ◌≤◌, ◌+◌, ◌++◌, length, IfOk, OnOk, IsErrOf};
ghost use Rattle.fb_base.specs.Text.{IsText};

use std::alloc::{AllocError, Global};
use std::marker::Model;

/// The most bytes that a text has.
pub(crate) const LONGEST_TEXT: usize = 65_535;

/// A text in UTF-8 of at most 65,535 bytes.
#[derive(Drop)]
pub struct Text {
    text: String,
}

/// Why bytes gave no text.
#[derive(Debug, Drop, Clone, Copy, PartialEq, Eq)]
pub enum TextError {
    /// They aren't UTF-8, or are too many.
    NotText,
    Memory,
}

impl Model for Text {
    ghost use Rattle.std.specs.Prelude.{ℕ, List, ◌≤◌, length, string_bytes};

    ghost Value = { List ℕ };

    ghost view = { λ t. string_bytes t.text };

    ghost invariant = { λ t. length (string_bytes t.text) ≤ 65535 };
}

impl From<AllocError> for TextError {
    ghost use Rattle.std.specs.Prelude.{◌≡◌};
    ghost use Rattle.fb_base.specs.declared.text.TextError.TheVariants.{Memory};

    ghost from_gives = { λ _ e. e ≡ Memory };

    fn from(_e: AllocError) -> TextError {
        TextError::Memory
    }
}

impl Text {
    /// The text of these bytes, copied.
    pub fn of(alloc: Global, bytes: &[u8]) -> Result<Text, TextError>
        ensures same { IfOk result (λ text. text ≡ bytes.now) }
        ensures proper { OnOk result (IsText bytes.now) }
        ensures refused { IsErrOf result TextError.NotText → ¬ IsText bytes.now }
    {
        if LONGEST_TEXT < bytes.len() {
            return Err(TextError::NotText);
        }
        match str::from_utf8(bytes) {
            Ok(checked) => Ok(Text {
                text: String::from_str(alloc, checked)?,
            }),
            Err(_) => Err(TextError::NotText),
        }
    }

    /// What holds of each text.
    pub fn proper(&self)
        ensures { IsText self.now }
    {
        let _read = self.text.as_str();
    }

    /// The bytes of the text.
    pub fn bytes(&self) -> &[u8]
        ensures value { result.now ≡ self.now }
        ensures short { length result.now ≤ 65535 }
    {
        self.text.as_str().as_bytes()
    }

    /// The text as std's `&str`.
    pub fn as_str(&self) -> &str
        ensures { result.now ≡ self.now }
    {
        self.text.as_str()
    }

    /// The same text, in memory of its own.
    pub fn copy(&self, alloc: Global) -> Result<Text, AllocError>
        ensures { IfOk result (λ text. text ≡ self.now) }
    {
        Ok(Text {
            text: String::from_str(alloc, self.text.as_str())?,
        })
    }
}

impl Text {
    /// The bytes of both texts, in memory of their own.
    pub(crate) fn joined(&self, alloc: Global, after: &Text) -> Result<Text, AllocError>
        requires { length self.now + length after.now ≤ 65535 }
        ensures { IfOk result (λ text. text ≡ self.now ++ after.now) }
    {
        let (front, back) = (self.text.as_str(), after.text.as_str());
        let mut text = String::with_capacity(alloc, front.len() + back.len())?;
        text.push_str(front)?;
        text.push_str(back)?;
        Ok(Text { text })
    }
}

impl PartialEq for Text {
    ghost use Rattle.std.specs.Cmp.Lexicographic.{pointwise, nat_list_eq_equiv};
    ghost use Rattle.std.specs.Cmp.{partial_equiv_from_equiv};
    ghost use Rattle.std.specs.Prelude.{nat_eq};

    ghost eq = { pointwise nat_eq };

    ghost laws = { partial_equiv_from_equiv nat_list_eq_equiv };

    fn eq(&self, other: &Text) -> bool {
        self.bytes() == other.bytes()
    }
}

impl Eq for Text {
    ghost use Rattle.std.specs.Cmp.Lexicographic.{nat_list_eq_equiv};

    ghost laws = { nat_list_eq_equiv };
}
