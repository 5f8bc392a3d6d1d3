//! The code of a service's error.
ghost use Rattle.std.specs.Prelude.{◌≡◌, ◌↔◌, IsOk, IfOk};
ghost use Rattle.fb_base.specs.Name.{IsName};

use crate::name::{BadName, Name};
use std::alloc::AllocError;
use std::marker::Model;

/// The code of an error, as `timeout`. It is spelled like a [`Name`].
#[derive(PartialEq, Eq, PartialOrd, Ord)]
pub struct Code {
    name: Name,
}

impl Model for Code {
    ghost use Rattle.std.specs.Prelude.{ℕ, List};
    ghost use Rattle.fb_base.specs.Name.{IsName};

    ghost Value = { List ℕ };

    ghost view = { λ c. c.name };

    ghost inverse = { λ bytes. record { name = bytes } };
}

impl Clone for Code {
    fn clone(&self) -> Result<Code, AllocError> {
        Ok(*self)
    }
}

impl Copy for Code {}

impl Code {
    /// Reads a code.
    pub fn read(bytes: &[u8]) -> Result<Code, BadName>
        ensures named { IsOk result ↔ IsName bytes.now }
        ensures same { IfOk result (λ code. code ≡ bytes.now) }
    {
        let name = Name::read(bytes)?;
        Ok(Code { name })
    }

    /// The bytes of the code.
    pub fn bytes(&self) -> &[u8]
        ensures value { result.now ≡ self.now }
        ensures named { IsName self.now }
    {
        self.name.bytes()
    }

    /// The code as std's `&str`.
    pub fn as_str(&self) -> &str
        ensures { result.now ≡ self.now }
    {
        self.name.as_str()
    }
}
