//! Names and codes: short words that are kept in place.
ghost use Rattle.std.specs.Prelude.{◌≡◌, ℕ, ◌≤◌, ◌↔◌, IsOk, IfOk, length};
ghost use Rattle.std.specs.List.{list_all};
ghost use Rattle.fb_base.specs.Name.{IsName, is_name, is_name_byte, padded};

use std::alloc::AllocError;
use std::cmp::Ordering;
use std::marker::Model;

const LONGEST: usize = 64;

/// What is read is no name.
#[derive(Debug, Drop, Clone, Copy, PartialEq, Eq)]
pub struct BadName;

/// The name of a service, a method, a variable or a parameter: a letter `a` to `z`, then letters, digits and `_`.
///
/// It has at most 64 bytes, and its order is the dictionary order of its bytes.
pub struct Name {
    len: usize,
    bytes: [u8; LONGEST],
}

impl Model for Name {
    ghost use Rattle.std.specs.Prelude.{◌≡◌, ℕ, List, ◌≤◌, take, length};
    ghost use Rattle.fb_base.specs.Name.{IsName, padded};

    ghost Value = { List ℕ };

    ghost view = { λ n. take n.len n.bytes };

    ghost invariant = { λ n. (n.len ≤ 64) × (n.bytes ≡ padded (take n.len n.bytes)) × IsName (take n.len n.bytes) };

    ghost inverse = { λ bytes. record { len = length bytes; bytes = padded bytes } };

    ghost use Rattle.std.proofs.Common.{sym, refl};
    ghost use Rattle.fb_base.specs.Name.{length-take-padded};

    ghost inverse_ok = { λ a h. Prim.rw (sym h.1, length-take-padded a.len a.bytes h.0 h.1) refl };
}

impl Clone for Name {
    fn clone(&self) -> Result<Name, AllocError> {
        Ok(*self)
    }
}

impl Copy for Name {}

impl PartialEq for Name {
    ghost use Rattle.std.specs.Cmp.Lexicographic.{pointwise, nat_list_eq_equiv};
    ghost use Rattle.std.specs.Cmp.{partial_equiv_from_equiv};
    ghost use Rattle.std.specs.Prelude.{nat_eq};

    ghost eq = { pointwise nat_eq };

    ghost laws = { partial_equiv_from_equiv nat_list_eq_equiv };

    fn eq(&self, other: &Name) -> bool {
        self.bytes() == other.bytes()
    }
}

impl Eq for Name {
    ghost use Rattle.std.specs.Cmp.Lexicographic.{nat_list_eq_equiv};

    ghost laws = { nat_list_eq_equiv };
}

impl PartialOrd for Name {
    ghost use Rattle.std.specs.Cmp.Lexicographic.{slice_cmp, texts_po};
    ghost use Rattle.std.specs.Ordering.{nat_cmp};
    ghost use Rattle.std.specs.Prelude.{Some};

    ghost partial_cmp = { λ a b. Some (slice_cmp nat_cmp a b) };

    ghost laws = { texts_po };

    fn partial_cmp(&self, other: &Name) -> Option<Ordering> {
        Some(self.cmp(other))
    }
}

impl Ord for Name {
    ghost use Rattle.std.specs.Cmp.Lexicographic.{slice_cmp, nat_list_cmp_total, texts_ties};
    ghost use Rattle.std.specs.Ordering.{nat_cmp};
    ghost use Rattle.std.proofs.Common.{refl};

    ghost cmp = { slice_cmp nat_cmp };

    ghost total = { nat_list_cmp_total };

    ghost matches_partial_cmp = { λ a b. refl };

    ghost matches_eq = { texts_ties };

    fn cmp(&self, other: &Name) -> Ordering {
        self.bytes().cmp(other.bytes())
    }
}

impl Name {
    /// Reads a name.
    pub fn read(bytes: &[u8]) -> Result<Name, BadName>
        ensures named { IsOk result ↔ IsName bytes.now }
        ensures same { IfOk result (λ name. name ≡ bytes.now) }
    {
        if !is_name(bytes) {
            return Err(BadName);
        }
        Ok(Name {
            len: bytes.len(),
            bytes: padded(bytes),
        })
    }

    /// The bytes of the name.
    pub fn bytes(&self) -> &[u8]
        ensures value { result.now ≡ self.now }
        ensures named { IsName self.now }
    {
        &self.bytes[..self.len]
    }

    /// The name as std's `&str`.
    pub fn as_str(&self) -> &str
        ensures { result.now ≡ self.now }
    {
        str::from_utf8(self.bytes()).unwrap()
    }
}

fn is_name_byte(byte: u8) -> bool
    ensures { result ≡ is_name_byte byte }
{
    byte.is_ascii_lowercase() || byte.is_ascii_digit() || byte == b'_'
}

fn padded(bytes: &[u8]) -> [u8; LONGEST]
    requires { length bytes.now ≤ 64 }
    ensures { result ≡ padded bytes.now }
{
    let mut held = [0; LONGEST];
    held[..bytes.len()].copy_from_slice(bytes);
    held
}

fn is_name(bytes: &[u8]) -> bool
    ensures { result ≡ is_name bytes.now }
{
    let [first, rest @ ..] = bytes else {
        return false;
    };
    if LONGEST < bytes.len() {
        return false;
    }
    first.is_ascii_lowercase() && are_name_bytes(rest)
}

fn are_name_bytes(bytes: &[u8]) -> bool
    ensures { result ≡ list_all is_name_byte bytes.now }
{
    bytes.iter().all(|byte| is_name_byte(*byte))
}
