//! One fault of a plan.
ghost use Rattle.std.specs.Prelude.{◌≡◌, ◌≢◌, ◌+◌, ◌-◌, ◌^◌, ◌<◌, ◌≤◌, ◌∷◌, ◌↔◌, ℕ, List, length, codes, IfOk, IfErr, IfSome, IsTrue, string_bytes};
ghost use Rattle.fb_index.specs.Automaton.{Reads};
ghost use Rattle.fb_index.specs.Fault.{IsFault, IsAtCall, IsSpelledFault, RefusesFault, coded_text, fault_text};
ghost use Rattle.fb_base.specs.Name.{IsName};
ghost use Rattle.fb_index.specs.Index.{IsIndex};
ghost use Rattle.fb_index.specs.Reading.{coded_automaton};
ghost use Rattle.fb_index.specs.declared.error.PlanError.TheVariants.{BadPlan};

use crate::chain::Item;
use crate::error::PlanError;
use crate::index::Index;
use crate::scanner::Scanner;
use crate::spelling::Spelled;
use crate::value::read_value;
use fb_base::{Code, Reply};
use std::alloc::{AllocError, Global};

/// A call that is answered with a reply in place of being made.
#[derive(Drop)]
pub struct Fault {
    /// Which call.
    pub index: Index,
    /// The answer.
    pub reply: Reply,
}

/// `INDEX=CODE`, whatever the code.
#[derive(Drop)]
pub(crate) struct Coded {
    index: Index,
    code: Code,
}

impl Coded {
    /// Takes an index of a call, and a code.
    fn scan(alloc: Global, scanner: &mut Scanner) -> Result<Option<Coded>, AllocError>
        ensures call { IfOk result (λ coded. IfSome coded (λ found. 0 < length found.index)) }
        ensures reads { IfOk result (λ coded. Reads coded_automaton coded_text scanner.old coded scanner.new) }
    {
        let Some(index) = Index::scan(alloc, scanner)? else {
            return Ok(None);
        };
        if !scanner.take(b'=') {
            return Ok(None);
        }
        let Some(code) = scanner.code() else {
            return Ok(None);
        };
        Ok(Some(Coded { index, code }))
    }

    /// What holds of each.
    fn proper(&self)
        ensures index { IsIndex self.now.index }
        ensures code { IsName self.now.code }
    {
        self.index.proper();
        let _code = self.code.bytes();
    }
}

impl Fault {
    /// Any fault has parts that a text can spell.
    pub fn proper(&self)
        ensures { IsFault self.now }
    {
        self.index.proper();
        self.reply.proper();
    }

    /// Reads a fault at a call. The place where the bytes start counts in the offset of a refusal.
    pub(crate) fn read(alloc: Global, bytes: &[u8], start: u64) -> Result<Fault, PlanError>
        requires { start + length bytes.now < 2 ^ 64 }
        ensures read { IfOk result (λ fault. IsAtCall fault × (bytes.now ≡ fault_text fault)) }
        ensures refused { IfErr result (RefusesFault start bytes.now) }
    {
        let mut scanner = Scanner::new(bytes);
        let Some(coded) = Coded::scan(alloc, &mut scanner)? else {
            return Err(refusal(start, bytes, scanner.len()));
        };
        coded.proper();
        if scanner.takes_value(&coded.code) {
            let Some(value) = read_value(alloc, scanner.left())? else {
                return Err(refusal(start, bytes, scanner.len()));
            };
            let reply = Reply::Ok(value);
            return Ok(Fault {
                index: coded.index,
                reply,
            });
        }
        if scanner.len() != 0 {
            return Err(refusal(start, bytes, scanner.len()));
        }
        let reply = Reply::Err(coded.code);
        Ok(Fault {
            index: coded.index,
            reply,
        })
    }
}

/// A refusal in front of the bytes that are left.
fn refusal(start: u64, bytes: &[u8], left: usize) -> PlanError
    requires fits { start + length bytes.now < 2 ^ 64 }
    requires part { left ≤ length bytes.now }
    ensures { result ≡ BadPlan (start + (length bytes.now - left)) }
{
    let offset = start + (bytes.len() - left) as u64;
    PlanError::BadPlan { offset }
}

impl Item for Fault {
    fn same(&self, other: &Fault) -> bool {
        self.index.same(&other.index) && self.reply.same(&other.reply)
    }
}

impl Spelled for Fault {
    ghost spelling = { fault_text };

    fn spell(&self, alloc: Global) -> Result<String, AllocError> {
        let index = self.index.text(alloc)?;
        let reply = self.reply.spell(alloc)?;
        format!(in alloc; "{index}={reply}")
    }
}
