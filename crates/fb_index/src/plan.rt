//! Which calls of a run are answered with faults.
ghost use Rattle.std.specs.Prelude.{◌≡◌, All, codes, false, [], ◌∷◌, ◌++◌, ◌↔◌, length, IfOk, IfErr, IfSome, IsTrue, MatchOption, map, string_bytes};
ghost use Rattle.std.specs.Option.{option_copied};
ghost use Rattle.std.specs.List.{last_or};
ghost use Rattle.fb_index.specs.Automaton.{Reads, begins_with};
ghost use Rattle.fb_index.specs.Fault.{IsAtCall};
ghost use Rattle.fb_index.specs.Plan.{IsPlan, RefusesPlan, fault_at, plan_text};
ghost use Rattle.fb_index.specs.Reading.{word_automaton};

use crate::chain::Chain;
use crate::error::PlanError;
use crate::fault::Fault;
use crate::index::Index;
use crate::pieces::cut;
use crate::scanner::{Scanner, whole};
use fb_base::Reply;
use std::alloc::{AllocError, Global};
use std::marker::Model;

/// The faults of a run, in the order in which they are added.
///
/// It is shared: a longer plan keeps the shorter one and copies nothing.
#[derive(Drop)]
pub struct Plan {
    faults: Chain<Fault>,
}

impl Model for Plan {
    ghost use Rattle.std.specs.Prelude.{List};
    ghost use Rattle.fb_index.specs.declared.fault.Fault.{Fault as FaultOf};
    ghost use Rattle.fb_index.specs.Plan.{IsPlan};

    ghost Value = { List FaultOf };

    ghost view = { λ p. p.faults };

    ghost invariant = { λ p. IsPlan p.faults };
}

impl Plan {
    /// The plan without faults.
    pub fn empty() -> Plan
        ensures { result ≡ [] }
    {
        Plan {
            faults: Chain::new(),
        }
    }

    /// This plan and one more fault.
    pub fn with(&self, alloc: Global, index: Index, reply: Reply) -> Result<Plan, AllocError>
        ensures { IfOk result (λ longer. longer ≡ self.now ++ record { index = index; reply = reply } ∷ []) }
    {
        let fault = Fault { index, reply };
        fault.proper();
        let faults = self.faults.with(alloc, fault)?;
        Ok(Plan { faults })
    }

    /// One more owner.
    pub fn copy(&self) -> Result<Plan, AllocError>
        ensures { IfOk result (λ copy. copy ≡ self.now) }
    {
        let faults = self.faults.copy()?;
        Ok(Plan { faults })
    }

    /// Whether both have the same faults in the same order.
    pub fn same(&self, other: &Plan) -> bool
        ensures { IsTrue result ↔ (self.now ≡ other.now) }
    {
        self.faults.same(&other.faults)
    }

    /// The number of faults.
    pub fn len(&self) -> u64
        ensures { result ≡ length self.now }
    {
        self.faults.len()
    }

    /// The fault that was added last, none exactly for the empty plan.
    pub fn last(&self) -> Option<(&Index, &Reply)>
        ensures { MatchOption result (self.now ≡ [])
            (λ last. last_or None self.now ≡ Some (record { index = last.0.now; reply = last.1.now })) }
    {
        match self.faults.split_last() {
            None => None,
            Some((_, fault)) => Some((&fault.index, &fault.reply)),
        }
    }

    /// The faults, the first one first.
    pub fn faults(&self, alloc: Global) -> Result<Vec<&Fault>, AllocError>
        ensures { IfOk result (λ faults. map (λ fault. fault.now) faults.items ≡ self.now) }
    {
        self.faults.items(alloc)
    }

    /// The reply of the first fault at this index, none exactly where there is none.
    pub fn fault_at(&self, index: &Index) -> Option<&Reply>
        ensures { option_copied result ≡ fault_at self.now index.now }
    {
        let mut first = None;
        let mut left = &self.faults;
        while let Some((before, fault)) = left.split_last() {
            if fault.index.same(index) {
                first = Some(&fault.reply);
            }
            left = before;
        }
        first
    }

    /// The faults as `INDEX=CODE` or `INDEX=ok:VALUE`, joined by `,`. The empty plan's text is `none`.
    ///
    /// A VALUE is a decimal number, `true`, `false`, `x` and two hexadecimal digits for each byte of a text, or VALUEs of one of
    /// these kinds, joined by `;` between `[` and `]`.
    pub fn text(&self, alloc: Global) -> Result<String, AllocError>
        ensures { IfOk result (λ text. string_bytes text ≡ plan_text self.now) }
    {
        if self.faults.len() == 0 {
            return String::from_str(alloc, "none");
        }
        self.faults.text(alloc, ',')
    }

    /// Reads a plan's text. Where all before is well spelled and what follows `ok:`, up to the next `,` or the end, is no VALUE,
    /// the offset of the refusal is that of its first byte. Elsewhere it is the length of the longest front that begins some
    /// plan's text.
    pub fn read_text(alloc: Global, bytes: &[u8]) -> Result<Plan, PlanError>
        ensures read { IfOk result (λ plan. bytes.now ≡ plan_text plan) }
        ensures calls { IfOk result (All IsAtCall) }
        ensures refused { IfErr result (RefusesPlan bytes.now) }
    {
        let mut scanner = Scanner::new(bytes);
        if !scanner.next_is(b'n') {
            return Plan::read_faults(alloc, bytes);
        }
        let plan = Plan::scan_none(&mut scanner);
        match whole(plan, bytes, scanner.len()) {
            Ok(plan) => Ok(plan),
            Err(offset) => Err(PlanError::BadPlan { offset }),
        }
    }

    /// Takes the empty plan.
    fn scan_none(scanner: &mut Scanner) -> Option<Plan>
        ensures empty { IfSome result (λ plan. plan ≡ []) }
        ensures reads { Reads (word_automaton (codes "none")) plan_text scanner.old result scanner.new }
    {
        if !scanner.word(b"none") {
            return None;
        }
        Some(Plan::empty())
    }

    /// Reads one or more faults, each at a call.
    fn read_faults(alloc: Global, bytes: &[u8]) -> Result<Plan, PlanError>
        requires { begins_with 110 bytes.now ≡ false }
        ensures read { IfOk result (λ plan. bytes.now ≡ plan_text plan) }
        ensures calls { IfOk result (All IsAtCall) }
        ensures refused { IfErr result (RefusesPlan bytes.now) }
    {
        let mut plan = Plan::empty();
        let mut left = bytes;
        loop {
            let start = (bytes.len() - left.len()) as u64;
            let (piece, behind) = cut(left, b',');
            let fault = match Fault::read(alloc, piece, start) {
                Ok(fault) => fault,
                Err(error) => return Err(error),
            };
            fault.proper();
            plan = plan.with(alloc, fault.index, fault.reply)?;
            let Some(rest) = behind else {
                return Ok(plan);
            };
            left = rest;
        }
    }

    /// Any plan has parts that a text can spell.
    pub fn proper(&self)
        ensures { IsPlan self.now }
    {
        let _faults = &self.faults;
    }
}
