ghost use Rattle.std.specs.Prelude.{◌≡◌, ◌∷◌, [], ◌++◌, OnOk, OnErr};
ghost use Rattle.fb_meaning.specs.Expressions.{is_some_injected, is_injected_on};

use crate::questions::any_is_asked_for;
use fb_base::{List, MethodId, Name};
use fb_check::Program;
use std::alloc::{AllocError, Global};
use std::collections::BTreeSet;
use std::marker::Model;

/// The callees of the calls that have been injected so far, in order, each as often as it was.
#[derive(Drop)]
pub struct InjectedCallees {
    all: List<MethodId>,
    /// The numbers of the different ones, which a question goes over.
    different: BTreeSet<u32>,
}

impl Model for InjectedCallees {
    ghost use Rattle.std.specs.Prelude.{List as ListOf};
    ghost use Rattle.fb_base.specs.declared.method.MethodId.{MethodId};
    ghost use Rattle.fb_expression.specs.Questions.{HasCallees};

    ghost Value = { ListOf MethodId };

    ghost view = { λ c. c.all };

    ghost invariant = { λ c. HasCallees c.different.keys c.all };
}

impl InjectedCallees {
    /// No callees. It takes no memory yet.
    pub fn new(alloc: Global) -> InjectedCallees
        ensures { result ≡ [] }
    {
        InjectedCallees {
            all: List::new(alloc),
            different: BTreeSet::new(alloc),
        }
    }

    /// Adds the callee of one more injected call. Without memory nothing changes.
    pub fn add(&mut self, callee: MethodId) -> Result<(), AllocError>
        ensures ok { OnOk result (self.new ≡ self.old ++ callee ∷ []) }
        ensures err { OnErr result (self.new ≡ self.old) }
    {
        let count = self.all.len();
        self.all.push(callee)?;
        match self.different.insert(callee.0) {
            Ok(_) => Ok(()),
            Err(_) => {
                self.all.truncate(count);
                Err(AllocError)
            }
        }
    }

    /// Whether there is one.
    pub(crate) fn is_some(&self) -> bool
        ensures { result ≡ is_some_injected self.now }
    {
        !self.all.is_empty()
    }

    /// Whether one is a method of the service, and where a method is named that one.
    ///
    /// It goes over the different callees, however often each was injected.
    pub(crate) fn is_on(&self, program: &Program, service: &Name, method: &Option<Name>) -> bool
        ensures { result ≡ is_injected_on program.now.tree service.now method.now self.now }
    {
        any_is_asked_for(&self.different, program, service, method)
    }
}
