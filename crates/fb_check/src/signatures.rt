ghost use Rattle.std.specs.Prelude.{◌≡◌, ◌+◌, ◌<◌, ◌^◌, [], ◌∷◌, ◌++◌, length, IfOk, slice_get};
ghost use Rattle.std.specs.Option.{option_copied};
ghost use Rattle.std.specs.List.{position_from};
ghost use Rattle.fb_check.specs.Declarations.{is_method};

use crate::names::Names;
use crate::signature::Signature;
use fb_base::MethodName;
use std::alloc::{AllocError, Global};
use std::marker::Model;

/// The signatures of methods, in source order, with their numbers by name.
#[derive(Drop)]
pub struct Signatures {
    signatures: Vec<Signature>,
    names: Names<MethodName>,
}

impl Model for Signatures {
    ghost use Rattle.std.specs.Prelude.{◌≡◌, List, map};
    ghost use Rattle.fb_check.specs.declared.signature.Signature.{Signature as SignatureOf};

    ghost Value = { List SignatureOf };

    ghost view = { λ s. s.signatures.items };

    ghost invariant = { λ s. s.names ≡ map (λ signature. signature.name) s.signatures.items };
}

impl Signatures {
    pub fn new(alloc: Global) -> Signatures
        ensures { result ≡ [] }
    {
        Signatures {
            signatures: Vec::new(alloc),
            names: Names::new(alloc),
        }
    }

    /// The number of the first method with this name, counted from 0.
    pub fn number(&self, name: &MethodName) -> Option<u32>
        ensures { result ≡ position_from (is_method name.now.service name.now.method) 0 self.now }
    {
        match self.names.position(name) {
            Some(position) => Some(position - 1),
            None => None,
        }
    }

    /// The signatures in source order.
    pub fn as_slice(&self) -> &[Signature]
        ensures { result.now ≡ self.now }
    {
        self.signatures.as_slice()
    }

    /// The signature of a method by its number.
    pub fn get(&self, number: u32) -> Option<&Signature>
        ensures { option_copied result ≡ slice_get self.now number }
    {
        self.signatures.as_slice().get(number as usize)
    }

    /// One method more.
    pub fn with(self, signature: Signature) -> Result<Signatures, AllocError>
        requires { length self + 1 < 2 ^ 32 }
        ensures { IfOk result (λ more. more ≡ self ++ signature ∷ []) }
    {
        let Signatures {
            mut signatures,
            names,
        } = self;
        let names = names.with(signature.name)?;
        signatures.push(signature)?;
        Ok(Signatures { signatures, names })
    }
}
