//! What is declared is looked up by name.
ghost use Rattle.std.specs.Prelude.{◌≡◌};
ghost use Rattle.std.specs.Option.{option_copied};
ghost use Rattle.fb_check.specs.Declarations.{callee_in, number_in, service_in, is_declared};

use crate::declarations::Declarations;
use crate::signature::Signature;
use fb_base::{MethodName, Name};

impl Declarations {
    /// A service's position, counted from 1.
    pub fn service(&self, service: &Name) -> Option<u32>
        ensures { result ≡ service_in self.now service.now }
    {
        self.services.position(service)
    }

    /// The number of a service's method, counted from 0 over all services.
    pub fn number(&self, service: &Name, method: &Name) -> Option<u32>
        ensures { result ≡ number_in self.now service.now method.now }
    {
        self.methods.number(&MethodName {
            service: *service,
            method: *method,
        })
    }

    /// The method of a service.
    pub fn callee(&self, service: &Name, method: &Name) -> Option<&Signature>
        ensures { option_copied result ≡ callee_in self.now service.now method.now }
    {
        match self.number(service, method) {
            Some(number) => self.methods.get(number),
            None => None,
        }
    }

    /// Whether there is a service, and a method of it where one is named.
    pub fn is_declared(&self, service: &Name, method: &Option<Name>) -> bool
        ensures { result ≡ is_declared self.now service.now method.now }
    {
        match method {
            Some(method) => self.callee(service, method).is_some(),
            None => self.service(service).is_some(),
        }
    }
}
