ghost use Rattle.std.specs.Prelude.{◌≡◌, IsNone};
ghost use Rattle.fb_syntax.specs.Views.{view_services};
ghost use Rattle.fb_syntax.specs.Kept.{KeepsServicesLimits};
ghost use Rattle.fb_check.specs.FirstRefusal.{first_refusal};

use crate::body_tables::BodyTables;
use crate::counts::Counts;
use crate::declarations::Declarations;
use crate::signature::Signature;
use crate::tables::{Tables, kinds_given};
use fb_base::{Kind, MethodId, MethodName, Name};
use fb_syntax::{Method, Services};
use std::alloc::{AllocError, Global};
use std::marker::Model;
use std::rc::Rc;

/// Accepted services.
///
/// Only [`check_services`](crate::check_services) makes one. Methods are numbered from 0 over the whole file, in
/// source order.
#[derive(Drop)]
pub struct Program {
    services: Rc<Services>,
    kinds: Vec<Kind>,
    tables: Tables,
    ghost accepted: { IsNone (first_refusal (view_services services.value)) },
    ghost limits: { ∥ KeepsServicesLimits (view_services services.value) ∥₁ },
}

impl Model for Program {
    ghost use Rattle.std.specs.Prelude.{◌≡◌};
    ghost use Rattle.fb_syntax.specs.Views.{view_services};
    ghost use Rattle.fb_check.specs.AcceptedSources.{AcceptedServices, coded_accepted_services};
    ghost use Rattle.fb_check.specs.Programs.{kinds_given};
    ghost use Rattle.fb_check.specs.Tables.{AreTables};

    ghost Value = { AcceptedServices };

    ghost coded = { coded_accepted_services };

    ghost view = { λ p. record { tree = view_services p.services.value; accepted = p.accepted; limits = p.limits } };

    ghost invariant = { λ p.
        (p.kinds.items ≡ kinds_given (view_services p.services.value))
        × AreTables (view_services p.services.value) p.tables };
}

impl Program {
    ghost use Rattle.std.specs.Prelude.{◌≡◌, ◌<◌, length, is_none, option_map, Some, IsNone, IfOk, IfSome};
    ghost use Rattle.fb_syntax.specs.Views.{view_method};
    ghost use Rattle.fb_check.specs.Declarations.{kinds_of_parameters, declarations_of, number_in, service_in};
    ghost use Rattle.fb_graph.specs.Chain.{IsRank};
    ghost use Rattle.fb_check.specs.Calls.{rank_limit, graph_of};
    ghost use Rattle.fb_check.specs.Counts.{entries_of};
    ghost use Rattle.fb_check.specs.Tables.{body_tables, AreTables};
    ghost use Rattle.fb_check.specs.Programs.{methods_of, method_at, signature_at, kinds_given, site_at, callee_at};

    /// Services that are checked, with what is kept of them.
    pub(crate) fn of(
        alloc: Global,
        services: Services,
        tables: Tables,
    ) -> Result<Program, AllocError>
        requires accepted { IsNone (first_refusal (view_services services)) }
        requires limits { KeepsServicesLimits (view_services services) }
        requires tables { AreTables (view_services services) tables }
        ensures { IfOk result (λ program. program.tree ≡ view_services services) }
    {
        let kinds = kinds_given(alloc, &tables.declared.methods)?;
        Ok(Program {
            services: Rc::new(alloc, services)?,
            kinds,
            tables,
        })
    }

    /// The trees of the services.
    pub(crate) fn services(&self) -> &Rc<Services>
        ensures { view_services result.now.value ≡ self.now.tree }
    {
        &self.services
    }

    /// The services as they stand in the source.
    pub fn tree(&self) -> &Services
        ensures { view_services result.now ≡ self.now.tree }
    {
        &self.services
    }

    pub(crate) fn declared(&self) -> &Declarations
        ensures { result.now ≡ declarations_of self.now.tree }
    {
        &self.tables.declared
    }

    /// The number of methods.
    pub fn count(&self) -> u32
        ensures { result ≡ length (methods_of self.now.tree) }
    {
        self.kinds.len() as u32
    }

    /// The kind that each method gives, by number.
    pub fn kinds(&self) -> &[Kind]
        ensures { result.now ≡ kinds_given self.now.tree }
    {
        self.kinds.as_slice()
    }

    /// The position of a service, counted from 1.
    pub fn service_named(&self, service: &Name) -> Option<u32>
        ensures { result ≡ service_in (declarations_of self.now.tree) service.now }
    {
        self.tables.declared.service(service)
    }

    /// A service's method.
    pub fn method_named(&self, service: &Name, method: &Name) -> Option<MethodId>
        ensures number { option_map (λ m. m.0) result ≡ number_in (declarations_of self.now.tree) service.now method.now }
        ensures within { IfSome result (λ m. m.0 < length (methods_of self.now.tree)) }
    {
        match self.tables.declared.number(service, method) {
            Some(number) => Some(MethodId(number)),
            None => None,
        }
    }

    /// The kind that a method gives.
    pub fn gives(&self, method: MethodId) -> Kind
        requires { method.0 < length (methods_of self.now.tree) }
        ensures { option_map (λ m. m.gives) (method_at self.now.tree method.0) ≡ Some result }
    {
        self.kinds[method.0 as usize]
    }

    /// What is kept of a method.
    fn signature(&self, method: MethodId) -> &Signature
        requires { method.0 < length (methods_of self.now.tree) }
        ensures { signature_at self.now.tree method.0 ≡ Some result.now }
    {
        &self.tables.declared.methods.as_slice()[method.0 as usize]
    }

    /// The name of a method, with its service's.
    pub fn name_of(&self, method: MethodId) -> MethodName
        requires { method.0 < length (methods_of self.now.tree) }
        ensures { option_map (λ s. s.name) (signature_at self.now.tree method.0) ≡ Some result }
    {
        self.signature(method).name
    }

    /// The position of a method's service, counted from 1.
    pub fn service_of(&self, method: MethodId) -> u32
        requires { method.0 < length (methods_of self.now.tree) }
        ensures { option_map (λ s. s.service) (signature_at self.now.tree method.0) ≡ Some result }
    {
        self.signature(method).service
    }

    /// The kinds of a method's parameters.
    pub fn params(&self, method: MethodId) -> &[Kind]
        requires { method.0 < length (methods_of self.now.tree) }
        ensures { option_map (λ m. kinds_of_parameters m.params) (method_at self.now.tree method.0) ≡ Some result.now }
    {
        self.signature(method).params.as_slice()
    }

    /// The length of the longest chain of calls below a method.
    pub fn rank(&self, method: MethodId) -> u32
        requires { method.0 < length (methods_of self.now.tree) }
        ensures rank { IsRank (graph_of self.now.tree) method.0 result }
        ensures below { result < rank_limit }
    {
        self.tables.ranks.as_slice()[method.0 as usize]
    }

    /// A method as it stands in the source.
    pub fn method_tree(&self, method: MethodId) -> &Method
        requires { method.0 < length (methods_of self.now.tree) }
        ensures { method_at self.now.tree method.0 ≡ Some (view_method result.now) }
    {
        let signature = self.signature(method);
        let service = &self.services.list[signature.service as usize - 1];
        &service.methods[signature.method as usize - 1]
    }

    /// What is kept of a method's body.
    fn body(&self, method: MethodId) -> &BodyTables
        requires { method.0 < length (methods_of self.now.tree) }
        ensures { option_map (λ m. body_tables (declarations_of self.now.tree) m.body) (method_at self.now.tree method.0) ≡ Some result.now }
    {
        &self.tables.bodies[method.0 as usize]
    }

    /// What stands in each statement of a method's body and in each block inside it, in the order in which they begin.
    ///
    /// The body's own block has no entry. Behind each entry stand those of what is inside its statement or block: with
    /// it they are as many as its `statements` and `blocks` together.
    pub fn counts(&self, method: MethodId) -> &[Counts]
        requires { method.0 < length (methods_of self.now.tree) }
        ensures { option_map (λ m. entries_of m.body) (method_at self.now.tree method.0) ≡ Some result.now }
    {
        self.body(method).counts.as_slice()
    }

    /// The method that a call site of a method calls. Sites are numbered from 1, in the order in which they begin.
    ///
    /// It is none exactly where the body has no such site.
    pub fn callee_at(&self, method: MethodId, site: u32) -> Option<MethodId>
        requires { method.0 < length (methods_of self.now.tree) }
        ensures callee { option_map (λ m. m.0) result ≡ callee_at self.now.tree method.0 site }
        ensures none { is_none result ≡ is_none (site_at self.now.tree method.0 site) }
        ensures within { IfSome result (λ m. m.0 < length (methods_of self.now.tree)) }
    {
        self.body(method).callee(site)
    }
}
