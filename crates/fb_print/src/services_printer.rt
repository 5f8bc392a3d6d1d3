//! Services in canonical text.
ghost use Rattle.std.specs.Prelude.{◌≡◌, ◌++◌, OnOk, map, codes};
ghost use Rattle.std.specs.List.{flat_map, join_by};
ghost use Rattle.fb_syntax.specs.Views.{view_param, view_method};
ghost use Rattle.fb_print.specs.Items.{items_text};
ghost use Rattle.fb_print.specs.Services.{params_items, gives_items, method_items};
ghost use Rattle.fb_print.specs.Printed.{param_text, method_text, service_text};

use crate::expr_printer::kind_text;
use crate::printer::Printer;
use fb_base::{Kind, Name};
use fb_syntax::{Method, Param, Service};
use std::alloc::AllocError;

impl Printer {
    /// A word and a name.
    pub fn named(&mut self, word: &str, name: &Name) -> Result<(), AllocError>
        ensures { OnOk result (self.new ≡ self.old ++ (word.now ++ name.now)) }
    {
        self.put(word)?;
        self.name(name)
    }

    fn param(&mut self, param: &Param) -> Result<(), AllocError>
        ensures { OnOk result (self.new ≡ self.old ++ param_text param.now) }
    {
        self.name(&param.name)?;
        self.put(": ")?;
        self.put(kind_text(param.kind))
    }

    /// Parameters with commas between them.
    fn listed_params(&mut self, params: &[Param]) -> Result<(), AllocError>
        ensures { OnOk result (self.new ≡ self.old ++ join_by param_text (codes ", ") params.now) }
    {
        let [first, rest @ ..] = params else {
            return Ok(());
        };
        self.param(first)?;
        for param in rest {
            self.put(", ")?;
            self.param(param)?;
        }
        Ok(())
    }

    fn params(&mut self, params: &[Param]) -> Result<(), AllocError>
        ensures { OnOk result (self.new ≡ self.old ++ items_text (params_items (map view_param params.now))) }
    {
        self.put("(")?;
        self.listed_params(params)?;
        self.put(")")
    }

    fn gives(&mut self, kind: Kind) -> Result<(), AllocError>
        ensures { OnOk result (self.new ≡ self.old ++ items_text (gives_items kind)) }
    {
        self.put(" -> ")?;
        self.put(kind_text(kind))
    }

    fn method(&mut self, method: &Method) -> Result<(), AllocError>
        ensures { OnOk result (self.new ≡ self.old ++ items_text (method_items (view_method method.now))) }
    {
        self.named("method ", &method.name)?;
        self.params(&method.params)?;
        self.gives(method.gives)?;
        self.block(1, &method.body)
    }

    /// Methods, each on lines of its own.
    fn methods(&mut self, methods: &[Method]) -> Result<(), AllocError>
        ensures { OnOk result (self.new ≡ self.old ++ flat_map method_text methods.now) }
    {
        for method in methods {
            self.line(1)?;
            self.method(method)?;
        }
        Ok(())
    }

    fn service(&mut self, service: &Service) -> Result<(), AllocError>
        ensures { OnOk result (self.new ≡ self.old ++ service_text service.now) }
    {
        self.named("service ", &service.name)?;
        self.put(" {")?;
        self.methods(&service.methods)?;
        self.put("\n}\n")
    }

    /// Services, one directly after another.
    pub fn services(&mut self, services: &[Service]) -> Result<(), AllocError>
        ensures { OnOk result (self.new ≡ self.old ++ flat_map service_text services.now) }
    {
        for service in services {
            self.service(service)?;
        }
        Ok(())
    }
}
