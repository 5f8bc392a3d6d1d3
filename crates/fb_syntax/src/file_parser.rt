ghost use Rattle.std.specs.Prelude.{◌≡◌, ◌<◌};
ghost use Rattle.fb_syntax.specs.Input.{comes};
ghost use Rattle.fb_syntax.specs.TokenKinds.{is_word, list_kind};
ghost use Rattle.fb_syntax.specs.Reading.{Gives, too_many, repeated, items, further, with_front};
ghost use Rattle.fb_syntax.specs.Views.{view_block, view_param, view_method, view_service, view_services, view_test, view_param_list, view_method_list, view_service_list};
ghost use Rattle.fb_syntax.specs.StatementReading.{body};
ghost use Rattle.fb_syntax.specs.FileReading.{kind, param, beyond_params, params, method, service, at_end, services, whole_test};
ghost use Rattle.fb_syntax.specs.declared.reserved.Reserved.TheVariants as word;
ghost use Rattle.fb_syntax.specs.declared.sign.Sign.TheVariants as sign;

use crate::parse_error::{ParseError, ParseWhy};
use crate::parser::Parser;
use crate::reserved::Reserved;
use crate::services::{Method, Param, Service, Services};
use crate::sign::Sign;
use crate::stmt::Block;
use crate::test::Test;
use fb_base::Kind;
use std::alloc::Global;

const MOST_SERVICES: u32 = 256;

/// The most methods of a service.
const MOST_METHODS: u32 = 64;

/// The most parameters of a method.
const MOST_PARAMS: u32 = 16;

/// The most blocks of a body that are open at once, its own included.
const DEEPEST_BLOCK: u32 = 32;

/// The kind of a list of such items.
fn list_kind(base: Kind) -> Kind
    ensures { result ≡ list_kind base }
{
    match base {
        Kind::Int => Kind::Ints,
        Kind::Bool => Kind::Bools,
        Kind::Text => Kind::Texts,
        list => list,
    }
}

/// Parts of methods.
impl<'a> Parser<'a> {
    #[tactic(auto, unfolding(crate::specs::FileReading::kind))]
    fn kind(&mut self) -> Result<Kind, ParseError>
        ensures { Gives (λ kind. kind) self.new result (kind self.old) }
    {
        if !self.comes_word(Reserved::List) {
            return self.base_kind();
        }
        let base = self.list_head()?;
        Ok(list_kind(base))
    }

    #[tactic(auto, unfolding(crate::specs::FileReading::param))]
    fn param(&mut self) -> Result<Param, ParseError>
        ensures { Gives view_param self.new result (param self.old) }
    {
        let name = self.name()?;
        self.want_sign(Sign::Colon)?;
        let kind = self.kind()?;
        Ok(Param { name, kind })
    }

    /// Why a parameter is refused that goes beyond the limit.
    #[tactic(auto, unfolding(crate::specs::FileReading::beyond_params))]
    fn beyond_params(&self) -> ParseWhy
        ensures { result ≡ beyond_params self.now }
    {
        let offset = self.place();
        if self.comes_name() {
            ParseWhy::TooMany { offset }
        } else {
            ParseWhy::Unexpected { offset }
        }
    }

    /// `( p: kind, .. )`
    #[tactic(auto, unfolding(crate::specs::FileReading::params))]
    fn params(&mut self, alloc: Global) -> Result<Vec<Param>, ParseError>
        ensures { Gives view_param_list self.new result (params self.old) }
    {
        self.want_sign(Sign::OpenParen)?;
        let params = self.param_list(alloc)?;
        self.want_sign(Sign::CloseParen)?;
        Ok(params)
    }

    /// Parameters with commas between them, up to the sign that closes them.
    #[tactic(auto, unfolding(crate::specs::Reading::items))]
    fn param_list(&mut self, alloc: Global) -> Result<Vec<Param>, ParseError>
        ensures { Gives view_param_list self.new result (items MOST_PARAMS sign.CloseParen beyond_params param self.old) }
    {
        let mut params = Vec::new(alloc);
        if self.comes_sign(Sign::CloseParen) {
            return Ok(params);
        }
        let first = self.param()?;
        params.push(first)?;
        self.further_params(MOST_PARAMS - 1, params)
    }

    /// Further parameters, each behind a comma.
    #[tactic(auto, unfolding(crate::specs::Reading::repeated))]
    fn further_params(
        &mut self,
        mut room: u32,
        mut params: Vec<Param>,
    ) -> Result<Vec<Param>, ParseError>
        ensures { Gives view_param_list self.new result (with_front (view_param_list params) (further room beyond_params param) self.old) }
    {
        'params: while self.comes_sign(Sign::Comma) {
            self.step();
            if room == 0 {
                return Err(ParseError::Refused(self.beyond_params()));
            }
            room -= 1;
            let param = self.param()?;
            params.push(param)?;
        }
        Ok(params)
    }

    /// A body, whose calls are counted from its beginning.
    #[tactic(auto, unfolding(crate::specs::StatementReading::body))]
    fn body(&mut self, alloc: Global) -> Result<Block, ParseError>
        ensures { Gives view_block self.new result (body self.old) }
    {
        self.begin_body();
        self.block(alloc, DEEPEST_BLOCK)
    }

    /// Nothing is left.
    #[tactic(auto, unfolding(crate::specs::FileReading::at_end))]
    fn at_end(&self) -> Result<(), ParseError>
        ensures { Gives (λ u. u) self.now result (at_end self.now) }
    {
        match self.first() {
            Some(_) => self.unexpected(),
            None => Ok(()),
        }
    }
}

/// Methods, services and tests.
impl<'a> Parser<'a> {
    #[tactic(auto, unfolding(crate::specs::FileReading::method))]
    fn method(&mut self, alloc: Global) -> Result<Method, ParseError>
        ensures { Gives view_method self.new result (method self.old) }
    {
        self.step();
        let name = self.name()?;
        let params = self.params(alloc)?;
        self.want_sign(Sign::Arrow)?;
        let gives = self.kind()?;
        let body = self.body(alloc)?;
        Ok(Method {
            name,
            params,
            gives,
            body,
        })
    }

    /// Methods, as long as one comes: so many at most.
    #[tactic(auto, unfolding(crate::specs::Reading::repeated))]
    fn methods(&mut self, alloc: Global, mut room: u32) -> Result<Vec<Method>, ParseError>
        ensures { Gives view_method_list self.new result (repeated too_many room (is_word word.Method) method self.old) }
    {
        let mut methods = Vec::new(alloc);
        'methods: while self.comes_word(Reserved::Method) {
            if room == 0 {
                return self.too_many();
            }
            room -= 1;
            let method = self.method(alloc)?;
            methods.push(method)?;
        }
        Ok(methods)
    }

    #[tactic(auto, unfolding(crate::specs::FileReading::service))]
    fn service(&mut self, alloc: Global) -> Result<Service, ParseError>
        ensures { Gives view_service self.new result (service self.old) }
    {
        self.step();
        let name = self.name()?;
        self.want_sign(Sign::OpenBrace)?;
        let methods = self.methods(alloc, MOST_METHODS)?;
        self.want_sign(Sign::CloseBrace)?;
        Ok(Service { name, methods })
    }

    /// Services, as long as one comes: so many at most.
    #[tactic(auto, unfolding(crate::specs::Reading::repeated))]
    fn service_list(&mut self, alloc: Global, mut room: u32) -> Result<Vec<Service>, ParseError>
        ensures { Gives view_service_list self.new result (repeated too_many room (is_word word.Service) service self.old) }
    {
        let mut services = Vec::new(alloc);
        'services: while self.comes_word(Reserved::Service) {
            if room == 0 {
                return self.too_many();
            }
            room -= 1;
            let service = self.service(alloc)?;
            services.push(service)?;
        }
        Ok(services)
    }

    /// The services of a whole file.
    #[tactic(auto, unfolding(crate::specs::FileReading::services))]
    pub fn services(&mut self, alloc: Global) -> Result<Services, ParseError>
        ensures { Gives view_services self.new result (services self.old) }
    {
        let list = self.service_list(alloc, MOST_SERVICES)?;
        self.at_end()?;
        Ok(Services { list })
    }

    /// The test of a whole file.
    #[tactic(auto, unfolding(crate::specs::FileReading::whole_test))]
    pub fn test(&mut self, alloc: Global) -> Result<Test, ParseError>
        ensures { Gives view_test self.new result (whole_test self.old) }
    {
        self.want_word(Reserved::Test)?;
        let name = self.name()?;
        let body = self.body(alloc)?;
        self.at_end()?;
        Ok(Test { name, body })
    }
}
