ghost use Rattle.std.specs.Prelude.{◌≡◌, ◌<◌, IfOk};
ghost use Rattle.fb_syntax.specs.Input.{found_at};
ghost use Rattle.fb_syntax.specs.TokenKinds.{is_word, by_sign, comparison_sign, series_operator, junction_word};
ghost use Rattle.fb_syntax.specs.Reading.{Gives, open_level, open_sign, with_front, further, items};
ghost use Rattle.fb_syntax.specs.Keywords.{reserved_of};
ghost use Rattle.fb_syntax.specs.Views.{view_expr, view_items, view_rest};
ghost use Rattle.fb_syntax.specs.ExpressionReading.{base_kind, list_head, injected_on, beyond_limit, links, all_others, deeper_at, levels_at, parenthesized, length_of, list_literal, word_atom, atom, post, unary, chained, series_operand, comparison, neg, joined_by, junction_operand, expr};

use crate::expr::{Expr, Link};
use crate::levels::{Junction, Series};
use crate::parse_error::{ParseError, ParseWhy};
use crate::parser::Parser;
use crate::reserved::Reserved;
use crate::sign::Sign;
use crate::token::What;
use fb_base::{Kind, Name, Op2};
use std::alloc::Global;

/// The most operands of a chain, and the most items of a list.
const LONGEST_LIST: u32 = 1_024;

impl<'a> Parser<'a> {
    /// The comparison that comes.
    fn comparison_sign(&self) -> Option<Op2>
        ensures { result ≡ found_at (by_sign comparison_sign) self.now }
    {
        match self.first() {
            Some(what) => what.comparison(),
            None => None,
        }
    }

    /// The operator of this level that comes.
    fn operator(&self, series: Series) -> Option<Op2>
        ensures { result ≡ found_at (series_operator series) self.now }
    {
        match self.first() {
            Some(what) => what.operator(series),
            None => None,
        }
    }

    /// The kind of a list's items.
    #[tactic(auto, unfolding(crate::specs::ExpressionReading::base_kind))]
    pub fn base_kind(&mut self) -> Result<Kind, ParseError>
        ensures { Gives (λ kind. kind) self.new result (base_kind self.old) }
    {
        let Some(first) = self.first() else {
            return self.unexpected();
        };
        match first.base() {
            Some(kind) => {
                self.step();
                Ok(kind)
            }
            None => self.unexpected(),
        }
    }

    /// `list < base >`, where `list` has come.
    #[tactic(auto, unfolding(crate::specs::ExpressionReading::list_head))]
    pub fn list_head(&mut self) -> Result<Kind, ParseError>
        ensures { Gives (λ kind. kind) self.new result (list_head self.old) }
    {
        self.step();
        self.want_sign(Sign::Less)?;
        let base = self.base_kind()?;
        self.want_sign(Sign::Greater)?;
        Ok(base)
    }

    #[tactic(auto, unfolding(crate::specs::ExpressionReading::injected_on, crate::specs::Views::view_expr))]
    fn injected_on(&mut self) -> Result<Expr, ParseError>
        ensures { Gives view_expr self.new result (injected_on self.old) }
    {
        self.step();
        let service = self.name()?;
        if !self.comes_sign(Sign::Dot) {
            return Ok(Expr::InjectedOn {
                service,
                method: None,
            });
        }
        self.step();
        let method = self.name()?;
        Ok(Expr::InjectedOn {
            service,
            method: Some(method),
        })
    }

    /// Goes behind a token that opens, and gives how many more may then be opened.
    #[tactic(auto, unfolding(crate::specs::Reading::open_level, crate::specs::ExpressionReading::deeper_at))]
    fn open(&mut self, depth: u32) -> Result<u32, ParseError>
        ensures opened { Gives levels_at self.new result (open_level (deeper_at depth) self.old) }
        ensures less { IfOk result (λ inner. inner < depth) }
    {
        if depth == 0 {
            return self.too_deep();
        }
        self.step();
        Ok(depth - 1)
    }

    #[tactic(auto, unfolding(crate::specs::Reading::open_sign))]
    fn open_sign(&mut self, opening: Sign, depth: u32) -> Result<u32, ParseError>
        ensures opened { Gives levels_at self.new result (open_sign opening (deeper_at depth) self.old) }
        ensures less { IfOk result (λ inner. inner < depth) }
    {
        if !self.comes_sign(opening) {
            return self.unexpected();
        }
        self.open(depth)
    }

    /// Why an expression is refused that goes beyond a limit.
    #[tactic(auto, unfolding(crate::specs::ExpressionReading::beyond_limit, crate::specs::ExpressionReading::deeper_at, crate::specs::Input::comes))]
    fn beyond(&self, depth: u32) -> ParseWhy
        ensures { result ≡ beyond_limit (deeper_at depth) self.now }
    {
        let offset = self.place();
        let Some(first) = self.first() else {
            return ParseWhy::Unexpected { offset };
        };
        if !first.begins_expr() {
            return ParseWhy::Unexpected { offset };
        }
        if depth == 0 && first.opens() {
            return ParseWhy::TooDeep { offset };
        }
        ParseWhy::TooMany { offset }
    }
}

/// The grammar, from the loosest operators down to the atoms. So many tokens may still be opened as `depth` says.
impl<'a> Parser<'a> {
    #[cycle(expr)]
    #[tactic(auto, unfolding(crate::specs::ExpressionReading::expr))]
    pub fn expr(&mut self, alloc: Global, depth: u32) -> Result<Expr, ParseError>
        ensures { Gives view_expr self.new result (expr (deeper_at depth) self.old) }
    {
        self.joined(alloc, depth, Junction::Or)
    }

    /// Operands with a word between them.
    #[cycle(expr)]
    fn joined(&mut self, alloc: Global, depth: u32, junction: Junction) -> Result<Expr, ParseError>
        ensures { Gives view_expr self.new result (joined_by junction (junction_operand (deeper_at depth) junction) self.old) }
    {
        let first = self.junction_operand(alloc, depth, junction)?;
        if !self.comes_word(junction.word()) {
            return Ok(first);
        }
        let mut operands = Vec::new(alloc);
        operands.push(first)?;
        let operands = self.others(alloc, depth, junction, operands)?;
        Ok(junction.joined(operands))
    }

    /// Further operands, each behind the word that joins them.
    #[cycle(expr)]
    fn others(
        &mut self,
        alloc: Global,
        depth: u32,
        junction: Junction,
        mut operands: Vec<Expr>,
    ) -> Result<Vec<Expr>, ParseError>
        ensures { Gives view_items self.new result (with_front (view_items operands) (all_others (is_word (junction_word junction)) (junction_operand (deeper_at depth) junction)) self.old) }
    {
        'operands: while self.comes_word(junction.word()) {
            self.step();
            let operand = self.junction_operand(alloc, depth, junction)?;
            operands.push(operand)?;
        }
        Ok(operands)
    }

    #[cycle(expr)]
    #[tactic(auto, unfolding(crate::specs::ExpressionReading::conjunction))]
    fn junction_operand(
        &mut self,
        alloc: Global,
        depth: u32,
        junction: Junction,
    ) -> Result<Expr, ParseError>
        ensures { Gives view_expr self.new result (junction_operand (deeper_at depth) junction self.old) }
    {
        match junction {
            Junction::And => self.neg(alloc, depth),
            Junction::Or => self.joined(alloc, depth, Junction::And),
        }
    }

    #[cycle(expr)]
    #[tactic(auto, unfolding(crate::specs::ExpressionReading::neg, crate::specs::Views::view_expr))]
    fn neg(&mut self, alloc: Global, depth: u32) -> Result<Expr, ParseError>
        ensures { Gives view_expr self.new result (neg (deeper_at depth) self.old) }
    {
        if !self.comes_word(Reserved::Not) {
            return self.comparison(alloc, depth);
        }
        let inner = self.open(depth)?;
        let operand = self.neg(alloc, inner)?;
        Ok(Expr::Not(Box::new(alloc, operand)?))
    }

    #[cycle(expr)]
    #[tactic(auto, unfolding(crate::specs::ExpressionReading::comparison, crate::specs::ExpressionReading::sum, crate::specs::Views::view_expr))]
    fn comparison(&mut self, alloc: Global, depth: u32) -> Result<Expr, ParseError>
        ensures { Gives view_expr self.new result (comparison (deeper_at depth) self.old) }
    {
        let left = self.chained(alloc, depth, Series::Sum)?;
        let Some(op) = self.comparison_sign() else {
            return Ok(left);
        };
        self.step();
        let right = self.chained(alloc, depth, Series::Sum)?;
        Ok(Expr::Compare {
            op,
            left: Box::new(alloc, left)?,
            right: Box::new(alloc, right)?,
        })
    }

    /// Operators of one level between operands.
    #[cycle(expr)]
    #[tactic(auto, using(crate::specs::ViewEquations::view_chain))]
    fn chained(&mut self, alloc: Global, depth: u32, series: Series) -> Result<Expr, ParseError>
        ensures { Gives view_expr self.new result (chained (series_operator series) (series_operand (deeper_at depth) series) self.old) }
    {
        let first = self.series_operand(alloc, depth, series)?;
        if self.operator(series).is_none() {
            return Ok(first);
        }
        let rest = self.links(alloc, depth, series, LONGEST_LIST - 1)?;
        Ok(Expr::Chain {
            first: Box::new(alloc, first)?,
            rest,
        })
    }

    /// Further operands, each behind an operator: so many at most.
    #[cycle(expr)]
    #[tactic(auto, unfolding(crate::specs::ExpressionReading::links))]
    fn links(
        &mut self,
        alloc: Global,
        depth: u32,
        series: Series,
        mut room: u32,
    ) -> Result<Vec<Link>, ParseError>
        ensures { Gives view_rest self.new result (links room (series_operator series) (series_operand (deeper_at depth) series) self.old) }
    {
        let mut links = Vec::new(alloc);
        'operands: while let Some(op) = self.operator(series) {
            if room == 0 {
                return self.too_many();
            }
            room -= 1;
            self.step();
            let right = self.series_operand(alloc, depth, series)?;
            links.push(Link { op, right })?;
        }
        Ok(links)
    }

    #[cycle(expr)]
    #[tactic(auto, unfolding(crate::specs::ExpressionReading::product))]
    fn series_operand(
        &mut self,
        alloc: Global,
        depth: u32,
        series: Series,
    ) -> Result<Expr, ParseError>
        ensures { Gives view_expr self.new result (series_operand (deeper_at depth) series self.old) }
    {
        match series {
            Series::Sum => self.chained(alloc, depth, Series::Product),
            Series::Product => self.unary(alloc, depth),
        }
    }

    #[cycle(expr)]
    #[tactic(auto, unfolding(crate::specs::ExpressionReading::unary, crate::specs::Views::view_expr))]
    fn unary(&mut self, alloc: Global, depth: u32) -> Result<Expr, ParseError>
        ensures { Gives view_expr self.new result (unary (deeper_at depth) self.old) }
    {
        if !self.comes_sign(Sign::Minus) {
            return self.post(alloc, depth);
        }
        let inner = self.open(depth)?;
        let operand = self.unary(alloc, inner)?;
        Ok(Expr::Neg(Box::new(alloc, operand)?))
    }

    #[cycle(expr)]
    #[tactic(auto, unfolding(crate::specs::ExpressionReading::post, crate::specs::Views::view_expr))]
    fn post(&mut self, alloc: Global, depth: u32) -> Result<Expr, ParseError>
        ensures { Gives view_expr self.new result (post (deeper_at depth) self.old) }
    {
        let list = self.atom(alloc, depth)?;
        if !self.comes_sign(Sign::OpenBracket) {
            return Ok(list);
        }
        let inner = self.open(depth)?;
        let place = self.expr(alloc, inner)?;
        self.want_sign(Sign::CloseBracket)?;
        Ok(Expr::At {
            list: Box::new(alloc, list)?,
            place: Box::new(alloc, place)?,
        })
    }

    #[cycle(expr)]
    #[tactic(auto, unfolding(crate::specs::ExpressionReading::atom, crate::specs::ExpressionReading::atom_by, crate::specs::Views::view_expr))]
    fn atom(&mut self, alloc: Global, depth: u32) -> Result<Expr, ParseError>
        ensures { Gives view_expr self.new result (atom (deeper_at depth) self.old) }
    {
        let Some(first) = self.first() else {
            return self.unexpected();
        };
        match first {
            What::Int(number) => {
                let number = *number;
                self.step();
                Ok(Expr::Int(number))
            }
            What::Text(text) => {
                let text = text.copy(alloc)?;
                self.step();
                Ok(Expr::Text(text))
            }
            What::Sign(_) => self.parenthesized(alloc, depth),
            What::Word(word) => {
                let word = *word;
                self.word_atom(alloc, depth, word)
            }
        }
    }

    /// By the word that comes.
    #[cycle(expr)]
    #[tactic(auto, unfolding(crate::specs::ExpressionReading::word_atom, crate::specs::ExpressionReading::length_of, crate::specs::Views::view_expr))]
    fn word_atom(&mut self, alloc: Global, depth: u32, word: Name) -> Result<Expr, ParseError>
        ensures { Gives view_expr self.new result (word_atom (deeper_at depth) word (reserved_of word) self.old) }
    {
        match Reserved::of(word.bytes()) {
            None => {
                self.step();
                Ok(Expr::Var(word))
            }
            Some(Reserved::True) => {
                self.step();
                Ok(Expr::Bool(true))
            }
            Some(Reserved::False) => {
                self.step();
                Ok(Expr::Bool(false))
            }
            Some(Reserved::Injected) => {
                self.step();
                Ok(Expr::Injected)
            }
            Some(Reserved::InjectedOn) => self.injected_on(),
            Some(Reserved::Len) => {
                self.step();
                let inner = self.parenthesized(alloc, depth)?;
                Ok(Expr::Len(Box::new(alloc, inner)?))
            }
            Some(Reserved::List) => self.list_literal(alloc, depth),
            Some(_) => self.unexpected(),
        }
    }

    #[cycle(expr)]
    #[tactic(auto, unfolding(crate::specs::ExpressionReading::parenthesized))]
    fn parenthesized(&mut self, alloc: Global, depth: u32) -> Result<Expr, ParseError>
        ensures { Gives view_expr self.new result (parenthesized (deeper_at depth) self.old) }
    {
        let inner = self.open_sign(Sign::OpenParen, depth)?;
        let whole = self.expr(alloc, inner)?;
        self.want_sign(Sign::CloseParen)?;
        Ok(whole)
    }

    #[cycle(expr)]
    #[tactic(auto, using(crate::specs::ViewEquations::view_list), unfolding(crate::specs::ExpressionReading::list_literal))]
    fn list_literal(&mut self, alloc: Global, depth: u32) -> Result<Expr, ParseError>
        ensures { Gives view_expr self.new result (list_literal (deeper_at depth) self.old) }
    {
        let base = self.list_head()?;
        let inner = self.open_sign(Sign::OpenBracket, depth)?;
        let items = self.items(alloc, inner, LONGEST_LIST, Sign::CloseBracket)?;
        self.want_sign(Sign::CloseBracket)?;
        Ok(Expr::List { base, items })
    }

    /// Items with commas between them, so many at most, up to the sign that closes them.
    #[cycle(expr)]
    #[tactic(auto, unfolding(crate::specs::Reading::items))]
    pub fn items(
        &mut self,
        alloc: Global,
        depth: u32,
        limit: u32,
        closing: Sign,
    ) -> Result<Vec<Expr>, ParseError>
        requires { 0 < limit }
        ensures { Gives view_items self.new result (items limit closing (levels_at depth).beyond (levels_at depth).expr self.old) }
    {
        let mut items = Vec::new(alloc);
        if self.comes_sign(closing) {
            return Ok(items);
        }
        let first = self.expr(alloc, depth)?;
        items.push(first)?;
        self.further(alloc, depth, limit - 1, items)
    }

    /// Further items, each behind a comma.
    #[cycle(expr)]
    #[tactic(auto, unfolding(crate::specs::Reading::repeated))]
    fn further(
        &mut self,
        alloc: Global,
        depth: u32,
        mut room: u32,
        mut items: Vec<Expr>,
    ) -> Result<Vec<Expr>, ParseError>
        ensures { Gives view_items self.new result (with_front (view_items items) (further room (levels_at depth).beyond (levels_at depth).expr) self.old) }
    {
        'items: while self.comes_sign(Sign::Comma) {
            self.step();
            if room == 0 {
                return Err(ParseError::Refused(self.beyond(depth)));
            }
            room -= 1;
            let item = self.expr(alloc, depth)?;
            items.push(item)?;
        }
        Ok(items)
    }
}
