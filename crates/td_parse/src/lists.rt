//! Lists of expressions.
ghost use Rattle.std.specs.Prelude.{map};
ghost use Rattle.td_tree.specs.model.Grammar.{loosest};
ghost use Rattle.td_parse.specs.code.Nests.{Nests};
ghost use Rattle.td_parse.specs.code.Parsing.{Moves};
ghost use Rattle.td_parse.specs.code.Views.{named_part_view};
ghost use Rattle.td_tree.specs.model.Lexemes as lexeme;
ghost use Rattle.td_parse.specs.code.Reading as reading;
ghost use Rattle.td_parse.specs.code.Reading.{read};
ghost use Rattle.td_parse.specs.code.ReadingSteps.{in_braces_read, in_parentheses_read};
ghost use Rattle.td_parse.specs.code.ReadingSteps.{listed_to, list_by_commas};
ghost use Rattle.td_tree.specs.code.TreeViews.{tree_view};

use crate::cursor::{Cursor, SYNTAX};
use crate::found::Found;
use crate::grammar::Grammar;
use crate::names::{alias, name};
use crate::parts::{Elements, NamedParts};
use crate::steps::{item_closed_by, pair_of};
use std::alloc::Global;
use td_tree::fault::Fault;
use td_tree::name::Name;
use td_tree::operator::Level;
use td_tree::token::Sign;

impl<F: Fn(Global, u16, Level, &mut Cursor<'_, '_>) -> Result<Found, Fault>> Grammar<F> {
    /// `e,+`
    #[tactic(auto, unfolding(crate::specs::code::ReadingSteps::list_by_commas, crate::specs::code::ReadingSteps::separated_from))]
    pub fn elements(&self, tokens: &mut Cursor<'_, '_>) -> Result<Elements, Fault>
        requires { Nests self.now.depth (F.pre self.now.inner) (F.post self.now.inner) }
        ensures { Moves (map tree_view) result tokens.new
            (list_by_commas (read self.now.depth loosest) tokens.old) }
    {
        let mut items = Elements::new(self.alloc);
        let limit = tokens.turns();
        for _turn in 0..limit {
            items.push(self.expression(tokens)?)?;
            if !tokens.sign(Sign::Comma) {
                return Ok(items.complete());
            }
        }
        Err(SYNTAX)
    }

    /// `e,*` and the sign that closes them.
    #[tactic(auto, unfolding(crate::specs::code::ReadingSteps::listed_to, crate::specs::code::ReadingSteps::read_up_to))]
    pub fn elements_to(&self, close: Sign, tokens: &mut Cursor<'_, '_>) -> Result<Elements, Fault>
        requires { Nests self.now.depth (F.pre self.now.inner) (F.post self.now.inner) }
        ensures { Moves (map tree_view) result tokens.new
            (listed_to (lexeme.sign close) (read self.now.depth loosest) tokens.old) }
    {
        if tokens.sign(close) {
            return Ok(Elements::new(self.alloc));
        }
        let items = self.elements(tokens)?;
        item_closed_by(items, close, tokens)
    }

    /// `name e`
    #[tactic(auto, unfolding(crate::specs::code::Reading::part))]
    fn part(&self, tokens: &mut Cursor<'_, '_>) -> Result<(Name, Found), Fault>
        requires { Nests self.now.depth (F.pre self.now.inner) (F.post self.now.inner) }
        ensures { Moves (λ x. (x.0, tree_view x.1)) result tokens.new
            (reading.part (read self.now.depth) self.now.depth tokens.old) }
    {
        let name = name(self.alloc, tokens)?;
        let value = self.expression(tokens)?;
        Ok((name, value))
    }

    /// `(name e),+`
    #[tactic(auto, unfolding(crate::specs::code::ReadingSteps::list_by_commas, crate::specs::code::ReadingSteps::separated_from))]
    fn parts(&self, tokens: &mut Cursor<'_, '_>) -> Result<NamedParts, Fault>
        requires { Nests self.now.depth (F.pre self.now.inner) (F.post self.now.inner) }
        ensures { Moves (map named_part_view) result tokens.new
            (list_by_commas (reading.part (read self.now.depth) self.now.depth) tokens.old) }
    {
        let mut items = NamedParts::with_room(self.alloc, tokens.parts())?;
        let limit = tokens.turns();
        for _turn in 0..limit {
            let (name, value) = self.part(tokens)?;
            items.push(name, value)?;
            if !tokens.sign(Sign::Comma) {
                tokens.keep_parts(items.count());
                return Ok(items);
            }
        }
        Err(SYNTAX)
    }

    /// `(name e),* '}'`
    #[tactic(auto, unfolding(crate::specs::code::ReadingSteps::listed_to, crate::specs::code::ReadingSteps::read_up_to))]
    pub fn parts_to_brace(&self, tokens: &mut Cursor<'_, '_>) -> Result<NamedParts, Fault>
        requires { Nests self.now.depth (F.pre self.now.inner) (F.post self.now.inner) }
        ensures { Moves (map named_part_view) result tokens.new
            (listed_to (lexeme.sign Sign.CloseBrace)
            (reading.part (read self.now.depth) self.now.depth) tokens.old) }
    {
        if tokens.sign(Sign::CloseBrace) {
            return Ok(NamedParts::new(self.alloc));
        }
        let items = self.parts(tokens)?;
        item_closed_by(items, Sign::CloseBrace, tokens)
    }

    /// `e AS name`
    #[tactic(auto, unfolding(crate::specs::code::Reading::addition))]
    fn addition(&self, tokens: &mut Cursor<'_, '_>) -> Result<(Name, Found), Fault>
        requires { Nests self.now.depth (F.pre self.now.inner) (F.post self.now.inner) }
        ensures { Moves (λ x. (x.0, tree_view x.1)) result tokens.new
            (reading.addition (read self.now.depth) self.now.depth tokens.old) }
    {
        let value = self.expression(tokens)?;
        let (value, name) = pair_of(value, alias(self.alloc, tokens))?;
        Ok((name, value))
    }

    /// `(e AS name),+`
    #[tactic(auto, unfolding(crate::specs::code::ReadingSteps::list_by_commas, crate::specs::code::ReadingSteps::separated_from))]
    fn additions(&self, tokens: &mut Cursor<'_, '_>) -> Result<NamedParts, Fault>
        requires { Nests self.now.depth (F.pre self.now.inner) (F.post self.now.inner) }
        ensures { Moves (map named_part_view) result tokens.new
            (list_by_commas (reading.addition (read self.now.depth) self.now.depth) tokens.old) }
    {
        let mut items = NamedParts::new(self.alloc);
        let limit = tokens.turns();
        for _turn in 0..limit {
            let (name, value) = self.addition(tokens)?;
            items.push(name, value)?;
            if !tokens.sign(Sign::Comma) {
                return Ok(items);
            }
        }
        Err(SYNTAX)
    }

    /// `'(' (e AS name),+ ')'`
    #[tactic(auto, unfolding(crate::specs::code::ReadingSteps::in_parentheses_read, crate::specs::code::ReadingSteps::read_up_to))]
    pub fn enclosed_additions(&self, tokens: &mut Cursor<'_, '_>) -> Result<NamedParts, Fault>
        requires { Nests self.now.depth (F.pre self.now.inner) (F.post self.now.inner) }
        ensures { Moves (map named_part_view) result tokens.new
            (in_parentheses_read (list_by_commas (reading.addition (read self.now.depth)
            self.now.depth))
            tokens.old) }
    {
        tokens.expect_sign(Sign::OpenParenthesis)?;
        let items = self.additions(tokens)?;
        item_closed_by(items, Sign::CloseParenthesis, tokens)
    }

    /// `name ':=' e`
    #[tactic(auto, unfolding(crate::specs::code::Reading::setting))]
    fn setting(&self, tokens: &mut Cursor<'_, '_>) -> Result<(Name, Found), Fault>
        requires { Nests self.now.depth (F.pre self.now.inner) (F.post self.now.inner) }
        ensures { Moves (λ x. (x.0, tree_view x.1)) result tokens.new
            (reading.setting (read self.now.depth) self.now.depth tokens.old) }
    {
        let name = name(self.alloc, tokens)?;
        tokens.expect_sign(Sign::Assign)?;
        let value = self.expression(tokens)?;
        Ok((name, value))
    }

    /// `(name ':=' e),+`
    #[tactic(auto, unfolding(crate::specs::code::ReadingSteps::list_by_commas, crate::specs::code::ReadingSteps::separated_from))]
    fn settings(&self, tokens: &mut Cursor<'_, '_>) -> Result<NamedParts, Fault>
        requires { Nests self.now.depth (F.pre self.now.inner) (F.post self.now.inner) }
        ensures { Moves (map named_part_view) result tokens.new
            (list_by_commas (reading.setting (read self.now.depth) self.now.depth) tokens.old) }
    {
        let mut items = NamedParts::new(self.alloc);
        let limit = tokens.turns();
        for _turn in 0..limit {
            let (name, value) = self.setting(tokens)?;
            items.push(name, value)?;
            if !tokens.sign(Sign::Comma) {
                return Ok(items);
            }
        }
        Err(SYNTAX)
    }

    /// `'(' (name ':=' e),+ ')'`
    #[tactic(auto, unfolding(crate::specs::code::ReadingSteps::in_parentheses_read, crate::specs::code::ReadingSteps::read_up_to))]
    pub fn enclosed_settings(&self, tokens: &mut Cursor<'_, '_>) -> Result<NamedParts, Fault>
        requires { Nests self.now.depth (F.pre self.now.inner) (F.post self.now.inner) }
        ensures { Moves (map named_part_view) result tokens.new
            (in_parentheses_read (list_by_commas (reading.setting (read self.now.depth)
            self.now.depth))
            tokens.old) }
    {
        tokens.expect_sign(Sign::OpenParenthesis)?;
        let items = self.settings(tokens)?;
        item_closed_by(items, Sign::CloseParenthesis, tokens)
    }

    /// `'{' (name ':=' e),+ '}'`
    #[tactic(auto, unfolding(crate::specs::code::ReadingSteps::in_braces_read, crate::specs::code::ReadingSteps::read_up_to))]
    pub fn braced_settings(&self, tokens: &mut Cursor<'_, '_>) -> Result<NamedParts, Fault>
        requires { Nests self.now.depth (F.pre self.now.inner) (F.post self.now.inner) }
        ensures { Moves (map named_part_view) result tokens.new
            (in_braces_read (list_by_commas (reading.setting (read self.now.depth)
            self.now.depth))
            tokens.old) }
    {
        tokens.expect_sign(Sign::OpenBrace)?;
        let items = self.settings(tokens)?;
        item_closed_by(items, Sign::CloseBrace, tokens)
    }
}
