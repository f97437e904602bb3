//! Primary expressions.
ghost use Rattle.std.specs.Prelude.{◌≡◌, Some, None, nat_le, option_map, if◌then◌else◌};
ghost use Rattle.td_tree.specs.model.Grammar.{loosest};
ghost use Rattle.td_parse.specs.code.Nests.{Nests};
ghost use Rattle.td_parse.specs.code.Parsing.{Moves};
ghost use Rattle.td_tree.specs.model.Lexemes as lexeme;
ghost use Rattle.td_tree.specs.model.Numbers.{decimal_value, numeral_limit};
ghost use Rattle.td_tree.specs.model.Pieces.{kind_of};
ghost use Rattle.td_parse.specs.code.Reading as reading;
ghost use Rattle.td_parse.specs.code.Reading.{read};
ghost use Rattle.td_parse.specs.code.ReadingSteps.{read_up_to};
ghost use Rattle.std.specs.Rc.{rc_str_bytes};
ghost use Rattle.td_tree.specs.model.Symbols.{symbols};
ghost use Rattle.td_tree.specs.model.Trees as trees;
ghost use Rattle.td_tree.specs.code.TreeViews.{tree_view};

use crate::cursor::{Cursor, SYNTAX};
use crate::found::Found;
use crate::grammar::Grammar;
use crate::lone::number_literal;
use crate::operators::{begins_heading, call};
use crate::steps::{item_closed_by, item_ended_by, pair_of};
use crate::types::relation_heading;
use crate::word::{component_of, text_of};
use std::alloc::Global;
use std::rc::RcStr;
use td_tree::expression::Literal;
use td_tree::fault::Fault;
use td_tree::keyword::Keyword;
use td_tree::name::Name;
use td_tree::operator::{Aggregate, Level, Measure};
use td_tree::token::{Kind, Sign};

/// A number that a literal spells, after a minus or not.
fn numeral(minus: bool, text: &[u8]) -> Option<Found>
    requires { kind_of (symbols text.now) ≡ Some Kind.Number }
    ensures { option_map tree_view result
        ≡ (if nat_le (decimal_value text.now) (numeral_limit minus)
        then Some (trees.literal (trees.number minus (decimal_value text.now))) else None) }
{
    Some(Found::literal(number_literal(minus, text)?))
}

/// After `-`: a number.
#[tactic(auto, unfolding(crate::specs::code::Reading::negative, crate::specs::code::Reading::numeral))]
fn negative(tokens: &mut Cursor<'_, '_>) -> Result<Found, Fault>
    ensures { Moves tree_view result tokens.new (reading.negative tokens.old) }
{
    match tokens.take() {
        Some((Kind::Number, text)) => numeral(true, text).ok_or(SYNTAX),
        _ => Err(SYNTAX),
    }
}

impl<F: Fn(Global, u16, Level, &mut Cursor<'_, '_>) -> Result<Found, Fault>> Grammar<F> {
    /// `e` and the sign that closes it.
    #[tactic(auto, unfolding(crate::specs::code::ReadingSteps::read_up_to))]
    pub fn up_to_sign(&self, close: Sign, tokens: &mut Cursor<'_, '_>) -> Result<Found, Fault>
        requires { Nests self.now.depth (F.pre self.now.inner) (F.post self.now.inner) }
        ensures { Moves tree_view result tokens.new
            (read_up_to (lexeme.sign close) (read self.now.depth loosest) tokens.old) }
    {
        let found = self.expression(tokens)?;
        item_closed_by(found, close, tokens)
    }

    /// `e` and the word that closes it.
    #[tactic(auto, unfolding(crate::specs::code::ReadingSteps::read_up_to))]
    fn up_to_word(&self, close: Keyword, tokens: &mut Cursor<'_, '_>) -> Result<Found, Fault>
        requires { Nests self.now.depth (F.pre self.now.inner) (F.post self.now.inner) }
        ensures { Moves tree_view result tokens.new
            (read_up_to (lexeme.keyword close) (read self.now.depth loosest) tokens.old) }
    {
        let found = self.expression(tokens)?;
        item_ended_by(found, close, tokens)
    }

    /// After a name: it stands alone, or selects a value of a type.
    #[tactic(auto, unfolding(crate::specs::code::Reading::name_expression))]
    fn name_expression(&self, name: Name, tokens: &mut Cursor<'_, '_>) -> Result<Found, Fault>
        requires { Nests self.now.depth (F.pre self.now.inner) (F.post self.now.inner) }
        ensures { Moves tree_view result tokens.new
            (reading.name_expression (read self.now.depth) self.now.depth name tokens.old) }
    {
        if call(tokens) {
            let arguments = self.elements_to(Sign::CloseParenthesis, tokens)?;
            Ok(Found::select(name, arguments))
        } else {
            Ok(Found::name(name))
        }
    }

    /// After a THE word.
    #[tactic(auto, unfolding(crate::specs::code::Reading::component_of))]
    fn component(&self, rest: RcStr, tokens: &mut Cursor<'_, '_>) -> Result<Found, Fault>
        requires { Nests self.now.depth (F.pre self.now.inner) (F.post self.now.inner) }
        ensures { Moves tree_view result tokens.new
            (reading.component_of (read self.now.depth) self.now.depth
            (rc_str_bytes rest) tokens.old) }
    {
        let operand = self.enclosed_expression(tokens)?;
        Ok(Found::component(self.alloc, rest, operand)?)
    }

    /// After `(`.
    #[tactic(auto, unfolding(crate::specs::code::Reading::parenthesis_expression))]
    fn parenthesis_expression(&self, tokens: &mut Cursor<'_, '_>) -> Result<Found, Fault>
        requires { Nests self.now.depth (F.pre self.now.inner) (F.post self.now.inner) }
        ensures { Moves tree_view result tokens.new
            (reading.parenthesis_expression (read self.now.depth) self.now.depth tokens.old) }
    {
        let inner = self.up_to_sign(Sign::CloseParenthesis, tokens)?;
        Ok(Found::parentheses(self.alloc, inner)?)
    }

    /// After `COUNT` or `IS_EMPTY`.
    #[tactic(auto, unfolding(crate::specs::code::Reading::measure_expression))]
    fn measure_expression(&self, op: Measure, tokens: &mut Cursor<'_, '_>) -> Result<Found, Fault>
        requires { Nests self.now.depth (F.pre self.now.inner) (F.post self.now.inner) }
        ensures { Moves tree_view result tokens.new
            (reading.measure_expression (read self.now.depth) self.now.depth op tokens.old) }
    {
        let operand = self.enclosed_expression(tokens)?;
        Ok(Found::measure(self.alloc, op, operand)?)
    }

    /// After `SUM`, `MAX` or `MIN`.
    #[tactic(auto, unfolding(crate::specs::code::Reading::aggregate_expression))]
    fn aggregate_expression(
        &self,
        op: Aggregate,
        tokens: &mut Cursor<'_, '_>,
    ) -> Result<Found, Fault>
        requires { Nests self.now.depth (F.pre self.now.inner) (F.post self.now.inner) }
        ensures { Moves tree_view result tokens.new
            (reading.aggregate_expression (read self.now.depth) self.now.depth op tokens.old) }
    {
        tokens.expect_sign(Sign::OpenParenthesis)?;
        let operand = self.up_to_sign(Sign::Comma, tokens)?;
        let value = self.up_to_sign(Sign::CloseParenthesis, tokens);
        let (operand, value) = pair_of(operand, value)?;
        Ok(Found::aggregate(self.alloc, op, operand, value)?)
    }

    /// `heading '{' e,* '}'`
    #[tactic(auto, unfolding(crate::specs::code::Reading::headed_relation))]
    fn headed_relation(&self, tokens: &mut Cursor<'_, '_>) -> Result<Found, Fault>
        requires { Nests self.now.depth (F.pre self.now.inner) (F.post self.now.inner) }
        ensures { Moves tree_view result tokens.new
            (reading.headed_relation (read self.now.depth) self.now.depth tokens.old) }
    {
        let heading = relation_heading(self.alloc, self.depth, tokens)?;
        tokens.expect_sign(Sign::OpenBrace)?;
        let elements = self.elements_to(Sign::CloseBrace, tokens)?;
        Ok(Found::headed_relation(heading, elements))
    }

    /// `'{' e,+ '}'`
    #[tactic(auto, unfolding(crate::specs::code::Reading::elements, crate::specs::code::ReadingSteps::read_up_to))]
    fn bare_relation(&self, tokens: &mut Cursor<'_, '_>) -> Result<Found, Fault>
        requires { Nests self.now.depth (F.pre self.now.inner) (F.post self.now.inner) }
        ensures { Moves tree_view result tokens.new
            (reading.elements (read self.now.depth) self.now.depth tokens.old) }
    {
        tokens.expect_sign(Sign::OpenBrace)?;
        let elements = self.elements(tokens)?;
        let elements = item_closed_by(elements, Sign::CloseBrace, tokens)?;
        Ok(Found::relation(elements))
    }

    /// After `RELATION`.
    #[tactic(auto, unfolding(crate::specs::code::Reading::relation))]
    fn relation(&self, tokens: &mut Cursor<'_, '_>) -> Result<Found, Fault>
        requires { Nests self.now.depth (F.pre self.now.inner) (F.post self.now.inner) }
        ensures { Moves tree_view result tokens.new
            (reading.relation (read self.now.depth) self.now.depth tokens.old) }
    {
        if begins_heading(tokens) {
            self.headed_relation(tokens)
        } else {
            self.bare_relation(tokens)
        }
    }

    /// After `TUPLE`.
    #[tactic(auto, unfolding(crate::specs::code::Reading::tuple))]
    fn tuple(&self, tokens: &mut Cursor<'_, '_>) -> Result<Found, Fault>
        requires { Nests self.now.depth (F.pre self.now.inner) (F.post self.now.inner) }
        ensures { Moves tree_view result tokens.new
            (reading.tuple (read self.now.depth) self.now.depth tokens.old) }
    {
        tokens.expect_sign(Sign::OpenBrace)?;
        Ok(Found::tuple(self.parts_to_brace(tokens)?))
    }

    /// After `EXTEND e ADD`.
    #[tactic(auto, unfolding(crate::specs::code::Reading::extension_adding))]
    fn extension_adding(&self, operand: Found, tokens: &mut Cursor<'_, '_>) -> Result<Found, Fault>
        requires { Nests self.now.depth (F.pre self.now.inner) (F.post self.now.inner) }
        ensures { Moves tree_view result tokens.new
            (reading.extension_adding (read self.now.depth) self.now.depth
            (tree_view operand) tokens.old) }
    {
        let (operand, additions) = pair_of(operand, self.enclosed_additions(tokens))?;
        Ok(Found::extend(self.alloc, operand, additions)?)
    }

    /// After `EXTEND e :`.
    #[tactic(auto, unfolding(crate::specs::code::Reading::extension_setting))]
    fn extension_setting(&self, operand: Found, tokens: &mut Cursor<'_, '_>) -> Result<Found, Fault>
        requires { Nests self.now.depth (F.pre self.now.inner) (F.post self.now.inner) }
        ensures { Moves tree_view result tokens.new
            (reading.extension_setting (read self.now.depth) self.now.depth
            (tree_view operand) tokens.old) }
    {
        let (operand, settings) = pair_of(operand, self.braced_settings(tokens))?;
        Ok(Found::extend_setting(self.alloc, operand, settings)?)
    }

    /// After `EXTEND`.
    #[tactic(auto, unfolding(crate::specs::code::Reading::extension))]
    fn extension(&self, tokens: &mut Cursor<'_, '_>) -> Result<Found, Fault>
        requires { Nests self.now.depth (F.pre self.now.inner) (F.post self.now.inner) }
        ensures { Moves tree_view result tokens.new
            (reading.extension (read self.now.depth) self.now.depth tokens.old) }
    {
        let operand = self.expression(tokens)?;
        if tokens.sign(Sign::Colon) {
            return self.extension_setting(operand, tokens);
        }
        let operand = item_ended_by(operand, Keyword::Add, tokens)?;
        self.extension_adding(operand, tokens)
    }

    /// After `IF`.
    #[tactic(auto, unfolding(crate::specs::code::Reading::choice))]
    fn choice(&self, tokens: &mut Cursor<'_, '_>) -> Result<Found, Fault>
        requires { Nests self.now.depth (F.pre self.now.inner) (F.post self.now.inner) }
        ensures { Moves tree_view result tokens.new
            (reading.choice (read self.now.depth) self.now.depth tokens.old) }
    {
        let condition = self.up_to_word(Keyword::Then, tokens)?;
        let consequent = self.up_to_word(Keyword::Else, tokens);
        let parts = pair_of(condition, consequent)?;
        let parts = pair_of(parts, self.up_to_word(Keyword::End, tokens))?;
        let ((condition, consequent), alternative) = item_ended_by(parts, Keyword::If, tokens)?;
        Ok(Found::choice(self.alloc, condition, consequent, alternative)?)
    }

    /// After its first word.
    #[tactic(auto, unfolding(crate::specs::code::Reading::primary_of_word))]
    fn primary_of_word(&self, word: Keyword, tokens: &mut Cursor<'_, '_>) -> Result<Found, Fault>
        requires { Nests self.now.depth (F.pre self.now.inner) (F.post self.now.inner) }
        ensures { Moves tree_view result tokens.new
            (reading.primary_of_word (read self.now.depth) self.now.depth word tokens.old) }
    {
        match word {
            Keyword::True => Ok(Found::literal(Literal::Truth(true))),
            Keyword::False => Ok(Found::literal(Literal::Truth(false))),
            Keyword::TableDee => Ok(Found::literal(Literal::TableDee)),
            Keyword::TableDum => Ok(Found::literal(Literal::TableDum)),
            Keyword::Count => self.measure_expression(Measure::Count, tokens),
            Keyword::IsEmpty => self.measure_expression(Measure::IsEmpty, tokens),
            Keyword::Sum => self.aggregate_expression(Aggregate::Sum, tokens),
            Keyword::Max => self.aggregate_expression(Aggregate::Max, tokens),
            Keyword::Min => self.aggregate_expression(Aggregate::Min, tokens),
            Keyword::Relation => self.relation(tokens),
            Keyword::Tuple => self.tuple(tokens),
            Keyword::Extend => self.extension(tokens),
            Keyword::Summarize => self.summarize_expression(tokens),
            Keyword::If => self.choice(tokens),
            _ => Err(SYNTAX),
        }
    }

    /// An expression that needs no other to be whole.
    #[tactic(auto, unfolding(crate::specs::code::Reading::primary, crate::specs::code::Reading::primary_of_sign, crate::specs::code::Reading::numeral))]
    pub fn primary(&self, tokens: &mut Cursor<'_, '_>) -> Result<Found, Fault>
        requires { Nests self.now.depth (F.pre self.now.inner) (F.post self.now.inner) }
        ensures { Moves tree_view result tokens.new
            (reading.primary (read self.now.depth) self.now.depth tokens.old) }
    {
        let Some((kind, text)) = tokens.take() else {
            return Err(SYNTAX);
        };
        match kind {
            Kind::Reserved(word) => self.primary_of_word(word, tokens),
            Kind::Sign(Sign::OpenParenthesis) => self.parenthesis_expression(tokens),
            Kind::Sign(Sign::Minus) => negative(tokens),
            Kind::Name => self.name_expression(tokens.name_of(self.alloc, text)?, tokens),
            Kind::Component => self.component(component_of(self.alloc, text)?, tokens),
            Kind::Number => numeral(false, text).ok_or(SYNTAX),
            Kind::Text => Ok(Found::literal(Literal::Text(text_of(self.alloc, text)?))),
            _ => Err(SYNTAX),
        }
    }
}
