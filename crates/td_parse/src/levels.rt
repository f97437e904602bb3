//! Expressions by precedence: an operand, and what stands between operands, the tightest first.
ghost use Rattle.std.specs.Prelude.{suc};
ghost use Rattle.td_parse.specs.code.Nests.{Nests};
ghost use Rattle.td_parse.specs.code.Parsing.{Moves};
ghost use Rattle.td_parse.specs.code.Reading as reading;
ghost use Rattle.td_parse.specs.code.Reading.{read};
ghost use Rattle.td_parse.specs.code.Walking.{tightness, walk, walk_from, infix_expression};
ghost use Rattle.td_parse.specs.code.Walking.{tuple_operand, tuple_parts};
ghost use Rattle.td_tree.specs.code.TreeViews.{tree_view};

use crate::cursor::{Cursor, SYNTAX};
use crate::found::Found;
use crate::grammar::Grammar;
use crate::lone::{ends, lone_literal, opens_tuple};
use crate::operators::{extraction, negation, next_infix, prefix, tighter};
use crate::postfix::{begins_postfix, postfix};
use crate::steps::{item_closed_by, item_if, pair_of};
use std::alloc::Global;
use td_tree::fault::Fault;
use td_tree::keyword::Keyword;
use td_tree::operator::{Level, Prefix};
use td_tree::token::Sign;

impl<F: Fn(Global, u16, Level, &mut Cursor<'_, '_>) -> Result<Found, Fault>> Grammar<F> {
    /// Goes on with operators behind the operand.
    #[tactic(auto, unfolding(crate::specs::code::Reading::postfixes))]
    fn postfixes(&self, first: Found, tokens: &mut Cursor<'_, '_>) -> Result<Found, Fault>
        ensures { Moves tree_view result tokens.new
            (reading.postfixes (read self.now.depth) self.now.depth (suc self.now.depth)
            (tree_view first) tokens.old) }
    {
        let mut left = first;
        let limit = u64::from(self.depth) + 1;
        for _turn in 0..limit {
            if !begins_postfix(tokens) {
                return Ok(left);
            }
            let op = postfix(self.alloc, tokens);
            let (operand, op) = pair_of(left, op)?;
            left = self.low(Found::postfix(self.alloc, operand, op)?)?;
        }
        item_if(left, false)
    }

    /// A primary expression with what stands behind it.
    #[tactic(auto, unfolding(crate::specs::code::Reading::postfix_expression))]
    fn postfix_expression(&self, tokens: &mut Cursor<'_, '_>) -> Result<Found, Fault>
        requires { Nests self.now.depth (F.pre self.now.inner) (F.post self.now.inner) }
        ensures { Moves tree_view result tokens.new
            (reading.postfix_expression (read self.now.depth) self.now.depth tokens.old) }
    {
        let first = self.primary(tokens)?;
        self.postfixes(first, tokens)
    }

    /// After an operator that stands before its operand, which is at this level.
    #[tactic(auto, unfolding(crate::specs::code::Reading::prefix_expression))]
    fn prefix_expression(
        &self,
        level: Level,
        op: Prefix,
        tokens: &mut Cursor<'_, '_>,
    ) -> Result<Found, Fault>
        requires { Nests self.now.depth (F.pre self.now.inner) (F.post self.now.inner) }
        ensures { Moves tree_view result tokens.new
            (reading.prefix_expression (read self.now.depth) self.now.depth level op tokens.old) }
    {
        let operand = self.inner(level, tokens)?;
        Ok(Found::prefix(self.alloc, op, operand)?)
    }

    /// An operator before its operand, an extraction, or an operand that has neither.
    #[tactic(auto, unfolding(crate::specs::code::Reading::unary_expression, crate::specs::code::Reading::extract_expression))]
    fn unary_expression(&self, tokens: &mut Cursor<'_, '_>) -> Result<Found, Fault>
        requires { Nests self.now.depth (F.pre self.now.inner) (F.post self.now.inner) }
        ensures { Moves tree_view result tokens.new
            (reading.unary_expression (read self.now.depth) self.now.depth tokens.old) }
    {
        if let Some(op) = prefix(tokens) {
            return self.prefix_expression(Level::Prefixed, op, tokens);
        }
        let Some(attribute) = extraction(self.alloc, tokens)? else {
            return self.postfix_expression(tokens);
        };
        let operand = self.inner(Level::Prefixed, tokens)?;
        Ok(Found::extract(self.alloc, attribute, operand)?)
    }

    /// Goes on with what stands between operands at these levels, the tightest first.
    #[tactic(auto, unfolding(crate::specs::code::Walking::walk))]
    fn walk(
        &self,
        loosest: Level,
        mut tightest: Level,
        first: Found,
        tokens: &mut Cursor<'_, '_>,
    ) -> Result<Found, Fault>
        requires { Nests self.now.depth (F.pre self.now.inner) (F.post self.now.inner) }
        ensures { Moves tree_view result tokens.new
            (walk (read self.now.depth) self.now.depth (tightness loosest) (suc self.now.depth)
            (tightness tightest) (tree_view first) tokens.old) }
    {
        let mut left = first;
        let limit = u64::from(self.depth) + 1;
        for _turn in 0..limit {
            let Some(op) = next_infix(loosest, tightest, tokens) else {
                return Ok(left);
            };
            let right = self.inner(tighter(op.level()), tokens);
            let (operand, right) = pair_of(left, right)?;
            left = self.low(Found::of_infix(self.alloc, operand, op, right)?)?;
            tightest = op.tightest_after();
        }
        item_if(left, false)
    }

    /// An expression with operators between operands: its first operand, and then the walk.
    #[tactic(auto, unfolding(crate::specs::code::Walking::infix_expression))]
    fn infix_expression(&self, level: Level, tokens: &mut Cursor<'_, '_>) -> Result<Found, Fault>
        requires { Nests self.now.depth (F.pre self.now.inner) (F.post self.now.inner) }
        ensures { Moves tree_view result tokens.new
            (infix_expression (read self.now.depth) self.now.depth level tokens.old) }
    {
        if negation(level, tokens) {
            let first = self.prefix_expression(Level::Negation, Prefix::Not, tokens)?;
            return self.walk(level, Level::Negation, first, tokens);
        }
        let first = self.unary_expression(tokens)?;
        self.walk(level, Level::Multiplicative, first, tokens)
    }

    /// After `TUPLE {`: the tuple.
    #[tactic(auto, unfolding(crate::specs::code::Walking::tuple_parts))]
    fn tuple_parts(&self, tokens: &mut Cursor<'_, '_>) -> Result<Found, Fault>
        requires { Nests self.now.depth (F.pre self.now.inner) (F.post self.now.inner) }
        ensures { Moves tree_view result tokens.new
            (tuple_parts (read self.now.depth) self.now.depth tokens.old) }
    {
        Ok(Found::tuple(self.parts_to_brace(tokens)?))
    }

    /// After `TUPLE {`: an expression that begins with the tuple, which most often ends it.
    #[tactic(auto, unfolding(crate::specs::code::Walking::tuple_operand), using(crate::proofs::LoneTuples::ends_behind, crate::proofs::LoneTuples::ends_between))]
    fn tuple_first(&self, tokens: &mut Cursor<'_, '_>) -> Result<Found, Fault>
        requires { Nests self.now.depth (F.pre self.now.inner) (F.post self.now.inner) }
        ensures { Moves tree_view result tokens.new
            (walk_from (read self.now.depth) self.now.depth Level.Restriction
            Level.Multiplicative
            (tuple_operand (read self.now.depth) self.now.depth tokens.old)) }
    {
        let first = self.tuple_parts(tokens)?;
        if ends(tokens.look()) {
            return Ok(first);
        }
        let left = self.postfixes(first, tokens)?;
        self.walk(Level::Restriction, Level::Multiplicative, left, tokens)
    }

    /// After `WITH`.
    #[tactic(auto, unfolding(crate::specs::code::Reading::binding_expression))]
    fn binding_expression(&self, tokens: &mut Cursor<'_, '_>) -> Result<Found, Fault>
        requires { Nests self.now.depth (F.pre self.now.inner) (F.post self.now.inner) }
        ensures { Moves tree_view result tokens.new
            (reading.binding_expression (read self.now.depth) self.now.depth tokens.old) }
    {
        let items = self.enclosed_settings(tokens)?;
        let items = item_closed_by(items, Sign::Colon, tokens)?;
        let (items, value) = pair_of(items, self.expression(tokens))?;
        Ok(Found::binding(self.alloc, items, value)?)
    }

    /// `WITH` and what it names, or an expression without it.
    #[tactic(auto, unfolding(crate::specs::code::Reading::binding), using(crate::proofs::Walks::restriction_walked, crate::proofs::LoneTuples::tuple_binding))]
    fn binding(&self, tokens: &mut Cursor<'_, '_>) -> Result<Found, Fault>
        requires { Nests self.now.depth (F.pre self.now.inner) (F.post self.now.inner) }
        ensures { Moves tree_view result tokens.new
            (reading.binding (read self.now.depth) self.now.depth tokens.old) }
    {
        if opens_tuple(tokens) {
            return self.tuple_first(tokens);
        }
        if tokens.keyword(Keyword::With) {
            return self.binding_expression(tokens);
        }
        self.infix_expression(Level::Restriction, tokens)
    }

    /// An expression of this level.
    #[tactic(auto, unfolding(crate::specs::code::Reading::by_level))]
    pub fn by_level(&self, level: Level, tokens: &mut Cursor<'_, '_>) -> Result<Found, Fault>
        requires { Nests self.now.depth (F.pre self.now.inner) (F.post self.now.inner) }
        ensures { Moves tree_view result tokens.new
            (reading.by_level (read self.now.depth) self.now.depth level tokens.old) }
    {
        match level {
            Level::Binding => self.binding(tokens),
            Level::Prefixed => self.unary_expression(tokens),
            Level::Postfixed => self.postfix_expression(tokens),
            Level::Primary => self.primary(tokens),
            _ => self.infix_expression(level, tokens),
        }
    }
}

/// An expression of this level that is at most so high.
#[tactic(auto, unfolding(crate::specs::code::Reading::read), using(crate::proofs::LoneLiterals::lone_reads))]
pub fn expression(
    alloc: Global,
    depth: u16,
    level: Level,
    tokens: &mut Cursor<'_, '_>,
) -> Result<Found, Fault>
    ensures { Moves tree_view result tokens.new (read depth level tokens.old) }
{
    if depth == 0 {
        return Err(SYNTAX);
    }
    if let Some(literal) = lone_literal(alloc, tokens)? {
        return Ok(Found::literal(literal));
    }
    Grammar {
        alloc,
        depth: depth - 1,
        inner: expression,
    }
    .by_level(level, tokens)
}
