//! `SUMMARIZE`.
ghost use Rattle.std.specs.Prelude.{map};
ghost use Rattle.td_tree.specs.model.Grammar.{loosest};
ghost use Rattle.td_parse.specs.code.FoundSummaries.{summary_view};
ghost use Rattle.td_parse.specs.code.Nests.{Nests};
ghost use Rattle.td_parse.specs.code.Parsing.{Moves};
ghost use Rattle.td_parse.specs.code.Views.{item_view};
ghost use Rattle.td_parse.specs.code.Reading as reading;
ghost use Rattle.td_parse.specs.code.Reading.{read, summaries_from};
ghost use Rattle.td_parse.specs.code.ReadingSteps.{in_parentheses_read, list_by_commas};
ghost use Rattle.td_tree.specs.code.TreeViews.{tree_view};

use crate::cursor::{Cursor, SYNTAX};
use crate::found::Found;
use crate::grammar::Grammar;
use crate::names::{alias, attributes};
use crate::parts::{FoundSummary, Summaries};
use crate::steps::{item_closed_by, item_ended_by, pair_of};
use std::alloc::Global;
use td_tree::fault::Fault;
use td_tree::keyword::Keyword;
use td_tree::operator::{Aggregate, Level};
use td_tree::token::{Kind, Sign};

/// `'(' ')' AS name`, after `COUNT`
#[tactic(auto, unfolding(crate::specs::code::Reading::count_summary))]
fn count_summary(alloc: Global, tokens: &mut Cursor<'_, '_>) -> Result<FoundSummary, Fault>
    ensures { Moves (λ s. item_view (summary_view s)) result tokens.new
        (reading.count_summary (read 0) 0 tokens.old) }
{
    tokens.expect_sign(Sign::OpenParenthesis)?;
    tokens.expect_sign(Sign::CloseParenthesis)?;
    Ok(FoundSummary::Count(alias(alloc, tokens)?))
}

impl<F: Fn(Global, u16, Level, &mut Cursor<'_, '_>) -> Result<Found, Fault>> Grammar<F> {
    /// `'(' e ')'`
    #[tactic(auto, unfolding(crate::specs::code::ReadingSteps::in_parentheses_read))]
    pub fn enclosed_expression(&self, tokens: &mut Cursor<'_, '_>) -> Result<Found, Fault>
        requires { Nests self.now.depth (F.pre self.now.inner) (F.post self.now.inner) }
        ensures { Moves tree_view result tokens.new
            (in_parentheses_read (read self.now.depth loosest) tokens.old) }
    {
        tokens.expect_sign(Sign::OpenParenthesis)?;
        self.up_to_sign(Sign::CloseParenthesis, tokens)
    }

    /// `'(' e ')' AS name`, after `SUM`, `MAX` or `MIN`
    #[tactic(auto, unfolding(crate::specs::code::Reading::sum_summary))]
    fn sum_summary(&self, op: Aggregate, tokens: &mut Cursor<'_, '_>) -> Result<FoundSummary, Fault>
        requires { Nests self.now.depth (F.pre self.now.inner) (F.post self.now.inner) }
        ensures { Moves (λ s. item_view (summary_view s)) result tokens.new
            (reading.sum_summary (read self.now.depth) self.now.depth op tokens.old) }
    {
        let value = self.enclosed_expression(tokens)?;
        let (value, name) = pair_of(value, alias(self.alloc, tokens))?;
        Ok(FoundSummary::Of(op, value, name))
    }

    /// What is added, after its first word.
    #[tactic(auto, unfolding(crate::specs::code::Reading::summary_of_word, crate::specs::code::Reading::count_summary))]
    fn summary_of_word(
        &self,
        word: Keyword,
        tokens: &mut Cursor<'_, '_>,
    ) -> Result<FoundSummary, Fault>
        requires { Nests self.now.depth (F.pre self.now.inner) (F.post self.now.inner) }
        ensures { Moves (λ s. item_view (summary_view s)) result tokens.new
            (reading.summary_of_word (read self.now.depth) self.now.depth word tokens.old) }
    {
        match word {
            Keyword::Count => count_summary(self.alloc, tokens),
            Keyword::Sum => self.sum_summary(Aggregate::Sum, tokens),
            Keyword::Max => self.sum_summary(Aggregate::Max, tokens),
            Keyword::Min => self.sum_summary(Aggregate::Min, tokens),
            _ => Err(SYNTAX),
        }
    }

    /// `COUNT '(' ')' AS name` or `(SUM | MAX | MIN) '(' e ')' AS name`
    #[tactic(auto, unfolding(crate::specs::code::Reading::summary))]
    fn summary(&self, tokens: &mut Cursor<'_, '_>) -> Result<FoundSummary, Fault>
        requires { Nests self.now.depth (F.pre self.now.inner) (F.post self.now.inner) }
        ensures { Moves (λ s. item_view (summary_view s)) result tokens.new
            (reading.summary (read self.now.depth) self.now.depth tokens.old) }
    {
        match tokens.take() {
            Some((Kind::Reserved(word), _)) => self.summary_of_word(word, tokens),
            _ => Err(SYNTAX),
        }
    }

    /// `item,+`
    #[tactic(auto, unfolding(crate::specs::code::ReadingSteps::list_by_commas, crate::specs::code::ReadingSteps::separated_from))]
    fn some_summaries(&self, tokens: &mut Cursor<'_, '_>) -> Result<Summaries, Fault>
        requires { Nests self.now.depth (F.pre self.now.inner) (F.post self.now.inner) }
        ensures { Moves (map item_view) result tokens.new
            (list_by_commas (reading.summary (read self.now.depth) self.now.depth) tokens.old) }
    {
        let mut items = Summaries::new(self.alloc);
        let limit = tokens.turns();
        for _turn in 0..limit {
            items.push(self.summary(tokens)?)?;
            if !tokens.sign(Sign::Comma) {
                return Ok(items);
            }
        }
        Err(SYNTAX)
    }

    /// `ADD '(' item,+ ')'`
    #[tactic(auto, unfolding(crate::specs::code::Reading::summaries, crate::specs::code::ReadingSteps::in_parentheses_read, crate::specs::code::ReadingSteps::read_up_to))]
    fn summaries(&self, tokens: &mut Cursor<'_, '_>) -> Result<Summaries, Fault>
        requires { Nests self.now.depth (F.pre self.now.inner) (F.post self.now.inner) }
        ensures { Moves (λ s. summaries_from (map item_view s)) result tokens.new
            (reading.summaries (read self.now.depth) self.now.depth tokens.old) }
    {
        tokens.expect_keyword(Keyword::Add)?;
        tokens.expect_sign(Sign::OpenParenthesis)?;
        let items = self.some_summaries(tokens)?;
        item_closed_by(items, Sign::CloseParenthesis, tokens)
    }

    /// `'(' e ')' ADD '(' item,+ ')'`, after `SUMMARIZE e PER`
    #[tactic(auto, unfolding(crate::specs::code::Reading::summary_per))]
    fn summary_per(&self, operand: Found, tokens: &mut Cursor<'_, '_>) -> Result<Found, Fault>
        requires { Nests self.now.depth (F.pre self.now.inner) (F.post self.now.inner) }
        ensures { Moves tree_view result tokens.new
            (reading.summary_per (read self.now.depth) self.now.depth
            (tree_view operand) tokens.old) }
    {
        let per = self.enclosed_expression(tokens);
        let operands = pair_of(operand, per)?;
        let ((operand, per), items) = pair_of(operands, self.summaries(tokens))?;
        Ok(Found::summarize_per(self.alloc, operand, per, items)?)
    }

    /// `attrs ADD '(' item,+ ')'`, after `SUMMARIZE e BY`
    #[tactic(auto, unfolding(crate::specs::code::Reading::summary_by))]
    fn summary_by(&self, operand: Found, tokens: &mut Cursor<'_, '_>) -> Result<Found, Fault>
        requires { Nests self.now.depth (F.pre self.now.inner) (F.post self.now.inner) }
        ensures { Moves tree_view result tokens.new
            (reading.summary_by (read self.now.depth) self.now.depth
            (tree_view operand) tokens.old) }
    {
        let operands = pair_of(operand, attributes(self.alloc, tokens))?;
        let ((operand, by), items) = pair_of(operands, self.summaries(tokens))?;
        Ok(Found::summarize_by(self.alloc, operand, by, items)?)
    }

    /// After `SUMMARIZE`.
    #[tactic(auto, unfolding(crate::specs::code::Reading::summarize_expression))]
    pub fn summarize_expression(&self, tokens: &mut Cursor<'_, '_>) -> Result<Found, Fault>
        requires { Nests self.now.depth (F.pre self.now.inner) (F.post self.now.inner) }
        ensures { Moves tree_view result tokens.new
            (reading.summarize_expression (read self.now.depth) self.now.depth tokens.old) }
    {
        let operand = self.expression(tokens)?;
        if tokens.keyword(Keyword::Per) {
            return self.summary_per(operand, tokens);
        }
        let operand = item_ended_by(operand, Keyword::By, tokens)?;
        self.summary_by(operand, tokens)
    }
}
