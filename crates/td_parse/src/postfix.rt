//! Operators behind their operand.
ghost use Rattle.std.specs.Prelude.{◌≡◌, map};
ghost use Rattle.td_parse.specs.code.Parsing.{Moves};
ghost use Rattle.td_parse.specs.code.Reading as reading;
ghost use Rattle.td_parse.specs.code.ReadingOperators.{postfix_at};
ghost use Rattle.td_parse.specs.code.ReadingSteps.{in_parentheses_read, read_name, read_renaming};
ghost use Rattle.td_parse.specs.code.ReadingSteps.{list_by_commas};
ghost use Rattle.td_tree.specs.code.TreeViews.{attributes_view, postfix_view, renaming_view};

use crate::cursor::{Cursor, SYNTAX};
use crate::names::{alias, attributes, name, renamings};
use crate::steps::{item_closed_by, pair_of};
use std::alloc::Global;
use td_tree::expression::{Attributes, Postfix, Renaming};
use td_tree::fault::Fault;
use td_tree::keyword::Keyword;
use td_tree::name::Name;
use td_tree::operator::Style;
use td_tree::token::{Kind, Sign};

/// Whether an operator behind its operand comes next.
#[tactic(auto, unfolding(crate::specs::code::ReadingOperators::postfix_at))]
pub fn begins_postfix(tokens: &Cursor<'_, '_>) -> bool
    ensures { result ≡ postfix_at tokens.now }
{
    match tokens.kind() {
        Some(Kind::Sign(sign)) => matches!(sign, Sign::OpenBrace),
        Some(Kind::Reserved(word)) => matches!(
            word,
            Keyword::Rename | Keyword::Group | Keyword::Ungroup | Keyword::Wrap | Keyword::Unwrap
        ),
        _ => false,
    }
}

/// `'(' name ')'`
#[tactic(auto, unfolding(crate::specs::code::ReadingSteps::in_parentheses_read, crate::specs::code::ReadingSteps::read_up_to))]
fn enclosed_name(alloc: Global, tokens: &mut Cursor<'_, '_>) -> Result<Name, Fault>
    ensures { Moves (λ n. n) result tokens.new (in_parentheses_read read_name tokens.old) }
{
    tokens.expect_sign(Sign::OpenParenthesis)?;
    let name = name(alloc, tokens)?;
    item_closed_by(name, Sign::CloseParenthesis, tokens)
}

/// `'(' (name AS name),+ ')'`
#[tactic(auto, unfolding(crate::specs::code::ReadingSteps::in_parentheses_read, crate::specs::code::ReadingSteps::read_up_to))]
fn enclosed_renamings(alloc: Global, tokens: &mut Cursor<'_, '_>) -> Result<Vec<Renaming>, Fault>
    ensures { Moves (λ v. map renaming_view v.items) result tokens.new
        (in_parentheses_read (list_by_commas read_renaming) tokens.old) }
{
    tokens.expect_sign(Sign::OpenParenthesis)?;
    let renamings = renamings(alloc, tokens)?;
    item_closed_by(renamings, Sign::CloseParenthesis, tokens)
}

/// `'(' (name AS name),+ ')'` or `'{' (name AS name),+ '}'`, after `RENAME`
#[tactic(auto, unfolding(crate::specs::code::ReadingSteps::read_up_to, crate::specs::code::Reading::styled_renamings))]
fn styled_renamings(
    alloc: Global,
    tokens: &mut Cursor<'_, '_>,
) -> Result<(Style, Vec<Renaming>), Fault>
    ensures { Moves (λ x. (x.0, map renaming_view x.1.items)) result tokens.new
        (reading.styled_renamings tokens.old) }
{
    if tokens.sign(Sign::OpenBrace) {
        let renamings = renamings(alloc, tokens)?;
        let renamings = item_closed_by(renamings, Sign::CloseBrace, tokens)?;
        return Ok((Style::Newer, renamings));
    }
    Ok((Style::Older, enclosed_renamings(alloc, tokens)?))
}

/// `attrs AS name`
#[tactic(auto, unfolding(crate::specs::code::Reading::named_attributes))]
fn named_attributes(alloc: Global, tokens: &mut Cursor<'_, '_>) -> Result<(Attributes, Name), Fault>
    ensures { Moves (λ x. (attributes_view x.0, x.1)) result tokens.new
        (reading.named_attributes tokens.old) }
{
    let attributes = attributes(alloc, tokens)?;
    pair_of(attributes, alias(alloc, tokens))
}

/// `'(' attrs AS name ')'` or `attrs AS name`, after `GROUP` or `WRAP`
#[tactic(auto, unfolding(crate::specs::code::ReadingSteps::read_up_to, crate::specs::code::Reading::styled_attributes))]
fn styled_attributes(
    alloc: Global,
    tokens: &mut Cursor<'_, '_>,
) -> Result<(Style, Attributes, Name), Fault>
    ensures { Moves (λ x. (x.0, attributes_view x.1, x.2)) result tokens.new
        (reading.styled_attributes tokens.old) }
{
    if tokens.sign(Sign::OpenParenthesis) {
        let named = named_attributes(alloc, tokens)?;
        let (attributes, name) = item_closed_by(named, Sign::CloseParenthesis, tokens)?;
        return Ok((Style::Older, attributes, name));
    }
    let (attributes, name) = named_attributes(alloc, tokens)?;
    Ok((Style::Newer, attributes, name))
}

/// An operator that begins with this word, after it.
#[tactic(auto, unfolding(crate::specs::code::Reading::postfix_of_word))]
fn postfix_of_word(
    alloc: Global,
    word: Keyword,
    tokens: &mut Cursor<'_, '_>,
) -> Result<Postfix, Fault>
    ensures { Moves postfix_view result tokens.new (reading.postfix_of_word word tokens.old) }
{
    match word {
        Keyword::Rename => {
            let (style, renamings) = styled_renamings(alloc, tokens)?;
            Ok(Postfix::Rename(style, renamings))
        }
        Keyword::Group => {
            let (style, attributes, name) = styled_attributes(alloc, tokens)?;
            Ok(Postfix::Group(style, attributes, name))
        }
        Keyword::Wrap => {
            let (style, attributes, name) = styled_attributes(alloc, tokens)?;
            Ok(Postfix::Wrap(style, attributes, name))
        }
        Keyword::Ungroup => Ok(Postfix::Ungroup(enclosed_name(alloc, tokens)?)),
        Keyword::Unwrap => Ok(Postfix::Unwrap(enclosed_name(alloc, tokens)?)),
        _ => Err(SYNTAX),
    }
}

/// An operator behind its operand.
#[tactic(auto, unfolding(crate::specs::code::Reading::read_postfix), using(crate::proofs::Beginnings::projection))]
pub fn postfix(alloc: Global, tokens: &mut Cursor<'_, '_>) -> Result<Postfix, Fault>
    ensures { Moves postfix_view result tokens.new (reading.read_postfix tokens.old) }
{
    match tokens.word() {
        Some(word) => postfix_of_word(alloc, word, tokens),
        None => Ok(Postfix::Project(attributes(alloc, tokens)?)),
    }
}
