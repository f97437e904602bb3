//! Names, and the lists of them.
ghost use Rattle.std.specs.Prelude.{map};
ghost use Rattle.td_parse.specs.code.Parsing.{Moves};
ghost use Rattle.td_parse.specs.code.ReadingSteps as reading;
ghost use Rattle.td_parse.specs.code.ReadingSteps.{read_name, list_by_commas};
ghost use Rattle.td_tree.specs.code.TreeViews.{attributes_view, renaming_view};

use crate::cursor::{Cursor, SYNTAX};
use crate::steps::item_closed_by;
use std::alloc::Global;
use td_tree::expression::{Attributes, Renaming};
use td_tree::fault::Fault;
use td_tree::keyword::Keyword;
use td_tree::name::Name;
use td_tree::token::{Kind, Sign};

/// A name.
#[tactic(auto, unfolding(crate::specs::code::ReadingSteps::read_name))]
pub fn name(alloc: Global, tokens: &mut Cursor<'_, '_>) -> Result<Name, Fault>
    ensures { Moves (λ n. n) result tokens.new (read_name tokens.old) }
{
    match tokens.take() {
        Some((Kind::Name, text)) => Ok(tokens.name_of(alloc, text)?),
        _ => Err(SYNTAX),
    }
}

/// `AS name`
#[tactic(auto, unfolding(crate::specs::code::ReadingSteps::read_as))]
pub fn alias(alloc: Global, tokens: &mut Cursor<'_, '_>) -> Result<Name, Fault>
    ensures { Moves (λ n. n) result tokens.new (reading.read_as tokens.old) }
{
    tokens.expect_keyword(Keyword::As)?;
    name(alloc, tokens)
}

/// `name,+`
#[tactic(auto, unfolding(crate::specs::code::ReadingSteps::list_by_commas, crate::specs::code::ReadingSteps::separated_from))]
fn some_names(alloc: Global, tokens: &mut Cursor<'_, '_>) -> Result<Vec<Name>, Fault>
    ensures { Moves (λ v. v.items) result tokens.new (list_by_commas read_name tokens.old) }
{
    let mut items = Vec::new(alloc);
    let limit = tokens.turns();
    for _turn in 0..limit {
        items.push(name(alloc, tokens)?)?;
        if !tokens.sign(Sign::Comma) {
            return Ok(items);
        }
    }
    Err(SYNTAX)
}

/// `name,* '}'`
#[tactic(auto, unfolding(crate::specs::code::ReadingSteps::names_to_brace, crate::specs::code::ReadingSteps::listed_to, crate::specs::code::ReadingSteps::read_up_to))]
fn names_to_brace(alloc: Global, tokens: &mut Cursor<'_, '_>) -> Result<Vec<Name>, Fault>
    ensures { Moves (λ v. v.items) result tokens.new (reading.names_to_brace tokens.old) }
{
    if tokens.sign(Sign::CloseBrace) {
        return Ok(Vec::new(alloc));
    }
    let items = some_names(alloc, tokens)?;
    item_closed_by(items, Sign::CloseBrace, tokens)
}

/// `'{' name,* '}'`
#[tactic(auto, unfolding(crate::specs::code::ReadingSteps::names))]
pub fn names(alloc: Global, tokens: &mut Cursor<'_, '_>) -> Result<Vec<Name>, Fault>
    ensures { Moves (λ v. v.items) result tokens.new (reading.names tokens.old) }
{
    tokens.expect_sign(Sign::OpenBrace)?;
    names_to_brace(alloc, tokens)
}

/// `'{' name,* '}'` or `'{' ALL BUT name,* '}'`
#[tactic(auto, unfolding(crate::specs::code::ReadingSteps::attribute_list, crate::specs::code::ReadingSteps::all_but))]
pub fn attributes(alloc: Global, tokens: &mut Cursor<'_, '_>) -> Result<Attributes, Fault>
    ensures { Moves attributes_view result tokens.new (reading.attribute_list tokens.old) }
{
    tokens.expect_sign(Sign::OpenBrace)?;
    if tokens.keyword(Keyword::All) {
        tokens.expect_keyword(Keyword::But)?;
        Ok(Attributes::AllBut(names_to_brace(alloc, tokens)?))
    } else {
        Ok(Attributes::Only(names_to_brace(alloc, tokens)?))
    }
}

/// `name AS name`
#[tactic(auto, unfolding(crate::specs::code::ReadingSteps::read_renaming))]
fn renaming(alloc: Global, tokens: &mut Cursor<'_, '_>) -> Result<Renaming, Fault>
    ensures { Moves renaming_view result tokens.new (reading.read_renaming tokens.old) }
{
    let old = name(alloc, tokens)?;
    let new = alias(alloc, tokens)?;
    Ok(Renaming { old, new })
}

/// `(name AS name),+`
#[tactic(auto, unfolding(crate::specs::code::ReadingSteps::list_by_commas, crate::specs::code::ReadingSteps::separated_from))]
pub fn renamings(alloc: Global, tokens: &mut Cursor<'_, '_>) -> Result<Vec<Renaming>, Fault>
    ensures { Moves (λ v. map renaming_view v.items) result tokens.new
        (list_by_commas reading.read_renaming tokens.old) }
{
    let mut items = Vec::new(alloc);
    let limit = tokens.turns();
    for _turn in 0..limit {
        items.push(renaming(alloc, tokens)?)?;
        if !tokens.sign(Sign::Comma) {
            return Ok(items);
        }
    }
    Err(SYNTAX)
}
