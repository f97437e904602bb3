//! Types and headings.
ghost use Rattle.std.specs.Prelude.{◌≡◌};
ghost use Rattle.td_parse.specs.code.Parsing.{Moves};
ghost use Rattle.td_parse.specs.code.ReadingSteps.{listed_to, list_by_commas};
ghost use Rattle.td_parse.specs.code.ReadingTypes as reading;
ghost use Rattle.td_parse.specs.code.ReadingTypes.{read_type};
ghost use Rattle.td_tree.specs.model.Trees as trees;
ghost use Rattle.td_tree.specs.code.TreeViews.{heading_tree_view, type_tree_view};
ghost use Rattle.td_parse.specs.code.Views.{attribute_tree_view, attribute_trees_view};
ghost use Rattle.td_tree.specs.model.Lexemes.{sign};

use crate::cursor::{Cursor, SYNTAX};
use crate::names::name;
use crate::steps::item_closed_by;
use std::alloc::Global;
use td_tree::fault::Fault;
use td_tree::keyword::Keyword;
use td_tree::token::{Kind, Sign};
use td_tree::type_tree::{AttributeTree, TypeTree};

/// `TUPLE {A INTEGER, ..}`
#[tactic(auto, using(td_tree::proofs::code_lemmas::Rows::tuple_type_is))]
fn tuple_type(heading: Vec<AttributeTree>) -> TypeTree
    ensures { type_tree_view result ≡ trees.tuple_type (heading_tree_view heading.items) }
{
    TypeTree::Tuple(heading)
}

/// `RELATION {A INTEGER, ..}`
#[tactic(auto, using(td_tree::proofs::code_lemmas::Rows::relation_type_is))]
fn relation_type(heading: Vec<AttributeTree>) -> TypeTree
    ensures { type_tree_view result ≡ trees.relation_type (heading_tree_view heading.items) }
{
    TypeTree::Relation(heading)
}

/// A type that is at most so high.
#[cycle(types)]
#[tactic(auto, unfolding(crate::specs::code::ReadingTypes::read_type, crate::specs::code::ReadingTypes::type_of_first))]
pub fn type_tree(alloc: Global, depth: u16, tokens: &mut Cursor<'_, '_>) -> Result<TypeTree, Fault>
    ensures { Moves type_tree_view result tokens.new (read_type depth tokens.old) }
{
    if depth == 0 {
        return Err(SYNTAX);
    }
    match tokens.take() {
        Some((Kind::Reserved(word), _)) => type_of_word(alloc, depth - 1, word, tokens),
        Some((Kind::Name, text)) => Ok(TypeTree::User(tokens.name_of(alloc, text)?)),
        _ => Err(SYNTAX),
    }
}

/// A type after its first word.
#[cycle(types)]
#[tactic(auto, unfolding(crate::specs::code::ReadingTypes::type_of_word))]
fn type_of_word(
    alloc: Global,
    depth: u16,
    word: Keyword,
    tokens: &mut Cursor<'_, '_>,
) -> Result<TypeTree, Fault>
    ensures { Moves type_tree_view result tokens.new
        (reading.type_of_word (read_type depth) word tokens.old) }
{
    match word {
        Keyword::Integer => Ok(TypeTree::Integer),
        Keyword::Char => Ok(TypeTree::Char),
        Keyword::Boolean => Ok(TypeTree::Boolean),
        Keyword::Relation => Ok(relation_type(heading(alloc, depth, tokens)?)),
        Keyword::Tuple => Ok(tuple_type(heading(alloc, depth, tokens)?)),
        _ => Err(SYNTAX),
    }
}

/// `'{' (name type),* '}'`, of types at most so high
#[cycle(types)]
#[tactic(auto, unfolding(crate::specs::code::ReadingTypes::heading, crate::specs::code::ReadingSteps::listed_to, crate::specs::code::ReadingSteps::read_up_to), using(crate::proofs::Views::attributes_from_of))]
fn heading(
    alloc: Global,
    depth: u16,
    tokens: &mut Cursor<'_, '_>,
) -> Result<Vec<AttributeTree>, Fault>
    ensures { Moves (λ v. heading_tree_view v.items) result tokens.new
        (reading.heading (read_type depth) tokens.old) }
{
    tokens.expect_sign(Sign::OpenBrace)?;
    if tokens.sign(Sign::CloseBrace) {
        return Ok(Vec::new(alloc));
    }
    let attributes = attributes(alloc, depth, tokens)?;
    item_closed_by(attributes, Sign::CloseBrace, tokens)
}

/// `(name type),+`, of types at most so high
#[cycle(types)]
#[tactic(auto, unfolding(crate::specs::code::ReadingSteps::list_by_commas, crate::specs::code::ReadingSteps::separated_from))]
pub fn attributes(
    alloc: Global,
    depth: u16,
    tokens: &mut Cursor<'_, '_>,
) -> Result<Vec<AttributeTree>, Fault>
    ensures { Moves (λ v. attribute_trees_view v.items) result tokens.new
        (list_by_commas (reading.attribute (read_type depth)) tokens.old) }
{
    let mut items = Vec::new(alloc);
    let limit = tokens.turns();
    for _turn in 0..limit {
        items.push(attribute(alloc, depth, tokens)?)?;
        if !tokens.sign(Sign::Comma) {
            return Ok(items);
        }
    }
    Err(SYNTAX)
}

/// `name type`, of a type at most so high
#[cycle(types)]
#[tactic(auto, unfolding(crate::specs::code::ReadingTypes::attribute))]
fn attribute(alloc: Global, depth: u16, tokens: &mut Cursor<'_, '_>) -> Result<AttributeTree, Fault>
    ensures { Moves attribute_tree_view result tokens.new
        (reading.attribute (read_type depth) tokens.old) }
{
    let name = name(alloc, tokens)?;
    let ty = type_tree(alloc, depth, tokens)?;
    Ok(AttributeTree { name, ty })
}

/// A heading whose relation type is at most so high.
#[tactic(auto, unfolding(crate::specs::code::ReadingTypes::relation_heading))]
pub fn relation_heading(
    alloc: Global,
    depth: u16,
    tokens: &mut Cursor<'_, '_>,
) -> Result<Vec<AttributeTree>, Fault>
    ensures { Moves (λ v. heading_tree_view v.items) result tokens.new
        (reading.relation_heading depth tokens.old) }
{
    if depth == 0 {
        return Err(SYNTAX);
    }
    heading(alloc, depth - 1, tokens)
}
