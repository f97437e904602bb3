//! Definitions of types, relvars and constraints, and their ends.
ghost use Rattle.std.specs.Prelude.{map, option_map};
ghost use Rattle.td_parse.specs.code.Parsing.{Moves};
ghost use Rattle.td_tree.specs.model.Lexemes as lexeme;
ghost use Rattle.td_parse.specs.code.ReadingStatements as reading;
ghost use Rattle.td_parse.specs.code.ReadingSteps.{in_parentheses_read, optional};
ghost use Rattle.td_tree.specs.code.TreeViews.{statement_view, tree_view};

use crate::assignment::expression;
use crate::cursor::{Cursor, SYNTAX};
use crate::grammar::MAX_HEIGHT;
use crate::names::{name, names};
use crate::steps::{item_closed_by, pair_of};
use crate::types::{attributes, relation_heading};
use std::alloc::Global;
use td_tree::expression::Expr;
use td_tree::fault::Fault;
use td_tree::keyword::Keyword;
use td_tree::name::Name;
use td_tree::statement::{BaseDefinition, Statement, TypeDefinition, VirtualDefinition};
use td_tree::token::{Kind, Sign};

/// `[CONSTRAINT e]`
#[tactic(auto, unfolding(crate::specs::code::ReadingSteps::optional))]
fn constraint(alloc: Global, tokens: &mut Cursor<'_, '_>) -> Result<Option<Expr>, Fault>
    ensures { Moves (option_map tree_view) result tokens.new
        (optional (lexeme.keyword Keyword.Constraint) reading.expression tokens.old) }
{
    if !tokens.keyword(Keyword::Constraint) {
        return Ok(None);
    }
    Ok(Some(expression(alloc, tokens)?))
}

/// `'(' e ')'`
#[tactic(auto, unfolding(crate::specs::code::ReadingSteps::in_parentheses_read, crate::specs::code::ReadingSteps::read_up_to))]
fn enclosed_expression(alloc: Global, tokens: &mut Cursor<'_, '_>) -> Result<Expr, Fault>
    ensures { Moves tree_view result tokens.new (in_parentheses_read reading.expression tokens.old) }
{
    tokens.expect_sign(Sign::OpenParenthesis)?;
    let found = expression(alloc, tokens)?;
    item_closed_by(found, Sign::CloseParenthesis, tokens)
}

/// `[INIT '(' e ')']`
#[tactic(auto, unfolding(crate::specs::code::ReadingSteps::optional))]
fn init(alloc: Global, tokens: &mut Cursor<'_, '_>) -> Result<Option<Expr>, Fault>
    ensures { Moves (option_map tree_view) result tokens.new
        (optional (lexeme.keyword Keyword.Init) (in_parentheses_read reading.expression) tokens.old) }
{
    if !tokens.keyword(Keyword::Init) {
        return Ok(None);
    }
    Ok(Some(enclosed_expression(alloc, tokens)?))
}

/// `(KEY names)*`
#[tactic(auto, unfolding(crate::specs::code::ReadingStatements::keys, crate::specs::code::ReadingSteps::list_by_words, crate::specs::code::ReadingSteps::repeated_from))]
fn keys(alloc: Global, tokens: &mut Cursor<'_, '_>) -> Result<Vec<Vec<Name>>, Fault>
    ensures { Moves (λ v. map (λ key. key.items) v.items) result tokens.new
        (reading.keys tokens.old) }
{
    let mut keys = Vec::new(alloc);
    let limit = tokens.turns();
    for _turn in 0..limit {
        if !tokens.keyword(Keyword::Key) {
            return Ok(keys);
        }
        keys.push(names(alloc, tokens)?)?;
    }
    Err(SYNTAX)
}

/// `attr,+ [CONSTRAINT e]`, of the type with this name
#[tactic(auto, unfolding(crate::specs::code::ReadingStatements::components), using(crate::proofs::Views::attributes_from_of))]
fn components(alloc: Global, name: Name, tokens: &mut Cursor<'_, '_>) -> Result<Statement, Fault>
    ensures { Moves statement_view result tokens.new (reading.components name tokens.old) }
{
    let components = attributes(alloc, MAX_HEIGHT, tokens)?;
    let constraint = constraint(alloc, tokens)?;
    Ok(Statement::DefineType(TypeDefinition {
        name,
        components,
        constraint,
    }))
}

/// `name POSSREP '{' attr,+ [CONSTRAINT e] '}'`, after `TYPE`
#[tactic(auto, unfolding(crate::specs::code::ReadingStatements::type_definition, crate::specs::code::ReadingSteps::read_up_to))]
pub fn type_definition(alloc: Global, tokens: &mut Cursor<'_, '_>) -> Result<Statement, Fault>
    ensures { Moves statement_view result tokens.new (reading.type_definition tokens.old) }
{
    let name = name(alloc, tokens)?;
    tokens.expect_keyword(Keyword::Possrep)?;
    tokens.expect_sign(Sign::OpenBrace)?;
    let definition = components(alloc, name, tokens)?;
    item_closed_by(definition, Sign::CloseBrace, tokens)
}

/// `RELATION heading [INIT '(' e ')'] (KEY names)*`, of the relvar with this name
#[tactic(auto, unfolding(crate::specs::code::ReadingStatements::base_definition))]
fn base_definition(
    alloc: Global,
    name: Name,
    tokens: &mut Cursor<'_, '_>,
) -> Result<Statement, Fault>
    ensures { Moves statement_view result tokens.new (reading.base_definition name tokens.old) }
{
    tokens.expect_keyword(Keyword::Relation)?;
    let heading = relation_heading(alloc, MAX_HEIGHT, tokens)?;
    let parts = pair_of(heading, init(alloc, tokens))?;
    let ((heading, init), keys) = pair_of(parts, keys(alloc, tokens))?;
    Ok(Statement::DefineBase(BaseDefinition {
        name,
        heading,
        init,
        keys,
    }))
}

/// `'(' e ')' (KEY names)*`, of the relvar with this name
#[tactic(auto, unfolding(crate::specs::code::ReadingStatements::virtual_definition))]
fn virtual_definition(
    alloc: Global,
    name: Name,
    tokens: &mut Cursor<'_, '_>,
) -> Result<Statement, Fault>
    ensures { Moves statement_view result tokens.new (reading.virtual_definition name tokens.old) }
{
    let expression = enclosed_expression(alloc, tokens)?;
    let (expression, keys) = pair_of(expression, keys(alloc, tokens))?;
    Ok(Statement::DefineVirtual(VirtualDefinition {
        name,
        expression,
        keys,
    }))
}

/// After `VAR` and a name.
#[tactic(auto, unfolding(crate::specs::code::ReadingStatements::variable, crate::specs::code::ReadingStatements::definition_of_word))]
fn variable_named(
    alloc: Global,
    name: Name,
    tokens: &mut Cursor<'_, '_>,
) -> Result<Statement, Fault>
    ensures { Moves statement_view result tokens.new (reading.variable name tokens.old) }
{
    match tokens.take() {
        Some((Kind::Reserved(Keyword::Base | Keyword::Real), _)) => {
            base_definition(alloc, name, tokens)
        }
        Some((Kind::Reserved(Keyword::Virtual), _)) => virtual_definition(alloc, name, tokens),
        _ => Err(SYNTAX),
    }
}

/// After `VAR`.
#[tactic(auto, unfolding(crate::specs::code::ReadingStatements::body_of_word))]
pub fn variable(alloc: Global, tokens: &mut Cursor<'_, '_>) -> Result<Statement, Fault>
    ensures { Moves statement_view result tokens.new (reading.body_of_word Keyword.Var tokens.old) }
{
    let name = name(alloc, tokens)?;
    variable_named(alloc, name, tokens)
}

/// `name e`, after `CONSTRAINT`
#[tactic(auto, unfolding(crate::specs::code::ReadingStatements::constraint_definition))]
pub fn constraint_definition(alloc: Global, tokens: &mut Cursor<'_, '_>) -> Result<Statement, Fault>
    ensures { Moves statement_view result tokens.new (reading.constraint_definition tokens.old) }
{
    let name = name(alloc, tokens)?;
    let condition = expression(alloc, tokens)?;
    Ok(Statement::DefineConstraint(name, condition))
}

/// After `DROP`.
#[tactic(auto, unfolding(crate::specs::code::ReadingStatements::drop, crate::specs::code::ReadingStatements::drop_of_word))]
pub fn drop(alloc: Global, tokens: &mut Cursor<'_, '_>) -> Result<Statement, Fault>
    ensures { Moves statement_view result tokens.new (reading.drop tokens.old) }
{
    match tokens.take() {
        Some((Kind::Reserved(Keyword::Type), _)) => {
            Ok(Statement::DropType(name(alloc, tokens)?))
        }
        Some((Kind::Reserved(Keyword::Var), _)) => Ok(Statement::DropVar(name(alloc, tokens)?)),
        Some((Kind::Reserved(Keyword::Constraint), _)) => {
            Ok(Statement::DropConstraint(name(alloc, tokens)?))
        }
        _ => Err(SYNTAX),
    }
}
