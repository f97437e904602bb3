//! Assignments.
ghost use Rattle.std.specs.Prelude.{map, option_map};
ghost use Rattle.td_parse.specs.code.Parsing.{Moves};
ghost use Rattle.td_parse.specs.code.Views.{named_part_view};
ghost use Rattle.td_parse.specs.code.ReadingStatements as reading;
ghost use Rattle.td_parse.specs.code.ReadingSteps.{in_braces_read, in_parentheses_read};
ghost use Rattle.td_parse.specs.code.ReadingSteps.{list_by_commas};
ghost use Rattle.td_tree.specs.code.TreeViews.{assignment_view, statement_view, tree_view};

use crate::cursor::{Cursor, SYNTAX};
use crate::grammar::{Grammar, LOOSEST, MAX_HEIGHT};
use crate::levels;
use crate::names::name;
use crate::steps::pair_of;
use std::alloc::Global;
use td_tree::expression::{Expr, NamedExpr};
use td_tree::fault::Fault;
use td_tree::keyword::Keyword;
use td_tree::operator::{Level, Style};
use td_tree::statement::{Assignment, Statement};
use td_tree::token::{Kind, Sign};

/// An expression.
pub fn expression(alloc: Global, tokens: &mut Cursor<'_, '_>) -> Result<Expr, Fault>
    ensures { Moves tree_view result tokens.new (reading.expression tokens.old) }
{
    let found = levels::expression(alloc, MAX_HEIGHT, LOOSEST, tokens)?;
    Ok(found.into_tree())
}

/// `[WHERE e1]`
#[tactic(auto, unfolding(crate::specs::code::ReadingStatements::condition, crate::specs::code::ReadingSteps::optional))]
fn condition(alloc: Global, tokens: &mut Cursor<'_, '_>) -> Result<Option<Expr>, Fault>
    ensures { Moves (option_map tree_view) result tokens.new (reading.condition tokens.old) }
{
    if !tokens.keyword(Keyword::Where) {
        return Ok(None);
    }
    let found = levels::expression(alloc, MAX_HEIGHT, Level::Disjunction, tokens)?;
    Ok(Some(found.into_tree()))
}

/// `':=' e`
#[tactic(auto, unfolding(crate::specs::code::ReadingStatements::source))]
fn source(alloc: Global, tokens: &mut Cursor<'_, '_>) -> Result<Expr, Fault>
    ensures { Moves tree_view result tokens.new (reading.source tokens.old) }
{
    tokens.expect_sign(Sign::Assign)?;
    expression(alloc, tokens)
}

/// `'(' (name ':=' e),+ ')'`
fn enclosed_settings(alloc: Global, tokens: &mut Cursor<'_, '_>) -> Result<Vec<NamedExpr>, Fault>
    ensures { Moves (λ v. map named_part_view v.items) result tokens.new
        (in_parentheses_read reading.settings tokens.old) }
{
    let settings = Grammar {
        alloc,
        depth: MAX_HEIGHT,
        inner: levels::expression,
    }
    .enclosed_settings(tokens)?;
    Ok(settings.into_items())
}

/// `'{' (name ':=' e),+ '}'`
fn braced_settings(alloc: Global, tokens: &mut Cursor<'_, '_>) -> Result<Vec<NamedExpr>, Fault>
    ensures { Moves (λ v. map named_part_view v.items) result tokens.new
        (in_braces_read reading.settings tokens.old) }
{
    let settings = Grammar {
        alloc,
        depth: MAX_HEIGHT,
        inner: levels::expression,
    }
    .braced_settings(tokens)?;
    Ok(settings.into_items())
}

/// `'(' (name ':=' e),+ ')'` or `':' '{' (name ':=' e),+ '}'`
#[tactic(auto, unfolding(crate::specs::code::ReadingStatements::styled_settings))]
fn styled_settings(
    alloc: Global,
    tokens: &mut Cursor<'_, '_>,
) -> Result<(Style, Vec<NamedExpr>), Fault>
    ensures { Moves (λ x. (x.0, map named_part_view x.1.items)) result tokens.new
        (reading.styled_settings tokens.old) }
{
    if tokens.sign(Sign::Colon) {
        return Ok((Style::Newer, braced_settings(alloc, tokens)?));
    }
    Ok((Style::Older, enclosed_settings(alloc, tokens)?))
}

/// `name e`, after `INSERT`
#[tactic(auto, unfolding(crate::specs::code::ReadingStatements::insertion))]
fn insertion(alloc: Global, tokens: &mut Cursor<'_, '_>) -> Result<Assignment, Fault>
    ensures { Moves assignment_view result tokens.new (reading.insertion tokens.old) }
{
    let target = name(alloc, tokens)?;
    let source = expression(alloc, tokens)?;
    Ok(Assignment::Insert(target, source))
}

/// `name e`, after `D_INSERT`
#[tactic(auto, unfolding(crate::specs::code::ReadingStatements::disjoint_insertion))]
fn disjoint_insertion(alloc: Global, tokens: &mut Cursor<'_, '_>) -> Result<Assignment, Fault>
    ensures { Moves assignment_view result tokens.new (reading.disjoint_insertion tokens.old) }
{
    let target = name(alloc, tokens)?;
    let source = expression(alloc, tokens)?;
    Ok(Assignment::DisjointInsert(target, source))
}

/// `name [WHERE e1]`, after `DELETE`
#[tactic(auto, unfolding(crate::specs::code::ReadingStatements::deletion))]
fn deletion(alloc: Global, tokens: &mut Cursor<'_, '_>) -> Result<Assignment, Fault>
    ensures { Moves assignment_view result tokens.new (reading.deletion tokens.old) }
{
    let target = name(alloc, tokens)?;
    let condition = condition(alloc, tokens)?;
    Ok(Assignment::Delete(target, condition))
}

/// `name e`, after `I_DELETE`
#[tactic(auto, unfolding(crate::specs::code::ReadingStatements::included_deletion))]
fn included_deletion(alloc: Global, tokens: &mut Cursor<'_, '_>) -> Result<Assignment, Fault>
    ensures { Moves assignment_view result tokens.new (reading.included_deletion tokens.old) }
{
    let target = name(alloc, tokens)?;
    let source = expression(alloc, tokens)?;
    Ok(Assignment::IncludedDelete(target, source))
}

/// `name [WHERE e1]` and the settings in one of their spellings, after `UPDATE`
#[tactic(auto, unfolding(crate::specs::code::ReadingStatements::changing), using(crate::proofs::Views::named_from_of))]
fn changing(alloc: Global, tokens: &mut Cursor<'_, '_>) -> Result<Assignment, Fault>
    ensures { Moves assignment_view result tokens.new (reading.changing tokens.old) }
{
    let target = name(alloc, tokens)?;
    let condition = condition(alloc, tokens)?;
    let (condition, (style, settings)) = pair_of(condition, styled_settings(alloc, tokens))?;
    Ok(Assignment::Update(style, target, condition, settings))
}

/// An assignment.
#[tactic(auto, unfolding(crate::specs::code::ReadingStatements::assignment, crate::specs::code::ReadingStatements::assignment_of_word))]
fn assignment(alloc: Global, tokens: &mut Cursor<'_, '_>) -> Result<Assignment, Fault>
    ensures { Moves assignment_view result tokens.new (reading.assignment tokens.old) }
{
    match tokens.take() {
        Some((Kind::Name, text)) => {
            let target = tokens.name_of(alloc, text)?;
            Ok(Assignment::Assign(target, source(alloc, tokens)?))
        }
        Some((Kind::Reserved(Keyword::Insert), _)) => insertion(alloc, tokens),
        Some((Kind::Reserved(Keyword::DInsert), _)) => disjoint_insertion(alloc, tokens),
        Some((Kind::Reserved(Keyword::Delete), _)) => deletion(alloc, tokens),
        Some((Kind::Reserved(Keyword::IDelete), _)) => included_deletion(alloc, tokens),
        Some((Kind::Reserved(Keyword::Update), _)) => changing(alloc, tokens),
        _ => Err(SYNTAX),
    }
}

/// `assignment,+`
#[tactic(auto, unfolding(crate::specs::code::ReadingSteps::list_by_commas, crate::specs::code::ReadingSteps::separated_from))]
fn some_assignments(alloc: Global, tokens: &mut Cursor<'_, '_>) -> Result<Vec<Assignment>, Fault>
    ensures { Moves (λ v. map assignment_view v.items) result tokens.new
        (list_by_commas reading.assignment tokens.old) }
{
    let mut items = Vec::new(alloc);
    let limit = tokens.turns();
    for _turn in 0..limit {
        items.push(assignment(alloc, tokens)?)?;
        if !tokens.sign(Sign::Comma) {
            return Ok(items);
        }
    }
    Err(SYNTAX)
}

/// Assignments, all at once.
#[tactic(auto, unfolding(crate::specs::code::ReadingStatements::assignments))]
pub fn assignments(alloc: Global, tokens: &mut Cursor<'_, '_>) -> Result<Statement, Fault>
    ensures { Moves statement_view result tokens.new (reading.assignments tokens.old) }
{
    Ok(Statement::Assign(some_assignments(alloc, tokens)?))
}
