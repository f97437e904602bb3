//! Statements.
ghost use Rattle.std.specs.Prelude.{◌≡◌};
ghost use Rattle.std.specs.List.{list_any};
ghost use Rattle.td_scan.specs.code.Progress.{is_bad_token};
ghost use Rattle.td_parse.specs.code.Parsing.{Moves, or_syntax};
ghost use Rattle.td_parse.specs.model.Meanings.{Parsed, has_bad, is_bad};
ghost use Rattle.td_parse.specs.code.ReadingStatements as reading;
ghost use Rattle.td_parse.specs.code.ReadingStatements.{read_statement};
ghost use Rattle.td_tree.specs.model.Outcomes.{Answers, Outcome};
ghost use Rattle.td_tree.specs.model.TokenLexemes.{lexemes};
ghost use Rattle.td_tree.specs.model.Trees as trees;
ghost use Rattle.td_tree.specs.code.TreeViews.{statement_view};

use crate::assignment::{assignments, expression};
use crate::cursor::Cursor;
use crate::definition::{constraint_definition, drop, type_definition, variable};
use crate::steps::{item_closed_by, item_if};
use std::alloc::Global;
use td_scan::token::Token;
use td_scan::upcoming::Upcoming;
use td_tree::cause::Cause;
use td_tree::fault::Fault;
use td_tree::keyword::Keyword;
use td_tree::statement::Statement;
use td_tree::token::{Kind, Sign};

/// `TRANSACTION`, after `BEGIN`
#[tactic(auto, unfolding(crate::specs::code::ReadingStatements::body_of_word))]
fn begin(tokens: &mut Cursor<'_, '_>) -> Result<Statement, Fault>
    ensures { Moves statement_view result tokens.new
        (reading.body_of_word Keyword.Begin tokens.old) }
{
    tokens.expect_keyword(Keyword::Transaction)?;
    Ok(Statement::BeginTransaction)
}

/// A statement without its end.
#[tactic(auto, unfolding(crate::specs::code::ReadingStatements::body, crate::specs::code::ReadingStatements::body_of_word), using(crate::proofs::Beginnings::assignments_alone))]
fn body(alloc: Global, tokens: &mut Cursor<'_, '_>) -> Result<Statement, Fault>
    ensures { Moves statement_view result tokens.new (reading.body tokens.old) }
{
    let before = tokens.ahead();
    match tokens.word() {
        Some(Keyword::Type) => type_definition(alloc, tokens),
        Some(Keyword::Drop) => drop(alloc, tokens),
        Some(Keyword::Var) => variable(alloc, tokens),
        Some(Keyword::Constraint) => constraint_definition(alloc, tokens),
        Some(Keyword::Begin) => begin(tokens),
        Some(Keyword::Commit) => Ok(Statement::Commit),
        Some(Keyword::Rollback) => Ok(Statement::Rollback),
        Some(Keyword::Write) => Ok(Statement::Write(expression(alloc, tokens)?)),
        Some(Keyword::Dump) => Ok(Statement::Dump),
        _ => {
            tokens.go_to(before);
            assignments(alloc, tokens)
        }
    }
}

/// A statement before its semicolon, or nothing.
#[tactic(auto, unfolding(crate::specs::code::ReadingStatements::read_body))]
fn body_or_none(alloc: Global, tokens: &mut Cursor<'_, '_>) -> Result<Statement, Fault>
    ensures { Moves statement_view result tokens.new (reading.read_body tokens.old) }
{
    if tokens.look().has_sign(Sign::Semicolon) {
        return Ok(Statement::Empty);
    }
    body(alloc, tokens)
}

/// The statement that all the tokens are.
#[tactic(auto, unfolding(crate::specs::code::ReadingStatements::read_statement, crate::specs::code::ReadingSteps::read_up_to))]
fn statement_of_all(alloc: Global, tokens: &mut Cursor<'_, '_>) -> Result<Statement, Fault>
    ensures { Answers statement_view result (or_syntax (read_statement tokens.old)) }
{
    let statement = body_or_none(alloc, tokens)?;
    let statement = item_closed_by(statement, Sign::Semicolon, tokens)?;
    item_if(statement, tokens.is_empty())
}

/// Whether a token of this kind is bad.
fn is_bad(kind: Kind) -> bool
    ensures { result ≡ is_bad kind }
{
    matches!(kind, Kind::Bad)
}

/// Whether one of the tokens is bad.
fn has_bad(tokens: &[Token<'_>]) -> bool
    ensures { result ≡ has_bad tokens.now }
{
    for token in tokens {
        if is_bad(token.kind()) {
            return true;
        }
    }
    false
}

/// The statement that the tokens spell: SCAN alone where one of them is bad, else SYNTAX alone
/// where they spell none.
pub fn parse_statement(alloc: Global, tokens: &[Token<'_>]) -> Result<Statement, Fault>
    ensures { (o : Outcome trees.Statement) × Parsed tokens.now o
        × Answers statement_view result o }
{
    if has_bad(tokens) {
        return Err(Fault::Refused(Cause::Scan));
    }
    let mut tokens = Cursor::new(alloc, tokens);
    statement_of_all(alloc, &mut tokens)
}

/// The same of tokens that are read as they are asked for. Whether one of them is bad is known.
pub fn parse_upcoming(
    alloc: Global,
    tokens: Upcoming<'_>,
    has_bad: bool,
) -> Result<Statement, Fault>
    requires { has_bad ≡ list_any is_bad_token tokens }
    ensures { (o : Outcome trees.Statement) × Parsed tokens.entry o
        × Answers statement_view result o }
{
    if has_bad {
        return Err(Fault::Refused(Cause::Scan));
    }
    let mut tokens = Cursor::of_statement(alloc, tokens);
    statement_of_all(alloc, &mut tokens)
}
