//! What was read, and what has to follow it.
ghost use Rattle.td_parse.specs.code.Parsing.{Both, Fits, Keeps};
ghost use Rattle.td_tree.specs.model.Lexemes as lexeme;
ghost use Rattle.td_parse.specs.code.ReadingSteps.{expect};

use crate::cursor::{Cursor, SYNTAX};
use td_tree::fault::Fault;
use td_tree::keyword::Keyword;
use td_tree::token::Sign;

/// What was read, if this sign closes it.
pub fn item_closed_by<T: Drop>(
    item: T,
    close: Sign,
    tokens: &mut Cursor<'_, '_>,
) -> Result<T, Fault>
    ensures { Keeps item (expect (lexeme.sign close) tokens.old) result tokens.new }
{
    tokens.expect_sign(close)?;
    Ok(item)
}

/// What was read, if this word ends it.
pub fn item_ended_by<T: Drop>(
    item: T,
    end: Keyword,
    tokens: &mut Cursor<'_, '_>,
) -> Result<T, Fault>
    ensures { Keeps item (expect (lexeme.keyword end) tokens.old) result tokens.new }
{
    tokens.expect_keyword(end)?;
    Ok(item)
}

/// What was read, if it fits.
pub fn item_if<T: Drop>(item: T, fits: bool) -> Result<T, Fault>
    ensures { Fits item fits result }
{
    if fits { Ok(item) } else { Err(SYNTAX) }
}

/// What was read first, and what was read next.
pub fn pair_of<T: Drop, U: Drop>(first: T, next: Result<U, Fault>) -> Result<(T, U), Fault>
    ensures { Both first next result }
{
    Ok((first, next?))
}
