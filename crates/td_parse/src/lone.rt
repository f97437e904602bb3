//! Literals and tuples that are expressions by themselves.
ghost use Rattle.std.specs.Prelude.{◌≡◌, ℕ, List, IfOk, IsFalse, None, Some, option_map};
ghost use Rattle.td_parse.specs.code.Lone as lone;
ghost use Rattle.td_parse.specs.code.Parsing.{Eats, Tries, seen_as};
ghost use Rattle.td_tree.specs.model.Numbers.{decimal_value};
ghost use Rattle.td_tree.specs.model.Pieces.{kind_of};
ghost use Rattle.td_tree.specs.model.Symbols.{symbols};
ghost use Rattle.td_tree.specs.code.TreeViews.{literal_view};

use crate::ahead::Ahead;
use crate::cursor::Cursor;
use crate::word::{number_of, text_of};
use std::alloc::{AllocError, Global};
use td_tree::expression::{Literal, MAX_MAGNITUDE};
use td_tree::keyword::Keyword;
use td_tree::token::{Kind, Sign};

/// Whether a sign comes next that ends an expression among others.
#[tactic(auto, unfolding(crate::specs::code::Lone::end_at))]
pub fn ends(tokens: &Ahead<'_, '_>) -> bool
    ensures { result ≡ lone.end_at tokens.now }
{
    match tokens.kind() {
        Some(Kind::Sign(sign)) => matches!(
            sign,
            Sign::Comma | Sign::CloseParenthesis | Sign::CloseBrace
        ),
        _ => false,
    }
}

/// A number that a literal spells, after a minus or not.
pub fn number_literal(minus: bool, text: &[u8]) -> Option<Literal>
    requires { kind_of (symbols text.now) ≡ Some Kind.Number }
    ensures { option_map literal_view result
        ≡ lone.number_literal minus (decimal_value text.now) }
{
    let magnitude = number_of(text)?;
    if magnitude == MAX_MAGNITUDE && !minus {
        return None;
    }
    Some(Literal::Number { minus, magnitude })
}

/// The literal that is this token.
fn literal_of(alloc: Global, kind: Kind, text: &[u8]) -> Result<Option<Literal>, AllocError>
    requires { kind_of (symbols text.now) ≡ Some kind }
    ensures { IfOk result
        (λ l. option_map literal_view l ≡ lone.literal_of (seen_as kind text.now)) }
{
    match kind {
        Kind::Number => Ok(number_literal(false, text)),
        Kind::Text => Ok(Some(Literal::Text(text_of(alloc, text)?))),
        Kind::Reserved(Keyword::True) => Ok(Some(Literal::Truth(true))),
        Kind::Reserved(Keyword::False) => Ok(Some(Literal::Truth(false))),
        _ => Ok(None),
    }
}

/// Whether a token of this kind may be a literal.
#[inline]
fn may_be_literal(kind: Kind) -> bool
    ensures { IsFalse result → (text : List ℕ) → lone.literal_of (seen_as kind text) ≡ None }
{
    matches!(
        kind,
        Kind::Number | Kind::Text | Kind::Reserved(Keyword::True | Keyword::False)
    )
}

/// Takes a literal, if it comes next and what stands behind it ends it.
#[tactic(auto, unfolding(crate::specs::code::Lone::lone_literal))]
pub fn lone_literal(
    alloc: Global,
    tokens: &mut Cursor<'_, '_>,
) -> Result<Option<Literal>, AllocError>
    ensures { IfOk result (λ l. Tries (option_map literal_view l) tokens.old tokens.new
        (lone.lone_literal tokens.old)) }
{
    match tokens.kind() {
        Some(kind) if may_be_literal(kind) => {}
        _ => return Ok(None),
    }
    let before = tokens.ahead();
    let Some((kind, text)) = tokens.take() else {
        return Ok(None);
    };
    if !ends(tokens.look()) {
        tokens.go_to(before);
        return Ok(None);
    }
    let Some(literal) = literal_of(alloc, kind, text)? else {
        tokens.go_to(before);
        return Ok(None);
    };
    Ok(Some(literal))
}

/// Takes `TUPLE {`, if it comes next.
#[tactic(auto, unfolding(crate::specs::code::Lone::behind_tuple))]
pub fn opens_tuple(tokens: &mut Cursor<'_, '_>) -> bool
    ensures { Eats (lone.behind_tuple tokens.old) result tokens.old tokens.new }
{
    if !tokens.look().has_keyword(Keyword::Tuple) {
        return false;
    }
    let before = tokens.ahead();
    if tokens.keyword(Keyword::Tuple) && tokens.sign(Sign::OpenBrace) {
        return true;
    }
    tokens.go_to(before);
    false
}
