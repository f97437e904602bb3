//! What the next tokens begin: an operator, a comparison, a call and so on.
ghost use Rattle.std.specs.Prelude.{◌≡◌, ◌∷◌, ℕ, List, IfOk, IsFalse, None};
ghost use Rattle.td_parse.specs.code.Parsing.{Eats, Finds, Tries, seen_as};
ghost use Rattle.td_tree.specs.model.Grammar as grammar;
ghost use Rattle.td_tree.specs.model.Lexemes.{Lexeme};
ghost use Rattle.td_parse.specs.code.ReadingOperators as reading;
ghost use Rattle.td_parse.specs.code.Walking as walking;

use crate::ahead::Ahead;
use crate::cursor::Cursor;
use std::alloc::{AllocError, Global};
use td_tree::keyword::Keyword;
use td_tree::name::Name;
use td_tree::operator::{Comparison, Level, Operator, Prefix};
use td_tree::token::{Kind, Sign};

// ---- between operands

/// What stands between two operands and groups to the left.
#[derive(Clone, Copy)]
pub enum Link {
    Where,
    Operator(Operator),
}

/// What stands between two operands. Comparisons do not group.
#[derive(Clone, Copy)]
pub enum Infix {
    Link(Link),
    Comparison(Comparison),
}

fn link_of_word(word: Keyword) -> Option<Link>
    ensures { result ≡ reading.link_of_word word }
{
    match word {
        Keyword::Where => Some(Link::Where),
        Keyword::Or => Some(Link::Operator(Operator::Or)),
        Keyword::And => Some(Link::Operator(Operator::And)),
        Keyword::Union => Some(Link::Operator(Operator::Union)),
        Keyword::Intersect => Some(Link::Operator(Operator::Intersect)),
        Keyword::Minus => Some(Link::Operator(Operator::Minus)),
        Keyword::Join => Some(Link::Operator(Operator::Join)),
        Keyword::Times => Some(Link::Operator(Operator::Times)),
        Keyword::Compose => Some(Link::Operator(Operator::Compose)),
        Keyword::Matching => Some(Link::Operator(Operator::Matching)),
        Keyword::DUnion => Some(Link::Operator(Operator::DisjointUnion)),
        Keyword::IMinus => Some(Link::Operator(Operator::IncludedMinus)),
        _ => None,
    }
}

fn link_of_sign(sign: Sign) -> Option<Link>
    ensures { result ≡ reading.link_of_sign sign }
{
    match sign {
        Sign::Plus => Some(Link::Operator(Operator::Add)),
        Sign::Minus => Some(Link::Operator(Operator::Subtract)),
        Sign::Concatenate => Some(Link::Operator(Operator::Concatenate)),
        Sign::Times => Some(Link::Operator(Operator::Multiply)),
        Sign::Divide => Some(Link::Operator(Operator::Divide)),
        _ => None,
    }
}

fn comparison_of_word(word: Keyword) -> Option<Comparison>
    ensures { result ≡ reading.comparison_of_word word }
{
    match word {
        Keyword::In => Some(Comparison::In),
        _ => None,
    }
}

fn comparison_of_sign(sign: Sign) -> Option<Comparison>
    ensures { result ≡ reading.comparison_of_sign sign }
{
    match sign {
        Sign::Equal => Some(Comparison::Equal),
        Sign::NotEqual => Some(Comparison::NotEqual),
        Sign::Less => Some(Comparison::Less),
        Sign::LessOrEqual => Some(Comparison::LessOrEqual),
        Sign::Greater => Some(Comparison::Greater),
        Sign::GreaterOrEqual => Some(Comparison::GreaterOrEqual),
        _ => None,
    }
}

fn infix_of_word(word: Keyword) -> Option<Infix>
    ensures { result ≡ walking.infix_of_word word }
{
    match link_of_word(word) {
        Some(link) => Some(Infix::Link(link)),
        None => comparison_of_word(word).map(Infix::Comparison),
    }
}

fn infix_of_sign(sign: Sign) -> Option<Infix>
    ensures { result ≡ walking.infix_of_sign sign }
{
    match link_of_sign(sign) {
        Some(link) => Some(Infix::Link(link)),
        None => comparison_of_sign(sign).map(Infix::Comparison),
    }
}

/// The level at which an operator stands.
fn level_of(op: Operator) -> Level
    ensures { result ≡ grammar.level_of op }
{
    match op {
        Operator::Or => Level::Disjunction,
        Operator::And => Level::Conjunction,
        Operator::Union
        | Operator::Intersect
        | Operator::Minus
        | Operator::Join
        | Operator::Times
        | Operator::Compose
        | Operator::Matching
        | Operator::NotMatching
        | Operator::DisjointUnion
        | Operator::IncludedMinus => Level::Relational,
        Operator::Add | Operator::Subtract | Operator::Concatenate => Level::Additive,
        Operator::Multiply | Operator::Divide => Level::Multiplicative,
    }
}

/// The next level that binds tighter.
pub fn tighter(level: Level) -> Level
    ensures { result ≡ grammar.tighter level }
{
    match level {
        Level::Binding => Level::Restriction,
        Level::Restriction => Level::Disjunction,
        Level::Disjunction => Level::Conjunction,
        Level::Conjunction => Level::Negation,
        Level::Negation => Level::Comparison,
        Level::Comparison => Level::Relational,
        Level::Relational => Level::Additive,
        Level::Additive => Level::Multiplicative,
        Level::Multiplicative => Level::Prefixed,
        Level::Prefixed => Level::Postfixed,
        Level::Postfixed | Level::Primary => Level::Primary,
    }
}

/// How tightly a level binds: more than each looser one.
fn tightness(level: Level) -> u8
    ensures { result ≡ walking.tightness level }
{
    match level {
        Level::Binding => 0,
        Level::Restriction => 1,
        Level::Disjunction => 2,
        Level::Conjunction => 3,
        Level::Negation => 4,
        Level::Comparison => 5,
        Level::Relational => 6,
        Level::Additive => 7,
        Level::Multiplicative => 8,
        Level::Prefixed => 9,
        Level::Postfixed => 10,
        Level::Primary => 11,
    }
}

impl Link {
    /// The level at which it stands.
    fn level(self) -> Level
        ensures { result ≡ reading.link_level self }
    {
        match self {
            Link::Where => Level::Restriction,
            Link::Operator(op) => level_of(op),
        }
    }
}

impl Infix {
    /// The level at which it stands.
    pub fn level(self) -> Level
        ensures { result ≡ walking.infix_level self }
    {
        match self {
            Infix::Link(link) => link.level(),
            Infix::Comparison(_) => Level::Comparison,
        }
    }

    /// The tightest level of what may follow its right operand: comparisons do not chain.
    pub fn tightest_after(self) -> Level
        ensures { result ≡ walking.tightest_after self }
    {
        match self {
            Infix::Link(link) => link.level(),
            Infix::Comparison(_) => Level::Negation,
        }
    }

    /// Whether it stands at one of these levels.
    fn is_between(self, loosest: Level, tightest: Level) -> bool
        ensures { result ≡ walking.is_between (walking.tightness loosest)
            (walking.tightness tightest) (walking.tightness (walking.infix_level self)) }
    {
        let tightness_here = tightness(self.level());
        tightness(loosest) <= tightness_here && tightness_here <= tightness(tightest)
    }
}

/// Takes what stands between operands, whatever its level.
#[tactic(auto, unfolding(crate::specs::code::Walking::any_infix))]
fn any_infix(tokens: &mut Ahead<'_, '_>) -> Option<Infix>
    ensures { Finds result tokens.new (walking.any_infix tokens.old) }
{
    match tokens.take()? {
        (Kind::Reserved(Keyword::Not), _) => {
            if tokens.keyword(Keyword::Matching) {
                Some(Infix::Link(Link::Operator(Operator::NotMatching)))
            } else {
                None
            }
        }
        (Kind::Reserved(word), _) => infix_of_word(word),
        (Kind::Sign(sign), _) => infix_of_sign(sign),
        _ => None,
    }
}

/// Whether what stands between operands may begin with a token of this kind.
#[tactic(auto, unfolding(crate::specs::code::Walking::any_infix))]
#[inline]
fn may_be_infix(kind: Kind) -> bool
    ensures { IsFalse result → (text : List ℕ) (later : List Lexeme)
        → walking.any_infix (seen_as kind text ∷ later) ≡ None }
{
    match kind {
        Kind::Reserved(_) => true,
        Kind::Sign(sign) => !matches!(
            sign,
            Sign::Comma | Sign::CloseParenthesis | Sign::CloseBrace | Sign::Semicolon
        ),
        _ => false,
    }
}

/// Takes what stands between operands at one of these levels, if it comes next.
#[tactic(auto, unfolding(crate::specs::code::Walking::infix_at, crate::specs::code::Walking::any_infix))]
pub fn next_infix(loosest: Level, tightest: Level, tokens: &mut Cursor<'_, '_>) -> Option<Infix>
    ensures { Tries result tokens.old tokens.new
        (walking.infix_at (walking.tightness loosest) (walking.tightness tightest) tokens.old) }
{
    match tokens.kind() {
        Some(kind) if may_be_infix(kind) => {}
        _ => return None,
    }
    let mut ahead = tokens.ahead();
    let op = any_infix(&mut ahead)?;
    if !op.is_between(loosest, tightest) {
        return None;
    }
    tokens.go_to(ahead);
    Some(op)
}

/// Takes `NOT`, if it comes next and a negation may stand at this level.
#[tactic(auto, unfolding(crate::specs::code::Walking::not_at))]
pub fn negation(level: Level, tokens: &mut Cursor<'_, '_>) -> bool
    ensures { Eats (walking.not_at level tokens.old) result tokens.old tokens.new }
{
    tightness(level) <= tightness(Level::Negation) && tokens.keyword(Keyword::Not)
}

// ---- before an operand

/// Whether a number comes next.
fn begins_with_number(tokens: &Ahead<'_, '_>) -> bool
    ensures { result ≡ reading.begins_with_number tokens.now }
{
    matches!(tokens.kind(), Some(Kind::Number))
}

/// Takes an operator that stands before its operand.
#[tactic(auto, unfolding(crate::specs::code::ReadingOperators::prefix_at))]
fn any_prefix(tokens: &mut Ahead<'_, '_>) -> Option<Prefix>
    ensures { Finds result tokens.new (reading.prefix_at tokens.old) }
{
    match tokens.take()? {
        (Kind::Reserved(Keyword::Tclose), _) => Some(Prefix::TransitiveClosure),
        (Kind::Reserved(Keyword::Tuple), _) if tokens.keyword(Keyword::From) => {
            Some(Prefix::TupleFrom)
        }
        (Kind::Sign(Sign::Minus), _) if !begins_with_number(tokens) => Some(Prefix::Negate),
        _ => None,
    }
}

/// Whether an operator before its operand may begin with a token of this kind.
#[tactic(auto, unfolding(crate::specs::code::ReadingOperators::prefix_at))]
#[inline]
fn may_be_prefix(kind: Kind) -> bool
    ensures { IsFalse result → (text : List ℕ) (later : List Lexeme)
        → reading.prefix_at (seen_as kind text ∷ later) ≡ None }
{
    matches!(
        kind,
        Kind::Reserved(Keyword::Tclose | Keyword::Tuple) | Kind::Sign(Sign::Minus)
    )
}

/// Takes an operator that stands before its operand, if one comes next.
#[tactic(auto, unfolding(crate::specs::code::ReadingOperators::prefix_at))]
pub fn prefix(tokens: &mut Cursor<'_, '_>) -> Option<Prefix>
    ensures { Tries result tokens.old tokens.new (reading.prefix_at tokens.old) }
{
    match tokens.kind() {
        Some(kind) if may_be_prefix(kind) => {}
        _ => return None,
    }
    let mut ahead = tokens.ahead();
    let op = any_prefix(&mut ahead)?;
    tokens.go_to(ahead);
    Some(op)
}

/// Takes a name and `FROM`, if these come next.
#[tactic(auto, unfolding(crate::specs::code::ReadingOperators::extraction_at))]
pub fn extraction(alloc: Global, tokens: &mut Cursor<'_, '_>) -> Result<Option<Name>, AllocError>
    ensures { IfOk result (λ n. Tries n tokens.old tokens.new (reading.extraction_at tokens.old)) }
{
    match tokens.kind() {
        Some(Kind::Name) => {}
        _ => return Ok(None),
    }
    let mut ahead = tokens.ahead();
    let Some((Kind::Name, text)) = ahead.take() else {
        return Ok(None);
    };
    if !ahead.keyword(Keyword::From) {
        return Ok(None);
    }
    tokens.go_to(ahead);
    Ok(Some(tokens.name_of(alloc, text)?))
}

// ---- after a first word

/// Whether a name and `:=` come next.
fn begins_setting(tokens: &Ahead<'_, '_>) -> bool
    ensures { result ≡ reading.name_and reading.is_assign tokens.now }
{
    let mut ahead = tokens.again();
    let Some((Kind::Name, _)) = ahead.take() else {
        return false;
    };
    matches!(ahead.take(), Some((Kind::Sign(Sign::Assign), _)))
}

/// After a name: takes the parenthesis that opens a call's arguments, if it comes next.
#[tactic(auto, unfolding(crate::specs::code::ReadingOperators::call_at))]
pub fn call(tokens: &mut Cursor<'_, '_>) -> bool
    ensures { Eats (reading.call_at tokens.old) result tokens.old tokens.new }
{
    if !tokens.look().has_sign(Sign::OpenParenthesis) {
        return false;
    }
    let mut ahead = tokens.ahead();
    if !ahead.sign(Sign::OpenParenthesis) || begins_setting(&ahead) {
        return false;
    }
    tokens.go_to(ahead);
    true
}

/// Whether a name and what begins a type come next.
fn begins_attribute(tokens: &Ahead<'_, '_>) -> bool
    ensures { result ≡ reading.name_and reading.begins_type tokens.now }
{
    let mut ahead = tokens.again();
    let Some((Kind::Name, _)) = ahead.take() else {
        return false;
    };
    match ahead.take() {
        Some((Kind::Name, _)) => true,
        Some((Kind::Reserved(word), _)) => matches!(
            word,
            Keyword::Integer | Keyword::Char | Keyword::Boolean | Keyword::Relation | Keyword::Tuple
        ),
        _ => false,
    }
}

/// After `RELATION`: whether a heading comes next, and not the elements.
#[tactic(auto, unfolding(crate::specs::code::ReadingOperators::heading_at))]
pub fn begins_heading(tokens: &Cursor<'_, '_>) -> bool
    ensures { result ≡ reading.heading_at tokens.now }
{
    let mut ahead = tokens.ahead();
    ahead.sign(Sign::OpenBrace) && (ahead.sign(Sign::CloseBrace) || begins_attribute(&ahead))
}
