//! The tokens at the front of bytes that are told at once: most are words, numbers and signs in
//! ASCII, with another ASCII character behind them.
ghost use Rattle.std.specs.Prelude.{◌≡◌, ◌==◌, ◌||◌, ◌<◌, IfSome, length, slice_index, true};
ghost use Rattle.std.specs.Char.{is_ascii_alphabetic, is_ascii_digit};
ghost use Rattle.td_scan.specs.code.Progress.{IsOrdinary, IsToken, IsWholeSign, IsWord};

use crate::reading::is_end;
use crate::run::{begins_word, digit_length, plain_length, word_kind};
use td_tree::token::{Kind, Sign};

/// The first token of bytes: how many of them it takes, and what it is.
#[derive(Clone, Copy)]
pub(crate) struct FirstToken {
    pub(crate) length: usize,
    pub(crate) kind: Kind,
}

/// How many bytes the word at the front takes, where an ASCII character ends it.
#[inline]
fn word_length(bytes: &[u8]) -> Option<usize>
    requires some { 0 < length bytes.now }
    requires word { let b = slice_index bytes.now 0
        in (is_ascii_alphabetic b || (b == 95)) ≡ true }
    ensures { IfSome result (IsWord bytes.now) }
{
    let length = plain_length(bytes);
    let (_, behind) = bytes.split_at(length);
    if behind.is_empty() || behind[0] >= 128 || behind[0] == b'#' {
        return None;
    }
    Some(length)
}

/// How many bytes the number at the front takes, where an ASCII character ends it.
#[inline]
fn number_length(bytes: &[u8]) -> Option<usize>
    requires some { 0 < length bytes.now }
    requires digit { is_ascii_digit (slice_index bytes.now 0) ≡ true }
    ensures { IfSome result (λ n. IsToken bytes.now (record { length = n; kind = Kind.Number })) }
{
    let length = digit_length(bytes);
    let (_, behind) = bytes.split_at(length);
    if behind.is_empty() || behind[0] >= 128 {
        return None;
    }
    Some(length)
}

/// The sign that the byte is, where no longer one begins with it.
#[tactic(auto, unfolding(td_tree::specs::model::Pieces::opens, td_tree::specs::model::Pieces::sign_at, td_tree::specs::model::Pieces::sign_goes_on))]
#[inline]
fn whole_sign(byte: u8) -> Option<Sign>
    ensures { IfSome result (λ sign. IsWholeSign byte sign) }
{
    match byte {
        b'{' => Some(Sign::OpenBrace),
        b'}' => Some(Sign::CloseBrace),
        b'(' => Some(Sign::OpenParenthesis),
        b')' => Some(Sign::CloseParenthesis),
        b',' => Some(Sign::Comma),
        b';' => Some(Sign::Semicolon),
        b'=' => Some(Sign::Equal),
        b'+' => Some(Sign::Plus),
        b'-' => Some(Sign::Minus),
        b'*' => Some(Sign::Times),
        _ => None,
    }
}

/// The token at the front, where it is a sign that is told at once.
#[inline]
pub(crate) fn sign_at_front(bytes: &[u8]) -> Option<FirstToken>
    ensures { IfSome result (λ token. IsToken bytes.now token) }
{
    if bytes.is_empty() {
        return None;
    }
    let sign = whole_sign(bytes[0])?;
    let kind = Kind::Sign(sign);
    Some(FirstToken { length: 1, kind })
}

/// The token at the front, where it is a word, a number or a sign that is told at once.
#[inline]
pub(crate) fn token_at_front(bytes: &[u8]) -> Option<FirstToken>
    ensures { IfSome result (λ token. IsToken bytes.now token) }
{
    if bytes.is_empty() {
        return None;
    }
    let byte = bytes[0];
    if begins_word(byte) {
        let length = word_length(bytes)?;
        let kind = word_kind(bytes.split_at(length).0);
        return Some(FirstToken { length, kind });
    }
    if byte.is_ascii_digit() {
        let length = number_length(bytes)?;
        let kind = Kind::Number;
        return Some(FirstToken { length, kind });
    }
    sign_at_front(bytes)
}

/// How many bytes the token at the front takes, where it is a word, a number or a sign that is told
/// at once, but no `;`.
#[inline]
pub(crate) fn ordinary_length(bytes: &[u8]) -> Option<usize>
    ensures { IfSome result (IsOrdinary bytes.now) }
{
    if bytes.is_empty() {
        return None;
    }
    let byte = bytes[0];
    if begins_word(byte) {
        return word_length(bytes);
    }
    if byte.is_ascii_digit() {
        return number_length(bytes);
    }
    let sign = whole_sign(byte)?;
    if is_end(Kind::Sign(sign)) {
        return None;
    }
    Some(1)
}
