//! Runs of bytes that leave a piece as it is, and the pieces that go on with no symbol.
ghost use Rattle.std.specs.Prelude.{◌≡◌, ◌==◌, ◌||◌, ◌+◌, ◌<◌, ◌≤◌, ◌++◌, ℕ, List, IsTrue, None};
ghost use Rattle.std.specs.Prelude.{Option, Some, drop, false, length, slice_index, true};
ghost use Rattle.std.specs.Char.{is_ascii_alphabetic, is_ascii_alphanumeric, is_ascii_digit};
ghost use Rattle.td_scan.specs.code.Fronts.{end_from};
ghost use Rattle.td_tree.specs.model.Pieces.{goes_on, is_blank, kind_after, opens, sign_goes_on};
ghost use Rattle.td_tree.specs.model.Pieces.{word_kind};
ghost use Rattle.td_tree.specs.model.Statements.{tokens};
ghost use Rattle.td_tree.specs.model.Symbols.{symbols};

use td_tree::keyword::Keyword;
use td_tree::piece::Piece;
use td_tree::token::{Kind, Sign};

/// Whether the byte is an ASCII letter or `_`.
#[inline]
pub(crate) fn begins_word(byte: u8) -> bool
    ensures { result ≡ (is_ascii_alphabetic byte || (byte == 95)) }
{
    byte.is_ascii_alphabetic() || byte == b'_'
}

/// The piece that an ASCII character begins.
#[tactic(auto, unfolding(td_tree::specs::model::Pieces::opens, td_tree::specs::model::Pieces::sign_at))]
#[inline]
pub(crate) fn opens_ascii(byte: u8) -> Piece
    requires { byte < 128 }
    ensures { result ≡ opens (Some byte) }
{
    if begins_word(byte) {
        return Piece::Word;
    }
    match byte {
        b'0'..=b'9' => Piece::Number,
        b' ' | b'\t' | b'\r' | b'\n' => Piece::Blank,
        b'\'' => Piece::OpenText,
        b'{' => Piece::Sign(Sign::OpenBrace),
        b'}' => Piece::Sign(Sign::CloseBrace),
        b'(' => Piece::Sign(Sign::OpenParenthesis),
        b')' => Piece::Sign(Sign::CloseParenthesis),
        b',' => Piece::Sign(Sign::Comma),
        b';' => Piece::Sign(Sign::Semicolon),
        _ => Piece::opens(Some(byte as char)),
    }
}

/// A reserved word that the bytes may be: one that begins with their first letter and that scripts
/// have often.
fn frequent_word(text: &[u8]) -> Option<Keyword> {
    match text.first()?.to_ascii_uppercase() {
        b'A' => Some(Keyword::And),
        b'B' => Some(Keyword::Base),
        b'C' => Some(Keyword::Char),
        b'D' => Some(Keyword::Delete),
        b'E' => Some(Keyword::Extend),
        b'F' => Some(Keyword::From),
        b'G' => Some(Keyword::Group),
        b'I' if text.len() == 6 => Some(Keyword::Insert),
        b'I' => Some(Keyword::Integer),
        b'J' => Some(Keyword::Join),
        b'K' => Some(Keyword::Key),
        b'M' => Some(Keyword::Minus),
        b'N' => Some(Keyword::Not),
        b'O' => Some(Keyword::Or),
        b'R' => Some(Keyword::Relation),
        b'S' => Some(Keyword::Summarize),
        b'T' => Some(Keyword::Tuple),
        b'U' => Some(Keyword::Update),
        b'V' => Some(Keyword::Var),
        b'W' => Some(Keyword::Where),
        _ => None,
    }
}

/// Whether the bytes are the reserved word of a tuple in capitals.
#[inline]
fn spells_tuple(text: &[u8]) -> bool
    ensures { IsTrue result → Kind.Reserved Keyword.Tuple ≡ word_kind text.now }
{
    if let [t, u, p, l, e] = text {
        if *t == b'T' && *u == b'U' && *p == b'P' && *l == b'L' && *e == b'E' {
            return true;
        }
    }
    false
}

/// What a word of several bytes is: the reserved words that scripts have often are told first, and
/// before all others that of a tuple.
fn long_word_kind(text: &[u8]) -> Kind
    ensures { result ≡ word_kind text.now }
{
    if spells_tuple(text) {
        return Kind::Reserved(Keyword::Tuple);
    }
    match frequent_word(text) {
        Some(keyword) if keyword.is_spelled_by(text) => Kind::Reserved(keyword),
        _ => Kind::of_word(text),
    }
}

/// What a word with these bytes is.
#[inline]
pub(crate) fn word_kind(text: &[u8]) -> Kind
    ensures { result ≡ word_kind text.now }
{
    if text.len() == 1 {
        return Kind::Name;
    }
    long_word_kind(text)
}

/// What the piece is, with these bytes; `None` for a blank or a comment, which are no tokens.
#[inline]
pub(crate) fn kind(piece: Piece, text: &[u8]) -> Option<Kind>
    ensures { result ≡ kind_after piece text.now }
{
    match piece {
        Piece::Blank | Piece::LineComment | Piece::Comment => None,
        Piece::Word if text.len() == 1 => Some(Kind::Name),
        Piece::Word => Some(long_word_kind(text)),
        Piece::Number => Some(Kind::Number),
        Piece::Sign(sign) => Some(Kind::Sign(sign)),
        _ => piece.kind(text),
    }
}

/// Whether the sign goes on with no symbol.
#[tactic(auto, unfolding(td_tree::specs::model::Pieces::sign_goes_on))]
#[inline]
fn is_whole_sign(sign: Sign) -> bool
    ensures { IsTrue result → (c : Option ℕ) → sign_goes_on sign c ≡ None }
{
    !matches!(
        sign,
        Sign::Colon | Sign::Less | Sign::Greater | Sign::Divide
    )
}

/// Whether the piece goes on with no symbol.
#[tactic(auto, unfolding(td_tree::specs::model::Pieces::goes_on))]
#[inline]
pub(crate) fn is_whole(piece: Piece) -> bool
    ensures { IsTrue result → (c : Option ℕ) → goes_on piece c ≡ None }
{
    match piece {
        Piece::Blank | Piece::Comment | Piece::Bad => true,
        Piece::Sign(sign) => is_whole_sign(sign),
        _ => false,
    }
}

/// Whether the byte is an ASCII letter or digit or `_`.
#[inline]
fn is_plain(byte: u8) -> bool
    ensures { result ≡ (is_ascii_alphanumeric byte || (byte == 95)) }
{
    byte.is_ascii_alphanumeric() || byte == b'_'
}

/// How many letters, digits and `_` stand at the front, each in ASCII.
#[inline]
pub(crate) fn plain_length(bytes: &[u8]) -> usize
    ensures all { (k : ℕ) → k < result → let b = slice_index bytes.now k
        in (is_ascii_alphanumeric b || (b == 95)) ≡ true }
    ensures stops { result < length bytes.now → let b = slice_index bytes.now result
        in (is_ascii_alphanumeric b || (b == 95)) ≡ false }
    ensures within { result ≤ length bytes.now }
{
    for (index, byte) in bytes.iter().enumerate() {
        if byte.is_ascii_alphabetic() {
            continue;
        }
        if !is_plain(*byte) {
            return index;
        }
    }
    bytes.len()
}

/// How many digits stand at the front, each in ASCII.
#[inline]
pub(crate) fn digit_length(bytes: &[u8]) -> usize
    ensures all { (k : ℕ) → k < result → is_ascii_digit (slice_index bytes.now k) ≡ true }
    ensures stops { result < length bytes.now
        → is_ascii_digit (slice_index bytes.now result) ≡ false }
    ensures within { result ≤ length bytes.now }
{
    for (index, byte) in bytes.iter().enumerate() {
        if !byte.is_ascii_digit() {
            return index;
        }
    }
    bytes.len()
}

/// How many ASCII characters stand at the front before the stop.
#[inline]
fn length_before(bytes: &[u8], stop: u8) -> usize
    ensures ascii { (k : ℕ) → k < result → slice_index bytes.now k < 128 }
    ensures other { (k : ℕ) → k < result → (slice_index bytes.now k == stop) ≡ false }
    ensures within { result ≤ length bytes.now }
{
    for (index, byte) in bytes.iter().enumerate() {
        if *byte >= 128 || *byte == stop {
            return index;
        }
    }
    bytes.len()
}

/// Whether the ASCII character ends the piece. It is also `false` for some that do.
#[inline]
fn ends(piece: Piece, byte: u8) -> bool
    requires { byte < 128 }
    ensures { IsTrue result → goes_on piece (Some byte) ≡ None }
{
    match piece {
        Piece::Word => !is_plain(byte) && byte != b'#',
        Piece::Number => !byte.is_ascii_digit(),
        Piece::Text => byte != b'\'',
        Piece::LineComment => byte == b'\n',
        _ => false,
    }
}

/// Whether an ASCII character at the front ends the piece. It is also `false` for some that do.
#[inline]
pub(crate) fn is_ended(piece: Piece, bytes: &[u8]) -> bool
    ensures { IsTrue result → (at : ℕ) (later : List ℕ)
        → end_from at piece (symbols (bytes.now ++ later)) ≡ (at, piece) }
{
    if bytes.is_empty() {
        return false;
    }
    let byte = bytes[0];
    byte < 128 && ends(piece, byte)
}

/// Whether the byte is an ASCII blank.
#[inline]
fn is_blank_byte(byte: u8) -> bool
    ensures { IsTrue result → (byte < 128) × (is_blank byte ≡ true) }
{
    byte == b' ' || byte == b'\n' || byte == b'\t' || byte == b'\r'
}

/// How many blanks stand at the front, each in ASCII: they are no tokens.
#[inline]
pub(crate) fn blank_length(bytes: &[u8]) -> usize
    ensures same { (at : ℕ) (later : List ℕ) → tokens at (bytes.now ++ later)
        ≡ tokens (at + result) (drop result bytes.now ++ later) }
    ensures within { result ≤ length bytes.now }
{
    for (index, byte) in bytes.iter().enumerate() {
        if !is_blank_byte(*byte) {
            return index;
        }
    }
    bytes.len()
}

/// How many bytes at the front leave the piece as it is, each an ASCII character.
#[inline]
pub(crate) fn run_length(piece: Piece, bytes: &[u8]) -> usize
    ensures same { (at : ℕ) (later : List ℕ) → end_from at piece (symbols (bytes.now ++ later))
        ≡ end_from (at + result) piece (symbols (drop result bytes.now ++ later)) }
    ensures within { result ≤ length bytes.now }
{
    match piece {
        Piece::Word => plain_length(bytes),
        Piece::Number => digit_length(bytes),
        Piece::OpenText => length_before(bytes, b'\''),
        Piece::LineComment => length_before(bytes, b'\n'),
        Piece::OpenComment => length_before(bytes, b'*'),
        _ => 0,
    }
}
