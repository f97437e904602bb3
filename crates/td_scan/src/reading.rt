//! Reading bytes behind which others may come: what is known stays.
ghost use Rattle.std.specs.Prelude.{◌≡◌, ◌+◌, ◌-◌, ◌<◌, ◌≤◌, ◌^◌, ◌++◌, ◌||◌, ℕ, List, IfOk};
ghost use Rattle.std.specs.Prelude.{IfErr, IfNone, IfSome, IsFalse, IsTrue, None, Some, drop, false};
ghost use Rattle.std.specs.Prelude.{length};
ghost use Rattle.td_scan.specs.code.Fronts.{end_from};
ghost use Rattle.td_scan.specs.code.Progress.{GoesOn, IsBegun, IsFirst, IsWithoutEnd, is_bad_kind};
ghost use Rattle.td_scan.specs.code.Progress.{is_end_piece, past_token, read_of, unread};
ghost use Rattle.td_tree.specs.model.Statements.{is_end};
ghost use Rattle.td_tree.specs.model.Symbols.{symbols};

use crate::front::ordinary_length;
use crate::piece::First;
use crate::run::{blank_length, is_ended, is_whole, kind, opens_ascii, run_length};
use crate::symbol::known_front;
use td_tree::piece::Piece;
use td_tree::token::{Kind, Sign};

/// How far a piece goes in some bytes.
#[derive(Clone, Copy)]
struct Way {
    first: First,
    /// Whether it ends there, whatever follows the bytes.
    ended: bool,
}

/// Reads on in a piece.
fn go_on(begun: First, bytes: &[u8]) -> Way
    requires { begun.length + length bytes.now < 2 ^ 64 }
    ensures ended { IsTrue result.ended → (later : List ℕ)
        → end_from begun.length begun.piece (symbols (bytes.now ++ later))
        ≡ (result.first.length, result.first.piece) }
    ensures more { IsFalse result.ended → (later : List ℕ)
        → end_from begun.length begun.piece (symbols (bytes.now ++ later))
        ≡ end_from result.first.length result.first.piece
        (symbols (drop (result.first.length - begun.length) bytes.now ++ later)) }
    ensures waits { IsFalse result.ended
        → begun.length + length bytes.now < result.first.length + 4 }
    ensures longer { begun.length ≤ result.first.length }
    ensures within { result.first.length ≤ begun.length + length bytes.now }
{
    let mut piece = begun.piece;
    let mut length = begun.length;
    let mut rest = bytes;
    loop {
        let run = run_length(piece, rest);
        let (_, behind) = rest.split_at(run);
        length += run;
        let first = First { length, piece };
        if is_ended(piece, behind) {
            return Way { first, ended: true };
        }
        let Some(front) = known_front(behind) else {
            return Way {
                first,
                ended: false,
            };
        };
        let Some(longer) = piece.goes_on(front.character) else {
            return Way { first, ended: true };
        };
        let (_, after) = behind.split_at(front.size);
        piece = longer;
        length += front.size;
        rest = after;
    }
}

/// The piece that the first symbol begins, where it is known.
fn begin_wide(bytes: &[u8]) -> Option<First>
    ensures begun { IsBegun bytes.now result }
    ensures waits { IfNone result (length bytes.now < 4) }
{
    let front = known_front(bytes)?;
    Some(First {
        length: front.size,
        piece: Piece::opens(front.character),
    })
}

/// The piece that the first symbol begins, where it is known: most often it is ASCII.
#[inline]
fn begin(bytes: &[u8]) -> Option<First>
    ensures begun { IsBegun bytes.now result }
    ensures waits { IfNone result (length bytes.now < 4) }
{
    if bytes.is_empty() {
        return None;
    }
    let byte = bytes[0];
    if byte < 128 {
        return Some(First {
            length: 1,
            piece: opens_ascii(byte),
        });
    }
    begin_wide(bytes)
}

/// Reads on in the first piece of the bytes, of which so much was read: the piece, where it ends;
/// else how much of it is read now.
fn first_known(begun: Option<First>, bytes: &[u8]) -> Result<First, Option<First>>
    requires begun { IsBegun bytes.now begun }
    ensures ended { IfOk result (λ first. IsFirst bytes.now first) }
    ensures more { IfErr result (λ begun. IsBegun bytes.now begun) }
    ensures waits { IfErr result (λ begun. length bytes.now < read_of begun + 4) }
{
    let Some(begun) = begun.or_else(|| begin(bytes)) else {
        return Err(None);
    };
    if is_whole(begun.piece) {
        return Ok(begun);
    }
    let (_, rest) = bytes.split_at(begun.length);
    let way = go_on(begun, rest);
    if way.ended {
        Ok(way.first)
    } else {
        Err(Some(way.first))
    }
}

/// How far the first statement of some bytes was read. The bytes begin at an offset of a script.
#[derive(Clone, Copy)]
pub(crate) struct Reading {
    /// How many of its tokens were read to their ends.
    pub(crate) count: usize,
    /// Whether one of them is bad.
    pub(crate) is_bad: bool,
    /// Whether the last of them is the `;` that ends the statement.
    pub(crate) is_whole: bool,
    /// Where the reading stands: the pieces before are read, and so much of the next one.
    pub(crate) start: u64,
    pub(crate) begun: Option<First>,
}

impl Reading {
    /// Nothing of a statement that begins there.
    pub(crate) fn unread(start: u64) -> Reading
        ensures { result ≡ unread start }
    {
        Reading {
            count: 0,
            is_bad: false,
            is_whole: false,
            start,
            begun: None,
        }
    }

    /// The reading once a token of this kind was read, behind which it stands.
    fn past_token(self, kind: Kind, start: u64) -> Reading
        requires { self.count + 1 < 2 ^ 64 }
        ensures { result ≡ past_token self kind start }
    {
        Reading {
            count: self.count + 1,
            is_bad: self.is_bad || is_bad(kind),
            is_whole: is_end(kind),
            start,
            begun: None,
        }
    }
}

/// Whether a token of this kind ends a statement.
pub(crate) fn is_end(kind: Kind) -> bool
    ensures { result ≡ is_end kind }
{
    matches!(kind, Kind::Sign(Sign::Semicolon))
}

/// Whether a token of this kind is bad.
fn is_bad(kind: Kind) -> bool
    ensures { result ≡ is_bad_kind kind }
{
    matches!(kind, Kind::Bad)
}

/// Reads the first piece of the bytes.
fn past_piece(reading: Reading, bytes: &[u8], first: First) -> Reading
    requires room { reading.start + length bytes.now < 2 ^ 64 }
    requires counted { reading.count ≤ reading.start }
    requires unended { reading.is_whole ≡ false }
    requires first { IsFirst bytes.now first }
    ensures read { GoesOn reading result bytes.now }
    ensures further { reading.start < result.start }
    ensures behind { result.begun ≡ None }
{
    let (text, _) = bytes.split_at(first.length);
    let start = reading.start + first.length as u64;
    match kind(first.piece, text) {
        Some(kind) => reading.past_token(kind, start),
        None => Reading {
            start,
            begun: None,
            ..reading
        },
    }
}

/// Reads the tokens at the front that are told at once, up to a `;`, and the blanks before and
/// behind them.
fn past_ordinary(reading: Reading, bytes: &[u8]) -> Reading
    requires room { reading.start + length bytes.now < 2 ^ 64 }
    requires counted { reading.count ≤ reading.start }
    requires unended { reading.is_whole ≡ false }
    requires behind { reading.begun ≡ None }
    ensures { GoesOn reading result bytes.now }
{
    let mut count = reading.count;
    let mut start = reading.start;
    let mut rest = bytes;
    loop {
        let blanks = blank_length(rest);
        start += blanks as u64;
        rest = rest.split_at(blanks).1;
        let Some(length) = ordinary_length(rest) else {
            return Reading {
                count,
                start,
                ..reading
            };
        };
        count += 1;
        start += length as u64;
        rest = rest.split_at(length).1;
    }
}

/// The bytes from a place on.
pub(crate) fn bytes_from(bytes: &[u8], offset: u64, start: u64) -> &[u8]
    requires from { offset ≤ start }
    requires within { start - offset ≤ length bytes.now }
    ensures { result.now ≡ drop (start - offset) bytes.now }
{
    bytes.split_at((start - offset) as usize).1
}

/// Reads the first piece of the bytes, and what is told at once behind it.
fn past_pieces(reading: Reading, bytes: &[u8], first: First) -> Reading
    requires room { reading.start + length bytes.now < 2 ^ 64 }
    requires counted { reading.count ≤ reading.start }
    requires unended { reading.is_whole ≡ false }
    requires first { IsFirst bytes.now first }
    ensures read { GoesOn reading result bytes.now }
    ensures further { reading.start < result.start }
{
    let past = past_piece(reading, bytes, first);
    if past.is_whole {
        return past;
    }
    past_ordinary(past, bytes_from(bytes, reading.start, past.start))
}

/// Reads on in a statement, up to its end or as far as the bytes tell.
pub(crate) fn read_on(reading: Reading, bytes: &[u8]) -> Reading
    requires room { reading.start + length bytes.now < 2 ^ 64 }
    requires counted { reading.count ≤ reading.start }
    requires unended { reading.is_whole ≡ false }
    requires begun { IsBegun bytes.now reading.begun }
    ensures { GoesOn reading result bytes.now }
{
    let mut so_far = reading;
    let mut rest = bytes;
    while !so_far.is_whole {
        let first = match first_known(so_far.begun, rest) {
            Ok(first) => first,
            Err(begun) => return Reading { begun, ..so_far },
        };
        let past = past_pieces(so_far, rest, first);
        rest = bytes_from(rest, so_far.start, past.start);
        so_far = past;
    }
    so_far
}

/// Whether the piece is a `;`.
fn is_end_piece(piece: Piece) -> bool
    ensures { result ≡ is_end_piece piece }
{
    matches!(piece, Piece::Sign(Sign::Semicolon))
}

/// Whether a `;` may stand in the bytes, of whose first piece so much was read.
fn may_end(begun: Option<First>, bytes: &[u8]) -> bool
    requires { IsBegun bytes.now begun }
    ensures { IsFalse result → IsWithoutEnd begun bytes.now }
{
    let Some(first) = begun else {
        return bytes.contains(&b';');
    };
    let (_, rest) = bytes.split_at(first.length);
    is_end_piece(first.piece) || rest.contains(&b';')
}

/// Whether a `;` may stand in what a reading leaves of bytes over which it went on.
pub(crate) fn left_may_end(old: Reading, new: Reading, bytes: &[u8]) -> bool
    requires { GoesOn old new bytes.now }
    ensures { IsFalse result
        → IsWithoutEnd new.begun (drop (new.start - old.start) bytes.now) }
{
    may_end(new.begun, bytes_from(bytes, old.start, new.start))
}
