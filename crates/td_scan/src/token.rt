//! Tokens.
ghost use Rattle.std.specs.Prelude.{Some, ◌≡◌, ◌+◌, ◌<◌, ◌^◌, ◌≤◌, ◌∷◌, [], length, IfSome, IfNone};
ghost use Rattle.std.specs.Prelude.{IfOk, IfErr};
ghost use Rattle.td_scan.specs.code.Progress.{IsNext, IsNoToken};
ghost use Rattle.td_tree.specs.model.Pieces.{kind_of};
ghost use Rattle.td_tree.specs.model.Statements.{tokens};
ghost use Rattle.td_tree.specs.model.Symbols.{symbols};

use crate::front::{FirstToken, token_at_front};
use crate::piece::first_piece;
use crate::run::{blank_length, kind};
use std::marker::Model;
use td_tree::token::Kind;

/// A token: what it is, the bytes that it is, and where they begin and end in the script. What it
/// is, its bytes say, and where it ends, their number.
#[derive(Drop)]
pub struct Token<'a> {
    text: &'a [u8],
    start: u64,
    kind: Kind,
}

impl<'a> Model for Token<'a> {
    ghost use Rattle.std.specs.Prelude.{Some, ◌≡◌, ◌+◌, ◌<◌, ◌^◌, length};
    ghost use Rattle.td_tree.specs.model.Pieces.{kind_of};
    ghost use Rattle.td_tree.specs.model.Statements.{PlacedToken};
    ghost use Rattle.td_tree.specs.model.Symbols.{symbols};

    ghost Value = { PlacedToken };

    ghost view = { λ t. record {
      kind = t.kind;
      text = t.text.now;
      start = t.start;
      stop = t.start + length t.text.now;
    } };

    ghost invariant = { λ t. (kind_of (symbols t.text.now) ≡ Some t.kind)
        × (t.start + length t.text.now < 2 ^ 64) };
}

impl<'a> Token<'a> {
    /// What it is.
    pub fn kind(&self) -> Kind
        ensures value { result ≡ self.now.kind }
        ensures said { kind_of (symbols self.now.text) ≡ Some result }
    {
        self.kind
    }

    /// The bytes that it is.
    pub fn text(&self) -> &'a [u8]
        ensures { result.now ≡ self.now.text }
    {
        self.text
    }

    /// Where they begin in the script, in bytes.
    pub fn start(&self) -> u64
        ensures { result ≡ self.now.start }
    {
        self.start
    }

    /// Where they end in the script, in bytes.
    pub fn stop(&self) -> u64
        ensures { result ≡ self.now.stop }
    {
        self.start + self.text.len() as u64
    }
}

/// Bytes that begin with a token, and where they begin in the script.
#[derive(Clone, Copy)]
pub(crate) struct Front<'a> {
    pub(crate) bytes: &'a [u8],
    pub(crate) start: u64,
    pub(crate) first: FirstToken,
}

/// A token, and the bytes behind it.
#[derive(Drop)]
pub(crate) struct FrontToken<'a> {
    pub(crate) token: Token<'a>,
    pub(crate) rest: &'a [u8],
}

impl<'a> Front<'a> {
    /// The token, and the bytes behind it.
    pub(crate) fn split(self) -> FrontToken<'a>
        requires room { self.start + length self.bytes.now < 2 ^ 64 }
        requires next { IsNext self.bytes.now self.first }
        ensures found { tokens self.entry.start self.entry.bytes.now
            ≡ result.token ∷ tokens result.token.stop result.rest.now }
        ensures place { result.token.stop + length result.rest.now
            ≡ self.entry.start + length self.entry.bytes.now }
        ensures shorter { length result.rest.now < length self.entry.bytes.now }
    {
        let (text, rest) = self.bytes.split_at(self.first.length);
        let token = Token {
            text,
            start: self.start,
            kind: self.first.kind,
        };
        FrontToken { token, rest }
    }
}

/// What the first piece of the bytes is, if it is a token, and how many bytes it takes.
fn first_kind(bytes: &[u8]) -> Result<FirstToken, usize>
    requires { 0 < length bytes.now }
    ensures token { IfOk result (IsNext bytes.now) }
    ensures none { IfErr result (IsNoToken bytes.now) }
{
    let first = first_piece(bytes);
    let length = first.length;
    let (text, _) = bytes.split_at(length);
    match kind(first.piece, text) {
        Some(kind) => Ok(FirstToken { length, kind }),
        None => Err(length),
    }
}

/// The bytes from their first token on, by a look at each piece.
#[inline(never)]
fn by_pieces<'a>(bytes: &'a [u8], offset: u64) -> Option<Front<'a>>
    requires { offset + length bytes.now < 2 ^ 64 }
    ensures same { IfSome result
        (λ f. tokens f.start f.bytes.now ≡ tokens offset bytes.now) }
    ensures next { IfSome result (λ f. IsNext f.bytes.now f.first) }
    ensures place { IfSome result
        (λ f. f.start + length f.bytes.now ≡ offset + length bytes.now) }
    ensures within { IfSome result (λ f. length f.bytes.now ≤ length bytes.now) }
    ensures none { IfNone result (tokens offset bytes.now ≡ []) }
{
    let mut start = offset;
    let mut bytes = bytes;
    loop {
        let blanks = blank_length(bytes);
        bytes = bytes.split_at(blanks).1;
        start += blanks as u64;
        if bytes.is_empty() {
            return None;
        }
        match first_kind(bytes) {
            Ok(first) => return Some(Front {
                bytes,
                start,
                first,
            }),
            Err(length) => {
                bytes = bytes.split_at(length).1;
                start += length as u64;
            }
        }
    }
}

/// The bytes from their first token on. They begin at this offset of a script.
#[inline]
pub(crate) fn to_first_token<'a>(bytes: &'a [u8], offset: u64) -> Option<Front<'a>>
    requires { offset + length bytes.now < 2 ^ 64 }
    ensures same { IfSome result
        (λ f. tokens f.start f.bytes.now ≡ tokens offset bytes.now) }
    ensures next { IfSome result (λ f. IsNext f.bytes.now f.first) }
    ensures place { IfSome result
        (λ f. f.start + length f.bytes.now ≡ offset + length bytes.now) }
    ensures within { IfSome result (λ f. length f.bytes.now ≤ length bytes.now) }
    ensures none { IfNone result (tokens offset bytes.now ≡ []) }
{
    let blanks = blank_length(bytes);
    let (_, behind) = bytes.split_at(blanks);
    let start = offset + blanks as u64;
    match token_at_front(behind) {
        Some(first) => Some(Front {
            bytes: behind,
            start,
            first,
        }),
        None => by_pieces(behind, start),
    }
}

/// The first token of the bytes, which begin at this offset of a script.
pub(crate) fn first_token<'a>(bytes: &'a [u8], offset: u64) -> Option<FrontToken<'a>>
    requires { offset + length bytes.now < 2 ^ 64 }
    ensures found { IfSome result
        (λ f. tokens offset bytes.now ≡ f.token ∷ tokens f.token.stop f.rest.now) }
    ensures place { IfSome result
        (λ f. f.token.stop + length f.rest.now ≡ offset + length bytes.now) }
    ensures shorter { IfSome result (λ f. length f.rest.now < length bytes.now) }
    ensures none { IfNone result (tokens offset bytes.now ≡ []) }
{
    Some(to_first_token(bytes, offset)?.split())
}
