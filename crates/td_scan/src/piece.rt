//! The piece at the front of bytes.
ghost use Rattle.std.specs.Prelude.{◌≡◌, ◌<◌, ◌≤◌, ◌+◌, ◌++◌, ℕ, length, take, drop};
ghost use Rattle.td_scan.specs.code.Fronts.{first_end};
ghost use Rattle.td_tree.specs.model.Pieces.{kind_after};
ghost use Rattle.td_tree.specs.model.Statements.{token_of, tokens};
ghost use Rattle.td_tree.specs.model.Symbols.{symbols};

use crate::symbol::symbol_at_front;
use td_tree::piece::Piece;

/// The longest piece at the front: how many bytes it takes, and what it is.
#[derive(Clone, Copy)]
pub struct First {
    pub length: usize,
    pub piece: Piece,
}

/// The longest piece at the front, by the machine.
fn measure(bytes: &[u8]) -> First
    requires { 0 < length bytes.now }
    ensures is { (result.length, result.piece) ≡ first_end (symbols bytes.now) }
    ensures some { 0 < result.length }
    ensures within { result.length ≤ length bytes.now }
{
    let front = symbol_at_front(bytes);
    let mut piece = Piece::opens(front.character);
    let mut length = front.size;
    let (_, mut rest) = bytes.split_at(front.size);
    while !rest.is_empty() {
        let front = symbol_at_front(rest);
        let Some(longer) = piece.goes_on(front.character) else {
            return First { length, piece };
        };
        let (_, after) = rest.split_at(front.size);
        piece = longer;
        length += front.size;
        rest = after;
    }
    First { length, piece }
}

/// The longest piece at the front: the token that it is, if it is one, and then those of the rest.
pub fn first_piece(bytes: &[u8]) -> First
    requires { 0 < length bytes.now }
    ensures tokens { (at : ℕ) → tokens at bytes.now
        ≡ token_of (kind_after result.piece (take result.length bytes.now)) at
        (take result.length bytes.now)
        ++ tokens (at + result.length) (drop result.length bytes.now) }
    ensures some { 0 < result.length }
    ensures within { result.length ≤ length bytes.now }
{
    measure(bytes)
}
