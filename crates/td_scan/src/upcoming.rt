//! The tokens of a statement, read out of its bytes one by one.
ghost use Rattle.std.specs.Prelude.{◌+◌, ◌<◌, ◌^◌, ◌∷◌, ◌≡◌, ◌≤◌, IfNone, IfSome, List, Some, []};
ghost use Rattle.std.specs.Prelude.{length, take};
ghost use Rattle.td_tree.specs.model.Pieces.{kind_of};
ghost use Rattle.td_tree.specs.model.Statements.{PlacedToken, tokens};
ghost use Rattle.td_tree.specs.model.Symbols.{symbols};

use crate::front::{FirstToken, sign_at_front};
use crate::token::{Front, Token, to_first_token};
use std::marker::Model;
use td_tree::token::Kind;

/// The tokens of a statement that are left to take. A copy takes no memory.
#[derive(Drop)]
pub struct Upcoming<'a> {
    /// The bytes from the first of them on.
    bytes: &'a [u8],
    /// Where these begin in the script.
    start: u64,
    /// How many tokens are left.
    left: usize,
    first: FirstToken,
}

impl<'a> Model for Upcoming<'a> {
    ghost use Rattle.std.specs.Prelude.{List, take};
    ghost use Rattle.td_scan.specs.code.Progress.{AreUpcoming};
    ghost use Rattle.td_tree.specs.model.Statements.{PlacedToken, tokens};

    ghost Value = { List PlacedToken };

    ghost view = { λ u. take u.left (tokens u.start u.bytes.now) };

    ghost invariant = { λ u. AreUpcoming u.bytes.now u.start u.left u.first };
}

/// What stands for the first of no tokens.
const NOTHING: FirstToken = FirstToken {
    length: 0,
    kind: Kind::Bad,
};

impl<'a> Upcoming<'a> {
    /// So many tokens of the bytes, which begin at this offset of a script. Most often a sign stands
    /// at the front, or what is told behind blanks.
    pub(crate) fn new(bytes: &'a [u8], offset: u64, left: usize) -> Upcoming<'a>
        requires room { offset + length bytes.now < 2 ^ 64 }
        requires few { left < 2 ^ 32 }
        requires enough { left ≤ length (tokens offset bytes.now) }
        ensures { result ≡ take left (tokens offset bytes.now) }
    {
        if left > 0 {
            if let Some(first) = sign_at_front(bytes) {
                return Upcoming {
                    bytes,
                    start: offset,
                    left,
                    first,
                };
            }
            if let Some(front) = to_first_token(bytes, offset) {
                let Front {
                    bytes,
                    start,
                    first,
                } = front;
                return Upcoming {
                    bytes,
                    start,
                    left,
                    first,
                };
            }
        }
        Upcoming {
            bytes,
            start: offset,
            left: 0,
            first: NOTHING,
        }
    }

    /// No tokens.
    pub fn none() -> Upcoming<'a>
        ensures { result ≡ [] }
    {
        Upcoming {
            bytes: &[],
            start: 0,
            left: 0,
            first: NOTHING,
        }
    }

    /// How many there are: fewer than 4,294,967,296.
    pub fn len(&self) -> usize
        ensures count { result ≡ length self.now }
        ensures few { result < 2 ^ 32 }
    {
        self.left
    }

    /// The same tokens again.
    pub fn again(&self) -> Upcoming<'a>
        ensures { result ≡ self.now }
    {
        Upcoming {
            bytes: self.bytes,
            start: self.start,
            left: self.left,
            first: self.first,
        }
    }

    /// What the first of them is, if there is one.
    pub fn kind(&self) -> Option<Kind>
        ensures some { IfSome result (λ kind. (token : PlacedToken) × (later : List PlacedToken)
            × (self.now ≡ token ∷ later) × (token.kind ≡ kind)
            × (kind_of (symbols token.text) ≡ Some kind)) }
        ensures none { IfNone result (self.now ≡ []) }
    {
        if self.left > 0 {
            Some(self.first.kind)
        } else {
            None
        }
    }

    /// Takes the first of them, if there is one.
    #[inline(never)]
    pub fn take(&mut self) -> Option<Token<'a>>
        ensures some { IfSome result (λ token. self.old ≡ token ∷ self.new) }
        ensures none { IfNone result (self.old ≡ []) }
        ensures same { IfNone result (self.new ≡ []) }
    {
        if self.left == 0 {
            return None;
        }
        let front = Front {
            bytes: self.bytes,
            start: self.start,
            first: self.first,
        };
        let found = front.split();
        *self = Upcoming::new(found.rest, found.token.stop(), self.left - 1);
        Some(found.token)
    }
}
