//! The tokens that come next, looked at before they are taken.
ghost use Rattle.std.specs.Prelude.{◌≡◌, ◌++◌, List, None, Some, IfSome, IsFalse, IsTrue, eqb};
ghost use Rattle.std.specs.Prelude.{length, option_map, suc};
ghost use Rattle.td_parse.specs.code.Parsing.{Eats, Sees, Takes};
ghost use Rattle.td_tree.specs.model.Lexemes as lexeme;
ghost use Rattle.td_tree.specs.model.Lexemes.{Lexeme};
ghost use Rattle.td_tree.specs.model.Pieces.{kind_of};
ghost use Rattle.td_parse.specs.code.ReadingSteps.{expect};
ghost use Rattle.td_tree.specs.model.Symbols.{symbols};
ghost use Rattle.td_tree.specs.model.TokenLexemes.{lexemes};

use std::marker::Model;
use td_scan::token::Token;
use td_scan::upcoming::Upcoming;
use td_tree::keyword::Keyword;
use td_tree::token::{Kind, Sign};

/// The tokens from some place on, seen as their lexemes: those of a list, and then those that are
/// read as they are asked for. A copy takes no memory.
#[derive(Drop)]
pub struct Ahead<'a, 't> {
    listed: &'a [Token<'t>],
    upcoming: Upcoming<'t>,
}

impl<'a, 't> Model for Ahead<'a, 't> {
    ghost use Rattle.std.specs.Prelude.{List, ◌++◌};
    ghost use Rattle.td_tree.specs.model.Lexemes.{Lexeme};
    ghost use Rattle.td_tree.specs.model.TokenLexemes.{lexemes};

    ghost Value = { List Lexeme };

    ghost view = { λ a. lexemes (a.listed.now ++ a.upcoming) };
}

impl<'a, 't> Ahead<'a, 't> {
    /// All of these tokens.
    pub fn new(tokens: &'a [Token<'t>]) -> Ahead<'a, 't>
        ensures { result ≡ lexemes tokens.now }
    {
        Ahead {
            listed: tokens,
            upcoming: Upcoming::none(),
        }
    }

    /// The tokens of a statement.
    pub fn of_statement(tokens: Upcoming<'t>) -> Ahead<'a, 't>
        ensures { result ≡ lexemes tokens.entry }
    {
        Ahead {
            listed: &[],
            upcoming: tokens,
        }
    }

    /// Whether none is left.
    pub fn is_empty(&self) -> bool
        ensures { result ≡ eqb (length self.now) 0 }
    {
        self.listed.len() + self.upcoming.len() == 0
    }

    /// One more than there are tokens left.
    pub fn turns(&self) -> usize
        ensures { result ≡ suc (length self.now) }
    {
        self.listed.len() + self.upcoming.len() + 1
    }

    /// A second look-ahead from the same place.
    pub fn again(&self) -> Ahead<'a, 't>
        ensures { result ≡ self.now }
    {
        Ahead {
            listed: self.listed,
            upcoming: self.upcoming.again(),
        }
    }

    /// What the next token is, which is not taken.
    #[inline]
    pub fn kind(&self) -> Option<Kind>
        ensures { Sees self.now result }
    {
        match self.listed {
            [token, ..] => Some(token.kind()),
            [] => self.upcoming.kind(),
        }
    }

    /// Whether this sign comes next.
    #[inline]
    #[tactic(auto, unfolding(crate::specs::code::ReadingSteps::expect))]
    pub fn has_sign(&self, sign: Sign) -> bool
        ensures yes { IsTrue result
            → (after : List Lexeme) × (expect (lexeme.sign sign) self.now ≡ Some after) }
        ensures no { IsFalse result → expect (lexeme.sign sign) self.now ≡ None }
    {
        match self.kind() {
            Some(Kind::Sign(found)) if found == sign => true,
            _ => false,
        }
    }

    /// Whether this reserved word comes next.
    #[inline]
    #[tactic(auto, unfolding(crate::specs::code::ReadingSteps::expect))]
    pub fn has_keyword(&self, word: Keyword) -> bool
        ensures yes { IsTrue result
            → (after : List Lexeme) × (expect (lexeme.keyword word) self.now ≡ Some after) }
        ensures no { IsFalse result → expect (lexeme.keyword word) self.now ≡ None }
    {
        match self.kind() {
            Some(Kind::Reserved(found)) if found == word => true,
            _ => false,
        }
    }

    /// Takes the next token: what it is, and its bytes.
    #[inline]
    #[tactic(auto, using(crate::proofs::Seen::seen))]
    pub fn take(&mut self) -> Option<(Kind, &'t [u8])>
        ensures taken { Takes self.old (option_map (λ t. (t.0, t.1.now)) result) self.new }
        ensures said { IfSome result (λ t. kind_of (symbols t.1.now) ≡ Some t.0) }
    {
        match self.listed {
            [token, rest @ ..] => {
                self.listed = rest;
                Some((token.kind(), token.text()))
            }
            [] => {
                let token = self.upcoming.take()?;
                Some((token.kind(), token.text()))
            }
        }
    }

    /// Takes this sign, if it comes next.
    #[tactic(auto, unfolding(crate::specs::code::ReadingSteps::expect))]
    pub fn sign(&mut self, sign: Sign) -> bool
        ensures { Eats (expect (lexeme.sign sign) self.old) result self.old self.new }
    {
        match self.kind() {
            Some(Kind::Sign(found)) if found == sign => {
                let _ = self.take();
                true
            }
            _ => false,
        }
    }

    /// Takes this reserved word, if it comes next.
    #[tactic(auto, unfolding(crate::specs::code::ReadingSteps::expect))]
    pub fn keyword(&mut self, word: Keyword) -> bool
        ensures { Eats (expect (lexeme.keyword word) self.old) result self.old self.new }
    {
        match self.kind() {
            Some(Kind::Reserved(found)) if found == word => {
                let _ = self.take();
                true
            }
            _ => false,
        }
    }
}
