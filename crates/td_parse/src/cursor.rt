//! The tokens that are left to read.
ghost use Rattle.std.specs.Prelude.{◌≡◌, Some, suc, length, IfOk, IfSome, eqb, option_map};
ghost use Rattle.td_parse.specs.code.Parsing.{Eats, Expects, Sees, Takes, TakesWord};
ghost use Rattle.td_tree.specs.model.Lexemes as lexeme;
ghost use Rattle.td_tree.specs.model.Pieces.{kind_of};
ghost use Rattle.td_parse.specs.code.ReadingSteps.{expect};
ghost use Rattle.td_tree.specs.model.Symbols.{symbols};
ghost use Rattle.td_tree.specs.model.TokenLexemes.{lexemes};

use crate::ahead::Ahead;
use crate::shared_names::SharedNames;
use std::alloc::{AllocError, Global};
use std::marker::Model;
use td_scan::token::Token;
use td_scan::upcoming::Upcoming;
use td_tree::cause::Cause;
use td_tree::fault::Fault;
use td_tree::keyword::Keyword;
use td_tree::name::Name;
use td_tree::token::{Kind, Sign};

/// What is answered where the grammar spells nothing.
pub const SYNTAX: Fault = Fault::Refused(Cause::Syntax);

/// The tokens that are left, seen as their lexemes.
#[derive(Drop)]
pub struct Cursor<'a, 't> {
    left: Ahead<'a, 't>,
    names: SharedNames,
    /// How many parts the tuple that was read last has.
    parts: usize,
}

impl<'a, 't> Model for Cursor<'a, 't> {
    ghost use Rattle.std.specs.Prelude.{List};
    ghost use Rattle.td_tree.specs.model.Lexemes.{Lexeme};

    ghost Value = { List Lexeme };

    ghost view = { λ c. c.left };
}

impl<'a, 't> Cursor<'a, 't> {
    /// All of these tokens.
    pub fn new(alloc: Global, tokens: &'a [Token<'t>]) -> Cursor<'a, 't>
        ensures { result ≡ lexemes tokens.now }
    {
        Cursor {
            left: Ahead::new(tokens),
            names: SharedNames::new(alloc),
            parts: 0,
        }
    }

    /// The tokens of a statement.
    pub fn of_statement(alloc: Global, tokens: Upcoming<'t>) -> Cursor<'a, 't>
        ensures { result ≡ lexemes tokens.entry }
    {
        Cursor {
            left: Ahead::of_statement(tokens),
            names: SharedNames::new(alloc),
            parts: 0,
        }
    }

    /// Whether none is left.
    pub fn is_empty(&self) -> bool
        ensures { result ≡ eqb (length self.now) 0 }
    {
        self.left.is_empty()
    }

    /// One more than there are tokens left.
    pub fn turns(&self) -> usize
        ensures { result ≡ suc (length self.now) }
    {
        self.left.turns()
    }

    /// A look-ahead from the cursor's place, which leaves the cursor there.
    pub fn ahead(&self) -> Ahead<'a, 't>
        ensures { result ≡ self.now }
    {
        self.left.again()
    }

    /// The tokens that come next, for a look that takes none.
    pub fn look(&self) -> &Ahead<'a, 't>
        ensures { result.now ≡ self.now }
    {
        &self.left
    }

    /// Goes to where looking ahead has come.
    pub fn go_to(&mut self, place: Ahead<'a, 't>)
        ensures { self.new ≡ place.entry }
    {
        self.left = place;
    }

    /// What the next token is, which is not taken.
    pub fn kind(&self) -> Option<Kind>
        ensures { Sees self.now result }
    {
        self.left.kind()
    }

    /// Takes the next token: what it is, and its bytes.
    pub fn take(&mut self) -> Option<(Kind, &'t [u8])>
        ensures taken { Takes self.old (option_map (λ t. (t.0, t.1.now)) result) self.new }
        ensures said { IfSome result (λ t. kind_of (symbols t.1.now) ≡ Some t.0) }
    {
        self.left.take()
    }

    /// Takes this sign, if it comes next.
    pub fn sign(&mut self, sign: Sign) -> bool
        ensures { Eats (expect (lexeme.sign sign) self.old) result self.old self.new }
    {
        self.left.sign(sign)
    }

    /// Takes this reserved word, if it comes next.
    pub fn keyword(&mut self, word: Keyword) -> bool
        ensures { Eats (expect (lexeme.keyword word) self.old) result self.old self.new }
    {
        self.left.keyword(word)
    }

    /// Takes this sign.
    pub fn expect_sign(&mut self, sign: Sign) -> Result<(), Fault>
        ensures { Expects (expect (lexeme.sign sign) self.old) result self.new }
    {
        if self.sign(sign) { Ok(()) } else { Err(SYNTAX) }
    }

    /// Takes this reserved word.
    pub fn expect_keyword(&mut self, word: Keyword) -> Result<(), Fault>
        ensures { Expects (expect (lexeme.keyword word) self.old) result self.new }
    {
        if self.keyword(word) {
            Ok(())
        } else {
            Err(SYNTAX)
        }
    }

    /// Takes a reserved word, if one comes next.
    pub fn word(&mut self) -> Option<Keyword>
        ensures { TakesWord self.old result self.new }
    {
        match self.left.kind() {
            Some(Kind::Reserved(word)) => {
                let _ = self.left.take();
                Some(word)
            }
            _ => None,
        }
    }

    /// The name that a token with these bytes is. One text stands for all places of a name.
    pub fn name_of(&mut self, alloc: Global, text: &[u8]) -> Result<Name, AllocError>
        requires { kind_of (symbols text.now) ≡ Some Kind.Name }
        ensures name { IfOk result (λ n. n ≡ text.now) }
        ensures stays { self.new ≡ self.old }
    {
        self.names.name_of(alloc, text)
    }

    /// How many parts a tuple may have that comes next, by the one before.
    pub fn parts(&self) -> usize {
        self.parts
    }

    /// Keeps how many parts a tuple has.
    pub fn keep_parts(&mut self, count: usize)
        ensures { self.new ≡ self.old }
    {
        self.parts = count;
    }
}
