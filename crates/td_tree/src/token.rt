//! What a token is.
ghost use Rattle.std.specs.Prelude.{◌≡◌};
ghost use Rattle.td_tree.specs.model.Pieces.{text_kind, word_kind};
ghost use Rattle.td_tree.specs.model.Signs.{sign_text};

use crate::keyword::Keyword;
use crate::name::begins_the;

/// A sign.
#[derive(Clone, Copy, Debug, PartialEq, Eq)]
pub enum Sign {
    Assign,
    NotEqual,
    LessOrEqual,
    GreaterOrEqual,
    Concatenate,
    OpenBrace,
    CloseBrace,
    OpenParenthesis,
    CloseParenthesis,
    Comma,
    Semicolon,
    Colon,
    Equal,
    Less,
    Greater,
    Plus,
    Minus,
    Times,
    Divide,
}

impl Sign {
    /// The sign as it is spelled.
    pub fn text(self) -> &'static str
        ensures { result.now ≡ sign_text self }
    {
        match self {
            Sign::Assign => ":=",
            Sign::NotEqual => "<>",
            Sign::LessOrEqual => "<=",
            Sign::GreaterOrEqual => ">=",
            Sign::Concatenate => "||",
            Sign::OpenBrace => "{",
            Sign::CloseBrace => "}",
            Sign::OpenParenthesis => "(",
            Sign::CloseParenthesis => ")",
            Sign::Comma => ",",
            Sign::Semicolon => ";",
            Sign::Colon => ":",
            Sign::Equal => "=",
            Sign::Less => "<",
            Sign::Greater => ">",
            Sign::Plus => "+",
            Sign::Minus => "-",
            Sign::Times => "*",
            Sign::Divide => "/",
        }
    }
}

/// What a token is.
#[derive(Clone, Copy, Debug, PartialEq, Eq)]
pub enum Kind {
    /// A reserved word, in any ASCII case.
    Reserved(Keyword),
    /// A word that begins with `THE_` in any ASCII case: the rest of it names a component.
    Component,
    /// Every other word.
    Name,
    /// Decimal digits.
    Number,
    /// A text in quotes, in UTF-8.
    Text,
    Sign(Sign),
    /// What begins no other token, what nothing ends, and a text in quotes that is not UTF-8.
    Bad,
}

impl Kind {
    /// What a word with these bytes is.
    #[tactic(auto, unfolding(crate::specs::model::Pieces::word_kind))]
    pub fn of_word(text: &[u8]) -> Kind
        ensures { result ≡ word_kind text.now }
    {
        match Keyword::of_word(text) {
            Some(keyword) => Kind::Reserved(keyword),
            None if begins_the(text) => Kind::Component,
            None => Kind::Name,
        }
    }
    /// What a text in quotes with these bytes is.
    #[tactic(auto, using(crate::proofs::law_lemmas::FrontLaws::valid, crate::proofs::law_lemmas::FrontLaws::invalid))]
    pub fn of_text(text: &[u8]) -> Kind
        ensures { result ≡ text_kind text.now }
    {
        match str::from_utf8(text) {
            Ok(_) => Kind::Text,
            Err(_) => Kind::Bad,
        }
    }
}
