//! The pieces that a script is divided into: how one begins, how it goes on, and what it is.
ghost use Rattle.std.specs.Prelude.{◌≡◌};
ghost use Rattle.td_tree.specs.model.Pieces.{goes_on, is_blank, kind_after, opens, sign_at};
ghost use Rattle.td_tree.specs.model.Pieces.{sign_goes_on};

use crate::name::{is_word_more, is_word_start};
use crate::token::{Kind, Sign};

/// A piece so far. At each place of a script the longest piece is taken.
#[derive(Clone, Copy, Debug, PartialEq, Eq)]
pub enum Piece {
    /// One blank.
    Blank,
    Word,
    Number,
    Sign(Sign),
    /// A `|` that no other has followed yet.
    Bar,
    /// A text in quotes that no quote ends yet.
    OpenText,
    /// A text in quotes that its last quote ends, unless one more quote follows.
    Text,
    /// A comment that begins with `//`.
    LineComment,
    /// A comment that begins with `/*` and that no `*/` ends yet.
    OpenComment,
    /// A comment that begins with `/*`, whose last character is a `*`, so that a `/` ends it.
    StarredComment,
    /// A comment from `/*` to `*/`.
    Comment,
    /// What begins no other piece.
    Bad,
}

impl Piece {
    /// The piece that a character begins; `None` stands for a byte that begins no character.
    #[tactic(auto, unfolding(crate::specs::model::Pieces::opens))]
    pub fn opens(character: Option<char>) -> Piece
        ensures { result ≡ opens character }
    {
        let Some(character) = character else {
            return Piece::Bad;
        };
        if is_blank(character) {
            Piece::Blank
        } else if character.is_ascii_digit() {
            Piece::Number
        } else if character == '\'' {
            Piece::OpenText
        } else if character == '|' {
            Piece::Bar
        } else {
            match sign_at(character) {
                Some(sign) => Piece::Sign(sign),
                None if is_word_start(character) => Piece::Word,
                None => Piece::Bad,
            }
        }
    }

    /// The piece with one more character, or `None` where it does not go on.
    #[tactic(auto, unfolding(crate::specs::model::Pieces::goes_on))]
    pub fn goes_on(self, character: Option<char>) -> Option<Piece>
        ensures { result ≡ goes_on self character }
    {
        match (self, character) {
            (Piece::Word, Some(c)) if is_word_more(c) => Some(Piece::Word),
            (Piece::Number, Some(c)) if c.is_ascii_digit() => Some(Piece::Number),
            (Piece::Sign(sign), _) => sign_goes_on(sign, character),
            (Piece::Bar, Some('|')) => Some(Piece::Sign(Sign::Concatenate)),
            (Piece::OpenText, Some('\'')) => Some(Piece::Text),
            (Piece::OpenText, _) => Some(Piece::OpenText),
            (Piece::Text, Some('\'')) => Some(Piece::OpenText),
            (Piece::LineComment, Some('\n')) => None,
            (Piece::LineComment, _) => Some(Piece::LineComment),
            (Piece::StarredComment, Some('/')) => Some(Piece::Comment),
            (Piece::OpenComment | Piece::StarredComment, Some('*')) => Some(Piece::StarredComment),
            (Piece::OpenComment | Piece::StarredComment, _) => Some(Piece::OpenComment),
            _ => None,
        }
    }

    /// What the piece is, with these bytes; `None` for a blank or a comment, which are no tokens.
    pub fn kind(self, text: &[u8]) -> Option<Kind>
        ensures { result ≡ kind_after self text.now }
    {
        match self {
            Piece::Blank | Piece::LineComment | Piece::Comment => None,
            Piece::Word => Some(Kind::of_word(text)),
            Piece::Number => Some(Kind::Number),
            Piece::Sign(sign) => Some(Kind::Sign(sign)),
            Piece::Text => Some(Kind::of_text(text)),
            Piece::Bar
            | Piece::OpenText
            | Piece::OpenComment
            | Piece::StarredComment
            | Piece::Bad => Some(Kind::Bad),
        }
    }
}

/// Whether the character is a blank.
fn is_blank(character: char) -> bool
    ensures { result ≡ is_blank character }
{
    character == ' '
        || character == '\t'
        || character == '\r'
        || character == '\n'
        || character == '\u{feff}'
}

/// The sign that the character is by itself.
#[tactic(auto, unfolding(crate::specs::model::Pieces::sign_at))]
fn sign_at(character: char) -> Option<Sign>
    ensures { result ≡ sign_at character }
{
    match character {
        '{' => Some(Sign::OpenBrace),
        '}' => Some(Sign::CloseBrace),
        '(' => Some(Sign::OpenParenthesis),
        ')' => Some(Sign::CloseParenthesis),
        ',' => Some(Sign::Comma),
        ';' => Some(Sign::Semicolon),
        ':' => Some(Sign::Colon),
        '=' => Some(Sign::Equal),
        '<' => Some(Sign::Less),
        '>' => Some(Sign::Greater),
        '+' => Some(Sign::Plus),
        '-' => Some(Sign::Minus),
        '*' => Some(Sign::Times),
        '/' => Some(Sign::Divide),
        _ => None,
    }
}

/// The piece that begins with a sign and goes on with the character.
#[tactic(auto, unfolding(crate::specs::model::Pieces::sign_goes_on))]
fn sign_goes_on(sign: Sign, character: Option<char>) -> Option<Piece>
    ensures { result ≡ sign_goes_on sign character }
{
    match (sign, character) {
        (Sign::Colon, Some('=')) => Some(Piece::Sign(Sign::Assign)),
        (Sign::Less, Some('=')) => Some(Piece::Sign(Sign::LessOrEqual)),
        (Sign::Less, Some('>')) => Some(Piece::Sign(Sign::NotEqual)),
        (Sign::Greater, Some('=')) => Some(Piece::Sign(Sign::GreaterOrEqual)),
        (Sign::Divide, Some('/')) => Some(Piece::LineComment),
        (Sign::Divide, Some('*')) => Some(Piece::OpenComment),
        _ => None,
    }
}
