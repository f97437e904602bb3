//! Writers of what holds no expression.
ghost use Rattle.std.specs.Prelude.{◌≡◌, ◌∷◌, ◌++◌, [], IfOk, List, codes, map};
ghost use Rattle.std.specs.Rc.{rc_str_bytes};
ghost use Rattle.std.specs.String.{string_bytes};
ghost use Rattle.td_tree.specs.declared.keyword.Keyword.TheVariants as k;
ghost use Rattle.td_tree.specs.declared.token.Sign.TheVariants as signs;
ghost use Rattle.td_tree.specs.model.Grammar.{comparison_word, operator_words};
ghost use Rattle.td_tree.specs.model.Lexemes.{Lexeme, spaced_text};
ghost use Rattle.td_tree.specs.model.Lexemes as lexeme;
ghost use Rattle.td_tree.specs.model.Lists.{with_parentheses};
ghost use Rattle.td_tree.specs.model.Prints.{as_lexemes, attributes_lexemes, commas};
ghost use Rattle.td_tree.specs.model.Prints.{gathering_between, literal_lexemes, name_lexemes};
ghost use Rattle.td_tree.specs.model.Prints.{postfix_lexemes, prefix_words, renaming_lexemes};
ghost use Rattle.td_tree.specs.model.Prints.{renamings_between};
ghost use Rattle.td_tree.specs.code.TreeViews.{attributes_view, literal_view, postfix_view};
ghost use Rattle.td_tree.specs.code.TreeViews.{renaming_view};
ghost use Rattle.td_tree.specs.code.Written.{Writes, comma_lexeme_if, written_text};

use crate::expression::{Attributes, Literal, Postfix, Renaming};
use crate::keyword::Keyword;
use crate::name::Name;
use crate::operator::{Comparison, Operator, Prefix, Style};
use crate::quoted::put_quoted;
use crate::token::Sign;
use std::alloc::{AllocError, Global};
use std::marker::Model;
use std::rc::RcStr;

/// A text that grows, seen as its bytes: lexemes, with a space behind each one.
#[derive(Drop)]
pub(super) struct Printer {
    out: String,
}

impl Model for Printer {
    ghost use Rattle.std.specs.Prelude.{ℕ, List};
    ghost use Rattle.std.specs.String.{string_bytes};

    ghost Value = { List ℕ };

    ghost view = { λ a. string_bytes a.out };
}

impl Printer {
    pub(super) fn new(alloc: Global) -> Printer
        ensures { result ≡ [] }
    {
        Printer {
            out: String::new(alloc),
        }
    }

    /// The text without the space behind its last lexeme.
    pub(super) fn finish(self) -> String
        ensures { (ls : List Lexeme) → self ≡ written_text ls
            → string_bytes result ≡ spaced_text ls }
    {
        let mut out = self.out;
        out.pop();
        out
    }

    fn raw(mut self, text: &str) -> Result<Printer, AllocError>
        ensures { IfOk result (λ out. out ≡ self ++ text.now) }
    {
        self.out.push_str(text)?;
        Ok(self)
    }

    fn token(self, text: &str) -> Result<Printer, AllocError>
        ensures { IfOk result (λ out. out ≡ self ++ (text.now ++ codes " ")) }
    {
        self.raw(text)?.raw(" ")
    }

    pub(super) fn keyword(self, keyword: Keyword) -> Result<Printer, AllocError>
        ensures { Writes self result (lexeme.keyword keyword ∷ []) }
    {
        self.token(keyword.word())
    }

    pub(super) fn sign(self, sign: Sign) -> Result<Printer, AllocError>
        ensures { Writes self result (lexeme.sign sign ∷ []) }
    {
        self.token(sign.text())
    }

    pub(super) fn name(self, name: &Name) -> Result<Printer, AllocError>
        ensures { Writes self result (lexeme.name name.now ∷ []) }
    {
        self.token(name.as_str())
    }

    /// A word that names a component: `THE_` and the rest of it.
    pub(super) fn component(self, rest: &RcStr) -> Result<Printer, AllocError>
        ensures { Writes self result (lexeme.component (rc_str_bytes rest.now) ∷ []) }
    {
        self.raw("THE_")?.token(rest.as_str())
    }

    fn number(self, n: u64) -> Result<Printer, AllocError>
        ensures { Writes self result (lexeme.number n ∷ []) }
    {
        let mut buffer = itoa::Buffer::new();
        self.token(buffer.format(n))
    }

    fn text_in_quotes(mut self, said: &str) -> Result<Printer, AllocError>
        ensures { Writes self result (lexeme.text said.now ∷ []) }
    {
        put_quoted(&mut self.out, said)?;
        self.raw(" ")
    }

    pub(super) fn literal(self, literal: &Literal) -> Result<Printer, AllocError>
        ensures { Writes self result (literal_lexemes (literal_view literal.now)) }
    {
        match literal {
            Literal::Number {
                minus: true,
                magnitude,
            } => self.sign(Sign::Minus)?.number(*magnitude),
            Literal::Number {
                minus: false,
                magnitude,
            } => self.number(*magnitude),
            Literal::Text(content) => self.text_in_quotes(content.as_str()),
            Literal::Truth(true) => self.keyword(Keyword::True),
            Literal::Truth(false) => self.keyword(Keyword::False),
            Literal::TableDee => self.keyword(Keyword::TableDee),
            Literal::TableDum => self.keyword(Keyword::TableDum),
        }
    }

    /// The comma before each item but the first.
    pub(super) fn comma(self, later: bool) -> Result<Printer, AllocError>
        ensures { Writes self result (comma_lexeme_if later) }
    {
        if later {
            self.sign(Sign::Comma)
        } else {
            Ok(self)
        }
    }

    fn names(self, names: &[Name]) -> Result<Printer, AllocError>
        ensures { Writes self result (name_lexemes names.now) }
    {
        let mut out = self;
        let mut later = false;
        for name in names {
            out = out.comma(later)?.name(name)?;
            later = true;
        }
        Ok(out)
    }

    fn all_but(self, names: &[Name]) -> Result<Printer, AllocError>
        ensures { Writes self result
            (lexeme.keyword k.All ∷ (lexeme.keyword k.But ∷ name_lexemes names.now)) }
    {
        self.keyword(Keyword::All)?
            .keyword(Keyword::But)?
            .names(names)
    }

    pub(super) fn attributes(self, attributes: &Attributes) -> Result<Printer, AllocError>
        ensures { Writes self result (attributes_lexemes (attributes_view attributes.now)) }
    {
        let out = self.sign(Sign::OpenBrace)?;
        let out = match attributes {
            Attributes::Only(names) => out.names(names)?,
            Attributes::AllBut(names) => out.all_but(names)?,
        };
        out.sign(Sign::CloseBrace)
    }

    /// `AS` and a name.
    pub(super) fn alias(self, name: &Name) -> Result<Printer, AllocError>
        ensures { Writes self result (as_lexemes name.now) }
    {
        self.keyword(Keyword::As)?.name(name)
    }

    /// A name and `:=`.
    pub(super) fn target(self, name: &Name) -> Result<Printer, AllocError>
        ensures { Writes self result (lexeme.name name.now ∷ (lexeme.sign signs.Assign ∷ [])) }
    {
        self.name(name)?.sign(Sign::Assign)
    }

    fn renamings(self, renamings: &[Renaming]) -> Result<Printer, AllocError>
        ensures { Writes self result
            (commas (map renaming_lexemes (map renaming_view renamings.now))) }
    {
        let mut out = self;
        let mut later = false;
        for renaming in renamings {
            out = out.comma(later)?.name(&renaming.old)?.alias(&renaming.new)?;
            later = true;
        }
        Ok(out)
    }

    /// Renamings between the signs that the spelling wants.
    fn rename(self, style: Style, renamings: &[Renaming]) -> Result<Printer, AllocError>
        ensures { Writes self result
            (renamings_between style
            (commas (map renaming_lexemes (map renaming_view renamings.now)))) }
    {
        match style {
            Style::Older => {
                let out = self.sign(Sign::OpenParenthesis)?;
                out.renamings(renamings)?.sign(Sign::CloseParenthesis)
            }
            Style::Newer => {
                let out = self.sign(Sign::OpenBrace)?;
                out.renamings(renamings)?.sign(Sign::CloseBrace)
            }
        }
    }

    /// Attributes and the name of the one that they become.
    fn gathered(self, attributes: &Attributes, name: &Name) -> Result<Printer, AllocError>
        ensures { Writes self result
            (attributes_lexemes (attributes_view attributes.now) ++ as_lexemes name.now) }
    {
        self.attributes(attributes)?.alias(name)
    }

    /// Attributes and the name of the one that they become, in parentheses where the spelling
    /// wants them.
    fn gathering(
        self,
        style: Style,
        attributes: &Attributes,
        name: &Name,
    ) -> Result<Printer, AllocError>
        ensures { Writes self result
            (gathering_between style
            (attributes_lexemes (attributes_view attributes.now) ++ as_lexemes name.now)) }
    {
        match style {
            Style::Older => {
                let out = self.sign(Sign::OpenParenthesis)?;
                out.gathered(attributes, name)?.sign(Sign::CloseParenthesis)
            }
            Style::Newer => self.gathered(attributes, name),
        }
    }

    fn parenthesized_name(self, name: &Name) -> Result<Printer, AllocError>
        ensures { Writes self result (with_parentheses (lexeme.name name.now ∷ [])) }
    {
        let out = self.sign(Sign::OpenParenthesis)?;
        out.name(name)?.sign(Sign::CloseParenthesis)
    }

    pub(super) fn postfix(self, op: &Postfix) -> Result<Printer, AllocError>
        ensures { Writes self result (postfix_lexemes (postfix_view op.now)) }
    {
        match op {
            Postfix::Project(attributes) => self.attributes(attributes),
            Postfix::Rename(style, renamings) => {
                self.keyword(Keyword::Rename)?.rename(*style, renamings)
            }
            Postfix::Group(style, attributes, name) => {
                self.keyword(Keyword::Group)?
                    .gathering(*style, attributes, name)
            }
            Postfix::Ungroup(name) => self.keyword(Keyword::Ungroup)?.parenthesized_name(name),
            Postfix::Wrap(style, attributes, name) => {
                self.keyword(Keyword::Wrap)?
                    .gathering(*style, attributes, name)
            }
            Postfix::Unwrap(name) => self.keyword(Keyword::Unwrap)?.parenthesized_name(name),
        }
    }

    pub(super) fn prefix(self, op: Prefix) -> Result<Printer, AllocError>
        ensures { Writes self result (prefix_words op) }
    {
        match op {
            Prefix::Not => self.keyword(Keyword::Not),
            Prefix::Negate => self.sign(Sign::Minus),
            Prefix::TransitiveClosure => self.keyword(Keyword::Tclose),
            Prefix::TupleFrom => self.keyword(Keyword::Tuple)?.keyword(Keyword::From),
        }
    }

    pub(super) fn operator(self, op: Operator) -> Result<Printer, AllocError>
        ensures { Writes self result (operator_words op) }
    {
        match op {
            Operator::Or => self.keyword(Keyword::Or),
            Operator::And => self.keyword(Keyword::And),
            Operator::Union => self.keyword(Keyword::Union),
            Operator::Intersect => self.keyword(Keyword::Intersect),
            Operator::Minus => self.keyword(Keyword::Minus),
            Operator::Join => self.keyword(Keyword::Join),
            Operator::Times => self.keyword(Keyword::Times),
            Operator::Compose => self.keyword(Keyword::Compose),
            Operator::Matching => self.keyword(Keyword::Matching),
            Operator::NotMatching => self.keyword(Keyword::Not)?.keyword(Keyword::Matching),
            Operator::DisjointUnion => self.keyword(Keyword::DUnion),
            Operator::IncludedMinus => self.keyword(Keyword::IMinus),
            Operator::Add => self.sign(Sign::Plus),
            Operator::Subtract => self.sign(Sign::Minus),
            Operator::Concatenate => self.sign(Sign::Concatenate),
            Operator::Multiply => self.sign(Sign::Times),
            Operator::Divide => self.sign(Sign::Divide),
        }
    }

    pub(super) fn comparison(self, op: Comparison) -> Result<Printer, AllocError>
        ensures { Writes self result (comparison_word op ∷ []) }
    {
        match op {
            Comparison::Equal => self.sign(Sign::Equal),
            Comparison::NotEqual => self.sign(Sign::NotEqual),
            Comparison::Less => self.sign(Sign::Less),
            Comparison::LessOrEqual => self.sign(Sign::LessOrEqual),
            Comparison::Greater => self.sign(Sign::Greater),
            Comparison::GreaterOrEqual => self.sign(Sign::GreaterOrEqual),
            Comparison::In => self.keyword(Keyword::In),
        }
    }
}
