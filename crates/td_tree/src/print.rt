//! The texts of types and expressions: their lexemes with one space between.
ghost use Rattle.std.specs.Prelude.{◌≡◌, ◌∷◌, ◌++◌, [], IfOk};
ghost use Rattle.std.specs.String.{string_bytes};
ghost use Rattle.td_tree.specs.declared.keyword.Keyword.TheVariants as k;
ghost use Rattle.td_tree.specs.declared.token.Sign.TheVariants as signs;
ghost use Rattle.td_tree.specs.model.Grammar.{aggregate_word};
ghost use Rattle.td_tree.specs.model.Lexemes.{keyword, sign};
ghost use Rattle.td_tree.specs.model.Lists.{with_braces, with_parentheses};
ghost use Rattle.td_tree.specs.model.Prints.{addition_lexemes, all_lexemes, commas};
ghost use Rattle.td_tree.specs.model.Prints.{heading_lexemes, lexemes_of, part_lexemes, print};
ghost use Rattle.td_tree.specs.model.Prints.{setting_lexemes, summary_lexemes, type_lexemes};
ghost use Rattle.td_tree.specs.model.Prints.{type_print};
ghost use Rattle.td_tree.specs.code.TreeViews.{heading_tree_view, named_view, summaries_view};
ghost use Rattle.td_tree.specs.code.TreeViews.{tree_view};
ghost use Rattle.td_tree.specs.code.TreeViews.{trees_view, type_tree_view};
ghost use Rattle.td_tree.specs.code.Written.{Writes};

mod words;

use crate::expression::{Expr, NamedExpr, Summary};
use crate::keyword::Keyword;
use crate::operator::Aggregate;
use crate::token::Sign;
use crate::type_tree::{AttributeTree, TypeTree};
use std::alloc::{AllocError, Global};
use words::Printer;

/// The text of the type.
pub fn print_type(alloc: Global, ty: &TypeTree) -> Result<String, AllocError>
    ensures { IfOk result (λ text. string_bytes text ≡ type_print (type_tree_view ty.now)) }
{
    Ok(Printer::new(alloc).ty(ty)?.finish())
}

/// The text of the expression.
pub fn print_expr(alloc: Global, expression: &Expr) -> Result<String, AllocError>
    ensures { IfOk result (λ text. string_bytes text ≡ print (tree_view expression.now)) }
{
    Ok(Printer::new(alloc).expr(expression)?.finish())
}

impl Printer {
    #[cycle(type_printer)]
    fn ty(self, ty: &TypeTree) -> Result<Printer, AllocError>
        ensures { Writes self result (type_lexemes (type_tree_view ty.now)) }
    {
        match ty {
            TypeTree::Integer => self.keyword(Keyword::Integer),
            TypeTree::Char => self.keyword(Keyword::Char),
            TypeTree::Boolean => self.keyword(Keyword::Boolean),
            TypeTree::User(name) => self.name(name),
            TypeTree::Tuple(heading) => self.keyword(Keyword::Tuple)?.heading(heading),
            TypeTree::Relation(heading) => self.keyword(Keyword::Relation)?.heading(heading),
        }
    }

    #[cycle(type_printer)]
    fn heading(self, heading: &[AttributeTree]) -> Result<Printer, AllocError>
        ensures { Writes self result (heading_lexemes (heading_tree_view heading.now)) }
    {
        let mut out = self.sign(Sign::OpenBrace)?;
        let mut later = false;
        for attribute in heading {
            out = out.comma(later)?.name(&attribute.name)?.ty(&attribute.ty)?;
            later = true;
        }
        out.sign(Sign::CloseBrace)
    }

    fn relation_type(self, heading: &[AttributeTree]) -> Result<Printer, AllocError>
        ensures { Writes self result
            (keyword k.Relation ∷ heading_lexemes (heading_tree_view heading.now)) }
    {
        self.keyword(Keyword::Relation)?.heading(heading)
    }

    #[cycle(printer)]
    fn expr(self, expression: &Expr) -> Result<Printer, AllocError>
        ensures { Writes self result (lexemes_of (tree_view expression.now)) }
    {
        match expression {
            Expr::Literal(value) => self.literal(value),
            Expr::Name(name) => self.name(name),
            Expr::Parentheses(inner) => self.with_parentheses(inner),
            Expr::Prefix(op, operand) => self.prefix(*op)?.expr(operand),
            Expr::Extract(name, operand) => self.name(name)?.after(Keyword::From, operand),
            Expr::Restriction(operand, condition) => {
                self.expr(operand)?.after(Keyword::Where, condition)
            }
            Expr::Binary(left, op, right) => self.expr(left)?.operator(*op)?.expr(right),
            Expr::Compare(left, op, right) => self.expr(left)?.comparison(*op)?.expr(right),
            Expr::Postfix(operand, op) => self.expr(operand)?.postfix(op),
            Expr::Select(ty, arguments) => self.name(ty)?.arguments(arguments),
            Expr::Component(rest, operand) => self.component(rest)?.with_parentheses(operand),
            Expr::Measure(op, operand) => self.keyword(op.keyword())?.with_parentheses(operand),
            Expr::Aggregate(op, left, right) => self
                .aggregate_start(*op, left)?
                .second_argument(right),
            Expr::Relation(elements) => self.keyword(Keyword::Relation)?.elements(elements),
            Expr::HeadedRelation(heading, elements) => {
                self.relation_type(heading)?.elements(elements)
            }
            Expr::Tuple(parts) => self.keyword(Keyword::Tuple)?.parts(parts),
            Expr::Extend(operand, parts) => self.after(Keyword::Extend, operand)?.additions(parts),
            Expr::ExtendSetting(operand, parts) => {
                self.after(Keyword::Extend, operand)?.settings(parts)
            }
            Expr::SummarizePer(operand, per, added) => {
                let out = self.after(Keyword::Summarize, operand)?;
                out.per(per)?.summaries(added)
            }
            Expr::SummarizeBy(operand, by, added) => {
                let out = self.after(Keyword::Summarize, operand)?;
                out.keyword(Keyword::By)?.attributes(by)?.summaries(added)
            }
            Expr::If(condition, yes, no) => {
                let out = self.after(Keyword::If, condition)?;
                out.after(Keyword::Then, yes)?.alternative(no)
            }
            Expr::With(items, result) => {
                let out = self.keyword(Keyword::With)?.bindings(items)?;
                out.sign(Sign::Colon)?.expr(result)
            }
        }
    }

    #[cycle(printer)]
    fn with_parentheses(self, inner: &Expr) -> Result<Printer, AllocError>
        ensures { Writes self result (with_parentheses (lexemes_of (tree_view inner.now))) }
    {
        let out = self.sign(Sign::OpenParenthesis)?;
        out.expr(inner)?.sign(Sign::CloseParenthesis)
    }

    /// The word and the expression behind it.
    #[cycle(printer)]
    fn after(self, word: Keyword, expression: &Expr) -> Result<Printer, AllocError>
        ensures { Writes self result (keyword word ∷ lexemes_of (tree_view expression.now)) }
    {
        self.keyword(word)?.expr(expression)
    }

    /// The word of an aggregate, and its first argument in an open parenthesis.
    #[cycle(printer)]
    fn aggregate_start(self, op: Aggregate, operand: &Expr) -> Result<Printer, AllocError>
        ensures { Writes self result
            (keyword (aggregate_word op)
            ∷ (sign signs.OpenParenthesis ∷ lexemes_of (tree_view operand.now))) }
    {
        self.keyword(op.keyword())?
            .sign(Sign::OpenParenthesis)?
            .expr(operand)
    }

    /// The second argument of an aggregate, and the parenthesis that closes.
    #[cycle(printer)]
    fn second_argument(self, value: &Expr) -> Result<Printer, AllocError>
        ensures { Writes self result
            (sign signs.Comma
            ∷ (lexemes_of (tree_view value.now) ++ (sign signs.CloseParenthesis ∷ []))) }
    {
        self.sign(Sign::Comma)?
            .expr(value)?
            .sign(Sign::CloseParenthesis)
    }

    #[cycle(printer)]
    fn per(self, per: &Expr) -> Result<Printer, AllocError>
        ensures { Writes self result
            (keyword k.Per ∷ with_parentheses (lexemes_of (tree_view per.now))) }
    {
        self.keyword(Keyword::Per)?.with_parentheses(per)
    }

    #[cycle(printer)]
    fn alternative(self, no: &Expr) -> Result<Printer, AllocError>
        ensures { Writes self result
            (keyword k.Else
            ∷ (lexemes_of (tree_view no.now) ++ (keyword k.End ∷ (keyword k.If ∷ [])))) }
    {
        self.after(Keyword::Else, no)?
            .keyword(Keyword::End)?
            .keyword(Keyword::If)
    }

    #[cycle(printer)]
    fn arguments(self, arguments: &[Expr]) -> Result<Printer, AllocError>
        ensures { Writes self result
            (with_parentheses (commas (all_lexemes (trees_view arguments.now)))) }
    {
        let mut out = self.sign(Sign::OpenParenthesis)?;
        let mut later = false;
        for argument in arguments {
            out = out.comma(later)?.expr(argument)?;
            later = true;
        }
        out.sign(Sign::CloseParenthesis)
    }

    #[cycle(printer)]
    fn elements(self, elements: &[Expr]) -> Result<Printer, AllocError>
        ensures { Writes self result (with_braces (commas (all_lexemes (trees_view elements.now)))) }
    {
        let mut out = self.sign(Sign::OpenBrace)?;
        let mut later = false;
        for element in elements {
            out = out.comma(later)?.expr(element)?;
            later = true;
        }
        out.sign(Sign::CloseBrace)
    }

    /// Each name and its expression, in braces.
    #[cycle(printer)]
    fn parts(self, parts: &[NamedExpr]) -> Result<Printer, AllocError>
        ensures { Writes self result (with_braces (commas (part_lexemes (named_view parts.now)))) }
    {
        let mut out = self.sign(Sign::OpenBrace)?;
        let mut later = false;
        for part in parts {
            out = out.comma(later)?.name(&part.name)?.expr(&part.value)?;
            later = true;
        }
        out.sign(Sign::CloseBrace)
    }

    /// `ADD` and each expression with `AS` and its name, in parentheses.
    #[cycle(printer)]
    fn additions(self, parts: &[NamedExpr]) -> Result<Printer, AllocError>
        ensures { Writes self result
            (keyword k.Add ∷ with_parentheses (commas (addition_lexemes (named_view parts.now)))) }
    {
        let mut out = self.keyword(Keyword::Add)?.sign(Sign::OpenParenthesis)?;
        let mut later = false;
        for part in parts {
            out = out.comma(later)?.expr(&part.value)?.alias(&part.name)?;
            later = true;
        }
        out.sign(Sign::CloseParenthesis)
    }

    /// `:` and each name with `:=` and its expression, in braces.
    #[cycle(printer)]
    fn settings(self, parts: &[NamedExpr]) -> Result<Printer, AllocError>
        ensures { Writes self result
            (sign signs.Colon ∷ with_braces (commas (setting_lexemes (named_view parts.now)))) }
    {
        let out = self.sign(Sign::Colon)?.sign(Sign::OpenBrace)?;
        out.targets(parts)?.sign(Sign::CloseBrace)
    }

    /// Each name with `:=` and its expression, in parentheses.
    #[cycle(printer)]
    fn bindings(self, items: &[NamedExpr]) -> Result<Printer, AllocError>
        ensures { Writes self result
            (with_parentheses (commas (setting_lexemes (named_view items.now)))) }
    {
        let out = self.sign(Sign::OpenParenthesis)?;
        out.targets(items)?.sign(Sign::CloseParenthesis)
    }

    /// Each name with `:=` and its expression.
    #[cycle(printer)]
    fn targets(self, parts: &[NamedExpr]) -> Result<Printer, AllocError>
        ensures { Writes self result (commas (setting_lexemes (named_view parts.now))) }
    {
        let mut out = self;
        let mut later = false;
        for part in parts {
            out = out.comma(later)?.target(&part.name)?.expr(&part.value)?;
            later = true;
        }
        Ok(out)
    }

    /// `ADD` and each aggregate with `AS` and its name, in parentheses.
    #[cycle(printer)]
    fn summaries(self, added: &[Summary]) -> Result<Printer, AllocError>
        ensures { Writes self result
            (keyword k.Add ∷ with_parentheses (commas (summary_lexemes (summaries_view added.now)))) }
    {
        let mut out = self.keyword(Keyword::Add)?.sign(Sign::OpenParenthesis)?;
        let mut later = false;
        for summary in added {
            out = out.comma(later)?.summary(summary)?;
            later = true;
        }
        out.sign(Sign::CloseParenthesis)
    }

    #[cycle(printer)]
    fn summary(self, summary: &Summary) -> Result<Printer, AllocError>
        ensures { Writes self result (commas (summary_lexemes (summaries_view
            (summary.now ∷ [])))) }
    {
        match summary {
            Summary::Count(name) => {
                let out = self.keyword(Keyword::Count)?.sign(Sign::OpenParenthesis)?;
                out.sign(Sign::CloseParenthesis)?.alias(name)
            }
            Summary::Of(op, value, name) => {
                self.keyword(op.keyword())?
                    .with_parentheses(value)?
                    .alias(name)
            }
        }
    }
}
