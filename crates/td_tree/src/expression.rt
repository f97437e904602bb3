//! Expressions as they are written: parentheses are nodes.
use crate::name::Name;
use crate::operator::{Aggregate, Comparison, Measure, Operator, Prefix, Style};
use crate::type_tree::AttributeTree;
use std::rc::RcStr;

/// The greatest magnitude of a number, which needs a minus.
pub const MAX_MAGNITUDE: u64 = 9_223_372_036_854_775_808;

/// A literal.
#[derive(Drop)]
pub enum Literal {
    /// A number, and whether a minus stands before it.
    Number { minus: bool, magnitude: u64 },
    /// What a text in quotes says.
    Text(RcStr),
    Truth(bool),
    TableDee,
    TableDum,
}

/// Some of the attributes of a relation.
#[derive(Drop)]
pub enum Attributes {
    /// Those with these names.
    Only(Vec<Name>),
    /// Those with other names.
    AllBut(Vec<Name>),
}

/// An attribute's name before and after `RENAME`.
#[derive(Drop)]
pub struct Renaming {
    pub old: Name,
    pub new: Name,
}

/// An operator behind its operand.
#[derive(Drop)]
pub enum Postfix {
    Project(Attributes),
    Rename(Style, Vec<Renaming>),
    Group(Style, Attributes, Name),
    Ungroup(Name),
    Wrap(Style, Attributes, Name),
    Unwrap(Name),
}

/// An expression.
#[cycle(expression)]
#[derive(Drop)]
pub enum Expr {
    Literal(Literal),
    Name(Name),
    Parentheses(Box<Expr>),
    Prefix(Prefix, Box<Expr>),
    /// `A FROM t`
    Extract(Name, Box<Expr>),
    /// `r WHERE p`: the condition has a value for each tuple of the relation.
    Restriction(Box<Expr>, Box<Expr>),
    Binary(Box<Expr>, Operator, Box<Expr>),
    Compare(Box<Expr>, Comparison, Box<Expr>),
    Postfix(Box<Expr>, Postfix),
    /// The selector of a user type.
    Select(Name, Vec<Expr>),
    /// `THE_C(e)`: what follows `THE_` need not be a name.
    Component(RcStr, Box<Expr>),
    Measure(Measure, Box<Expr>),
    /// An aggregate of the second over the tuples of the first.
    Aggregate(Aggregate, Box<Expr>, Box<Expr>),
    /// Tuples without a heading.
    Relation(Vec<Expr>),
    /// A heading and tuples.
    HeadedRelation(Vec<AttributeTree>, Vec<Expr>),
    Tuple(Vec<NamedExpr>),
    /// `EXTEND r ADD (e AS A, ..)`: the attributes are new.
    Extend(Box<Expr>, Vec<NamedExpr>),
    /// `EXTEND r : {A := e, ..}`: an attribute that is there gets another value, and its type.
    ExtendSetting(Box<Expr>, Vec<NamedExpr>),
    SummarizePer(Box<Expr>, Box<Expr>, Vec<Summary>),
    SummarizeBy(Box<Expr>, Attributes, Vec<Summary>),
    If(Box<Expr>, Box<Expr>, Box<Expr>),
    /// `WITH (A := e, ..) : x`: each name means its value in the later items and in the result.
    With(Vec<NamedExpr>, Box<Expr>),
}

/// An expression with the name that its value gets.
#[cycle(expression)]
#[derive(Drop)]
pub struct NamedExpr {
    pub name: Name,
    pub value: Expr,
}

/// An attribute that `SUMMARIZE` adds.
#[cycle(expression)]
#[derive(Drop)]
pub enum Summary {
    /// How many tuples there are.
    Count(Name),
    /// An aggregate of the values of an expression.
    Of(Aggregate, Expr, Name),
}
