//! The operators of expressions, and the levels at which they bind.
ghost use Rattle.std.specs.Prelude.{◌≡◌};
ghost use Rattle.td_tree.specs.model.Grammar.{aggregate_word, measure_word};

use crate::keyword::Keyword;

/// How loosely an expression binds, the loosest first.
#[derive(Clone, Copy, Debug, PartialEq, Eq)]
pub enum Level {
    /// `WITH`
    Binding,
    /// `WHERE`
    Restriction,
    /// `OR`
    Disjunction,
    /// `AND`
    Conjunction,
    /// `NOT`
    Negation,
    /// `=` and its kin, `IN`
    Comparison,
    /// `UNION` and its kin
    Relational,
    /// `+`, `-`, `||`
    Additive,
    /// `*`, `/`
    Multiplicative,
    /// What stands before its operand.
    Prefixed,
    /// What stands behind its operand.
    Postfixed,
    /// What needs no other to be whole.
    Primary,
}

/// An operator between two operands, which groups to the left.
#[derive(Clone, Copy, Debug, PartialEq, Eq)]
pub enum Operator {
    Or,
    And,
    Union,
    Intersect,
    Minus,
    Join,
    Times,
    Compose,
    Matching,
    NotMatching,
    /// A union that is refused where a tuple is in both.
    DisjointUnion,
    /// A difference that is refused where a tuple of the second is not in the first.
    IncludedMinus,
    Add,
    Subtract,
    Concatenate,
    Multiply,
    Divide,
}

/// Which of its two spellings an operator or an assignment is written in. They mean the same.
#[derive(Clone, Copy, Debug, PartialEq, Eq)]
pub enum Style {
    /// `RENAME (..)`, `GROUP ({..} AS X)`, `WRAP ({..} AS X)`, `UPDATE R (..)`
    Older,
    /// `RENAME {..}`, `GROUP {..} AS X`, `WRAP {..} AS X`, `UPDATE R : {..}`
    Newer,
}

/// A comparison between two operands, which does not group.
#[derive(Clone, Copy, Debug, PartialEq, Eq)]
pub enum Comparison {
    Equal,
    NotEqual,
    Less,
    LessOrEqual,
    Greater,
    GreaterOrEqual,
    In,
}

/// An operator before its operand.
#[derive(Clone, Copy, Debug, PartialEq, Eq)]
pub enum Prefix {
    Not,
    Negate,
    TransitiveClosure,
    TupleFrom,
}

/// An operator that measures a relation: `COUNT` or `IS_EMPTY`.
#[derive(Clone, Copy, Debug, PartialEq, Eq)]
pub enum Measure {
    Count,
    IsEmpty,
}

/// An aggregate of the values of an expression.
#[derive(Clone, Copy, Debug, PartialEq, Eq)]
pub enum Aggregate {
    Sum,
    Max,
    Min,
}

impl Measure {
    /// The reserved word that asks it.
    pub fn keyword(self) -> Keyword
        ensures { result ≡ measure_word self }
    {
        match self {
            Measure::Count => Keyword::Count,
            Measure::IsEmpty => Keyword::IsEmpty,
        }
    }
}

impl Aggregate {
    /// The reserved word that asks it.
    pub fn keyword(self) -> Keyword
        ensures { result ≡ aggregate_word self }
    {
        match self {
            Aggregate::Sum => Keyword::Sum,
            Aggregate::Max => Keyword::Max,
            Aggregate::Min => Keyword::Min,
        }
    }
}
