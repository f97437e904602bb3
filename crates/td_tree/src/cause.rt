//! The causes for which a statement is refused.
ghost use Rattle.std.specs.Prelude.{◌≡◌};
ghost use Rattle.td_tree.specs.model.Causes.{name_of, number_of};

use std::error::Error;
use std::fmt::{Display, Formatter, Write};

/// Why a statement is refused. Its number and its name stand in the answer.
#[derive(Clone, Copy, Debug, PartialEq, Eq)]
pub enum Cause {
    /// A token is bad.
    Scan,
    /// The grammar spells no such statement.
    Syntax,
    /// A name is not known.
    NameUnknown,
    /// A name is taken.
    NameTaken,
    /// A type does not fit.
    TypeMismatch,
    /// A heading does not fit.
    Heading,
    /// A declaration of keys does not fit.
    KeyDeclaration,
    /// A declared type is too deep.
    Rank,
    /// Another entry mentions what is dropped.
    InUse,
    /// A virtual relvar takes no assignment.
    NotAssignable,
    /// Too many transactions are open, or none is.
    Transaction,
    /// A number is out of range.
    Overflow,
    /// A divisor is zero.
    ZeroDivisor,
    /// An aggregate of nothing has no value.
    EmptyAggregate,
    /// A relation has not exactly one tuple.
    NotOneTuple,
    /// A type constraint is false.
    TypeConstraint,
    /// A tuple is in both operands of a disjoint union.
    NotDisjoint,
    /// A tuple to be taken away is not there.
    NotIncluded,
    /// A key does not hold.
    Key,
    /// A constraint is false.
    Constraint,
}

impl Cause {
    /// The number by which causes are ordered: of several the least is named.
    pub fn number(self) -> u8
        ensures { result ≡ number_of self }
    {
        match self {
            Cause::Scan => 1,
            Cause::Syntax => 2,
            Cause::NameUnknown => 3,
            Cause::NameTaken => 4,
            Cause::TypeMismatch => 5,
            Cause::Heading => 6,
            Cause::KeyDeclaration => 7,
            Cause::Rank => 8,
            Cause::InUse => 9,
            Cause::NotAssignable => 10,
            Cause::Transaction => 11,
            Cause::Overflow => 20,
            Cause::ZeroDivisor => 21,
            Cause::EmptyAggregate => 22,
            Cause::NotOneTuple => 23,
            Cause::TypeConstraint => 24,
            Cause::NotDisjoint => 25,
            Cause::NotIncluded => 26,
            Cause::Key => 30,
            Cause::Constraint => 31,
        }
    }

    /// The name in capitals.
    pub fn name(self) -> &'static str
        ensures { result.now ≡ name_of self }
    {
        match self {
            Cause::Scan => "SCAN",
            Cause::Syntax => "SYNTAX",
            Cause::NameUnknown => "NAME_UNKNOWN",
            Cause::NameTaken => "NAME_TAKEN",
            Cause::TypeMismatch => "TYPE_MISMATCH",
            Cause::Heading => "HEADING",
            Cause::KeyDeclaration => "KEY_DECLARATION",
            Cause::Rank => "RANK",
            Cause::InUse => "IN_USE",
            Cause::NotAssignable => "NOT_ASSIGNABLE",
            Cause::Transaction => "TRANSACTION",
            Cause::Overflow => "OVERFLOW",
            Cause::ZeroDivisor => "ZERO_DIVISOR",
            Cause::EmptyAggregate => "EMPTY_AGGREGATE",
            Cause::NotOneTuple => "NOT_ONE_TUPLE",
            Cause::TypeConstraint => "TYPE_CONSTRAINT",
            Cause::NotDisjoint => "NOT_DISJOINT",
            Cause::NotIncluded => "NOT_INCLUDED",
            Cause::Key => "KEY",
            Cause::Constraint => "CONSTRAINT",
        }
    }
}

impl Display for Cause {
    fn fmt<W: Write>(&self, f: &mut Formatter<W>) -> std::fmt::Result {
        f.write_fmt(format_args!("refused: {}", self.name()))
    }
}

impl Error for Cause {}
