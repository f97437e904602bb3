//! The steps of plans: expressions whose attributes are found and whose types are known.
use std::rc::RcStr;
use td_group::aggregates::Agg;
use td_tree::cause::Cause;
use td_tree::expression::{Attributes, Postfix};
use td_tree::name::Name;
use td_tree::operator::{Aggregate, Comparison, Measure, Operator, Prefix};
use td_types::heading::Heading;
use td_types::ty::Ty;
use td_value::value::Value;

/// An operator of one operand.
#[derive(Drop)]
pub enum Monadic {
    Prefix(Prefix),
    Extract(Name),
    Postfix(Postfix),
    Component(RcStr),
    Measure(Measure),
}

/// An operator between two operands.
#[derive(Clone, Copy, Drop)]
pub enum Dyadic {
    Operator(Operator),
    Comparison(Comparison),
}

/// What makes a value of any number of parts.
#[derive(Drop)]
pub enum Selector {
    /// A value of the user type.
    User(Name),
    /// The relation of tuples of one heading, the first one's.
    Relation,
    HeadedRelation(Heading),
    Tuple(Vec<Name>),
}

/// Why a restriction stands where it does.
#[derive(Clone, Copy, Drop)]
pub enum Origin {
    /// It was written there.
    Written,
    /// It was written of what an operator gives, and restricts an operand of it.
    Pushed,
}

/// A step of a plan. Each tuple in scope has a slot, which is how many tuples are further out. The
/// number beside what is applied to each tuple of an operand is the slot of these tuples.
#[derive(Drop)]
pub enum Step {
    Constant(Value),
    /// What has no value, for that cause.
    Refused(Cause),
    /// The attribute at a place of the tuple in a slot.
    Attribute {
        slot: usize,
        place: usize,
    },
    Relvar(Name),
    /// The tuples of a base relvar that agree on a key of these names with a tuple.
    LookUp(Name, Vec<Name>, Box<Step>),
    Monadic(Monadic, Box<Step>),
    Dyadic(Box<Step>, Dyadic, Box<Step>),
    Select(Selector, Vec<Step>),
    Restriction(Box<Step>, usize, Box<Step>, Origin),
    /// Attributes that are set, each there before or new, and the steps of their values.
    Extend(Box<Step>, Vec<(Name, Ty)>, usize, Vec<Step>),
    Aggregate(Aggregate, Box<Step>, usize, Box<Step>),
    /// The new attributes, their aggregates, and the steps of what these are of.
    SummarizePer(Box<Step>, Box<Step>, Vec<(Name, Ty)>, Vec<Agg>, usize, Vec<Step>),
    SummarizeBy(Box<Step>, Attributes, Vec<(Name, Ty)>, Vec<Agg>, usize, Vec<Step>),
    If(Box<Step>, Box<Step>, Box<Step>),
    /// Tuples, each in a slot of its own from this one on, and what stands where they are in scope.
    /// The tuples name no slot from the reach up to the first of their own.
    Bound {
        slot: usize,
        reach: usize,
        items: Vec<Step>,
        value: Box<Step>,
    },
    /// A part that names no slot from the reach on. Its answer is kept, at the place, until a tuple
    /// comes into a slot before the reach.
    Once {
        place: usize,
        reach: usize,
        part: Box<Step>,
    },
}
