//! The rules of operators between two operands.
ghost use Rattle.td_check.specs.model.OperatorTypes.{both_of, choice_type, comparison_type};
ghost use Rattle.td_check.specs.model.OperatorTypes.{composed_heading, equality_type};
ghost use Rattle.td_check.specs.model.OperatorTypes.{first_where_agreed, joined_apart};
ghost use Rattle.td_check.specs.model.OperatorTypes.{membership_type, of_one_heading};
ghost use Rattle.td_check.specs.model.OperatorTypes.{operator_type, order_type, over_relation};
ghost use Rattle.td_check.specs.model.OperatorTypes.{over_relations, relation_if, restriction_type};
ghost use Rattle.td_tree.specs.model.Outcomes.{Answers, Valued};
ghost use Rattle.td_types.specs.model.Headings.{united_heading};
ghost use Rattle.td_types.specs.model.Types.{Heading};
ghost use Rattle.td_types.specs.code.Views.{type_view};

use crate::rules::headings::{composed_heading, joined_apart};
use crate::rules::requirements::relation_heading;
use td_tree::cause::Cause;
use td_tree::fault::Fault;
use td_tree::operator::{Comparison, Operator};
use td_types::heading::Heading;
use td_types::ty::Ty;

/// The type of an operator between two operands.
pub(crate) fn operator_type(op: Operator, first: Ty, second: Ty) -> Result<Ty, Fault>
    ensures { Answers type_view result (operator_type op (type_view first) (type_view second)) }
{
    match op {
        Operator::Or | Operator::And => both_of(Ty::Bool, &first, &second),
        Operator::Union
        | Operator::Intersect
        | Operator::Minus
        | Operator::DisjointUnion
        | Operator::IncludedMinus => of_one_heading(first, &second),
        Operator::Join => join_type(&first, &second),
        Operator::Compose => composition_type(&first, &second),
        Operator::Matching | Operator::NotMatching => first_where_agreed(first, &second),
        Operator::Times => product_type(&first, &second),
        Operator::Add | Operator::Subtract | Operator::Multiply | Operator::Divide => {
            both_of(Ty::Int, &first, &second)
        }
        Operator::Concatenate => both_of(Ty::Text, &first, &second),
    }
}

/// The type of both operands, where it is the required one.
fn both_of(asked: Ty, first: &Ty, second: &Ty) -> Result<Ty, Fault>
    ensures { Answers type_view result
        (both_of (type_view asked) (type_view first.now) (type_view second.now)) }
{
    if *first == asked && *second == asked {
        Ok(asked)
    } else {
        Err(Fault::Refused(Cause::TypeMismatch))
    }
}

/// The headings of two relations.
fn relation_headings<'a>(first: &'a Ty, second: &'a Ty) -> Result<(&'a Heading, &'a Heading), Fault>
    ensures { Answers {A = Heading × Heading} (λ both. (both.0.now, both.1.now)) result
        (over_relations (type_view first.now) (type_view second.now) (λ g h. Valued (g, h))) }
{
    let heading = relation_heading(first)?;
    Ok((heading, relation_heading(second)?))
}

/// The type of a restriction: that of the relation, where the condition is BOOLEAN.
pub(crate) fn restriction_type(relation: Ty, condition: &Ty) -> Result<Ty, Fault>
    ensures { Answers type_view result
        (restriction_type (type_view relation) (type_view condition.now)) }
{
    if *condition == Ty::Bool {
        Ok(relation)
    } else {
        Err(Fault::Refused(Cause::TypeMismatch))
    }
}

/// The type of two relations of one heading.
fn of_one_heading(first: Ty, second: &Ty) -> Result<Ty, Fault>
    ensures { Answers type_view result
        (of_one_heading (type_view first) (type_view second.now)) }
{
    let (heading, other) = relation_headings(&first, second)?;
    if heading == other {
        Ok(first)
    } else {
        Err(Fault::Refused(Cause::Heading))
    }
}

/// The type of the first of two relations that agree on their common attributes.
fn first_where_agreed(first: Ty, second: &Ty) -> Result<Ty, Fault>
    ensures { Answers type_view result
        (first_where_agreed (type_view first) (type_view second.now)) }
{
    let (heading, other) = relation_headings(&first, second)?;
    if heading.agrees_with(other) {
        Ok(first)
    } else {
        Err(Fault::Refused(Cause::Heading))
    }
}

/// The type of a join of two relations.
fn join_type(first: &Ty, second: &Ty) -> Result<Ty, Fault>
    ensures { Answers type_view result (over_relations (type_view first.now)
        (type_view second.now) (λ g h. relation_if (united_heading g h))) }
{
    let (heading, other) = relation_headings(first, second)?;
    Ok(Ty::Rel(heading.union(other)?))
}

/// The type of a composition of two relations.
fn composition_type(first: &Ty, second: &Ty) -> Result<Ty, Fault>
    ensures { Answers type_view result (over_relations (type_view first.now)
        (type_view second.now) (λ g h. relation_if (composed_heading g h))) }
{
    let (heading, other) = relation_headings(first, second)?;
    Ok(Ty::Rel(composed_heading(heading, other)?))
}

/// The type of a product of two relations.
fn product_type(first: &Ty, second: &Ty) -> Result<Ty, Fault>
    ensures { Answers type_view result (over_relations (type_view first.now)
        (type_view second.now) (λ g h. relation_if (joined_apart g h))) }
{
    let (heading, other) = relation_headings(first, second)?;
    Ok(Ty::Rel(joined_apart(heading, other)?))
}

/// The type of a comparison of two operands.
pub(crate) fn comparison_type(op: Comparison, first: &Ty, second: &Ty) -> Result<Ty, Fault>
    ensures { Answers type_view result
        (comparison_type op (type_view first.now) (type_view second.now)) }
{
    match op {
        Comparison::Equal | Comparison::NotEqual => equality_type(first, second),
        Comparison::Less
        | Comparison::LessOrEqual
        | Comparison::Greater
        | Comparison::GreaterOrEqual => order_type(first, second),
        Comparison::In => membership_type(first, second),
    }
}

/// Where two operands are equal or not: relations of one heading, or others of one type.
fn equality_type(first: &Ty, second: &Ty) -> Result<Ty, Fault>
    ensures { Answers type_view result
        (equality_type (type_view first.now) (type_view second.now)) }
{
    if first == second {
        return Ok(Ty::Bool);
    }
    match (first, second) {
        (Ty::Rel(_), Ty::Rel(_)) => Err(Fault::Refused(Cause::Heading)),
        _ => Err(Fault::Refused(Cause::TypeMismatch)),
    }
}

/// Where two operands have an order: numbers, texts, or relations of one heading.
fn order_type(first: &Ty, second: &Ty) -> Result<Ty, Fault>
    ensures { Answers type_view result
        (order_type (type_view first.now) (type_view second.now)) }
{
    match (first, second) {
        (Ty::Int, Ty::Int) | (Ty::Text, Ty::Text) => Ok(Ty::Bool),
        (Ty::Rel(_), Ty::Rel(_)) => equality_type(first, second),
        _ => Err(Fault::Refused(Cause::TypeMismatch)),
    }
}

/// Where a tuple is in a relation or not: they have one heading.
fn membership_type(tuple: &Ty, relation: &Ty) -> Result<Ty, Fault>
    ensures { Answers type_view result
        (membership_type (type_view tuple.now) (type_view relation.now)) }
{
    match (tuple, relation) {
        (Ty::Tup(heading), Ty::Rel(other)) if heading == other => Ok(Ty::Bool),
        (Ty::Tup(_), Ty::Rel(_)) => Err(Fault::Refused(Cause::Heading)),
        _ => Err(Fault::Refused(Cause::TypeMismatch)),
    }
}

/// The type of the branches of IF, where the condition is BOOLEAN and they have one type.
pub(crate) fn choice_type(condition: &Ty, first: Ty, second: &Ty) -> Result<Ty, Fault>
    ensures { Answers type_view result
        (choice_type (type_view condition.now) (type_view first) (type_view second.now)) }
{
    if *condition == Ty::Bool && first == *second {
        Ok(first)
    } else {
        Err(Fault::Refused(Cause::TypeMismatch))
    }
}
