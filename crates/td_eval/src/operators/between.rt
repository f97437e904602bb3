//! The values of operators between two operands.
ghost use Rattle.td_eval.specs.model.OperatorValues.{operator_value};
ghost use Rattle.td_tree.specs.model.Outcomes.{Answers, Outcome, with_both};
ghost use Rattle.td_value.specs.model.Values.{Val};

use crate::operators::arithmetic::{difference, product, quotient, sum};
use crate::operators::relational::{
    composition_value, difference_value, disjoint_union_value, included_difference_value,
    intersection_value, join_value, product_value, semidifference_value, semijoin_value,
    union_value,
};
use crate::operators::simple::{concatenation, conjunction, disjunction};
use std::alloc::Global;
use td_tree::fault::Fault;
use td_tree::gathering::both;
use td_tree::operator::Operator;
use td_value::value::Value;

/// The value of an operator between two values.
fn operator_value(
    alloc: Global,
    op: Operator,
    first: &Value,
    second: &Value,
) -> Result<Value, Fault>
    ensures { Answers (λ v. v) result (operator_value op first.now second.now) }
{
    match op {
        Operator::Or => disjunction(first, second),
        Operator::And => conjunction(first, second),
        Operator::Union => union_value(alloc, first, second),
        Operator::Intersect => intersection_value(alloc, first, second),
        Operator::Minus => difference_value(alloc, first, second),
        Operator::DisjointUnion => disjoint_union_value(alloc, first, second),
        Operator::IncludedMinus => included_difference_value(alloc, first, second),
        Operator::Join => join_value(alloc, first, second),
        Operator::Times => product_value(alloc, first, second),
        Operator::Compose => composition_value(alloc, first, second),
        Operator::Matching => semijoin_value(alloc, first, second),
        Operator::NotMatching => semidifference_value(alloc, first, second),
        Operator::Add => sum(first, second),
        Operator::Subtract => difference(first, second),
        Operator::Concatenate => concatenation(alloc, first, second),
        Operator::Multiply => product(first, second),
        Operator::Divide => quotient(first, second),
    }
}

/// The value of an operator between operands of these values.
pub fn value_of_operator(
    alloc: Global,
    op: Operator,
    first: Result<Value, Fault>,
    second: Result<Value, Fault>,
) -> Result<Value, Fault>
    ensures { (o p : Outcome Val) → Answers (λ v. v) first o → Answers (λ v. v) second p
        → Answers (λ v. v) result (with_both o p (operator_value op)) }
{
    let (first, second) = both(first, second)?;
    operator_value(alloc, op, &first, &second)
}
