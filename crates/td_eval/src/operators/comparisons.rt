//! The values of comparisons.
ghost use Rattle.std.specs.Prelude.{◌≡◌, IfOk, Some, false};
ghost use Rattle.std.specs.Ordering.{eq_by_cmp};
ghost use Rattle.td_algebra.specs.model.Operators.{is_subset};
ghost use Rattle.td_check.specs.model.OperatorTypes.{equality_type, same_heading, same_type};
ghost use Rattle.td_eval.specs.model.OperatorValues.{at_most, comparison_value, less_or_equal};
ghost use Rattle.td_eval.specs.model.OperatorValues.{less_than, membership_value};
ghost use Rattle.td_tree.specs.model.Outcomes.{Answers, Outcome, Valued, value_if, with_both};
ghost use Rattle.td_tree.specs.model.Outcomes.{named_cause, with_value};
ghost use Rattle.td_tree.specs.declared.cause.Cause.TheVariants as causes;
ghost use Rattle.td_value.specs.model.Sets.{has};
ghost use Rattle.td_value.specs.model.Values.{Val, boolean, heading_of, tuple_cmp, type_of};
ghost use Rattle.td_value.specs.model.Values.{value_cmp};

use crate::operators::relational::fit;
use std::alloc::{AllocError, Global};
use td_algebra::sets::subset;
use td_tree::cause::Cause;
use td_tree::fault::Fault;
use td_tree::gathering::both;
use td_tree::operator::Comparison;
use td_value::relation::Rel;
use td_value::tuple::Tuple;
use td_value::value::{Node, Value};

/// The cause by which values of two types are refused.
fn unlike(first: &Value, second: &Value) -> Cause
    ensures { same_type (type_of first.now) (type_of second.now) ≡ false
        → named_cause (equality_type (type_of first.now) (type_of second.now)) ≡ Some result }
{
    match (&first.node, &second.node) {
        (Node::Rel(_), Node::Rel(_)) => Cause::Heading,
        _ => Cause::TypeMismatch,
    }
}

/// Whether two values are of one type.
fn have_one_type(alloc: Global, first: &Value, second: &Value) -> Result<bool, AllocError>
    ensures { IfOk result (λ b. b ≡ same_type (type_of first.now) (type_of second.now)) }
{
    let ty = second.type_of(alloc)?;
    Ok(first.has_type(&ty))
}

/// Whether two values of one type are one value: those of two types are refused.
fn of_one_type(alloc: Global, first: &Value, second: &Value) -> Result<bool, Fault>
    ensures { Answers (λ b. b) result (with_value
        (equality_type (type_of first.now) (type_of second.now))
        (λ t. Valued (eq_by_cmp value_cmp first.now second.now))) }
{
    if have_one_type(alloc, first, second)? {
        Ok(first == second)
    } else {
        Err(Fault::Refused(unlike(first, second)))
    }
}

/// As `of_one_type`, but numbers, texts and truth values take no memory for their types.
fn are_one(alloc: Global, first: &Value, second: &Value) -> Result<bool, Fault>
    ensures { Answers (λ b. b) result (with_value
        (equality_type (type_of first.now) (type_of second.now))
        (λ t. Valued (eq_by_cmp value_cmp first.now second.now))) }
{
    match (&first.node, &second.node) {
        (Node::Bool(a), Node::Bool(b)) => Ok(a == b),
        (Node::Int(x), Node::Int(y)) => Ok(x == y),
        (Node::Text(s), Node::Text(t)) => Ok(s.as_str() == t.as_str()),
        _ => of_one_type(alloc, first, second),
    }
}

/// Whether each tuple of a relation is in another of its heading.
fn is_part(rel: &Rel, other: &Rel) -> Result<bool, Fault>
    ensures { Answers (λ b. b) result
        (value_if (same_heading rel.now.heading other.now.heading)
        (is_subset rel.now other.now) causes.Heading) }
{
    fit(rel.heading() == other.heading())?;
    Ok(subset(rel, other))
}

/// Whether a number, a text or a relation is at most another.
fn at_most(first: &Value, second: &Value) -> Result<bool, Fault>
    ensures { Answers (λ b. b) result (at_most first.now second.now) }
{
    match (&first.node, &second.node) {
        (Node::Int(x), Node::Int(y)) => Ok(x <= y),
        (Node::Text(s), Node::Text(t)) => Ok(s.as_str() <= t.as_str()),
        (Node::Rel(rel), Node::Rel(other)) => is_part(rel, other),
        _ => Err(Fault::Refused(Cause::TypeMismatch)),
    }
}

/// Whether it is at most the other, and not the same.
fn less_than(first: &Value, second: &Value) -> Result<Value, Fault>
    ensures { Answers (λ v. v) result (less_than first.now second.now) }
{
    match (&first.node, &second.node) {
        (Node::Int(x), Node::Int(y)) => Ok(Value::bool(x < y)),
        (Node::Text(s), Node::Text(t)) => Ok(Value::bool(s.as_str() < t.as_str())),
        _ => {
            let least = at_most(first, second)?;
            Ok(Value::bool(least && first != second))
        }
    }
}

/// Whether it is at most the other, as a value.
fn less_or_equal(first: &Value, second: &Value) -> Result<Value, Fault>
    ensures { Answers (λ v. v) result (less_or_equal first.now second.now) }
{
    Ok(Value::bool(at_most(first, second)?))
}

/// Whether a tuple is in a relation of its heading.
fn is_member(tuple: &Tuple, rel: &Rel) -> Result<Value, Fault>
    ensures { Answers (λ v. v) result
        (value_if (same_heading (heading_of tuple.now) rel.now.heading)
        (boolean (has tuple_cmp tuple.now rel.now.body)) causes.Heading) }
{
    fit(tuple.has_heading(rel.heading()))?;
    Ok(Value::bool(rel.contains(tuple)))
}

/// Whether a value is a tuple that is in another, a relation of its heading.
fn membership(first: &Value, second: &Value) -> Result<Value, Fault>
    ensures { Answers (λ v. v) result (membership_value first.now second.now) }
{
    match (&first.node, &second.node) {
        (Node::Tup(tuple), Node::Rel(rel)) => is_member(tuple, rel),
        _ => Err(Fault::Refused(Cause::TypeMismatch)),
    }
}

/// The value of a comparison of two values.
fn comparison_value(
    alloc: Global,
    op: Comparison,
    first: &Value,
    second: &Value,
) -> Result<Value, Fault>
    ensures { Answers (λ v. v) result (comparison_value op first.now second.now) }
{
    match op {
        Comparison::Equal => Ok(Value::bool(are_one(alloc, first, second)?)),
        Comparison::NotEqual => Ok(Value::bool(!are_one(alloc, first, second)?)),
        Comparison::Less => less_than(first, second),
        Comparison::LessOrEqual => less_or_equal(first, second),
        Comparison::Greater => less_than(second, first),
        Comparison::GreaterOrEqual => less_or_equal(second, first),
        Comparison::In => membership(first, second),
    }
}

/// The value of a comparison of operands of these values.
pub fn value_of_comparison(
    alloc: Global,
    op: Comparison,
    first: Result<Value, Fault>,
    second: Result<Value, Fault>,
) -> Result<Value, Fault>
    ensures { (o p : Outcome Val) → Answers (λ v. v) first o → Answers (λ v. v) second p
        → Answers (λ v. v) result (with_both o p (comparison_value op)) }
{
    let (first, second) = both(first, second)?;
    comparison_value(alloc, op, &first, &second)
}
