//! The values of operators between two relations.
ghost use Rattle.std.specs.Prelude.{◌≡◌, IfOk, IsTrue, OnOk};
ghost use Rattle.td_eval.specs.model.OperatorValues.{of_relation, on_relation, operator_value};
ghost use Rattle.td_tree.specs.model.Outcomes.{Answers, Valued, value_if};
ghost use Rattle.td_tree.specs.declared.cause.Cause.TheVariants as causes;
ghost use Rattle.td_tree.specs.declared.operator.Operator.TheVariants as operators;
ghost use Rattle.td_value.specs.model.Values.{Relation};

use crate::operators::requirements::relation_in;
use std::alloc::{AllocError, Global};
use td_algebra::joins::{compose, join, times};
use td_algebra::semijoins::{matching, not_matching};
use td_algebra::sets::{disjoint, intersect, minus, subset, union};
use td_tree::cause::Cause;
use td_tree::fault::Fault;
use td_value::relation::Rel;
use td_value::value::Value;

/// The relations of two values: others are refused.
pub fn relations<'a>(first: &'a Value, second: &'a Value) -> Result<(&'a Rel, &'a Rel), Fault>
    ensures { Answers {A = Relation × Relation} (λ both. (both.0.now, both.1.now)) result
        (on_relation first.now (λ r. on_relation second.now (λ s. Valued (r, s)))) }
{
    let rel = relation_in(first)?;
    Ok((rel, relation_in(second)?))
}

/// What an operator requires: refused by the cause where it does not hold.
fn hold(holds: bool, cause: Cause) -> Result<(), Fault>
    ensures answer { Answers (λ u. u) result (value_if holds tt cause) }
    ensures holds { OnOk result (IsTrue holds) }
{
    if holds {
        Ok(())
    } else {
        Err(Fault::Refused(cause))
    }
}

/// What an operator requires of the headings: HEADING where it does not hold.
pub fn fit(headings_fit: bool) -> Result<(), Fault>
    ensures answer { Answers (λ u. u) result (value_if headings_fit tt causes.Heading) }
    ensures fits { OnOk result (IsTrue headings_fit) }
{
    hold(headings_fit, Cause::Heading)
}

/// The relation as a value.
pub fn as_value(alloc: Global, found: Result<Rel, AllocError>) -> Result<Value, Fault>
    ensures { (r : Relation) → IfOk found (λ s. s ≡ r)
        → Answers (λ v. v) result (of_relation r) }
{
    Ok(Value::relation(alloc, found?)?)
}

/// The tuples of either of two relations.
pub fn union_value(alloc: Global, first: &Value, second: &Value) -> Result<Value, Fault>
    ensures { Answers (λ v. v) result (operator_value operators.Union first.now second.now) }
{
    let (rel, other) = relations(first, second)?;
    fit(rel.heading() == other.heading())?;
    as_value(alloc, union(alloc, rel, other))
}

/// The tuples of both of two relations.
pub fn intersection_value(alloc: Global, first: &Value, second: &Value) -> Result<Value, Fault>
    ensures { Answers (λ v. v) result (operator_value operators.Intersect first.now second.now) }
{
    let (rel, other) = relations(first, second)?;
    fit(rel.heading() == other.heading())?;
    as_value(alloc, intersect(alloc, rel, other))
}

/// The tuples of the first of two relations that are not in the second.
pub fn difference_value(alloc: Global, first: &Value, second: &Value) -> Result<Value, Fault>
    ensures { Answers (λ v. v) result (operator_value operators.Minus first.now second.now) }
{
    let (rel, other) = relations(first, second)?;
    fit(rel.heading() == other.heading())?;
    as_value(alloc, minus(alloc, rel, other))
}

/// The tuples of either of two relations, which must have none in common.
pub fn disjoint_union_value(alloc: Global, first: &Value, second: &Value) -> Result<Value, Fault>
    ensures { Answers (λ v. v) result
        (operator_value operators.DisjointUnion first.now second.now) }
{
    let (rel, other) = relations(first, second)?;
    fit(rel.heading() == other.heading())?;
    hold(disjoint(rel, other), Cause::NotDisjoint)?;
    as_value(alloc, union(alloc, rel, other))
}

/// The tuples of the first of two relations that are not in the second, which must be among them.
pub fn included_difference_value(
    alloc: Global,
    first: &Value,
    second: &Value,
) -> Result<Value, Fault>
    ensures { Answers (λ v. v) result
        (operator_value operators.IncludedMinus first.now second.now) }
{
    let (rel, other) = relations(first, second)?;
    fit(rel.heading() == other.heading())?;
    hold(subset(other, rel), Cause::NotIncluded)?;
    as_value(alloc, minus(alloc, rel, other))
}

/// The join of two relations.
pub fn join_value(alloc: Global, first: &Value, second: &Value) -> Result<Value, Fault>
    ensures { Answers (λ v. v) result (operator_value operators.Join first.now second.now) }
{
    let (rel, other) = relations(first, second)?;
    fit(rel.heading().agrees_with(other.heading()))?;
    as_value(alloc, join(alloc, rel, other))
}

/// The product of two relations.
pub fn product_value(alloc: Global, first: &Value, second: &Value) -> Result<Value, Fault>
    ensures { Answers (λ v. v) result (operator_value operators.Times first.now second.now) }
{
    let (rel, other) = relations(first, second)?;
    fit(rel.heading().is_apart_from(other.heading()))?;
    as_value(alloc, times(alloc, rel, other))
}

/// The composition of two relations.
pub fn composition_value(alloc: Global, first: &Value, second: &Value) -> Result<Value, Fault>
    ensures { Answers (λ v. v) result (operator_value operators.Compose first.now second.now) }
{
    let (rel, other) = relations(first, second)?;
    fit(rel.heading().agrees_with(other.heading()))?;
    as_value(alloc, compose(alloc, rel, other))
}

/// The tuples of the first of two relations that have a partner in the second.
pub fn semijoin_value(alloc: Global, first: &Value, second: &Value) -> Result<Value, Fault>
    ensures { Answers (λ v. v) result (operator_value operators.Matching first.now second.now) }
{
    let (rel, other) = relations(first, second)?;
    fit(rel.heading().agrees_with(other.heading()))?;
    as_value(alloc, matching(alloc, rel, other))
}

/// The tuples of the first of two relations that have none.
pub fn semidifference_value(alloc: Global, first: &Value, second: &Value) -> Result<Value, Fault>
    ensures { Answers (λ v. v) result
        (operator_value operators.NotMatching first.now second.now) }
{
    let (rel, other) = relations(first, second)?;
    fit(rel.heading().agrees_with(other.heading()))?;
    as_value(alloc, not_matching(alloc, rel, other))
}
