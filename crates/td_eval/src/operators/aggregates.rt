//! The values of aggregates.
ghost use Rattle.std.specs.Prelude.{◌≡◌, IfOk, List, map, true};
ghost use Rattle.td_eval.specs.model.AggregateValues.{aggregate_of, asked_of, takes};
ghost use Rattle.td_tree.specs.model.Outcomes.{Answers, Outcome, with_value};
ghost use Rattle.td_value.specs.model.Values.{Val, boolean};

use std::alloc::{AllocError, Global};
use td_group::aggregates::{Agg, aggregate};
use td_tree::cause::Cause;
use td_tree::fault::Fault;
use td_tree::operator::Aggregate;
use td_value::relation::Rel;
use td_value::value::{Node, Value};

/// What the aggregate of an expression asks of its values.
pub fn asked_of(op: Aggregate) -> Agg
    ensures { result ≡ asked_of op }
{
    match op {
        Aggregate::Sum => Agg::Sum,
        Aggregate::Max => Agg::Max,
        Aggregate::Min => Agg::Min,
    }
}

/// Whether the value is one that the aggregate is of.
fn takes(asked: Agg, value: &Value) -> bool
    ensures { result ≡ takes asked value.now }
{
    match asked {
        Agg::Count => true,
        Agg::Sum => matches!(&value.node, Node::Int(_)),
        Agg::Max | Agg::Min => matches!(&value.node, Node::Int(_) | Node::Text(_)),
    }
}

/// The aggregate of the values: one that it is not of is refused.
pub fn aggregate_of(asked: Agg, values: &[Value]) -> Result<Value, Fault>
    ensures { Answers (λ v. v) result (aggregate_of asked values.now) }
{
    if values.iter().all(|value| takes(asked, value)) {
        aggregate(asked, values)
    } else {
        Err(Fault::Refused(Cause::TypeMismatch))
    }
}

/// The aggregate of the values that were answered.
pub fn value_of_aggregate(op: Aggregate, values: Result<Vec<Value>, Fault>) -> Result<Value, Fault>
    ensures { (o : Outcome (List Val)) → Answers (λ vs. vs.items) values o
        → Answers (λ v. v) result (with_value o (aggregate_of (asked_of op))) }
{
    aggregate_of(asked_of(op), &values?)
}

/// TRUE for each tuple, which COUNT counts.
pub fn terms(alloc: Global, rel: &Rel) -> Result<Vec<Value>, AllocError>
    ensures { IfOk result (λ vs. vs.items ≡ map (λ t. boolean true) rel.now.body) }
{
    let rows = rel.rows();
    let mut terms = Vec::with_capacity(alloc, rows.len())?;
    for _ in rows {
        terms.push(Value::bool(true))?;
    }
    Ok(terms)
}
