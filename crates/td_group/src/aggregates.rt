//! COUNT, SUM, MAX and MIN of values.
ghost use Rattle.std.specs.Prelude.{◌≡◌, ◌-◌, ◌^◌, ◌+ℤ◌, ◌≤ℤ◌, ℤ, pos};
ghost use Rattle.td_group.specs.model.Aggregates.{aggregate, greatest_value, least_value, summand};
ghost use Rattle.td_group.specs.model.Aggregates.{sum_of};
ghost use Rattle.td_tree.specs.model.Outcomes.{Answers};

use td_tree::cause::Cause;
use td_tree::fault::Fault;
use td_value::value::{Node, Value};

/// An aggregate of a list of values.
#[derive(Clone, Copy, Debug, PartialEq, Eq)]
pub enum Agg {
    /// How many there are.
    Count,
    /// Their sum.
    Sum,
    /// The greatest.
    Max,
    /// The least.
    Min,
}

/// The number that the value is.
fn summand(value: &Value) -> i64
    ensures { result ≡ summand value.now }
{
    match &value.node {
        Node::Int(number) => *number,
        _ => 0,
    }
}

/// The total with one more number, where there is room for any.
fn with_number(total: i128, number: i64) -> i128
    requires high { (total +ℤ pos (2 ^ 63)) ≤ℤ pos (2 ^ 127 - 1) }
    requires low { pos 0 ≤ℤ (total +ℤ pos (2 ^ 127 - 2 ^ 63)) }
    ensures sum { result ≡ (total +ℤ number) }
    ensures high { result ≤ℤ (total +ℤ pos (2 ^ 63)) }
    ensures low { total ≤ℤ (result +ℤ pos (2 ^ 63)) }
{
    total + i128::from(number)
}

/// The sum. So many numbers of 64 bits as memory holds have a sum of 128 bits.
fn sum_of(values: &[Value]) -> i128
    ensures { result ≡ sum_of values.now }
{
    let mut total: i128 = 0;
    for value in values {
        total = with_number(total, summand(value));
    }
    total
}

/// The greatest of the value and the others.
fn greatest<'a>(first: &'a Value, others: &'a [Value]) -> &'a Value
    ensures { result.now ≡ greatest_value first.now others.now }
{
    let mut best = first;
    for value in others {
        if best.cmp(value).is_lt() {
            best = value;
        }
    }
    best
}

/// The least of the value and the others.
fn least<'a>(first: &'a Value, others: &'a [Value]) -> &'a Value
    ensures { result.now ≡ least_value first.now others.now }
{
    let mut best = first;
    for value in others {
        if value.cmp(best).is_lt() {
            best = value;
        }
    }
    best
}

/// The aggregate of the values: of nothing MAX and MIN are refused, and a sum only where the whole
/// of it is out of range.
pub fn aggregate(asked: Agg, values: &[Value]) -> Result<Value, Fault>
    ensures { Answers (λ v. v) result (aggregate asked values.now) }
{
    match (asked, values) {
        (Agg::Count, _) => Value::in_range(i64::try_from(values.len()).ok()),
        (Agg::Sum, _) => Value::in_range(i64::try_from(sum_of(values)).ok()),
        (Agg::Max, [first, others @ ..]) => Ok(greatest(first, others).try_clone()?),
        (Agg::Min, [first, others @ ..]) => Ok(least(first, others).try_clone()?),
        (Agg::Max | Agg::Min, []) => Err(Fault::Refused(Cause::EmptyAggregate)),
    }
}
