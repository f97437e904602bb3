//! The values of operators between two numbers.
ghost use Rattle.std.specs.Prelude.{ℤ};
ghost use Rattle.td_eval.specs.model.OperatorValues.{on_number, operator_value};
ghost use Rattle.td_tree.specs.model.Outcomes.{Answers, Valued};
ghost use Rattle.td_tree.specs.declared.operator.Operator.TheVariants as operators;

use td_tree::cause::Cause;
use td_tree::fault::Fault;
use td_value::value::{Node, Value};

/// The numbers of two values: others are refused.
fn numbers(first: &Value, second: &Value) -> Result<(i64, i64), Fault>
    ensures { Answers {A = ℤ × ℤ} (λ both. both) result
        (on_number first.now (λ x. on_number second.now (λ y. Valued (x, y)))) }
{
    match (&first.node, &second.node) {
        (Node::Int(x), Node::Int(y)) => Ok((*x, *y)),
        _ => Err(Fault::Refused(Cause::TypeMismatch)),
    }
}

/// The sum of two numbers.
pub(crate) fn sum(first: &Value, second: &Value) -> Result<Value, Fault>
    ensures { Answers (λ v. v) result (operator_value operators.Add first.now second.now) }
{
    let (x, y) = numbers(first, second)?;
    Value::in_range(x.checked_add(y))
}

/// The difference of two numbers.
pub(crate) fn difference(first: &Value, second: &Value) -> Result<Value, Fault>
    ensures { Answers (λ v. v) result (operator_value operators.Subtract first.now second.now) }
{
    let (x, y) = numbers(first, second)?;
    Value::in_range(x.checked_sub(y))
}

/// The product of two numbers.
pub(crate) fn product(first: &Value, second: &Value) -> Result<Value, Fault>
    ensures { Answers (λ v. v) result (operator_value operators.Multiply first.now second.now) }
{
    let (x, y) = numbers(first, second)?;
    Value::in_range(x.checked_mul(y))
}

/// The quotient of two numbers, truncated toward zero: a zero divisor is refused.
pub(crate) fn quotient(first: &Value, second: &Value) -> Result<Value, Fault>
    ensures { Answers (λ v. v) result (operator_value operators.Divide first.now second.now) }
{
    let (x, y) = numbers(first, second)?;
    if y == 0 {
        return Err(Fault::Refused(Cause::ZeroDivisor));
    }
    Value::in_range(x.checked_div(y))
}
