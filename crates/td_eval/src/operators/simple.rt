//! The values of operators between two truth values, and between two texts.
ghost use Rattle.std.specs.Prelude.{ℕ, Bool, List};
ghost use Rattle.td_eval.specs.model.OperatorValues.{on_text, on_truth, operator_value};
ghost use Rattle.td_tree.specs.model.Outcomes.{Answers, Valued};
ghost use Rattle.td_tree.specs.declared.operator.Operator.TheVariants as operators;

use std::alloc::Global;
use td_tree::cause::Cause;
use td_tree::fault::Fault;
use td_value::value::{Node, Value};

/// The truth values of two values: others are refused.
fn truths(first: &Value, second: &Value) -> Result<(bool, bool), Fault>
    ensures { Answers {A = Bool × Bool} (λ both. both) result
        (on_truth first.now (λ a. on_truth second.now (λ b. Valued (a, b)))) }
{
    match (&first.node, &second.node) {
        (Node::Bool(a), Node::Bool(b)) => Ok((*a, *b)),
        _ => Err(Fault::Refused(Cause::TypeMismatch)),
    }
}

/// Whether one of two truth values is TRUE.
pub(crate) fn disjunction(first: &Value, second: &Value) -> Result<Value, Fault>
    ensures { Answers (λ v. v) result (operator_value operators.Or first.now second.now) }
{
    let (a, b) = truths(first, second)?;
    Ok(Value::bool(a || b))
}

/// Whether both truth values are TRUE.
pub(crate) fn conjunction(first: &Value, second: &Value) -> Result<Value, Fault>
    ensures { Answers (λ v. v) result (operator_value operators.And first.now second.now) }
{
    let (a, b) = truths(first, second)?;
    Ok(Value::bool(a && b))
}

/// The texts of two values: others are refused.
fn texts<'a>(first: &'a Value, second: &'a Value) -> Result<(&'a str, &'a str), Fault>
    ensures { Answers {A = List ℕ × List ℕ} (λ both. (both.0.now, both.1.now)) result
        (on_text first.now (λ s. on_text second.now (λ t. Valued (s, t)))) }
{
    match (&first.node, &second.node) {
        (Node::Text(s), Node::Text(t)) => Ok((s.as_str(), t.as_str())),
        _ => Err(Fault::Refused(Cause::TypeMismatch)),
    }
}

/// Two texts, the second after the first.
pub(crate) fn concatenation(alloc: Global, first: &Value, second: &Value) -> Result<Value, Fault>
    ensures { Answers (λ v. v) result (operator_value operators.Concatenate first.now second.now) }
{
    let (s, t) = texts(first, second)?;
    let mut content = String::new(alloc);
    content.push_str(s)?;
    content.push_str(t)?;
    Ok(Value::text(alloc, &content)?)
}
