//! COUNT and IS_EMPTY of an operand's tuples for which a condition is TRUE. They are counted, and
//! no relation is made of them.
ghost use Rattle.std.specs.Prelude.{◌≡◌, count_by, map};
ghost use Rattle.td_eval.specs.model.OperatorValues.{measure_value, restricted_value, truth_value};
ghost use Rattle.td_plan.specs.code.Counted.{number_measured};
ghost use Rattle.td_tree.specs.model.Outcomes.{Answers, Outcome, gathered, with_value};
ghost use Rattle.td_value.specs.model.Values.{Relation, Tuple, Val};

use td_tree::fault::Fault;
use td_tree::operator::Measure;
use td_value::value::Value;

/// How many of the truth values are TRUE.
fn true_count(truths: &[bool]) -> usize
    ensures { result ≡ count_by (λ b. b) truths.now }
{
    truths.iter().filter(|truth| **truth).count()
}

/// The value of COUNT or IS_EMPTY of a relation of so many tuples.
pub(crate) fn number_measured(op: Measure, count: usize) -> Result<Value, Fault>
    ensures { Answers (λ v. v) result (number_measured op count) }
{
    match op {
        Measure::Count => Value::in_range(i64::try_from(count).ok()),
        Measure::IsEmpty => Ok(Value::bool(count == 0)),
    }
}

/// COUNT or IS_EMPTY of the tuples whose truth values are TRUE, without a relation of them.
pub(crate) fn truths_measured(op: Measure, truths: Result<Vec<bool>, Fault>) -> Result<Value, Fault>
    ensures { (p : Tuple → Outcome Val) (r : Relation)
        → Answers (λ m. m.items) truths (gathered (map (λ t. truth_value (p t)) r.body))
        → Answers (λ v. v) result (with_value (restricted_value p r) (measure_value op)) }
{
    let truths = truths?;
    number_measured(op, true_count(&truths))
}
