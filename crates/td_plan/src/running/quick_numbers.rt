//! Numbers that a step gives in all tuples of a relation, found without causes. Where one is not
//! found so, there is nothing.
ghost use Rattle.std.specs.Prelude.{◌≡◌, List, length};
ghost use Rattle.std.specs.List.{slice_get};
ghost use Rattle.td_eval.specs.model.OperatorValues.{operator_value};
ghost use Rattle.td_plan.specs.code.Plans.{value_or};
ghost use Rattle.td_plan.specs.code.Quick.{AreOfBoth, AreQuick, IsQuick};
ghost use Rattle.td_plan.specs.code.QuickInside.{FoundIn};
ghost use Rattle.td_tree.specs.model.Outcomes.{Outcome};
ghost use Rattle.td_value.specs.model.Values.{Tuple, Val, integer};
ghost use Rattle.td_value.specs.code.Views.{values_of};

use crate::plan::step::{Dyadic, Step};
use crate::running::hand::{Batch, QuickColumn, hand_inside};
use crate::running::quick::{lent_value, number_in, numbers_operated, outer_value, quick_number};
use crate::running::quick_bound::quick_behind;
use std::alloc::Global;
use td_tree::operator::Operator;
use td_value::tuple::Tuple;
use td_value::value::Value;

/// A number that was found once, for each tuple.
fn same_numbers(alloc: Global, found: Option<&Value>, count: usize) -> QuickColumn<i64>
    ensures { (o : Outcome Val) (ts : List Tuple)
        → IsQuick (λ v. v.now) found.entry o → length ts ≡ count
        → AreQuick integer (λ t. o) ts result }
{
    let z = number_in(found)?;
    vec![in alloc; z; count].ok()
}

/// The numbers that are an attribute of the tuples.
pub(crate) fn attribute_numbers(alloc: Global, rows: &[Tuple], place: usize) -> QuickColumn<i64>
    ensures { AreQuick integer (λ t. value_or (slice_get (values_of t) place)) rows.now result }
{
    let mut numbers = Vec::with_capacity(alloc, rows.len()).ok()?;
    for row in rows {
        let z = number_in(lent_value(row, place))?;
        numbers.push(z).ok()?;
    }
    Some(numbers)
}

/// The numbers that a step gives, by each tuple alone.
fn single_numbers(batch: &Batch<'_>, step: &Step) -> QuickColumn<i64>
    ensures { FoundIn integer batch.now step.now result }
{
    let mut numbers = Vec::with_capacity(batch.alloc, batch.rows.len()).ok()?;
    for row in batch.rows {
        let hand = hand_inside(batch.inside, row);
        let z = quick_number(batch.memo, &hand, step)?;
        numbers.push(z).ok()?;
    }
    Some(numbers)
}

/// The numbers that an operator gives of two at each place.
fn numbers_of_both(alloc: Global, op: Operator, left: &[i64], right: &[i64]) -> QuickColumn<i64>
    ensures { AreOfBoth integer integer (operator_value op) left.now right.now result }
{
    if left.len() != right.len() {
        return None;
    }
    let mut numbers = Vec::with_capacity(alloc, right.len()).ok()?;
    for place in 0..right.len() {
        let z = numbers_operated(op, left[place], right[place])?;
        numbers.push(z).ok()?;
    }
    Some(numbers)
}

/// The numbers that a step gives in tuples.
pub(crate) fn quick_numbers(batch: &Batch<'_>, step: &Step) -> QuickColumn<i64>
    ensures { FoundIn integer batch.now step.now result }
{
    match step {
        Step::Constant(value) => same_numbers(batch.alloc, Some(value), batch.rows.len()),
        Step::Attribute { slot, place } if *slot == batch.inside.slot => {
            attribute_numbers(batch.alloc, batch.rows, *place)
        }
        Step::Attribute { slot, place } => {
            let found = outer_value(&batch.inside.outer, *slot, *place);
            same_numbers(batch.alloc, found, batch.rows.len())
        }
        Step::Dyadic(left, op, right) => match op {
            Dyadic::Operator(op) => {
                let left = quick_numbers(batch, left)?;
                let right = quick_numbers(batch, right)?;
                numbers_of_both(batch.alloc, *op, &left, &right)
            }
            Dyadic::Comparison(_) => None,
        },
        Step::Bound {
            slot,
            reach,
            items,
            value,
        } => {
            let inside = &quick_behind(batch, *slot, *reach, items)?;
            quick_numbers(&Batch { inside, ..*batch }, value)
        }
        Step::Once { reach, part, .. } if batch.inside.slot < *reach => quick_numbers(batch, part),
        _ => single_numbers(batch, step),
    }
}
