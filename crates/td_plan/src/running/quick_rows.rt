//! Truth values of a condition in all tuples of a relation, found without causes. Where one is not
//! found so, there is nothing.
ghost use Rattle.std.specs.Prelude.{◌≡◌, IfOk, map, not};
ghost use Rattle.td_eval.specs.model.OperatorValues.{comparison_value, operator_value};
ghost use Rattle.td_plan.specs.code.Quick.{AreOfBoth};
ghost use Rattle.td_plan.specs.code.QuickInside.{AreComparedIn, FoundIn};
ghost use Rattle.td_value.specs.model.Values.{boolean, integer};

use crate::plan::step::{Dyadic, Monadic, Step};
use crate::running::hand::{Batch, QuickColumn, hand_inside};
use crate::running::memberships::memberships;
use crate::running::quick::{numbers_compared, quick_truth, truths_operated};
use crate::running::quick_bound::quick_behind;
use crate::running::quick_numbers::quick_numbers;
use std::alloc::{AllocError, Global};
use td_tree::operator::{Comparison, Operator, Prefix};
use td_value::tuple::Tuple;

/// With fewer tuples than this, one after the other is faster.
pub(crate) const FEWEST: usize = 16;

/// So many tuples at once, and what is found of them, fit the processor's caches.
const PART: usize = 512;

/// The truth values that a condition gives, by each tuple alone.
fn single_truths(batch: &Batch<'_>, condition: &Step) -> QuickColumn<bool>
    ensures { FoundIn boolean batch.now condition.now result }
{
    let mut truths = Vec::with_capacity(batch.alloc, batch.rows.len()).ok()?;
    for row in batch.rows {
        let hand = hand_inside(batch.inside, row);
        let truth = quick_truth(batch.memo, &hand, condition)?;
        truths.push(truth).ok()?;
    }
    Some(truths)
}

/// The truth values of comparisons of two numbers at each place.
fn comparisons_of_both(
    alloc: Global,
    op: Comparison,
    left: &[i64],
    right: &[i64],
) -> QuickColumn<bool>
    ensures { AreOfBoth integer boolean (comparison_value op) left.now right.now result }
{
    if left.len() != right.len() {
        return None;
    }
    let mut truths = Vec::with_capacity(alloc, right.len()).ok()?;
    for place in 0..right.len() {
        let truth = numbers_compared(op, left[place], right[place])?;
        truths.push(truth).ok()?;
    }
    Some(truths)
}

/// The truth values that an operator gives of two at each place.
fn truths_of_both(alloc: Global, op: Operator, left: &[bool], right: &[bool]) -> QuickColumn<bool>
    ensures { AreOfBoth boolean boolean (operator_value op) left.now right.now result }
{
    if left.len() != right.len() {
        return None;
    }
    let mut truths = Vec::with_capacity(alloc, right.len()).ok()?;
    for place in 0..right.len() {
        let truth = truths_operated(op, left[place], right[place])?;
        truths.push(truth).ok()?;
    }
    Some(truths)
}

/// The negations of truth values.
pub(crate) fn negations(alloc: Global, truths: &[bool]) -> Result<Vec<bool>, AllocError>
    ensures { IfOk result (λ negations. negations.items ≡ map not truths.now) }
{
    let mut negations = Vec::with_capacity(alloc, truths.len())?;
    for truth in truths {
        negations.push(!*truth)?;
    }
    Ok(negations)
}

/// The truth values of a comparison of steps that are numbers in all tuples.
fn quick_comparisons(
    batch: &Batch<'_>,
    left: &Step,
    op: Comparison,
    right: &Step,
) -> QuickColumn<bool>
    ensures { AreComparedIn batch.now left.now op right.now result }
{
    let left = quick_numbers(batch, left)?;
    let right = quick_numbers(batch, right)?;
    comparisons_of_both(batch.alloc, op, &left, &right)
}

/// The truth values that a condition gives in tuples.
fn truths_in_all(batch: &Batch<'_>, condition: &Step) -> QuickColumn<bool>
    ensures { FoundIn boolean batch.now condition.now result }
{
    match condition {
        Step::Dyadic(left, op, right) => match op {
            Dyadic::Comparison(op) => match quick_comparisons(batch, left, *op, right) {
                None => single_truths(batch, condition),
                Some(truths) => Some(truths),
            },
            Dyadic::Operator(op) => {
                let left = truths_in_all(batch, left)?;
                let right = truths_in_all(batch, right)?;
                truths_of_both(batch.alloc, *op, &left, &right)
            }
        },
        Step::Monadic(op, operand) => match op {
            Monadic::Prefix(op) => match op {
                Prefix::Not => {
                    let truths = truths_in_all(batch, operand)?;
                    negations(batch.alloc, &truths).ok()
                }
                _ => None,
            },
            _ => None,
        },
        Step::Bound {
            slot,
            reach,
            items,
            value,
        } => {
            let inside = &quick_behind(batch, *slot, *reach, items)?;
            truths_in_all(&Batch { inside, ..*batch }, value)
        }
        Step::Once { reach, part, .. } if batch.inside.slot < *reach => truths_in_all(batch, part),
        _ => single_truths(batch, condition),
    }
}

/// The truth values that a condition gives in tuples: at once where it is IN one relation, else
/// part by part.
pub(crate) fn quick_truths(batch: &Batch<'_>, condition: &Step) -> QuickColumn<bool>
    ensures { FoundIn boolean batch.now condition.now result }
{
    if let Some(truths) = memberships(batch, condition) {
        return Some(truths);
    }
    let mut truths = Vec::with_capacity(batch.alloc, batch.rows.len()).ok()?;
    let mut rest = batch.rows;
    while !rest.is_empty() {
        let (rows, after) = rest.split_at(rest.len().min(PART));
        let mut found = truths_in_all(&Batch { rows, ..*batch }, condition)?;
        truths.append(&mut found).ok()?;
        rest = after;
    }
    Some(truths)
}
