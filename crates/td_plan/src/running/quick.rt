//! The values of steps that are numbers, truth values or texts, found without causes. Where one is
//! not found so, or there is none, the step is run.
ghost use Rattle.std.specs.List.{slice_get};
ghost use Rattle.td_eval.specs.model.OperatorValues.{comparison_value, operator_value};
ghost use Rattle.td_plan.specs.code.Plans.{value_or};
ghost use Rattle.td_plan.specs.code.Hands.{slots_in};
ghost use Rattle.td_plan.specs.code.Quick.{IsQuick};
ghost use Rattle.td_plan.specs.code.QuickInside.{IsComparedIn, IsQuickIn};
ghost use Rattle.td_tree.specs.model.Outcomes.{Outcome};
ghost use Rattle.td_value.specs.model.Values.{Val, boolean, char, integer};
ghost use Rattle.td_value.specs.code.Views.{values_of};

use crate::plan::step::{Dyadic, Monadic, Step};
use crate::running::hand::{Hand, outer_tuple, tuple_in};
use crate::running::memo::{Memo, lent_answer};
use td_tree::operator::{Comparison, Operator, Prefix};
use td_value::tuple::Tuple;
use td_value::value::{Node, Value};

// ---- values that are lent

/// The value at a place of a tuple.
#[inline]
pub(crate) fn lent_value(tuple: &Tuple, place: usize) -> Option<&Value>
    ensures { IsQuick (λ v. v.now) result (value_or (slice_get (values_of tuple.now) place)) }
{
    tuple.values().get(place)
}

/// The attribute at a place of the tuple in a slot further out.
#[inline]
pub(crate) fn outer_value(outer: &[Option<Tuple>], slot: usize, place: usize) -> Option<&Value>
    ensures { IsQuick (λ v. v.now) result (value_or (slice_get (slots_in outer.now slot) place)) }
{
    lent_value(outer_tuple(outer, slot)?, place)
}

/// The value of a step that is a constant, an attribute or a part whose answer is kept.
#[inline]
pub(crate) fn quick_value<'h>(
    memo: &'h Memo,
    hand: &'h Hand<'_, '_>,
    step: &'h Step,
) -> Option<&'h Value>
    ensures { IsQuickIn (λ v. v.now) memo.now hand.now step.now result }
{
    match step {
        Step::Constant(value) => Some(value),
        Step::Attribute { slot, place } => lent_value(tuple_in(hand, *slot)?, *place),
        Step::Once { place, .. } => lent_answer(memo, *place),
        _ => None,
    }
}

/// The number that the value is.
#[inline]
pub(crate) fn number_in(found: Option<&Value>) -> Option<i64>
    ensures { (o : Outcome Val) → IsQuick (λ v. v.now) found.entry o → IsQuick integer result o }
{
    match &found?.node {
        Node::Int(z) => Some(*z),
        _ => None,
    }
}

/// The truth value that the value is.
#[inline]
fn truth_in(found: Option<&Value>) -> Option<bool>
    ensures { (o : Outcome Val) → IsQuick (λ v. v.now) found.entry o → IsQuick boolean result o }
{
    match &found?.node {
        Node::Bool(b) => Some(*b),
        _ => None,
    }
}

/// The text that the value is.
#[inline]
fn text_in(found: Option<&Value>) -> Option<&str>
    ensures { (o : Outcome Val) → IsQuick (λ v. v.now) found.entry o
        → IsQuick (λ t. char t.now) result o }
{
    match &found?.node {
        Node::Text(t) => Some(t.as_str()),
        _ => None,
    }
}

// ---- numbers

/// The number that an operator gives of two numbers. A quotient is truncated toward zero.
#[inline]
pub(crate) fn numbers_operated(op: Operator, x: i64, y: i64) -> Option<i64>
    ensures { IsQuick integer result (operator_value op (integer x) (integer y)) }
{
    match op {
        Operator::Add => x.checked_add(y),
        Operator::Subtract => x.checked_sub(y),
        Operator::Multiply => x.checked_mul(y),
        Operator::Divide if y != 0 => x.checked_div(y),
        _ => None,
    }
}

/// The number that is a step's value.
pub(crate) fn quick_number(memo: &Memo, hand: &Hand<'_, '_>, step: &Step) -> Option<i64>
    ensures { IsQuickIn integer memo.now hand.now step.now result }
{
    match step {
        Step::Dyadic(left, Dyadic::Operator(op), right) => {
            let x = quick_number(memo, hand, left)?;
            numbers_operated(*op, x, quick_number(memo, hand, right)?)
        }
        Step::Monadic(Monadic::Prefix(Prefix::Negate), operand) => {
            quick_number(memo, hand, operand)?.checked_neg()
        }
        Step::Once { place, part, .. } => match number_in(lent_answer(memo, *place)) {
            Some(z) => Some(z),
            None => quick_number(memo, hand, part),
        },
        _ => number_in(quick_value(&*memo, &*hand, &*step)),
    }
}

// ---- truth values

/// The truth value of a comparison of two numbers.
#[inline]
pub(crate) fn numbers_compared(op: Comparison, x: i64, y: i64) -> Option<bool>
    ensures { IsQuick boolean result (comparison_value op (integer x) (integer y)) }
{
    match op {
        Comparison::Equal => Some(x == y),
        Comparison::NotEqual => Some(x != y),
        Comparison::Less => Some(x < y),
        Comparison::LessOrEqual => Some(x <= y),
        Comparison::Greater => Some(y < x),
        Comparison::GreaterOrEqual => Some(y <= x),
        Comparison::In => None,
    }
}

/// The truth value of a comparison of two texts.
#[inline]
fn texts_compared(op: Comparison, s: &str, t: &str) -> Option<bool>
    ensures { IsQuick boolean result (comparison_value op (char s.now) (char t.now)) }
{
    match op {
        Comparison::Equal => Some(s == t),
        Comparison::NotEqual => Some(s != t),
        Comparison::Less => Some(s < t),
        Comparison::LessOrEqual => Some(s <= t),
        Comparison::Greater => Some(t < s),
        Comparison::GreaterOrEqual => Some(t <= s),
        Comparison::In => None,
    }
}

/// The truth value of a comparison of steps whose values are numbers or texts.
#[inline]
fn quick_comparison(
    memo: &Memo,
    hand: &Hand<'_, '_>,
    left: &Step,
    op: Comparison,
    right: &Step,
) -> Option<bool>
    ensures { IsComparedIn memo.now hand.now left.now op right.now result }
{
    if let Some(x) = quick_number(memo, hand, left) {
        return numbers_compared(op, x, quick_number(memo, hand, right)?);
    }
    let s = text_in(quick_value(memo, hand, left))?;
    texts_compared(op, s, text_in(quick_value(memo, hand, right))?)
}

/// The truth value that an operator gives of two truth values.
#[inline]
pub(crate) fn truths_operated(op: Operator, a: bool, b: bool) -> Option<bool>
    ensures { IsQuick boolean result (operator_value op (boolean a) (boolean b)) }
{
    match op {
        Operator::And => Some(a && b),
        Operator::Or => Some(a || b),
        _ => None,
    }
}

/// The truth value that is a step's value. Both operands of AND and OR must have one.
pub(crate) fn quick_truth(memo: &Memo, hand: &Hand<'_, '_>, step: &Step) -> Option<bool>
    ensures { IsQuickIn boolean memo.now hand.now step.now result }
{
    match step {
        Step::Dyadic(left, Dyadic::Comparison(op), right) => {
            quick_comparison(memo, hand, left, *op, right)
        }
        Step::Dyadic(left, Dyadic::Operator(op), right) => {
            let a = quick_truth(memo, hand, left)?;
            truths_operated(*op, a, quick_truth(memo, hand, right)?)
        }
        Step::Monadic(Monadic::Prefix(Prefix::Not), operand) => {
            Some(!quick_truth(memo, hand, operand)?)
        }
        Step::Once { place, part, .. } => match truth_in(lent_answer(memo, *place)) {
            Some(truth) => Some(truth),
            None => quick_truth(memo, hand, part),
        },
        _ => truth_in(quick_value(&*memo, &*hand, &*step)),
    }
}
