//! The values of operators, by what is answered of their operands.
ghost use Rattle.std.specs.Prelude.{◌≡◌, IfOk, List};
ghost use Rattle.std.specs.List.{zip};
ghost use Rattle.td_plan.specs.code.Plans.{dyadic_value, monadic_value, selected_value};
ghost use Rattle.td_plan.specs.code.Hands.{world_around};
ghost use Rattle.td_plan.specs.code.StepViews.{dyadic_view, monadic_view, selector_view};
ghost use Rattle.td_tree.specs.model.Outcomes.{Answers, Outcome, with_both, with_value};
ghost use Rattle.td_value.specs.model.Values.{Val};

use crate::plan::step::{Dyadic, Monadic, Selector};
use crate::running::plan_world::PlanWorld;
use std::alloc::{AllocError, Global};
use td_body::body::Body;
use td_eval::names::selected_in;
use td_eval::operators::between::value_of_operator;
use td_eval::operators::comparisons::value_of_comparison;
use td_eval::operators::elements::{listed_value, tuple_from, value_of_headed};
use td_eval::operators::operand::{component_value, extracted_value, measure_value, prefix_value};
use td_eval::operators::postfix::postfix_value;
use td_tree::fault::Fault;
use td_tree::name::Name;
use td_value::value::Value;

/// The value of an operator of one operand.
fn monadic_value<B: Body>(
    around: &PlanWorld<'_, '_, '_, B>,
    op: &Monadic,
    operand: &Value,
) -> Result<Value, Fault>
    ensures { Answers (λ v. v) result
        (monadic_value (world_around around.now) (monadic_view op.now) operand.now) }
{
    match op {
        Monadic::Prefix(op) => prefix_value(around.alloc, *op, operand),
        Monadic::Extract(attribute) => extracted_value(attribute, operand),
        Monadic::Postfix(op) => postfix_value(around.alloc, op, operand),
        Monadic::Component(rest) => component_value(around.env.catalog.types(), rest, operand),
        Monadic::Measure(op) => measure_value(*op, operand),
    }
}

/// The value of an operator of what is answered of its operand.
#[inline(never)]
pub(crate) fn value_of_monadic<B: Body>(
    around: &PlanWorld<'_, '_, '_, B>,
    op: &Monadic,
    operand: Result<Value, Fault>,
) -> Result<Value, Fault>
    ensures { (o : Outcome Val) → Answers (λ v. v) operand o → Answers (λ v. v) result
        (with_value o (monadic_value (world_around around.now) (monadic_view op.now))) }
{
    let operand = operand?;
    monadic_value(around, op, &operand)
}

/// The value of an operator between two operands.
#[inline(never)]
pub(crate) fn value_of_dyadic(
    alloc: Global,
    op: Dyadic,
    left: Result<Value, Fault>,
    right: Result<Value, Fault>,
) -> Result<Value, Fault>
    ensures { (o p : Outcome Val) → Answers (λ v. v) left o → Answers (λ v. v) right p
        → Answers (λ v. v) result (with_both o p (dyadic_value (dyadic_view op))) }
{
    match op {
        Dyadic::Operator(op) => value_of_operator(alloc, op, left, right),
        Dyadic::Comparison(op) => value_of_comparison(alloc, op, left, right),
    }
}

/// The names with the values, each with the one that stands beside it.
fn entries_of(
    alloc: Global,
    names: &[Name],
    values: &[Value],
) -> Result<Vec<(Name, Value)>, AllocError>
    ensures { IfOk result (λ entries. entries.items ≡ zip names.now values.now) }
{
    let mut entries = Vec::with_capacity(alloc, values.len())?;
    let mut rest = names;
    for value in values {
        let [name, later @ ..] = rest else {
            return Ok(entries);
        };
        entries.push((name.try_clone()?, value.try_clone()?))?;
        rest = later;
    }
    Ok(entries)
}

/// What a selector makes of the values of its parts.
fn selected_value<B: Body>(
    around: &PlanWorld<'_, '_, '_, B>,
    selector: &Selector,
    values: Vec<Value>,
) -> Result<Value, Fault>
    ensures { Answers (λ v. v) result (selected_value (world_around around.now)
        (selector_view selector.now) values.items) }
{
    match selector {
        Selector::User(name) => selected_in(around.alloc, around.env, name, values),
        Selector::Relation => listed_value(around.alloc, values),
        Selector::HeadedRelation(heading) => {
            value_of_headed(around.alloc, Ok(heading.try_clone()?), Ok(values))
        }
        Selector::Tuple(names) => {
            tuple_from(around.alloc, entries_of(around.alloc, names, &values)?)
        }
    }
}

/// What a selector makes of what is answered of its parts.
#[inline(never)]
pub(crate) fn value_of_selector<B: Body>(
    around: &PlanWorld<'_, '_, '_, B>,
    selector: &Selector,
    values: Result<Vec<Value>, Fault>,
) -> Result<Value, Fault>
    ensures { (o : Outcome (List Val)) → Answers (λ vs. vs.items) values o
        → Answers (λ v. v) result (with_value o
        (selected_value (world_around around.now) (selector_view selector.now))) }
{
    selected_value(around, selector, values?)
}
