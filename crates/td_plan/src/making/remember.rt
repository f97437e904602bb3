//! Parts of a step whose answers are kept, found once it is made: those that do not name the
//! innermost tuple which what they are parts of names.
ghost use Rattle.std.specs.Prelude.{◌≡◌, ◌<◌, ◌-◌, IfOk, IfSome, List, OnOk, length, map, ℕ};
ghost use Rattle.td_plan.specs.code.Remembered.{AreAmong, AreAmongBut, AreBefore, AreEachKept};
ghost use Rattle.td_plan.specs.code.Remembered.{AreEachRemembered, AreRemembered, AreAllRemembered};
ghost use Rattle.td_plan.specs.code.Remembered.{AreBoundNames, AreRememberedBound};
ghost use Rattle.td_plan.specs.code.Remembered.{AreRememberedInside, AreRememberedInsideBoth};
ghost use Rattle.td_plan.specs.code.Remembered.{AreThreeRemembered, IsRemembered, KeepsPart};
ghost use Rattle.td_plan.specs.declared.plan.step.Step.{Step};
ghost use Rattle.td_plan.specs.declared.plan.step.Step.TheVariants as variants;

mod names;

use crate::making::remember::names::{before, joined, one, reach_of, union_of, without};
use crate::plan::step::Step;
use std::alloc::{AllocError, Global};
use std::mem;
use td_tree::cause::Cause;

// ---- parts

/// Keeps the answer of a step, which names no slot from the reach on, at the next place.
fn keep(alloc: Global, places: &mut usize, step: &mut Step, reach: usize) -> Result<(), AllocError>
    ensures { OnOk result ((names : List ℕ) → AreBefore reach names
        → KeepsPart places.old places.new names step.old step.new) }
{
    let place = *places;
    let Some(next) = place.checked_add(1) else {
        return Ok(());
    };
    let part = mem::replace(step, Step::Refused(Cause::NameUnknown));
    let part = Box::new(alloc, part)?;
    *step = Step::Once { place, reach, part };
    *places = next;
    Ok(())
}

/// Whether a step takes more than a look.
fn has_work(step: &Step) -> bool {
    !matches!(
        step,
        Step::Constant(_) | Step::Refused(_) | Step::Attribute { .. } | Step::Once { .. }
    )
}

/// Keeps the answer of a step that names these slots where what it is a part of reaches further.
fn keep_part(
    alloc: Global,
    places: &mut usize,
    step: &mut Step,
    names: &[usize],
    reach: usize,
) -> Result<(), AllocError>
    ensures { OnOk result (KeepsPart places.old places.new names.now step.old step.new) }
{
    let own = reach_of(names);
    if own < reach && has_work(step) {
        keep(alloc, places, step, own)
    } else {
        Ok(())
    }
}

/// Keeps the answers of steps so, each of which names the slots beside it.
fn keep_all(
    alloc: Global,
    places: &mut usize,
    steps: &mut Vec<Step>,
    all: &[Vec<usize>],
    reach: usize,
) -> Result<(), AllocError>
    requires { length all.now ≡ length steps.old.items }
    ensures { OnOk result (AreEachKept places.old places.new (map (λ ns. ns.items) all.now)
        steps.old.items steps.new.items) }
{
    for (place, step) in steps.iter_mut().enumerate() {
        keep_part(alloc, places, step, &all[place], reach)?;
    }
    Ok(())
}

// ---- the walk

/// A step whose parts are kept, and the slots that it names.
#[derive(Drop)]
struct NamedStep {
    step: Step,
    names: Vec<usize>,
}

/// The slots that a step without parts names: nothing where it may have parts.
fn leaf_names(alloc: Global, step: &Step) -> Option<Result<Vec<usize>, AllocError>>
    ensures { IfSome result (λ found. IfOk found (λ names. (places : ℕ)
        → IsRemembered places places names.items step.now step.now)) }
{
    match step {
        Step::Constant(_) => Some(Ok(Vec::new(alloc))),
        Step::Relvar(_) => Some(Ok(Vec::new(alloc))),
        Step::Attribute { slot, .. } => Some(one(alloc, *slot)),
        _ => None,
    }
}

/// Keeps the answers of the step's parts. It gives the slots that the step names.
#[cycle(remember)]
pub(crate) fn remember(
    alloc: Global,
    places: &mut usize,
    step: &mut Step,
) -> Result<Vec<usize>, AllocError>
    ensures { IfOk result (λ names.
        IsRemembered places.old places.new names.items step.old step.new) }
{
    if let Some(names) = leaf_names(alloc, step) {
        return names;
    }
    let old = mem::replace(step, Step::Refused(Cause::NameUnknown));
    let named = named_step(alloc, places, old)?;
    *step = named.step;
    Ok(named.names)
}

/// The step, beside the slots that it names where there was memory for them.
fn step_with_names(
    step: Step,
    names: Result<Vec<usize>, AllocError>,
) -> Result<NamedStep, AllocError>
    ensures { (a b : ℕ) (old : Step)
        → IfOk names (λ ns. IsRemembered a b ns.items old step)
        → IfOk result (λ named. IsRemembered a b named.names.items old named.step) }
{
    let names = names?;
    Ok(NamedStep { step, names })
}

/// The step with the parts whose answers are kept. A part that is kept already is found anew.
#[cycle(remember)]
fn named_step(alloc: Global, places: &mut usize, step: Step) -> Result<NamedStep, AllocError>
    ensures { IfOk result (λ named.
        IsRemembered places.old places.new named.names.items step named.step) }
{
    match step {
        Step::Constant(value) => step_with_names(Step::Constant(value), Ok(Vec::new(alloc))),
        Step::Refused(cause) => step_with_names(Step::Refused(cause), Ok(Vec::new(alloc))),
        Step::Relvar(name) => step_with_names(Step::Relvar(name), Ok(Vec::new(alloc))),
        Step::Attribute { slot, place } => {
            step_with_names(Step::Attribute { slot, place }, one(alloc, slot))
        }
        Step::LookUp(relvar, key, mut operand) => {
            let names = remember(alloc, places, &mut operand);
            step_with_names(Step::LookUp(relvar, key, operand), names)
        }
        Step::Monadic(op, mut operand) => {
            let names = remember(alloc, places, &mut operand);
            step_with_names(Step::Monadic(op, operand), names)
        }
        Step::Dyadic(mut left, op, mut right) => {
            let names = both(alloc, places, &mut left, &mut right);
            step_with_names(Step::Dyadic(left, op, right), names)
        }
        Step::Select(selector, mut parts) => {
            let names = all(alloc, places, &mut parts);
            step_with_names(Step::Select(selector, parts), names)
        }
        Step::Restriction(mut operand, slot, mut body, origin) => {
            let names = inside(alloc, places, &mut operand, slot, &mut body);
            step_with_names(Step::Restriction(operand, slot, body, origin), names)
        }
        Step::Extend(mut operand, columns, slot, mut values) => {
            let names = all_inside(alloc, places, &mut operand, slot, &mut values);
            step_with_names(Step::Extend(operand, columns, slot, values), names)
        }
        Step::Aggregate(op, mut operand, slot, mut body) => {
            let names = inside(alloc, places, &mut operand, slot, &mut body);
            step_with_names(Step::Aggregate(op, operand, slot, body), names)
        }
        Step::SummarizePer(mut operand, mut per, columns, aggregates, slot, mut values) => {
            let names = all_inside_both(alloc, places, &mut operand, &mut per, slot, &mut values);
            let step = Step::SummarizePer(operand, per, columns, aggregates, slot, values);
            step_with_names(step, names)
        }
        Step::SummarizeBy(mut operand, by, columns, aggregates, slot, mut values) => {
            let names = all_inside(alloc, places, &mut operand, slot, &mut values);
            let step = Step::SummarizeBy(operand, by, columns, aggregates, slot, values);
            step_with_names(step, names)
        }
        Step::If(mut condition, mut then, mut other) => {
            let names = three(alloc, places, &mut condition, &mut then, &mut other);
            step_with_names(Step::If(condition, then, other), names)
        }
        Step::Bound {
            slot,
            items,
            value,
            ..
        } => bound(alloc, places, slot, items, value),
        Step::Once { part, .. } => named_step(alloc, places, Box::into_inner(part)),
    }
}

// ---- the parts of steps

/// Keeps the answers of parts of two steps, and of the one that does not reach as far.
#[cycle(remember)]
fn both(
    alloc: Global,
    places: &mut usize,
    left: &mut Step,
    right: &mut Step,
) -> Result<Vec<usize>, AllocError>
    ensures { IfOk result (λ names. AreRemembered places.old places.new
        (λ x y. AreAmong x names.items × AreAmong y names.items)
        left.old right.old left.new right.new) }
{
    let first = remember(alloc, places, left)?;
    let second = remember(alloc, places, right)?;
    let reach = reach_of(&first).max(reach_of(&second));
    keep_part(alloc, places, left, &first, reach)?;
    keep_part(alloc, places, right, &second, reach)?;
    joined(first, &second)
}

/// Keeps the answers of parts of three steps, and of those that do not reach as far.
#[cycle(remember)]
fn three(
    alloc: Global,
    places: &mut usize,
    first: &mut Step,
    second: &mut Step,
    third: &mut Step,
) -> Result<Vec<usize>, AllocError>
    ensures { IfOk result (λ names. AreThreeRemembered places.old places.new names.items
        first.old second.old third.old first.new second.new third.new) }
{
    let names = both(alloc, places, second, third)?;
    let own = remember(alloc, places, first)?;
    let reach = reach_of(&own);
    keep_part(alloc, places, first, &own, reach_of(&names))?;
    keep_part(alloc, places, second, &names, reach)?;
    keep_part(alloc, places, third, &names, reach)?;
    joined(own, &names)
}

/// Keeps the answers of parts of an operand, and of what is applied to the tuple in the slot.
#[cycle(remember)]
fn inside(
    alloc: Global,
    places: &mut usize,
    operand: &mut Step,
    slot: usize,
    body: &mut Step,
) -> Result<Vec<usize>, AllocError>
    ensures { IfOk result (λ names. AreRemembered places.old places.new
        (λ x y. AreAmong x names.items × AreAmongBut slot y names.items)
        operand.old body.old operand.new body.new) }
{
    let first = remember(alloc, places, operand)?;
    let second = remember(alloc, places, body)?;
    let outer = without(alloc, slot, &second)?;
    keep_part(alloc, places, operand, &first, reach_of(&outer))?;
    keep_part(alloc, places, body, &second, slot.saturating_add(1))?;
    joined(first, &outer)
}

/// Keeps the answers of parts of each of the steps. It gives the slots that each names.
#[cycle(remember)]
fn remember_all(
    alloc: Global,
    places: &mut usize,
    steps: &mut Vec<Step>,
) -> Result<Vec<Vec<usize>>, AllocError>
    ensures { IfOk result (λ all. AreEachRemembered places.old places.new
        (map (λ ns. ns.items) all.items) steps.old.items steps.new.items) }
{
    let mut all = Vec::with_capacity(alloc, steps.len())?;
    for step in steps.iter_mut() {
        all.push(remember(alloc, places, step)?)?;
    }
    Ok(all)
}

/// Keeps the answers of parts of steps that stand side by side, and of those that do not reach as
/// far as others.
#[cycle(remember)]
fn all(alloc: Global, places: &mut usize, steps: &mut Vec<Step>) -> Result<Vec<usize>, AllocError>
    ensures { IfOk result (λ names. AreAllRemembered places.old places.new names.items
        steps.old.items steps.new.items) }
{
    let each = remember_all(alloc, places, steps)?;
    let names = union_of(alloc, &each)?;
    keep_all(alloc, places, steps, &each, reach_of(&names))?;
    Ok(names)
}

/// Keeps the answers of parts of an operand, and of all that is applied to the tuple in the slot.
#[cycle(remember)]
fn all_inside(
    alloc: Global,
    places: &mut usize,
    operand: &mut Step,
    slot: usize,
    steps: &mut Vec<Step>,
) -> Result<Vec<usize>, AllocError>
    ensures { IfOk result (λ names. AreRememberedInside places.old places.new slot names.items
        operand.old steps.old.items operand.new steps.new.items) }
{
    let first = remember(alloc, places, operand)?;
    let each = remember_all(alloc, places, steps)?;
    let inner = union_of(alloc, &each)?;
    let outer = without(alloc, slot, &inner)?;
    keep_part(alloc, places, operand, &first, reach_of(&outer))?;
    keep_all(alloc, places, steps, &each, slot.saturating_add(1))?;
    joined(first, &outer)
}

/// Keeps the answers of parts of two operands, and of all that is applied to the tuple in the slot.
#[cycle(remember)]
fn all_inside_both(
    alloc: Global,
    places: &mut usize,
    operand: &mut Step,
    per: &mut Step,
    slot: usize,
    steps: &mut Vec<Step>,
) -> Result<Vec<usize>, AllocError>
    ensures { IfOk result (λ names. AreRememberedInsideBoth places.old places.new slot names.items
        operand.old per.old steps.old.items operand.new per.new steps.new.items) }
{
    let first = all_inside(alloc, places, operand, slot, steps)?;
    let second = remember(alloc, places, per)?;
    let reach = reach_of(&second);
    keep_part(alloc, places, per, &second, reach_of(&first))?;
    keep_part(alloc, places, operand, &first, reach)?;
    joined(first, &second)
}

/// The slots that tuples in slots of their own and what stands behind them name together, and the
/// first one from which on the tuples name none but their own.
#[derive(Drop)]
struct BoundNames {
    names: Vec<usize>,
    reach: usize,
}

/// The slots that tuples in slots from this one on name beside their own, those that what stands
/// behind them names too, and how far the tuples reach.
fn bound_names(
    alloc: Global,
    slot: usize,
    each: &[Vec<usize>],
    own: &[usize],
) -> Result<BoundNames, AllocError>
    ensures { IfOk result (λ bound. AreBoundNames slot (map (λ ns. ns.items) each.now) own.now
        bound.names.items bound.reach) }
{
    let all = union_of(alloc, each)?;
    let outer = before(alloc, slot, &all)?;
    let reach = reach_of(&outer);
    let inner = joined(all, own)?;
    let names = before(alloc, slot, &inner)?;
    Ok(BoundNames { names, reach })
}

/// Keeps the answers of parts of tuples that come into slots from this one on, and of what stands
/// where they are in scope.
#[cycle(remember)]
fn all_bound(
    alloc: Global,
    places: &mut usize,
    slot: usize,
    items: &mut Vec<Step>,
    value: &mut Step,
) -> Result<BoundNames, AllocError>
    ensures { IfOk result (λ bound. AreRememberedBound places.old places.new slot bound.reach
        bound.names.items value.old items.old.items value.new items.new.items) }
{
    let own = remember(alloc, places, value)?;
    let each = remember_all(alloc, places, items)?;
    let bound = bound_names(alloc, slot, &each, &own)?;
    let reach = reach_of(&bound.names);
    keep_part(alloc, places, value, &own, reach)?;
    keep_all(alloc, places, items, &each, reach)?;
    Ok(bound)
}

/// What stands where the values of items are in scope.
#[cycle(remember)]
fn bound(
    alloc: Global,
    places: &mut usize,
    slot: usize,
    mut items: Vec<Step>,
    mut value: Box<Step>,
) -> Result<NamedStep, AllocError>
    ensures { IfOk result (λ named. (reach : ℕ) → IsRemembered places.old places.new
        named.names.items (variants.Bound slot reach items value) named.step) }
{
    let bound = all_bound(alloc, places, slot, &mut items, &mut value)?;
    let step = Step::Bound {
        slot,
        reach: bound.reach,
        items,
        value,
    };
    Ok(NamedStep {
        step,
        names: bound.names,
    })
}
