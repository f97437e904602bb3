//! Operands of WHERE that are looked up by a key.
ghost use Rattle.std.specs.Prelude.{◌<◌, ◌≡◌, IfOk, IfSome, length, map};
ghost use Rattle.std.specs.List.{Contains, HoldsAt};
ghost use Rattle.td_check.specs.model.Scopes.{Scope, entered_with};
ghost use Rattle.td_plan.specs.declared.rewriting.fixed.FixedValue.{FixedValue};
ghost use Rattle.td_plan.specs.code.LookUps.{IsBase, MeansName};
ghost use Rattle.td_plan.specs.code.Narrowing.{AreFixed, MayNarrow};
ghost use Rattle.td_plan.specs.code.Fixing.{IsUnfailing};
ghost use Rattle.td_plan.specs.code.Plans as plans;
ghost use Rattle.td_plan.specs.code.StepViews.{step_view, steps_view};
ghost use Rattle.td_tree.specs.code.TreeViews.{tree_view};
ghost use Rattle.td_tree.specs.model.Trees.{Tree};
ghost use Rattle.td_tree.specs.model.WrittenTrees.{IsWritten};
ghost use Rattle.td_types.specs.model.Headings.{projection};
ghost use Rattle.td_types.specs.model.Types.{attribute_names};

use crate::making::planner::{Definitions, Planner};
use crate::plan::step::{Selector, Step};
use crate::rewriting::fixed::{FixedValue, has_a_value};
use std::alloc::{AllocError, Global};
use td_check::scope::Kind;
use td_tree::expression::Expr;
use td_tree::fault::Fault;
use td_tree::name::Name;
use td_types::heading::Heading;

// ---- the relvar

/// The name in an expression that is a name, in parentheses or not.
fn bare_name(expr: &Expr) -> Option<&Name>
    ensures { IfSome result (λ n. MeansName n.now (tree_view expr.now)) }
{
    match expr {
        Expr::Name(name) => Some(name),
        Expr::Parentheses(inner) => bare_name(inner),
        _ => None,
    }
}

/// The name in an expression that is the name of a base relvar, which no attribute hides and in
/// whose place no other relation stands.
pub(crate) fn base_named<'e, C: Definitions>(
    planner: &Planner<'_, C>,
    expr: &'e Expr,
) -> Option<&'e Name>
    ensures means { IfSome result (λ n. MeansName n.now (tree_view expr.now)) }
    ensures base { IfSome result (λ n. IsBase planner.now.scope n.now) }
{
    let name = bare_name(expr)?;
    let is_replaced = planner.replaced.is_some_and(|other| *other == *name);
    if is_replaced || planner.scope.attribute(name).is_some() {
        return None;
    }
    match planner.scope.relvar(name) {
        Some((Kind::Base, _)) => Some(name),
        _ => None,
    }
}

// ---- the key

/// Whether the key has attributes, and each is one of these.
fn is_fixed_key(fixed: &[FixedValue], key: &[Name]) -> bool {
    let is_fixed = |name: &Name| fixed.iter().any(|attribute| attribute.name == *name);
    !key.is_empty() && key.iter().all(is_fixed)
}

/// The names of the first key of a base relvar whose attributes are all fixed.
fn key_of<'p, C: Definitions>(
    planner: &'p Planner<'_, C>,
    name: &Name,
    fixed: &[FixedValue],
) -> Option<&'p [Name]> {
    for key in planner.catalog.keys_of(name)? {
        if is_fixed_key(fixed, key) {
            return Some(key);
        }
    }
    None
}

// ---- the part

/// Where the attribute of the name stands.
fn place_of(fixed: &[FixedValue], name: &Name) -> Option<usize>
    ensures there { IfSome result (λ i. i < length fixed.now) }
    ensures named { IfSome result (λ i. HoldsAt (λ x. x.name ≡ name.now) fixed.now i) }
{
    for place in 0..fixed.len() {
        if fixed[place].name == *name {
            return Some(place);
        }
    }
    None
}

/// The attribute of the name, which is taken from the others.
fn take_attribute(fixed: &mut Vec<FixedValue>, name: &Name) -> Option<FixedValue>
    ensures named { IfSome result (λ x. x.name ≡ name.now) }
    ensures there { IfSome result (λ x. Contains fixed.old.items x) }
    ensures others { (x : FixedValue) → Contains fixed.new.items x → Contains fixed.old.items x }
{
    let place = place_of(fixed, name)?;
    Some(fixed.swap_remove(place))
}

/// The attributes of a heading, in its order; none where one of them is not fixed.
fn in_heading_order(
    alloc: Global,
    heading: &Heading,
    fixed: Vec<FixedValue>,
) -> Result<Option<Vec<FixedValue>>, AllocError>
    ensures names { IfOk result (λ found. IfSome found (λ part.
        map (λ x. x.name) part.items ≡ attribute_names heading.now)) }
    ensures fixed { IfOk result (λ found. IfSome found (λ part.
        (x : FixedValue) → Contains part.items x → Contains fixed.items x)) }
{
    let mut rest = fixed;
    let mut part = Vec::with_capacity(alloc, heading.len())?;
    for place in 0..heading.len() {
        let Some((name, _)) = heading.at(place) else {
            return Ok(None);
        };
        let Some(attribute) = take_attribute(&mut rest, name) else {
            return Ok(None);
        };
        part.push(attribute)?;
    }
    Ok(Some(part))
}

/// The attributes of a key, in the heading's order.
fn key_part(
    alloc: Global,
    heading: &Heading,
    key: &[Name],
    fixed: Vec<FixedValue>,
) -> Result<Option<Vec<FixedValue>>, AllocError>
    ensures names { IfOk result (λ found. IfSome found (λ part.
        map (λ x. x.name) part.items ≡ attribute_names (projection key.now heading.now))) }
    ensures fixed { IfOk result (λ found. IfSome found (λ part.
        (x : FixedValue) → Contains part.items x → Contains fixed.items x)) }
{
    match heading.project(key) {
        Ok(part) => in_heading_order(alloc, &part, fixed),
        Err(Fault::Refused(_)) => Ok(None),
        Err(Fault::Memory) => Err(AllocError),
    }
}

// ---- the look-up

/// A copy of the names.
fn copied_names(alloc: Global, names: &[Name]) -> Result<Vec<Name>, AllocError>
    ensures { IfOk result (λ copy. copy.items ≡ names.now) }
{
    let mut copy = Vec::with_capacity(alloc, names.len())?;
    for name in names {
        copy.push(name.try_clone()?)?;
    }
    Ok(copy)
}

/// The step of the tuple of these attributes.
fn part_step(alloc: Global, part: Vec<FixedValue>) -> Result<Step, AllocError>
    ensures { IfOk result (λ p. step_view p
        ≡ plans.select (plans.tuple (map (λ x. x.name) part.items))
        (steps_view (map (λ x. x.value) part.items))) }
{
    let mut names = Vec::with_capacity(alloc, part.len())?;
    let mut values = Vec::with_capacity(alloc, part.len())?;
    for attribute in part {
        let FixedValue { name, value } = attribute;
        names.push(name)?;
        values.push(value)?;
    }
    Ok(Step::Select(Selector::Tuple(names), values))
}

/// The step, in a box, of the tuples of a base relvar that agree with these attributes on a key.
fn look_up_step(
    alloc: Global,
    name: &Name,
    key: &[Name],
    part: Vec<FixedValue>,
) -> Result<Box<Step>, AllocError>
    ensures { IfOk result (λ p. step_view p.value ≡ plans.look_up name.now key.now
        (plans.select (plans.tuple (map (λ x. x.name) part.items))
        (steps_view (map (λ x. x.value) part.items)))) }
{
    let part = Box::new(alloc, part_step(alloc, part)?)?;
    let key = copied_names(alloc, key)?;
    let step = Step::LookUp(name.try_clone()?, key, part);
    Ok(Box::new(alloc, step)?)
}

/// The names of the first key of a base relvar whose attributes are all fixed, where the condition
/// is known to have a value in each tuple.
fn total_key<'p, C: Definitions>(
    inner: &'p Planner<'_, C>,
    name: &Name,
    condition: &Expr,
    fixed: &[FixedValue],
) -> Result<Option<&'p [Name]>, AllocError>
    ensures { IfOk result (λ found. IfSome found (λ _.
        IsUnfailing inner.now.scope (tree_view condition.now))) }
{
    let Some(key) = key_of(inner, name, fixed) else {
        return Ok(None);
    };
    Ok(has_a_value(&inner.scope, condition)?.then_some(key))
}

/// The look-up of the operand of WHERE that the name means, by the first declared key whose
/// attributes the condition all fixes. The inner planner knows the operand's tuple, of the heading.
pub(crate) fn look_up_by_key<C: Definitions>(
    inner: &Planner<'_, C>,
    name: &Name,
    heading: &Heading,
    condition: &Expr,
    fixed: Result<Vec<FixedValue>, AllocError>,
) -> Result<Option<Box<Step>>, AllocError>
    ensures { (scope : Scope) (d : Tree) → inner.now.scope ≡ entered_with heading.now scope
        → MeansName name.now d → IsBase scope name.now
        → IfOk fixed (λ xs. IsWritten (tree_view condition.now)
        → AreFixed scope heading.now (tree_view condition.now) xs.items)
        → MayNarrow scope result d (tree_view condition.now) heading.now }
{
    let fixed = fixed?;
    let Some(key) = total_key(inner, name, condition, &fixed)? else {
        return Ok(None);
    };
    match key_part(inner.alloc, heading, key, fixed)? {
        Some(part) => Ok(Some(look_up_step(inner.alloc, name, key, part)?)),
        None => Ok(None),
    }
}
