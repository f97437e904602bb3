//! Restrictions that are computed of operands of what they restrict.
ghost use Rattle.std.specs.Prelude.{◌&&◌, ◌≡◌, IfOk, IsTrue, not};
ghost use Rattle.std.specs.List.{list_any};
ghost use Rattle.td_check.specs.model.StaticTypes.{type_of};
ghost use Rattle.td_plan.specs.laws.EqualitiesOfNames.{NamesOnly};
ghost use Rattle.td_plan.specs.code.Fixing.{IsUnfailing};
ghost use Rattle.td_plan.specs.code.Planners.{IsPlanner};
ghost use Rattle.td_plan.specs.code.Pushing.{IsAnsweredIn, MayBePushed};
ghost use Rattle.td_tree.specs.declared.operator.Operator.TheVariants as operators;
ghost use Rattle.td_tree.specs.model.Outcomes.{Valued};
ghost use Rattle.td_tree.specs.code.TreeViews.{tree_view};
ghost use Rattle.td_tree.specs.model.Trees.{Tree};
ghost use Rattle.td_types.specs.model.Headings.{has_attribute};
ghost use Rattle.td_types.specs.model.Types as types;
ghost use Rattle.td_types.specs.model.Types.{attribute_names, pack};

use crate::making::planner::{Definitions, Planner};
use crate::rewriting::brief::is_brief;
use crate::rewriting::fixed::has_a_value;
use std::alloc::{AllocError, Global};
use td_check::expression::check_expr;
use td_check::names::names_in;
use td_check::scope::Scope;
use td_tree::expression::Expr;
use td_tree::fault::Fault;
use td_tree::name::Name;
use td_tree::operator::Operator;
use td_types::heading::Heading;
use td_types::ty::Ty;

/// The operands that are restricted in place of what an operator gives of them.
#[derive(Clone, Copy, Drop)]
pub(crate) enum Restricted {
    First,
    Second,
    Both,
}

/// Whether an expression is known to have a truth value.
fn has_a_truth_value(scope: &Scope<'_>, expr: &Expr) -> Result<bool, AllocError>
    ensures { IfOk result (λ b. IsTrue b → IsUnfailing scope.now (tree_view expr.now)
        × (type_of scope.now (tree_view expr.now) ≡ Valued types.boolean)) }
{
    if !has_a_value(scope, expr)? {
        return Ok(false);
    }
    match check_expr(scope, expr) {
        Ok(Ty::Bool) => Ok(true),
        Ok(_) | Err(Fault::Refused(_)) => Ok(false),
        Err(Fault::Memory) => Err(AllocError),
    }
}

/// Whether a condition is known to have a truth value in each tuple of the heading.
fn is_answered<C: Definitions>(
    planner: &Planner<'_, C>,
    heading: &Heading,
    condition: &Expr,
) -> Result<bool, AllocError>
    requires { IsPlanner C.database planner.now }
    ensures { IfOk result (λ b. IsTrue b → (d : Tree)
        → type_of planner.now.scope d ≡ Valued (types.relation (pack heading.now))
        → IsAnsweredIn planner.now.scope d (tree_view condition.now) heading.now) }
{
    let inner = planner.inner_planner(heading)?;
    has_a_truth_value(&inner.scope, condition)
}

/// Whether it is so of the heading of an operand's tuples.
fn is_answered_of<C: Definitions>(
    planner: &Planner<'_, C>,
    operand: &Expr,
    condition: &Expr,
) -> Result<bool, AllocError>
    requires { IsPlanner C.database planner.now }
    ensures { IfOk result (λ b. IsTrue b → (h : types.Heading)
        × IsAnsweredIn planner.now.scope (tree_view operand.now) (tree_view condition.now) h) }
{
    match planner.heading_of(operand)? {
        Some(heading) => is_answered(planner, &heading, condition),
        None => Ok(false),
    }
}

/// A union's operands, where a condition restricts both. It is planned for each, so that only a
/// brief one is.
fn restricted_of_union<C: Definitions>(
    planner: &Planner<'_, C>,
    left: &Expr,
    right: &Expr,
    condition: &Expr,
) -> Result<Option<Restricted>, AllocError>
    requires { IsPlanner C.database planner.now }
    ensures { MayBePushed planner.now.scope result (tree_view left.now) operators.Union
        (tree_view right.now) (tree_view condition.now) }
{
    if !is_brief(condition) || !is_answered_of(planner, left, condition)? {
        return Ok(None);
    }
    if is_answered_of(planner, right, condition)? {
        Ok(Some(Restricted::Both))
    } else {
        Ok(None)
    }
}

/// The first operand of an intersection or a difference, where a condition restricts it.
fn restricted_first<C: Definitions>(
    planner: &Planner<'_, C>,
    left: &Expr,
    condition: &Expr,
) -> Result<Option<Restricted>, AllocError>
    requires { IsPlanner C.database planner.now }
    ensures intersect { (r : Tree) → MayBePushed planner.now.scope result (tree_view left.now)
        operators.Intersect r (tree_view condition.now) }
    ensures minus { (r : Tree) → MayBePushed planner.now.scope result (tree_view left.now)
        operators.Minus r (tree_view condition.now) }
{
    if is_answered_of(planner, left, condition)? {
        Ok(Some(Restricted::First))
    } else {
        Ok(None)
    }
}

/// Whether the heading has an attribute of one of the names that the other has not.
fn one_is_missing(heading: &Heading, other: &Heading, names: &[Name]) -> bool
    ensures { result ≡ list_any
        (λ n. has_attribute n heading.now && not (has_attribute n other.now)) names.now }
{
    names.iter().any(|name| heading.get(name).is_some() && other.get(name).is_none())
}

/// Whether each of the heading's attributes that are named in an expression is one of the other's.
pub(crate) fn names_only(
    alloc: Global,
    heading: &Heading,
    other: &Heading,
    expr: &Expr,
) -> Result<bool, AllocError>
    ensures { IfOk result (λ b. IsTrue b
        → NamesOnly (attribute_names other.now) heading.now (tree_view expr.now)) }
{
    let names = names_in(alloc, expr)?;
    Ok(!one_is_missing(heading, other, &names))
}

/// Whether a condition restricts an operand of a join whose tuples have the heading, since it asks
/// of this operand's attributes alone, and of none that the other operand has besides.
fn is_asked_of<C: Definitions>(
    planner: &Planner<'_, C>,
    heading: &Heading,
    other: &Heading,
    condition: &Expr,
) -> Result<bool, AllocError>
    requires { IsPlanner C.database planner.now }
    ensures answered { IfOk result (λ b. IsTrue b → (d : Tree)
        → type_of planner.now.scope d ≡ Valued (types.relation (pack heading.now))
        → IsAnsweredIn planner.now.scope d (tree_view condition.now) heading.now) }
    ensures only { IfOk result (λ b. IsTrue b
        → NamesOnly (attribute_names heading.now) other.now (tree_view condition.now)) }
{
    Ok(
        names_only(planner.alloc, other, heading, condition)?
            && is_answered(planner, heading, condition)?,
    )
}

/// The operand of a join or a product that has every attribute which a condition names.
fn restricted_of_join<C: Definitions>(
    planner: &Planner<'_, C>,
    left: &Expr,
    right: &Expr,
    condition: &Expr,
) -> Result<Option<Restricted>, AllocError>
    requires { IsPlanner C.database planner.now }
    ensures join { MayBePushed planner.now.scope result (tree_view left.now) operators.Join
        (tree_view right.now) (tree_view condition.now) }
    ensures times { MayBePushed planner.now.scope result (tree_view left.now) operators.Times
        (tree_view right.now) (tree_view condition.now) }
{
    let Some(first) = planner.heading_of(left)? else {
        return Ok(None);
    };
    let Some(second) = planner.heading_of(right)? else {
        return Ok(None);
    };
    if is_asked_of(planner, &first, &second, condition)? {
        return Ok(Some(Restricted::First));
    }
    if is_asked_of(planner, &second, &first, condition)? {
        return Ok(Some(Restricted::Second));
    }
    Ok(None)
}

/// The operands of an operator that a condition restricts in place of what the operator gives.
pub(crate) fn restricted_operands<C: Definitions>(
    planner: &Planner<'_, C>,
    left: &Expr,
    op: Operator,
    right: &Expr,
    condition: &Expr,
) -> Result<Option<Restricted>, AllocError>
    requires { IsPlanner C.database planner.now }
    ensures { MayBePushed planner.now.scope result (tree_view left.now) op (tree_view right.now)
        (tree_view condition.now) }
{
    match op {
        Operator::Union => restricted_of_union(planner, left, right, condition),
        Operator::Intersect | Operator::Minus => restricted_first(planner, left, condition),
        Operator::Join | Operator::Times => restricted_of_join(planner, left, right, condition),
        _ => Ok(None),
    }
}
