//! The steps of nodes, made of the steps of their parts.
ghost use Rattle.std.specs.Prelude.{◌≡◌, IfOk, map};
ghost use Rattle.std.specs.Rc.{rc_str_bytes};
ghost use Rattle.td_check.specs.model.Scopes.{Scope};
ghost use Rattle.td_plan.specs.code.Plans as plans;
ghost use Rattle.td_plan.specs.code.OperatorTrees.{dyadic_tree, monadic_tree};
ghost use Rattle.td_plan.specs.code.PlannedParts.{ArePlanned, IsBoxPlanned, IsPlanned, in_trees};
ghost use Rattle.td_plan.specs.code.PlannedParts.{part_tree};
ghost use Rattle.td_plan.specs.code.Planners.{IsPlanner};
ghost use Rattle.td_plan.specs.code.StepViews.{dyadic_view, monadic_view};
ghost use Rattle.td_tree.specs.code.TreeViews.{heading_tree_view, literal_view, named_view};
ghost use Rattle.td_tree.specs.code.TreeViews.{postfix_view};
ghost use Rattle.td_tree.specs.model.Trees as trees;
ghost use Rattle.td_tree.specs.model.Trees.{Tree};

use crate::making::planner::{Definitions, Planner};
use crate::plan::step::{Dyadic, Monadic, Selector, Step};
use std::alloc::{AllocError, Global};
use std::rc::RcStr;
use td_eval::operators::literals::literal_value;
use td_tree::expression::{Literal, NamedExpr, Postfix};
use td_tree::fault::Fault;
use td_tree::name::Name;
use td_tree::type_tree::AttributeTree;
use td_types::resolve::resolve_heading;

/// The step of a literal: its value is known, or that it has none.
#[inline(never)]
pub(crate) fn literal_step(alloc: Global, literal: &Literal) -> Result<Step, AllocError>
    ensures { (scope : Scope)
        → IsPlanned scope result (trees.literal (literal_view literal.now)) }
{
    match literal_value(alloc, literal) {
        Ok(value) => Ok(Step::Constant(value)),
        Err(Fault::Refused(cause)) => Ok(Step::Refused(cause)),
        Err(Fault::Memory) => Err(AllocError),
    }
}

/// The step of the innermost attribute of a name, else of the relvar.
#[inline(never)]
pub(crate) fn name_step<C: Definitions>(
    planner: &Planner<'_, C>,
    name: &Name,
) -> Result<Step, AllocError>
    requires { IsPlanner C.database planner.now }
    ensures { IsPlanned planner.now.scope result (trees.name name.now) }
{
    match planner.attribute_place(name) {
        Some((slot, place)) => Ok(Step::Attribute { slot, place }),
        None => Ok(Step::Relvar(name.try_clone()?)),
    }
}

// ---- operators of one operand and of two

/// The operator that gives an attribute's value from a tuple.
pub(crate) fn extraction(attribute: &Name) -> Result<Monadic, AllocError>
    ensures { IfOk result (λ op. monadic_view op ≡ plans.extract attribute.now) }
{
    Ok(Monadic::Extract(attribute.try_clone()?))
}

/// The operator that gives a component of a user value.
pub(crate) fn component(rest: &RcStr) -> Result<Monadic, AllocError>
    ensures { IfOk result (λ op. monadic_view op ≡ plans.component (rc_str_bytes rest.now)) }
{
    Ok(Monadic::Component(rest.clone()?))
}

/// The operator that stands behind its operand.
pub(crate) fn postfix(op: &Postfix) -> Result<Monadic, AllocError>
    ensures { IfOk result (λ o. monadic_view o ≡ plans.postfix (postfix_view op.now)) }
{
    Ok(Monadic::Postfix(op.try_clone()?))
}

/// The step of an operator of one operand.
#[inline(never)]
pub(crate) fn monadic_step(
    op: Result<Monadic, AllocError>,
    operand: Result<Box<Step>, AllocError>,
) -> Result<Step, AllocError>
    ensures { (scope : Scope) (o : plans.Monadic) (d : Tree) → IfOk op (λ p. monadic_view p ≡ o)
        → IsBoxPlanned scope operand d → IsPlanned scope result (monadic_tree o d) }
{
    let operand = operand?;
    Ok(Step::Monadic(op?, operand))
}

/// The step of an operator between two operands.
#[inline(never)]
pub(crate) fn dyadic_step(
    left: Result<Box<Step>, AllocError>,
    op: Dyadic,
    right: Result<Box<Step>, AllocError>,
) -> Result<Step, AllocError>
    ensures { (scope : Scope) (d e : Tree) → IsBoxPlanned scope left d → IsBoxPlanned scope right e
        → IsPlanned scope result (dyadic_tree d (dyadic_view op) e) }
{
    let left = left?;
    Ok(Step::Dyadic(left, op, right?))
}

// ---- selectors

/// The step of a value of a user type.
#[inline(never)]
pub(crate) fn select_step(
    ty: &Name,
    arguments: Result<Vec<Step>, AllocError>,
) -> Result<Step, AllocError>
    ensures { (scope : Scope) (es : trees.Trees) → ArePlanned scope arguments (in_trees es)
        → IsPlanned scope result (trees.select ty.now es) }
{
    let arguments = arguments?;
    Ok(Step::Select(Selector::User(ty.try_clone()?), arguments))
}

/// The step of a relation of tuples without a heading.
#[inline(never)]
pub(crate) fn relation_step(elements: Result<Vec<Step>, AllocError>) -> Result<Step, AllocError>
    ensures { (scope : Scope) (es : trees.Trees) → ArePlanned scope elements (in_trees es)
        → IsPlanned scope result (trees.relation es) }
{
    Ok(Step::Select(Selector::Relation, elements?))
}

/// The step of a relation of tuples of a heading.
#[inline(never)]
pub(crate) fn headed_step<C: Definitions>(
    planner: &Planner<'_, C>,
    heading: &[AttributeTree],
    elements: Result<Vec<Step>, AllocError>,
) -> Result<Step, AllocError>
    requires { IsPlanner C.database planner.now }
    ensures { (es : trees.Trees) → ArePlanned planner.now.scope elements (in_trees es)
        → IsPlanned planner.now.scope result
        (trees.headed_relation (heading_tree_view heading.now) es) }
{
    let elements = elements?;
    match resolve_heading(planner.catalog.declared_types(), heading) {
        Ok(heading) => Ok(Step::Select(Selector::HeadedRelation(heading), elements)),
        Err(Fault::Refused(cause)) => Ok(Step::Refused(cause)),
        Err(Fault::Memory) => Err(AllocError),
    }
}

/// The names of parts.
fn names_of(alloc: Global, parts: &[NamedExpr]) -> Result<Vec<Name>, AllocError>
    ensures { IfOk result (λ names. names.items ≡ map (λ part. part.name) parts.now) }
{
    let mut names = Vec::with_capacity(alloc, parts.len())?;
    for part in parts {
        names.push(part.name.try_clone()?)?;
    }
    Ok(names)
}

/// The step of a tuple.
#[inline(never)]
pub(crate) fn tuple_step(
    alloc: Global,
    parts: &[NamedExpr],
    values: Result<Vec<Step>, AllocError>,
) -> Result<Step, AllocError>
    ensures { (scope : Scope) → ArePlanned scope values (map part_tree parts.now)
        → IsPlanned scope result (trees.tuple (named_view parts.now)) }
{
    let values = values?;
    let names = names_of(alloc, parts)?;
    Ok(Step::Select(Selector::Tuple(names), values))
}

/// The step of a choice.
#[inline(never)]
pub(crate) fn choice_step(
    condition: Result<Box<Step>, AllocError>,
    consequent: Result<Box<Step>, AllocError>,
    alternative: Result<Box<Step>, AllocError>,
) -> Result<Step, AllocError>
    ensures { (scope : Scope) (c d e : Tree) → IsBoxPlanned scope condition c
        → IsBoxPlanned scope consequent d → IsBoxPlanned scope alternative e
        → IsPlanned scope result (trees.choice c d e) }
{
    let condition = condition?;
    let consequent = consequent?;
    Ok(Step::If(condition, consequent, alternative?))
}
