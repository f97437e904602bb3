//! Relations and tuples of which all parts are literals. They have their values before a plan is
//! run, by evaluation, which costs less than planning them.
ghost use Rattle.std.specs.Prelude.{IfOk, IfSome, IsTrue};
ghost use Rattle.td_plan.specs.code.Closed.{AreClosed, IsClosed, PartsAreClosed};
ghost use Rattle.td_plan.specs.code.PlansOf.{IsPlanOfTyped};
ghost use Rattle.td_plan.specs.code.Planners.{IsPlanner};
ghost use Rattle.td_plan.specs.code.StepViews.{step_view};
ghost use Rattle.td_tree.specs.code.TreeViews.{named_view, tree_view, trees_view};

use crate::making::planner::{Definitions, Planner};
use crate::plan::step::Step;
use std::alloc::AllocError;
use td_tree::expression::{Expr, NamedExpr};
use td_tree::fault::Fault;

/// Whether an expression is a literal, or a tuple or a relation of such.
#[cycle(closed)]
fn is_constant(expr: &Expr) -> bool
    ensures { IsTrue result → IsClosed (tree_view expr.now) }
{
    match expr {
        Expr::Literal(_) => true,
        Expr::Parentheses(inner) => is_constant(inner),
        Expr::Tuple(parts) => parts_are_constant(parts),
        Expr::Relation(elements) => are_constant(elements),
        Expr::HeadedRelation(_, elements) => are_constant(elements),
        _ => false,
    }
}

/// Whether each of the expressions is.
#[cycle(closed)]
fn are_constant(exprs: &[Expr]) -> bool
    ensures { IsTrue result → AreClosed (trees_view exprs.now) }
{
    for expr in exprs {
        if !is_constant(expr) {
            return false;
        }
    }
    true
}

/// Whether each of the parts is.
#[cycle(closed)]
fn parts_are_constant(parts: &[NamedExpr]) -> bool
    ensures { IsTrue result → PartsAreClosed (named_view parts.now) }
{
    for part in parts {
        if !is_constant(&part.value) {
            return false;
        }
    }
    true
}

/// Whether an expression is a tuple or a relation of literals alone.
pub(crate) fn is_closed(expr: &Expr) -> bool
    ensures { IsTrue result → IsClosed (tree_view expr.now) }
{
    match expr {
        Expr::Tuple(_) | Expr::Relation(_) | Expr::HeadedRelation(..) => is_constant(expr),
        _ => false,
    }
}

/// The step of what such an expression has, if it has a value.
#[inline(never)]
pub(crate) fn closed_step<C: Definitions>(
    planner: &Planner<'_, C>,
    expr: &Expr,
) -> Result<Option<Step>, AllocError>
    requires { IsPlanner C.database planner.now }
    ensures { IfOk result (λ found. IfSome found
        (λ p. IsPlanOfTyped planner.now.scope (step_view p) (tree_view expr.now))) }
{
    if !is_closed(expr) {
        return Ok(None);
    }
    match planner.catalog.value_alone(planner.alloc, expr) {
        Ok(value) => Ok(Some(Step::Constant(value))),
        Err(Fault::Refused(_)) => Ok(None),
        Err(Fault::Memory) => Err(AllocError),
    }
}
