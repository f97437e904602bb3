//! The plans of expressions.
ghost use Rattle.std.specs.Prelude.{◌≡◌, IfOk, IsOkAnd};
ghost use Rattle.td_plan.specs.code.Planners.{IsPlanner, catalog_database};
ghost use Rattle.td_plan.specs.code.PlansOf.{ArePlannedSettings, IsPlanIfTyped, IsPlanOfTyped};
ghost use Rattle.td_plan.specs.code.PlansOf.{scope_in};
ghost use Rattle.td_plan.specs.code.PlanViews.{plan_view};
ghost use Rattle.td_plan.specs.code.StepViews.{step_view};
ghost use Rattle.td_tree.specs.code.TreeViews.{named_view, tree_view};
ghost use Rattle.td_tree.specs.model.Trees as trees;
ghost use Rattle.td_types.specs.code.Views.{pairs_view};

use crate::making::planner::Planner;
use crate::making::planning::{part_steps, step_of, where_of};
use crate::making::remember::remember;
use crate::plan::Plan;
use crate::plan::step::Step;
use crate::running::virtuals::add_names;
use std::alloc::{AllocError, Global};
use td_body::body::Body;
use td_catalog::catalog::Catalog;
use td_eval::env::Env;
use td_tree::expression::{Expr, NamedExpr};
use td_tree::name::Name;
use td_types::ty::Ty;
use td_value::relation::Rel;
use td_value::value::Value;

/// What is known to an expression that is planned there.
fn planner_in<'a, B: Body>(
    alloc: Global,
    env: &Env<'a, B>,
) -> Result<Planner<'a, Catalog<B>>, AllocError>
    ensures planner { IfOk result (λ p. IsPlanner catalog_database p) }
    ensures scope { IfOk result (λ p. p.scope ≡ scope_in env.now) }
{
    let replaced = env.other.map(|other| other.0);
    let mut planner = Planner::outside(alloc, env.catalog, replaced);
    for tuple in env.tuples {
        planner.enter(&tuple.heading()?)?;
    }
    Ok(planner)
}

/// The plan of the step, where these names stand in its expression.
fn plan_by(
    alloc: Global,
    step: Result<Step, AllocError>,
    names: Vec<Name>,
) -> Result<Plan, AllocError>
    ensures { IfOk result (λ plan. IsOkAnd step (λ s. plan_view plan ≡ step_view s)) }
{
    let mut step = step?;
    let mut places = 0;
    remember(alloc, &mut places, &mut step)?;
    Ok(Plan {
        step,
        places,
        names,
    })
}

/// The plan of an expression. Where the same names are known, and tuples of the same headings in
/// scope, it has the expression's value, or is refused by the same causes.
pub fn plan<B: Body>(alloc: Global, env: &Env<'_, B>, expr: &Expr) -> Result<Plan, AllocError>
    ensures { IfOk result
        (λ p. IsPlanIfTyped (scope_in env.now) (plan_view p) (tree_view expr.now)) }
{
    expr.reveal();
    let mut names = Vec::new(alloc);
    add_names(alloc, env.catalog, expr, &mut names)?;
    let planner = planner_in(alloc, env)?;
    plan_by(alloc, step_of(&planner, expr), names)
}

/// The plan of the tuples of the base relvar of the name for which a condition is TRUE.
pub(crate) fn plan_in_relvar<B: Body>(
    alloc: Global,
    env: &Env<'_, B>,
    relvar: &Name,
    condition: &Expr,
) -> Result<Plan, AllocError>
    ensures { IfOk result (λ p. IsPlanOfTyped (scope_in env.now) (plan_view p)
        (trees.restriction (trees.name relvar.now) (tree_view condition.now))) }
{
    let mut names = Vec::new(alloc);
    add_names(alloc, env.catalog, condition, &mut names)?;
    let planner = planner_in(alloc, env)?;
    let named = Expr::Name(relvar.try_clone()?);
    plan_by(alloc, where_of(&planner, &named, condition), names)
}

/// The step of a relation's tuples with attributes of these types set to what parts are in each.
fn settings_step<B: Body>(
    planner: &Planner<'_, Catalog<B>>,
    rel: &Rel,
    attributes: Vec<(Name, Ty)>,
    parts: &[NamedExpr],
) -> Result<Step, AllocError>
    requires { IsPlanner catalog_database planner.now }
    ensures { IfOk result (λ step. ArePlannedSettings planner.now.scope (step_view step) rel.now
        (pairs_view attributes.items) (named_view parts.now)) }
{
    let inner = planner.inner_planner(rel.heading())?;
    let values = part_steps(&inner, parts)?;
    let relation = Value::relation(planner.alloc, rel.try_clone()?)?;
    let operand = Box::new(planner.alloc, Step::Constant(relation))?;
    Ok(Step::Extend(operand, attributes, planner.next_slot(), values))
}

/// The plan of a relation's tuples with attributes of these types set, all at once, to what parts
/// are in each tuple.
pub(crate) fn plan_settings<B: Body>(
    alloc: Global,
    env: &Env<'_, B>,
    rel: &Rel,
    attributes: Vec<(Name, Ty)>,
    parts: &[NamedExpr],
) -> Result<Plan, AllocError>
    ensures { IfOk result (λ p. ArePlannedSettings (scope_in env.now) (plan_view p) rel.now
        (pairs_view attributes.items) (named_view parts.now)) }
{
    let mut names = Vec::new(alloc);
    for part in parts {
        add_names(alloc, env.catalog, &part.value, &mut names)?;
    }
    let planner = planner_in(alloc, env)?;
    let step = settings_step(&planner, rel, attributes, parts);
    plan_by(alloc, step, names)
}
