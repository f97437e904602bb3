//! The values of expressions, by plans that are made of them and run.
ghost use Rattle.std.specs.Prelude.{◌≡◌, IfSome, IsTrue, length};
ghost use Rattle.td_eval.specs.model.OperatorValues.{of_relation, set_value};
ghost use Rattle.td_eval.specs.code.LentWorlds.{tuples_in_hand, world_in};
ghost use Rattle.td_eval.specs.model.TreeValues.{value_of, values_in_tuples};
ghost use Rattle.td_plan.specs.code.PlansOf.{IsPlanIfTyped, MeetsRules, PartsMeetRulesIn, scope_in};
ghost use Rattle.td_plan.specs.code.PlanViews.{plan_view};
ghost use Rattle.td_tree.specs.model.Outcomes.{Answers, Outcome, with_value};
ghost use Rattle.td_tree.specs.code.TreeViews.{named_view, tree_view};
ghost use Rattle.td_tree.specs.model.Trees.{name, restriction};
ghost use Rattle.td_tree.specs.model.WrittenTrees.{PartsGiveNames, PartsHaveTexts};
ghost use Rattle.td_types.specs.model.Headings.{are_distinct};
ghost use Rattle.td_types.specs.model.Types.{attribute_names};
ghost use Rattle.td_types.specs.code.Views.{pairs_view};
ghost use Rattle.td_value.specs.model.Values.{Relation};

use crate::making::closed::is_closed;
use crate::making::plans::{plan, plan_in_relvar, plan_settings};
use crate::plan::Plan;
use crate::running::run_plan::run_valued;
use std::alloc::Global;
use td_body::body::Body;
use td_eval::env::Env;
use td_eval::operators::requirements::relation_in;
use td_eval::value::eval;
use td_tree::expression::{Expr, NamedExpr};
use td_tree::fault::Fault;
use td_tree::name::Name;
use td_types::ty::Ty;
use td_value::relation::Rel;
use td_value::value::Value;

/// The value of the expression, or the least of the causes for which it has none. Each virtual
/// relvar that it may need is evaluated once. Literals alone need no plan.
pub fn value_in<B: Body>(alloc: Global, env: &Env<'_, B>, expr: &Expr) -> Result<Value, Fault>
    ensures { MeetsRules (world_in env.now) (scope_in env.now) (tuples_in_hand env.now)
        (tree_view expr.now) → Answers (λ v. v) result
        (value_of (world_in env.now) (tuples_in_hand env.now) (tree_view expr.now)) }
{
    if is_closed(expr) {
        return eval(alloc, env, expr);
    }
    let plan = plan(alloc, env, expr)?;
    run_valued(alloc, env, &plan)
}

/// The same by a plan of the expression, if there is one.
pub fn value_by<B: Body>(
    alloc: Global,
    env: &Env<'_, B>,
    plan: Option<&Plan>,
    expr: &Expr,
) -> Result<Value, Fault>
    requires { IfSome plan (λ p. IsPlanIfTyped (scope_in env.now) (plan_view p.now)
        (tree_view expr.now)) }
    ensures { MeetsRules (world_in env.now) (scope_in env.now) (tuples_in_hand env.now)
        (tree_view expr.now) → Answers (λ v. v) result
        (value_of (world_in env.now) (tuples_in_hand env.now) (tree_view expr.now)) }
{
    match plan {
        Some(plan) => run_valued(alloc, env, plan),
        None => value_in(alloc, env, expr),
    }
}

/// The tuples of the relvar for which the condition is TRUE, or the least of the causes for which
/// there are none. Where the condition fixes a key of a base relvar, and no other relation stands
/// in its place, they are looked up by it.
pub fn tuples_where<B: Body>(
    alloc: Global,
    env: &Env<'_, B>,
    relvar: &Name,
    condition: &Expr,
) -> Result<Value, Fault>
    ensures { MeetsRules (world_in env.now) (scope_in env.now) (tuples_in_hand env.now)
        (restriction (name relvar.now) (tree_view condition.now)) → Answers (λ v. v) result
        (value_of (world_in env.now) (tuples_in_hand env.now)
        (restriction (name relvar.now) (tree_view condition.now))) }
{
    condition.reveal();
    let plan = plan_in_relvar(alloc, env, relvar, condition)?;
    run_valued(alloc, env, &plan)
}

/// The relation that was answered.
fn relation_of(answer: Result<Value, Fault>) -> Result<Rel, Fault>
    ensures { (o : Outcome Relation) → Answers (λ v. v) answer (with_value o of_relation)
        → Answers (λ r. r) result o }
{
    let value = answer?;
    Ok(relation_in(&value)?.try_clone()?)
}

/// What holds of all parts: they are written as tokens spell them.
fn reveal_parts(parts: &[NamedExpr])
    ensures names { PartsGiveNames (named_view parts.now) }
    ensures texts { PartsHaveTexts (named_view parts.now) }
{
    for part in parts {
        part.name.reveal();
        part.value.reveal();
    }
}

/// The relation with the attributes of each tuple set, all at once, to the values of the parts
/// there, which are of the attributes' types.
pub fn set_in_tuples<B: Body>(
    alloc: Global,
    env: &Env<'_, B>,
    rel: &Rel,
    attributes: Vec<(Name, Ty)>,
    parts: &[NamedExpr],
) -> Result<Rel, Fault>
    requires lengths { length attributes.items ≡ length parts.now }
    requires distinct { IsTrue (are_distinct (attribute_names (pairs_view attributes.items))) }
    ensures { PartsMeetRulesIn (world_in env.now) (scope_in env.now) (tuples_in_hand env.now)
        rel.now (named_view parts.now) → Answers (λ r. r) result (set_value
        (pairs_view attributes.items) (values_in_tuples (world_in env.now)
        (tuples_in_hand env.now) (named_view parts.now)) rel.now) }
{
    reveal_parts(parts);
    let plan = plan_settings(alloc, env, rel, attributes, parts)?;
    relation_of(run_valued(alloc, env, &plan))
}
