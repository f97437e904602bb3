//! The values of expressions by their plans.
ghost use Rattle.std.specs.Prelude.{◌≡◌, IfOk};
ghost use Rattle.td_eval.specs.code.LentWorlds.{tuples_in_hand, world_in};
ghost use Rattle.td_plan.specs.code.Hands.{IsPlanWorld, slots_in, slots_lent, world_around};
ghost use Rattle.td_plan.specs.code.PlanViews.{plan_view};
ghost use Rattle.td_plan.specs.code.Runs.{AnswersPlan};

use crate::plan::Plan;
use crate::running::hand::hand_of;
use crate::running::memo::new_memo;
use crate::running::plan_world::PlanWorld;
use crate::running::run::run;
use crate::running::virtuals::virtual_relvars;
use std::alloc::{AllocError, Global};
use td_body::body::Body;
use td_eval::env::Env;
use td_tree::fault::Fault;
use td_value::tuple::Tuple;
use td_value::value::Value;

/// The tuples, each in the slot of its place.
fn tuples_in_slots(alloc: Global, tuples: &[&Tuple]) -> Result<Vec<Option<Tuple>>, AllocError>
    ensures { IfOk result (λ rows. slots_in rows.items ≡ slots_lent tuples.now) }
{
    let mut rows = Vec::with_capacity(alloc, tuples.len())?;
    for tuple in tuples {
        rows.push(Some(tuple.try_clone()?))?;
    }
    Ok(rows)
}

/// What the plan is for, with the virtual relvars that have been evaluated.
pub(crate) fn run_plan_in<B: Body>(
    around: &PlanWorld<'_, '_, '_, B>,
    plan: &Plan,
) -> Result<Value, Fault>
    requires { IsPlanWorld around.now }
    ensures { AnswersPlan (world_around around.now) (tuples_in_hand around.now.env.now)
        (plan_view plan.now) result }
{
    let rows = tuples_in_slots(around.alloc, around.env.tuples)?;
    let mut memo = new_memo(around.alloc, plan.places)?;
    run(around, &mut memo, &hand_of(&rows), &plan.step)
}

/// What the plan is for: of a plan of an expression, the expression's value, or the least of the
/// causes for which it has none. A virtual relvar is evaluated where the plan names it.
pub fn run_plan<B: Body>(alloc: Global, env: &Env<'_, B>, plan: &Plan) -> Result<Value, Fault>
    ensures { AnswersPlan (world_in env.now) (tuples_in_hand env.now) (plan_view plan.now) result }
{
    let around = PlanWorld {
        alloc,
        env,
        valued: &[],
    };
    run_plan_in(&around, plan)
}

/// The same where each virtual relvar that the plan may need is evaluated once, before.
pub(crate) fn run_valued<B: Body>(
    alloc: Global,
    env: &Env<'_, B>,
    plan: &Plan,
) -> Result<Value, Fault>
    ensures { AnswersPlan (world_in env.now) (tuples_in_hand env.now) (plan_view plan.now) result }
{
    let valued = virtual_relvars(alloc, env, &plan.names)?;
    let around = PlanWorld {
        alloc,
        env,
        valued: &valued,
    };
    run_plan_in(&around, plan)
}
