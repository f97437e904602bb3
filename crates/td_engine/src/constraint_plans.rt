//! Plans of constraints, which are kept from one check to the next.
ghost use Rattle.std.specs.Prelude.{◌≡◌, ◌<◌, Some, length};
ghost use Rattle.std.specs.List.{slice_get, slice_set};
ghost use Rattle.td_catalog.specs.model.Database.{Database, NamedConstraint};
ghost use Rattle.td_engine.specs.code.ConstraintPlans.{AreKeptPlans, IsKeptPlan};

use crate::evaluation::env_with;
use crate::refusal::Failure;
use std::alloc::{AllocError, Global};
use td_body::body::Body;
use td_catalog::catalog::Catalog;
use td_catalog::defining::DefiningExpression;
use td_plan::making::plans::plan;
use td_plan::plan::Plan;

/// The plan that is kept at a place, if one is.
pub(crate) fn plan_at(plans: &[Option<Plan>], place: usize) -> Option<&Plan>
    ensures { (db : Database) (c : NamedConstraint) → AreKeptPlans db plans.now
        → slice_get db.constraints place ≡ Some c → IsKeptPlan db c.tree result }
{
    match plans.get(place) {
        Some(Some(plan)) => Some(plan),
        _ => None,
    }
}

/// Keeps none any longer. It takes no memory.
pub(crate) fn forget(plans: &mut Vec<Option<Plan>>)
    ensures { (db : Database) → AreKeptPlans db plans.new.items }
{
    plans.clear();
}

/// The same once a definition or a drop was done.
pub(crate) fn forgotten(
    plans: &mut Vec<Option<Plan>>,
    done: Result<(), Failure>,
) -> Result<(), Failure>
    ensures done { result ≡ done }
    ensures plans { (db : Database) → AreKeptPlans db plans.new.items }
{
    forget(plans);
    done
}

/// Puts a plan at a place that there is.
fn set(plans: &mut Vec<Option<Plan>>, place: usize, plan: Option<Plan>)
    requires { place < length plans.old.items }
    ensures { plans.new.items ≡ slice_set plans.old.items place plan }
{
    plans[place] = plan;
}

/// Makes and keeps the plan of the constraint at a place, if none is kept there.
pub(crate) fn keep_plan<B: Body>(
    alloc: Global,
    catalog: &Catalog<B>,
    plans: &mut Vec<Option<Plan>>,
    place: usize,
    condition: &DefiningExpression,
) -> Result<(), AllocError>
    requires { (c : NamedConstraint) → slice_get catalog.now.database.constraints place ≡ Some c
        → c.tree ≡ condition.now }
    ensures { AreKeptPlans catalog.now.database plans.old.items
        → AreKeptPlans catalog.now.database plans.new.items }
{
    if plan_at(plans, place).is_some() {
        return Ok(());
    }
    let made = plan(alloc, &env_with(catalog, None), condition.tree())?;
    while plans.len() <= place {
        plans.push(None)?;
    }
    set(plans, place, Some(made));
    Ok(())
}
