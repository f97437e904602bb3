//! The step of what stands where the values of WITH's items are in scope.
ghost use Rattle.std.specs.Prelude.{◌≡◌, ◌∷◌, ◌+◌, [], IfOk, suc};
ghost use Rattle.td_check.specs.model.Scopes.{Scope};
ghost use Rattle.td_plan.specs.code.PlannedParts.{IsPlanned};
ghost use Rattle.td_plan.specs.code.Planners.{IsPlanner};
ghost use Rattle.td_plan.specs.code.PlansBelow.{PlansBelow};
ghost use Rattle.td_plan.specs.code.TreeWeights.{expr_weight, named_weight};
ghost use Rattle.td_tree.specs.code.TreeViews.{named_view, tree_view};
ghost use Rattle.td_tree.specs.model.Trees as trees;
ghost use Rattle.td_tree.specs.model.Trees.{Tree};

use crate::making::planner::{Definitions, Planner};
use crate::making::planning::Planning;
use crate::plan::step::{Selector, Step};
use std::alloc::{AllocError, Global};
use td_tree::expression::{Expr, NamedExpr};
use td_tree::name::Name;

/// A list that has one element.
fn list_of_one<T: Drop>(alloc: Global, element: T) -> Result<Vec<T>, AllocError>
    ensures { IfOk result (λ list. list.items ≡ element ∷ []) }
{
    let mut list = Vec::with_capacity(alloc, 1)?;
    list.push(element)?;
    Ok(list)
}

/// The step of the tuple that has an item's value by its name.
#[inline(never)]
fn item_step(
    alloc: Global,
    name: &Name,
    value: Result<Step, AllocError>,
) -> Result<Step, AllocError>
    ensures { (scope : Scope) (e : Tree) → IsPlanned scope value e
        → IsPlanned scope result (trees.tuple (trees.more_named name.now e trees.none_named)) }
{
    let value = value?;
    let names = list_of_one(alloc, name.try_clone()?)?;
    let values = list_of_one(alloc, value)?;
    Ok(Step::Select(Selector::Tuple(names), values))
}

impl<C: Definitions, F> Planning<'_, C, F>
where
    F: Fn(&Planner<'_, C>, &Expr) -> Result<Step, AllocError> + Copy,
{
    /// The step of a part where the tuples that a planner knows are in scope.
    fn step_there(&self, planner: &Planner<'_, C>, expr: &Expr) -> Result<Step, AllocError>
        requires below { PlansBelow C.database self.now (suc (expr_weight expr.now)) F.pre F.post }
        requires planner { IsPlanner C.database planner.now }
        ensures { IsPlanned planner.now.scope result (tree_view expr.now) }
    {
        (self.inner)(planner, expr)
    }

    /// The step of what stands where the values of items are in scope, each in a slot of its own.
    #[inline(never)]
    pub(crate) fn bound_step(&self, items: &[NamedExpr], value: &Expr) -> Result<Step, AllocError>
        requires { PlansBelow C.database self.now
            (suc (named_weight (named_view items.now) + expr_weight value.now)) F.pre F.post }
        ensures { IsPlanned self.now.planner.now.scope result
            (trees.binding (named_view items.now) (tree_view value.now)) }
    {
        let alloc = self.planner.alloc;
        let slot = self.planner.next_slot();
        let mut inner = self.planner.again()?;
        let mut steps = Vec::with_capacity(alloc, items.len())?;
        for item in items {
            let Some(ty) = inner.type_of(&item.value)? else {
                return self.step_of(value);
            };
            let step = self.step_there(&inner, &item.value);
            steps.push(item_step(alloc, &item.name, step)?)?;
            inner.bind(&item.name, ty)?;
        }
        let value = self.step_there(&inner, value)?;
        Ok(Step::Bound {
            slot,
            reach: slot,
            items: steps,
            value: Box::new(alloc, value)?,
        })
    }
}
