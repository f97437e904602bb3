//! The steps of SUMMARIZE.
ghost use Rattle.std.specs.Prelude.{◌≡◌, ◌+◌, IfOk, map, suc, true};
ghost use Rattle.td_check.specs.model.Scopes.{entered_with};
ghost use Rattle.td_eval.specs.model.AggregateValues.{summary_attributes};
ghost use Rattle.td_eval.specs.code.Totals.{asked_by};
ghost use Rattle.td_plan.specs.code.PlannedParts.{AreFoundColumns, ArePlanned, IsPlanned};
ghost use Rattle.td_plan.specs.code.PlannedParts.{in_summaries, item_tree};
ghost use Rattle.td_plan.specs.code.PlansBelow.{PlansBelow};
ghost use Rattle.td_plan.specs.code.TreeWeights.{expr_weight, item_weight, summaries_weight};
ghost use Rattle.td_tree.specs.code.TreeViews.{attributes_view, summaries_view, tree_view};
ghost use Rattle.td_tree.specs.model.Trees as trees;
ghost use Rattle.td_types.specs.model.Types.{Heading};

use crate::making::planner::{Definitions, Planner};
use crate::making::planning::{NewColumns, Planning};
use crate::plan::step::Step;
use std::alloc::{AllocError, Global};
use td_eval::operators::summaries::{asked_by, item_attributes};
use td_group::aggregates::Agg;
use td_tree::expression::{Attributes, Expr, Summary};
use td_tree::fault::Fault;
use td_types::heading::Heading;
use td_value::value::Value;

/// The aggregates that items of SUMMARIZE name, in the order written.
pub(crate) fn aggregates_of(alloc: Global, items: &[Summary]) -> Result<Vec<Agg>, AllocError>
    ensures { IfOk result (λ xs. xs.items ≡ map asked_by items.now) }
{
    let mut aggregates = Vec::with_capacity(alloc, items.len())?;
    for item in items {
        aggregates.push(asked_by(item))?;
    }
    Ok(aggregates)
}

impl<C: Definitions, F> Planning<'_, C, F>
where
    F: Fn(&Planner<'_, C>, &Expr) -> Result<Step, AllocError> + Copy,
{
    /// The step of what an item is of in a tuple.
    fn item_step(&self, item: &Summary) -> Result<Step, AllocError>
        requires { PlansBelow C.database self.now (suc (item_weight item.now)) F.pre F.post }
        ensures { IsPlanned self.now.planner.now.scope result (item_tree item.now) }
    {
        match item {
            Summary::Count(_) => Ok(Step::Constant(Value::bool(true))),
            Summary::Of(_, value, _) => self.step_of(value),
        }
    }

    /// The steps of what items are of in a tuple, in the order written.
    #[inline(never)]
    fn item_steps(&self, items: &[Summary]) -> Result<Vec<Step>, AllocError>
        requires { PlansBelow C.database self.now
            (suc (summaries_weight (summaries_view items.now))) F.pre F.post }
        ensures { ArePlanned self.now.planner.now.scope result (map item_tree items.now) }
    {
        let mut steps = Vec::with_capacity(self.planner.alloc, items.len())?;
        for item in items {
            steps.push(self.item_step(item)?)?;
        }
        Ok(steps)
    }

    /// The new attributes that items give to a group of tuples of the heading; none where these
    /// have no types.
    fn item_columns(
        &self,
        heading: &Heading,
        items: &[Summary],
    ) -> Result<Option<NewColumns>, AllocError>
        requires { PlansBelow C.database self.now
            (suc (summaries_weight (summaries_view items.now))) F.pre F.post }
        ensures { IfOk result (λ found.
            AreFoundColumns (entered_with heading.now self.now.planner.now.scope) found
            (summary_attributes (entered_with heading.now self.now.planner.now.scope)
            (summaries_view items.now)) (in_summaries (summaries_view items.now))) }
    {
        let planner = self.planner.inner_planner(heading)?;
        match item_attributes(planner.alloc, &planner.scope, items) {
            Ok(attributes) => {
                let inner = Planning {
                    planner: &planner,
                    inner: self.inner,
                };
                let values = inner.item_steps(items)?;
                Ok(Some(NewColumns { attributes, values }))
            }
            Err(Fault::Refused(_)) => Ok(None),
            Err(Fault::Memory) => Err(AllocError),
        }
    }

    /// The step of SUMMARIZE of an operand by the tuples of another relation.
    #[inline(never)]
    pub(crate) fn summarize_per_step(
        &self,
        operand: &Expr,
        per: &Expr,
        items: &[Summary],
    ) -> Result<Step, AllocError>
        requires { PlansBelow C.database self.now (suc (expr_weight operand.now
            + expr_weight per.now + summaries_weight (summaries_view items.now))) F.pre F.post }
        ensures { IsPlanned self.now.planner.now.scope result (trees.summarize_per
            (tree_view operand.now) (tree_view per.now) (summaries_view items.now)) }
    {
        let Some(heading) = self.planner.heading_of(operand)? else {
            return self.step_of(operand);
        };
        let Some(columns) = self.item_columns(&heading, items)? else {
            return self.step_of(operand);
        };
        let NewColumns { attributes, values } = columns;
        let slot = self.planner.next_slot();
        let aggregates = aggregates_of(self.planner.alloc, items)?;
        let operand = self.boxed_step(operand)?;
        let per = self.boxed_step(per)?;
        Ok(Step::SummarizePer(operand, per, attributes, aggregates, slot, values))
    }

    /// The step of SUMMARIZE of an operand by some of its attributes.
    #[inline(never)]
    pub(crate) fn summarize_by_step(
        &self,
        operand: &Expr,
        by: &Attributes,
        items: &[Summary],
    ) -> Result<Step, AllocError>
        requires { PlansBelow C.database self.now (suc (expr_weight operand.now
            + summaries_weight (summaries_view items.now))) F.pre F.post }
        ensures { IsPlanned self.now.planner.now.scope result (trees.summarize_by
            (tree_view operand.now) (attributes_view by.now) (summaries_view items.now)) }
    {
        let Some(heading) = self.planner.heading_of(operand)? else {
            return self.step_of(operand);
        };
        let Some(columns) = self.item_columns(&heading, items)? else {
            return self.step_of(operand);
        };
        let NewColumns { attributes, values } = columns;
        let slot = self.planner.next_slot();
        let aggregates = aggregates_of(self.planner.alloc, items)?;
        let by = by.try_clone()?;
        let operand = self.boxed_step(operand)?;
        Ok(Step::SummarizeBy(operand, by, attributes, aggregates, slot, values))
    }
}
