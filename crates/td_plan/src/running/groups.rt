//! What aggregates are of in the tuples of groups.
ghost use Rattle.std.specs.Prelude.{map};
ghost use Rattle.std.specs.List.{zip};
ghost use Rattle.td_eval.specs.code.Totals.{total_of, total_view};
ghost use Rattle.td_plan.specs.code.Evaluators.{IsReadyInside, KeepsInside, RunsBelow, SoundFor};
ghost use Rattle.td_plan.specs.code.Evaluators.{SoundForAll, height_over, height_over_all};
ghost use Rattle.td_plan.specs.code.Runs.{value_in, values_in};
ghost use Rattle.td_tree.specs.model.Outcomes.{Answers, gathered};

use crate::plan::step::Step;
use crate::running::evaluator::{Evaluator, InWorld};
use crate::running::hand::{Hand, Inside};
use crate::running::items::{aggregate_at, item_count, with_aggregate};
use crate::running::memo::Memo;
use td_group::aggregates::Agg;
use td_tree::fault::Fault;
use td_tree::gathering::Gathering;
use td_value::relation::Rel;
use td_value::tuple::Tuple;
use td_value::value::Value;

impl<A: InWorld, F> Evaluator<'_, A, F>
where
    F: Fn(&A, &mut Memo, &Hand<'_, '_>, &Step) -> Result<Value, Fault>,
{
    /// The values of a step in the tuples of each group.
    #[inline(never)]
    fn values_in_groups(
        &self,
        memo: &mut Memo,
        inside: &Inside,
        groups: &[(Tuple, Rel)],
        step: &Step,
    ) -> Result<Vec<Vec<Value>>, Fault>
        requires below { RunsBelow A.world self.now F.pre F.post (height_over step.now) }
        requires ready { IsReadyInside A.world self.now inside.now memo.old (SoundFor step.now) }
        ensures { KeepsInside A.world self.now inside.now memo.old memo.new (SoundFor step.now)
            (λ w s k. Answers (λ vss. map (λ vs. vs.items) vss.items) result (gathered (map
            (λ g. gathered (map (value_in w s k step.now) g.1.body)) groups.now))) }
    {
        let mut causes = Gathering::new();
        let mut values = Vec::with_capacity(self.alloc, groups.len())?;
        for (_, group) in groups {
            let found = self.values_in_rows(memo, inside, group.rows(), None, step);
            causes.collect(&mut values, found)?;
        }
        causes.finish(values)
    }

    /// What each aggregate is of in the groups, by the step beside it.
    #[inline(never)]
    pub(crate) fn totals(
        &self,
        memo: &mut Memo,
        inside: &Inside,
        groups: &[(Tuple, Rel)],
        aggregates: &[Agg],
        steps: &[Step],
    ) -> Result<Vec<(Agg, Vec<Vec<Value>>)>, Fault>
        requires below { RunsBelow A.world self.now F.pre F.post (height_over_all steps.now) }
        requires ready { IsReadyInside A.world self.now inside.now memo.old (SoundForAll steps.now) }
        ensures { KeepsInside A.world self.now inside.now memo.old memo.new (SoundForAll steps.now)
            (λ w s k. Answers (λ ts. map total_view ts.items) result (gathered (map (total_of
            groups.now) (zip aggregates.now (values_in w s k steps.now))))) }
    {
        let mut causes = Gathering::new();
        let count = item_count(aggregates, steps);
        let mut totals = Vec::with_capacity(self.alloc, count)?;
        for place in 0..count {
            let asked = aggregate_at(aggregates, place);
            let values = self.values_in_groups(memo, inside, groups, &steps[place]);
            causes.collect(&mut totals, with_aggregate(asked, values))?;
        }
        causes.finish(totals)
    }
}
