//! The values of steps that choose, or that go over the tuples of an operand. The operand is
//! evaluated first.
ghost use Rattle.std.specs.Prelude.{◌≡◌, max, suc};
ghost use Rattle.std.specs.List.{zip};
ghost use Rattle.td_plan.specs.code.Plans.{aggregate, choice, dyadic, extend, measure, monadic};
ghost use Rattle.td_plan.specs.code.Plans.{restriction, summarize_by, summarize_per, summary_of};
ghost use Rattle.td_plan.specs.code.Evaluators.{IsReadyAt, KeepsFor, Runs, RunsBelow, SoundFor};
ghost use Rattle.td_plan.specs.code.Evaluators.{SoundForAll, SoundForBoth, SoundForOneAndAll};
ghost use Rattle.td_plan.specs.code.Evaluators.{height_over, height_over_all, height_over_both};
ghost use Rattle.td_plan.specs.code.Evaluators.{height_over_one_and_all};
ghost use Rattle.td_plan.specs.code.Memos.{AreSound, IsSound};
ghost use Rattle.td_plan.specs.code.Runs.{values_in};
ghost use Rattle.td_plan.specs.code.StepHeights.{step_height, steps_height};
ghost use Rattle.td_plan.specs.code.StepViews.{dyadic_view, step_view, steps_view};
ghost use Rattle.td_eval.specs.model.OperatorValues.{measure_value};
ghost use Rattle.td_tree.specs.model.Outcomes.{Answers, Outcome, with_value};
ghost use Rattle.td_value.specs.model.Values.{Val};
ghost use Rattle.td_tree.specs.code.TreeViews.{attributes_view};
ghost use Rattle.td_types.specs.code.Views.{pairs_view};

use crate::plan::step::{Dyadic, Step};
use crate::running::counted::{number_measured, truths_measured};
use crate::running::evaluator::{Evaluator, InWorld};
use crate::running::extended::set_by;
use crate::running::hand::{Hand, entered};
use crate::running::items::item_count;
use crate::running::memo::Memo;
use crate::running::operators::value_of_dyadic;
use td_eval::operators::aggregates::value_of_aggregate;
use td_eval::operators::operand::measure_value;
use td_eval::operators::postfix::projected_by;
use td_eval::operators::relational::relations;
use td_eval::operators::requirements::relation_in;
use td_eval::operators::summaries::{groups_by_per, summary_by};
use td_eval::operators::tuplewise::restriction_value;
use td_eval::rows::truth_of;
use td_group::aggregates::Agg;
use td_tree::cause::Cause;
use td_tree::expression::Attributes;
use td_tree::fault::Fault;
use td_tree::gathering::both;
use td_tree::name::Name;
use td_tree::operator::{Aggregate, Measure};
use td_types::ty::Ty;
use td_value::value::Value;

impl<A: InWorld, F> Evaluator<'_, A, F>
where
    F: Fn(&A, &mut Memo, &Hand<'_, '_>, &Step) -> Result<Value, Fault>,
{
    /// The value of an operator between two operands. The second is not evaluated where the value
    /// is found by a key of it.
    #[inline(never)]
    pub(crate) fn dyadic(
        &self,
        memo: &mut Memo,
        hand: &Hand<'_, '_>,
        left: &Step,
        op: Dyadic,
        right: &Step,
    ) -> Result<Value, Fault>
        requires below { RunsBelow A.world self.now F.pre F.post (height_over_both left.now
            right.now) }
        requires ready { IsReadyAt A.world self.now hand.now memo.old (SoundForBoth left.now
            right.now) }
        ensures { Runs A.world self.now hand.now memo.old memo.new (SoundForBoth left.now
            right.now) result
            (dyadic (step_view left.now) (dyadic_view op) (step_view right.now)) }
    {
        let first = self.run(memo, hand, left);
        if let Ok(value) = &first {
            if let Some(found) = self.around.value_by_key(value, op, right)? {
                return Ok(found);
            }
        }
        let second = self.run(memo, hand, right);
        value_of_dyadic(self.alloc, op, first, second)
    }

    /// The value of the one of two steps that a condition chooses.
    #[inline(never)]
    pub(crate) fn choice(
        &self,
        memo: &mut Memo,
        hand: &Hand<'_, '_>,
        condition: &Step,
        consequent: &Step,
        alternative: &Step,
    ) -> Result<Value, Fault>
        requires below { RunsBelow A.world self.now F.pre F.post (suc (max (step_height
            condition.now)
            (max (step_height consequent.now) (step_height alternative.now)))) }
        requires ready { IsReadyAt A.world self.now hand.now memo.old (λ ps. IsSound ps
            condition.now
            × IsSound ps consequent.now × IsSound ps alternative.now) }
        ensures { Runs A.world self.now hand.now memo.old memo.new (λ ps. IsSound ps condition.now
            × IsSound ps consequent.now × IsSound ps alternative.now) result (choice (step_view
            condition.now) (step_view consequent.now) (step_view alternative.now)) }
    {
        if truth_of(self.run(memo, hand, condition))? {
            self.run(memo, hand, consequent)
        } else {
            self.run(memo, hand, alternative)
        }
    }

    /// The tuples of an operand for which a condition is TRUE.
    #[inline(never)]
    pub(crate) fn restriction(
        &self,
        memo: &mut Memo,
        hand: &Hand<'_, '_>,
        operand: &Step,
        slot: usize,
        condition: &Step,
    ) -> Result<Value, Fault>
        requires below { RunsBelow A.world self.now F.pre F.post (height_over_both operand.now
            condition.now) }
        requires ready { IsReadyAt A.world self.now hand.now memo.old (SoundForBoth operand.now
            condition.now) }
        ensures { Runs A.world self.now hand.now memo.old memo.new (SoundForBoth operand.now
            condition.now)
            result (restriction (step_view operand.now) slot (step_view condition.now)) }
    {
        let operand = self.run(memo, hand, operand)?;
        let rel = relation_in(&operand)?;
        let inside = entered(self.alloc, memo, hand, slot)?;
        let truths = self.truths(memo, &inside, rel.rows(), condition);
        restriction_value(self.alloc, rel, truths)
    }

    /// COUNT or IS_EMPTY of the tuples of an operand for which a condition is TRUE.
    #[inline(never)]
    fn restriction_measured(
        &self,
        memo: &mut Memo,
        hand: &Hand<'_, '_>,
        op: Measure,
        operand: &Step,
        slot: usize,
        condition: &Step,
    ) -> Result<Value, Fault>
        requires below { RunsBelow A.world self.now F.pre F.post (height_over_both operand.now
            condition.now) }
        requires ready { IsReadyAt A.world self.now hand.now memo.old (SoundForBoth operand.now
            condition.now) }
        ensures { Runs A.world self.now hand.now memo.old memo.new (SoundForBoth operand.now
            condition.now)
            result (monadic (measure op) (restriction (step_view operand.now) slot (step_view
            condition.now))) }
    {
        let operand = self.run(memo, hand, operand)?;
        let rel = relation_in(&operand)?;
        let inside = entered(self.alloc, memo, hand, slot)?;
        truths_measured(op, self.truths(memo, &inside, rel.rows(), condition))
    }

    /// The value of COUNT or IS_EMPTY of an operand. The tuples of a restriction are only
    /// counted, and those of a relvar are counted already.
    #[inline(never)]
    pub(crate) fn measure(
        &self,
        memo: &mut Memo,
        hand: &Hand<'_, '_>,
        op: Measure,
        operand: &Step,
    ) -> Result<Value, Fault>
        requires below { RunsBelow A.world self.now F.pre F.post (height_over operand.now) }
        requires ready { IsReadyAt A.world self.now hand.now memo.old (SoundFor operand.now) }
        ensures { Runs A.world self.now hand.now memo.old memo.new (SoundFor operand.now) result
            (monadic (measure op) (step_view operand.now)) }
    {
        match operand {
            Step::Restriction(operand, slot, condition, _) => {
                self.restriction_measured(memo, hand, op, operand, *slot, condition)
            }
            _ => match self.around.tuple_count(operand) {
                Some(count) => number_measured(op, count),
                None => value_of_measure(op, self.run(memo, hand, operand)),
            },
        }
    }

    /// An aggregate over the tuples of an operand.
    #[inline(never)]
    pub(crate) fn aggregation(
        &self,
        memo: &mut Memo,
        hand: &Hand<'_, '_>,
        op: Aggregate,
        operand: &Step,
        slot: usize,
        value: &Step,
    ) -> Result<Value, Fault>
        requires below { RunsBelow A.world self.now F.pre F.post (height_over_both operand.now
            value.now) }
        requires ready { IsReadyAt A.world self.now hand.now memo.old (SoundForBoth operand.now
            value.now) }
        ensures { Runs A.world self.now hand.now memo.old memo.new (SoundForBoth operand.now
            value.now)
            result (aggregate op (step_view operand.now) slot (step_view value.now)) }
    {
        let operand = self.run(memo, hand, operand)?;
        let rel = relation_in(&operand)?;
        let inside = entered(self.alloc, memo, hand, slot)?;
        value_of_aggregate(
            op,
            self.values_in_rows(memo, &inside, rel.rows(), None, value),
        )
    }

    /// The tuples of an operand with attributes set, each there before or new.
    #[inline(never)]
    pub(crate) fn extension(
        &self,
        memo: &mut Memo,
        hand: &Hand<'_, '_>,
        operand: &Step,
        attributes: &[(Name, Ty)],
        slot: usize,
        values: &[Step],
    ) -> Result<Value, Fault>
        requires below { RunsBelow A.world self.now F.pre F.post (height_over_one_and_all
            operand.now values.now) }
        requires ready { IsReadyAt A.world self.now hand.now memo.old (SoundForOneAndAll
            operand.now values.now) }
        ensures { Runs A.world self.now hand.now memo.old memo.new (SoundForOneAndAll operand.now
            values.now)
            result (extend (step_view operand.now) (pairs_view attributes.now) slot (steps_view
            values.now)) }
    {
        let operand = self.run(memo, hand, operand)?;
        let rel = relation_in(&operand)?;
        if attributes.len() != values.len() {
            return Err(Fault::Refused(Cause::Heading));
        }
        let inside = entered(self.alloc, memo, hand, slot)?;
        let columns = self.columns(memo, &inside, rel.rows(), attributes, values);
        set_by(self.alloc, rel, attributes, columns)
    }

    // ---- SUMMARIZE

    /// The tuples of PER with what the items give of their groups.
    #[inline(never)]
    fn summary(
        &self,
        memo: &mut Memo,
        hand: &Hand<'_, '_>,
        operand: &Value,
        per: &Value,
        items: &Summands<'_>,
    ) -> Result<Value, Fault>
        requires below { RunsBelow A.world self.now F.pre F.post (height_over_all
            items.now.values.now) }
        requires ready { IsReadyAt A.world self.now hand.now memo.old (SoundForAll
            items.now.values.now) }
        ensures { KeepsFor A.world self.now hand.now memo.old memo.new (SoundForAll
            items.now.values.now) (λ w s. Answers (λ v. v) result (summary_of (pairs_view
            items.now.attributes.now) (zip items.now.aggregates.now (values_in w s items.now.slot
            items.now.values.now)) operand.now per.now)) }
    {
        if items.attributes.len() != item_count(items.aggregates, items.values) {
            return Err(Fault::Refused(Cause::Heading));
        }
        let (rel, per) = relations(operand, per)?;
        let groups = groups_by_per(self.alloc, rel, per)?;
        let inside = entered(self.alloc, memo, hand, items.slot)?;
        let totals = self.totals(memo, &inside, &groups, items.aggregates, items.values)?;
        summary_by(self.alloc, per, items.attributes, &totals)
    }

    /// The value of SUMMARIZE PER.
    #[inline(never)]
    pub(crate) fn summary_per(
        &self,
        memo: &mut Memo,
        hand: &Hand<'_, '_>,
        operand: &Step,
        per: &Step,
        items: &Summands<'_>,
    ) -> Result<Value, Fault>
        requires below { RunsBelow A.world self.now F.pre F.post (suc (max (max (step_height
            operand.now) (step_height per.now)) (steps_height items.now.values.now))) }
        requires ready { IsReadyAt A.world self.now hand.now memo.old (λ ps. IsSound ps operand.now
            × IsSound ps per.now × AreSound ps items.now.values.now) }
        ensures { Runs A.world self.now hand.now memo.old memo.new (λ ps. IsSound ps operand.now
            × IsSound ps per.now × AreSound ps items.now.values.now) result (summarize_per
            (step_view operand.now) (step_view per.now) (pairs_view items.now.attributes.now)
            items.now.aggregates.now items.now.slot (steps_view items.now.values.now)) }
    {
        let operand = self.run(memo, hand, operand);
        let per = self.run(memo, hand, per);
        let (operand, per) = both(operand, per)?;
        self.summary(memo, hand, &operand, &per, items)
    }

    /// The value of SUMMARIZE BY, which is per the operand's projection.
    #[inline(never)]
    pub(crate) fn summary_by(
        &self,
        memo: &mut Memo,
        hand: &Hand<'_, '_>,
        operand: &Step,
        by: &Attributes,
        items: &Summands<'_>,
    ) -> Result<Value, Fault>
        requires below { RunsBelow A.world self.now F.pre F.post (height_over_one_and_all
            operand.now
            items.now.values.now) }
        requires ready { IsReadyAt A.world self.now hand.now memo.old (SoundForOneAndAll operand.now
            items.now.values.now) }
        ensures { Runs A.world self.now hand.now memo.old memo.new (SoundForOneAndAll operand.now
            items.now.values.now) result (summarize_by (step_view operand.now) (attributes_view
            by.now) (pairs_view items.now.attributes.now) items.now.aggregates.now items.now.slot
            (steps_view items.now.values.now)) }
    {
        let operand = self.run(memo, hand, operand)?;
        let per = projected_by(self.alloc, &operand, by)?;
        self.summary(memo, hand, &operand, &per, items)
    }
}

/// The value of COUNT or IS_EMPTY of what was answered.
fn value_of_measure(op: Measure, operand: Result<Value, Fault>) -> Result<Value, Fault>
    ensures { (o : Outcome Val) → Answers (λ v. v) operand o
        → Answers (λ v. v) result (with_value o (measure_value op)) }
{
    measure_value(op, &operand?)
}

/// The new attributes of SUMMARIZE: their aggregates, the slot of the tuples of groups, and the
/// steps of what the aggregates are of.
#[derive(Drop)]
pub(crate) struct Summands<'s> {
    attributes: &'s [(Name, Ty)],
    aggregates: &'s [Agg],
    slot: usize,
    values: &'s [Step],
}

impl<'s> Summands<'s> {
    /// The items of SUMMARIZE, of their parts.
    #[inline]
    pub(crate) fn new(
        attributes: &'s [(Name, Ty)],
        aggregates: &'s [Agg],
        slot: usize,
        values: &'s [Step],
    ) -> Self
        ensures attributes { result.attributes.now ≡ attributes.now }
        ensures aggregates { result.aggregates.now ≡ aggregates.now }
        ensures slot { result.slot ≡ slot }
        ensures values { result.values.now ≡ values.now }
    {
        Summands {
            attributes,
            aggregates,
            slot,
            values,
        }
    }
}
