//! What plans give in each tuple of a relation.
ghost use Rattle.std.specs.Prelude.{◌≡◌, length};
ghost use Rattle.td_algebra.specs.code.Columns.{columns_view};
ghost use Rattle.td_eval.specs.code.NewColumns.{named_columns};
ghost use Rattle.td_eval.specs.model.OperatorValues.{truth_value};
ghost use Rattle.td_plan.specs.code.Evaluators.{IsReadyAt, IsReadyInside, KeepsFor, KeepsInside};
ghost use Rattle.td_plan.specs.code.Evaluators.{Runs, RunsBelow, SoundFor, SoundForAll};
ghost use Rattle.td_plan.specs.code.Evaluators.{height_over, height_over_all};
ghost use Rattle.td_plan.specs.code.Runs.{all_of_type, of_type_asked, step_value, truths_in};
ghost use Rattle.td_plan.specs.code.Runs.{type_asked, value_in, values_in};
ghost use Rattle.td_plan.specs.code.StepViews.{step_view};
ghost use Rattle.td_tree.specs.model.Outcomes.{Answers, Outcome, gathered};
ghost use Rattle.td_types.specs.code.Views.{pairs_view};
ghost use Rattle.td_value.specs.model.Values.{Val};

use crate::plan::step::Step;
use crate::running::evaluator::{Evaluator, InWorld};
use crate::running::hand::{Batch, Hand, Inside, hand_inside};
use crate::running::memo::{Memo, forget};
use crate::running::quick::{quick_number, quick_truth};
use crate::running::quick_rows::{FEWEST, quick_truths};
use td_algebra::extension::Column;
use td_eval::rows::{named_column, truth_of, value_of_its_type};
use td_tree::fault::Fault;
use td_tree::gathering::Gathering;
use td_tree::name::Name;
use td_types::ty::Ty;
use td_value::tuple::Tuple;
use td_value::value::Value;

/// What was answered, where it is of the type, if one is given.
#[inline]
fn of_type_asked(ty: Option<&Ty>, answer: Result<Value, Fault>) -> Result<Value, Fault>
    ensures { (o : Outcome Val) → Answers (λ v. v) answer o
        → Answers (λ v. v) result (of_type_asked (type_asked ty.entry) o) }
{
    match ty {
        Some(ty) => value_of_its_type(ty, answer),
        None => answer,
    }
}

impl<A: InWorld, F> Evaluator<'_, A, F>
where
    F: Fn(&A, &mut Memo, &Hand<'_, '_>, &Step) -> Result<Value, Fault>,
{
    /// The value of a step in a tuple. A number is looked for without causes first.
    #[inline]
    fn value_with(&self, memo: &mut Memo, hand: &Hand<'_, '_>, step: &Step) -> Result<Value, Fault>
        requires below { RunsBelow A.world self.now F.pre F.post (height_over step.now) }
        requires ready { IsReadyAt A.world self.now hand.now memo.old (SoundFor step.now) }
        ensures { Runs A.world self.now hand.now memo.old memo.new (SoundFor step.now) result
            (step_view step.now) }
    {
        match quick_number(memo, hand, step) {
            Some(z) => Ok(Value::int(z)),
            None => self.run(memo, hand, step),
        }
    }

    /// The truth value of a condition in a tuple. It is looked for without causes first.
    #[inline]
    fn truth_with(
        &self,
        memo: &mut Memo,
        hand: &Hand<'_, '_>,
        condition: &Step,
    ) -> Result<bool, Fault>
        requires below { RunsBelow A.world self.now F.pre F.post (height_over condition.now) }
        requires ready { IsReadyAt A.world self.now hand.now memo.old (SoundFor condition.now) }
        ensures { KeepsFor A.world self.now hand.now memo.old memo.new (SoundFor condition.now)
            (λ w s. Answers (λ b. b) result (truth_value (step_value w s condition.now))) }
    {
        match quick_truth(memo, hand, condition) {
            Some(truth) => Ok(truth),
            None => truth_of(self.run(memo, hand, condition)),
        }
    }

    /// The value of a step in a tuple of a loop. What is kept and names that tuple is forgotten.
    #[inline]
    fn value_in_row(
        &self,
        memo: &mut Memo,
        inside: &Inside,
        row: &Tuple,
        step: &Step,
    ) -> Result<Value, Fault>
        requires below { RunsBelow A.world self.now F.pre F.post (height_over step.now) }
        requires ready { IsReadyInside A.world self.now inside.now memo.old (SoundFor step.now) }
        ensures { KeepsInside A.world self.now inside.now memo.old memo.new (SoundFor step.now)
            (λ w s k. Answers (λ v. v) result (value_in w s k step.now row.now)) }
    {
        let hand = hand_inside(inside, row);
        let value = self.value_with(memo, &hand, step);
        forget(memo, inside.slot);
        value
    }

    /// The truth value of a condition in a tuple of a loop. What is kept and names that tuple is
    /// forgotten.
    #[inline]
    fn truth_in_row(
        &self,
        memo: &mut Memo,
        inside: &Inside,
        row: &Tuple,
        condition: &Step,
    ) -> Result<bool, Fault>
        requires below { RunsBelow A.world self.now F.pre F.post (height_over condition.now) }
        requires ready { IsReadyInside A.world self.now inside.now memo.old (SoundFor
            condition.now) }
        ensures { KeepsInside A.world self.now inside.now memo.old memo.new (SoundFor condition.now)
            (λ w s k. Answers (λ b. b) result (truth_value (value_in w s k condition.now
            row.now))) }
    {
        let hand = hand_inside(inside, row);
        let truth = self.truth_with(memo, &hand, condition);
        forget(memo, inside.slot);
        truth
    }

    /// The truth values of a condition in tuples, one after the other.
    #[inline(never)]
    fn truths_by_row(
        &self,
        memo: &mut Memo,
        inside: &Inside,
        rows: &[Tuple],
        condition: &Step,
    ) -> Result<Vec<bool>, Fault>
        requires below { RunsBelow A.world self.now F.pre F.post (height_over condition.now) }
        requires ready { IsReadyInside A.world self.now inside.now memo.old (SoundFor
            condition.now) }
        ensures { KeepsInside A.world self.now inside.now memo.old memo.new (SoundFor condition.now)
            (λ w s k. Answers (λ m. m.items) result (truths_in w s k condition.now rows.now)) }
    {
        let mut causes = Gathering::new();
        let mut truths = Vec::with_capacity(self.alloc, rows.len())?;
        for row in rows {
            causes.collect(&mut truths, self.truth_in_row(memo, inside, row, condition))?;
        }
        causes.finish(truths)
    }

    /// The truth values of a condition in the tuples of a loop. Items of WITH that do not name
    /// these tuples are put in scope before. Where the tuples are many, the condition is asked in
    /// the first, so that its parts are kept, and then looked for in all of them at once.
    #[inline(never)]
    pub(crate) fn truths(
        &self,
        memo: &mut Memo,
        inside: &Inside,
        rows: &[Tuple],
        condition: &Step,
    ) -> Result<Vec<bool>, Fault>
        requires below { RunsBelow A.world self.now F.pre F.post (height_over condition.now) }
        requires ready { IsReadyInside A.world self.now inside.now memo.old (SoundFor
            condition.now) }
        ensures { KeepsInside A.world self.now inside.now memo.old memo.new (SoundFor condition.now)
            (λ w s k. Answers (λ m. m.items) result (truths_in w s k condition.now rows.now)) }
    {
        if let Some(hoisted) = self.hoisted_loop(memo, inside, rows, condition) {
            return self.truths(memo, &hoisted.inside, rows, hoisted.step);
        }
        if rows.len() < FEWEST {
            return self.truths_by_row(memo, inside, rows, condition);
        }
        let _ = self.truth_in_row(memo, inside, &rows[0], condition);
        let alloc = self.alloc;
        let batch = Batch {
            alloc,
            memo: &*memo,
            inside,
            rows,
        };
        match quick_truths(&batch, condition) {
            Some(truths) => Ok(truths),
            None => self.truths_by_row(memo, inside, rows, condition),
        }
    }

    /// The values of a step in the tuples of a loop, which are of the type, if one is given. Items
    /// of WITH that do not name these tuples are put in scope before.
    #[inline(never)]
    pub(crate) fn values_in_rows(
        &self,
        memo: &mut Memo,
        inside: &Inside,
        rows: &[Tuple],
        ty: Option<&Ty>,
        step: &Step,
    ) -> Result<Vec<Value>, Fault>
        requires below { RunsBelow A.world self.now F.pre F.post (height_over step.now) }
        requires ready { IsReadyInside A.world self.now inside.now memo.old (SoundFor step.now) }
        ensures { KeepsInside A.world self.now inside.now memo.old memo.new (SoundFor step.now)
            (λ w s k. Answers (λ vs. vs.items) result (all_of_type (type_asked ty.entry) (value_in w
            s k step.now) rows.now)) }
    {
        if let Some(hoisted) = self.hoisted_loop(memo, inside, rows, step) {
            return self.values_in_rows(memo, &hoisted.inside, rows, ty, hoisted.step);
        }
        let mut causes = Gathering::new();
        let mut values = Vec::with_capacity(self.alloc, rows.len())?;
        for row in rows {
            let value = self.value_in_row(memo, inside, row, step);
            causes.collect(&mut values, of_type_asked(ty, value))?;
        }
        causes.finish(values)
    }

    /// The new attributes with their values in the tuples of a loop.
    #[inline(never)]
    pub(crate) fn columns(
        &self,
        memo: &mut Memo,
        inside: &Inside,
        rows: &[Tuple],
        attributes: &[(Name, Ty)],
        steps: &[Step],
    ) -> Result<Vec<(Name, Column)>, Fault>
        requires below { RunsBelow A.world self.now F.pre F.post (height_over_all steps.now) }
        requires ready { IsReadyInside A.world self.now inside.now memo.old (SoundForAll steps.now) }
        requires lengths { length attributes.now ≡ length steps.now }
        ensures { KeepsInside A.world self.now inside.now memo.old memo.new (SoundForAll steps.now)
            (λ w s k. Answers (λ cs. columns_view cs.items) result (gathered (named_columns
            (pairs_view attributes.now) (values_in w s k steps.now) rows.now))) }
    {
        let mut causes = Gathering::new();
        let mut columns = Vec::with_capacity(self.alloc, steps.len())?;
        for (place, step) in steps.iter().enumerate() {
            let (name, ty) = &attributes[place];
            let values = self.values_in_rows(memo, inside, rows, Some(ty), step);
            causes.collect(&mut columns, named_column(name, ty, values))?;
        }
        causes.finish(columns)
    }
}
