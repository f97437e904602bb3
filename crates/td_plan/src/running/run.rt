//! The value of a step.
ghost use Rattle.td_plan.specs.code.Evaluators.{IsReadyAt, Runs, RunsBelow, height_over};
ghost use Rattle.td_plan.specs.code.Hands.{IsPlanWorld, slots_of, world_around};
ghost use Rattle.td_plan.specs.code.Memos.{IsPart, IsReady, IsSound, Keeps};
ghost use Rattle.td_plan.specs.code.Runs.{step_value};
ghost use Rattle.td_plan.specs.code.StepViews.{step_view};
ghost use Rattle.td_tree.specs.model.Outcomes.{Answers};

use crate::plan::step::{Monadic, Step};
use crate::running::evaluator::{Evaluator, InWorld};
use crate::running::hand::{Hand, attribute};
use crate::running::look_up::look_up;
use crate::running::loops::Summands;
use crate::running::memo::{Memo, keep, kept_answer};
use crate::running::operators::{value_of_monadic, value_of_selector};
use crate::running::plan_world::{PlanWorld, relvar_value};
use td_body::body::Body;
use td_tree::fault::Fault;
use td_value::value::Value;

impl<A: InWorld, F> Evaluator<'_, A, F>
where
    F: Fn(&A, &mut Memo, &Hand<'_, '_>, &Step) -> Result<Value, Fault>,
{
    /// The answer of a part, which is kept.
    #[inline(never)]
    fn once(
        &self,
        memo: &mut Memo,
        hand: &Hand<'_, '_>,
        place: usize,
        reach: usize,
        part: &Step,
    ) -> Result<Value, Fault>
        requires below { RunsBelow A.world self.now F.pre F.post (height_over part.now) }
        requires ready { IsReadyAt A.world self.now hand.now memo.old (λ ps. IsPart ps place reach
            (step_view part.now) × IsSound ps part.now) }
        ensures { Runs A.world self.now hand.now memo.old memo.new (λ ps. IsPart ps place reach
            (step_view part.now) × IsSound ps part.now) result (step_view part.now) }
    {
        match kept_answer(memo, place) {
            Some(answer) => answer,
            None => {
                let answer = self.run(memo, hand, part);
                keep(memo, place, reach, &answer);
                answer
            }
        }
    }
}

/// The value of a step. What is answered of its parts is kept as long as it holds.
pub(crate) fn run<B: Body>(
    around: &PlanWorld<'_, '_, '_, B>,
    memo: &mut Memo,
    hand: &Hand<'_, '_>,
    step: &Step,
) -> Result<Value, Fault>
    requires around { IsPlanWorld around.now }
    requires ready { IsReady (world_around around.now) (slots_of hand.now) memo.old
        (λ ps. IsSound ps step.now) }
    ensures { Keeps (world_around around.now) (slots_of hand.now) memo.old memo.new
        (λ ps. IsSound ps step.now) (Answers (λ v. v) result
        (step_value (world_around around.now) (slots_of hand.now) step.now)) }
{
    let inner = Evaluator::new(around.alloc, around, run);
    match step {
        Step::Constant(value) => Ok(value.try_clone()?),
        Step::Refused(cause) => Err(Fault::Refused(*cause)),
        Step::Attribute { slot, place } => attribute(hand, *slot, *place),
        Step::Relvar(name) => relvar_value(around, name),
        Step::LookUp(name, key, part) => look_up(around, name, key, inner.run(memo, hand, part)),
        Step::Monadic(op, operand) => match op {
            Monadic::Measure(op) => inner.measure(memo, hand, *op, operand),
            _ => value_of_monadic(around, op, inner.run(memo, hand, operand)),
        },
        Step::Dyadic(left, op, right) => inner.dyadic(memo, hand, left, *op, right),
        Step::Select(selector, parts) => {
            value_of_selector(around, selector, inner.values_of(memo, hand, parts))
        }
        Step::Restriction(operand, slot, condition, _) => {
            inner.restriction(memo, hand, operand, *slot, condition)
        }
        Step::Extend(operand, attributes, slot, values) => {
            inner.extension(memo, hand, operand, attributes, *slot, values)
        }
        Step::Aggregate(op, operand, slot, value) => {
            inner.aggregation(memo, hand, *op, operand, *slot, value)
        }
        Step::SummarizePer(operand, per, attributes, aggregates, slot, values) => {
            let items = Summands::new(attributes, aggregates, *slot, values);
            inner.summary_per(memo, hand, operand, per, &items)
        }
        Step::SummarizeBy(operand, by, attributes, aggregates, slot, values) => {
            let items = Summands::new(attributes, aggregates, *slot, values);
            inner.summary_by(memo, hand, operand, by, &items)
        }
        Step::If(condition, yes, no) => inner.choice(memo, hand, condition, yes, no),
        Step::Bound {
            slot,
            reach: _,
            items,
            value,
        } => inner.bound(memo, hand, *slot, items, value),
        Step::Once { place, reach, part } => inner.once(memo, hand, *place, *reach, part),
    }
}
