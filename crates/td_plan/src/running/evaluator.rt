//! What values steps. Each function takes what values the parts of a step as a parameter, so that
//! it is proved by itself.
ghost use Rattle.std.specs.Prelude.{◌≡◌, IfOk, IfSome};
ghost use Rattle.td_eval.specs.model.Worlds.{World};
ghost use Rattle.td_plan.specs.code.Evaluators.{IsReadyAt, KeepsFor, Runs, RunsBelow, SoundFor};
ghost use Rattle.td_plan.specs.code.Evaluators.{SoundForAll, height_over, height_over_all};
ghost use Rattle.td_plan.specs.code.Partners.{HasTuples, IsValueBeside};
ghost use Rattle.td_plan.specs.code.Runs.{step_values};
ghost use Rattle.td_plan.specs.code.StepViews.{dyadic_view, step_view};
ghost use Rattle.td_tree.specs.model.Outcomes.{Answers, gathered};

use crate::plan::step::{Dyadic, Step};
use crate::running::hand::Hand;
use crate::running::memo::Memo;
use std::alloc::{AllocError, Global};
use td_tree::fault::Fault;
use td_tree::gathering::Gathering;
use td_value::value::Value;

/// What plans are run in.
pub(crate) trait InWorld {
    /// The world in which they have their values.
    ghost world: { Self → World };

    /// The value of an operator between a value and what a step gives, where it is found by a key
    /// and the step is not evaluated.
    fn value_by_key(
        &self,
        left: &Value,
        op: Dyadic,
        right: &Step,
    ) -> Result<Option<Value>, AllocError>
        ensures { IfOk result (λ found. IfSome found (IsValueBeside (world self.now) left.now
            (dyadic_view op) (step_view right.now))) };

    /// How many tuples a step gives, where that is known and the step is not evaluated.
    fn tuple_count(&self, step: &Step) -> Option<usize>
        ensures { IfSome result (HasTuples (world self.now) (step_view step.now)) };
}

/// What a plan is run in, and what values the parts of a step there.
#[derive(Drop)]
pub(crate) struct Evaluator<'e, A, F> {
    pub(crate) alloc: Global,
    pub(crate) around: &'e A,
    /// Values a part.
    pub(crate) inner: F,
}

impl<'e, A, F> Evaluator<'e, A, F> {
    /// What values steps there, by what values their parts.
    #[inline]
    pub(crate) fn new(alloc: Global, around: &'e A, inner: F) -> Self
        ensures around { result.around.now ≡ around.now }
        ensures inner { result.inner ≡ inner }
    {
        Evaluator {
            alloc,
            around,
            inner,
        }
    }
}

impl<A: InWorld, F> Evaluator<'_, A, F>
where
    F: Fn(&A, &mut Memo, &Hand<'_, '_>, &Step) -> Result<Value, Fault>,
{
    /// The value of a part.
    #[inline]
    pub(crate) fn run(
        &self,
        memo: &mut Memo,
        hand: &Hand<'_, '_>,
        step: &Step,
    ) -> Result<Value, Fault>
        requires below { RunsBelow A.world self.now F.pre F.post (height_over step.now) }
        requires ready { IsReadyAt A.world self.now hand.now memo.old (SoundFor step.now) }
        ensures { Runs A.world self.now hand.now memo.old memo.new (SoundFor step.now) result
            (step_view step.now) }
    {
        (self.inner)(self.around, memo, hand, step)
    }

    /// The values of steps, in their order.
    #[inline(never)]
    pub(crate) fn values_of(
        &self,
        memo: &mut Memo,
        hand: &Hand<'_, '_>,
        steps: &[Step],
    ) -> Result<Vec<Value>, Fault>
        requires below { RunsBelow A.world self.now F.pre F.post (height_over_all steps.now) }
        requires ready { IsReadyAt A.world self.now hand.now memo.old (SoundForAll steps.now) }
        ensures { KeepsFor A.world self.now hand.now memo.old memo.new (SoundForAll steps.now)
            (λ w s. Answers (λ vs. vs.items) result (gathered (step_values w s steps.now))) }
    {
        let mut causes = Gathering::new();
        let mut values = Vec::with_capacity(self.alloc, steps.len())?;
        for step in steps {
            causes.collect(&mut values, self.run(memo, hand, step))?;
        }
        causes.finish(values)
    }
}
