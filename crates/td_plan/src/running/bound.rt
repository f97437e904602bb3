//! The value of what stands where the values of WITH's items are in scope.
ghost use Rattle.std.specs.Prelude.{◌≡◌, ◌<◌, IfOk, IfSome};
ghost use Rattle.td_eval.specs.model.Worlds.{World};
ghost use Rattle.td_plan.specs.code.Plans.{bound, plan_value, plan_where_bound, slots_before};
ghost use Rattle.td_plan.specs.code.Bindings.{IsBehind, IsEntered, IsHoisted, IsMemoFrom};
ghost use Rattle.td_plan.specs.code.Bindings.{where_in_slot};
ghost use Rattle.td_plan.specs.code.Evaluators.{IsReadyAt, IsReadyInRows, IsReadyInside};
ghost use Rattle.td_plan.specs.code.Evaluators.{KeepsInside, PutsInSlots, Runs, RunsBelow};
ghost use Rattle.td_plan.specs.code.Evaluators.{SoundFor, SoundForAll, SoundForBound, height_over};
ghost use Rattle.td_plan.specs.code.Evaluators.{height_over_all, height_over_bound};
ghost use Rattle.td_plan.specs.code.Hands.{slots_in, slots_of};
ghost use Rattle.td_plan.specs.code.Memos.{IsMemo, IsMemoBelow, IsSound, Parts};
ghost use Rattle.td_plan.specs.code.StepHeights.{step_height};
ghost use Rattle.td_plan.specs.code.StepViews.{step_view, steps_view};
ghost use Rattle.td_tree.specs.model.Outcomes.{Answers};

use crate::plan::step::Step;
use crate::running::evaluator::{Evaluator, InWorld};
use crate::running::hand::{Hand, Inside, all_again, entered, hand_of, put};
use crate::running::memo::{Memo, forget};
use std::alloc::{AllocError, Global};
use td_eval::operators::requirements::tuple_in;
use td_tree::fault::Fault;
use td_value::tuple::Tuple;
use td_value::value::Value;

/// The tuples in the slots before this one. What is kept and names it is forgotten.
#[inline(never)]
fn rows_before(
    alloc: Global,
    memo: &mut Memo,
    hand: &Hand<'_, '_>,
    slot: usize,
) -> Result<Vec<Option<Tuple>>, AllocError>
    ensures rows { IfOk result
        (λ rows. slots_in rows.items ≡ slots_before slot (slots_of hand.now)) }
    ensures memo { (ps : Parts) (w : World) → IsMemo ps w (slots_of hand.now) memo.old
        → IsMemoBelow ps w slot (slots_of hand.now) memo.new }
{
    let inside = entered(alloc, memo, hand, slot)?;
    let mut rows = inside.outer;
    rows.truncate(slot);
    Ok(rows)
}

/// The tuples in the slots before this one again.
pub(crate) fn again_before(
    alloc: Global,
    outer: &[Option<Tuple>],
    slot: usize,
) -> Result<Vec<Option<Tuple>>, AllocError>
    ensures { IfOk result (λ copy. slots_in copy.items ≡ slots_before slot (slots_in outer.now)) }
{
    let mut copy = all_again(alloc, outer)?;
    copy.truncate(slot);
    Ok(copy)
}

/// A loop where the tuples of WITH's items are in scope already, and what stands behind them.
#[derive(Drop)]
pub(crate) struct Hoisted<'s> {
    pub(crate) inside: Inside,
    pub(crate) step: &'s Step,
}

impl<A: InWorld, F> Evaluator<'_, A, F>
where
    F: Fn(&A, &mut Memo, &Hand<'_, '_>, &Step) -> Result<Value, Fault>,
{
    /// Puts the tuple that a step has into the slot.
    fn bind(
        &self,
        memo: &mut Memo,
        rows: &mut Vec<Option<Tuple>>,
        slot: usize,
        item: &Step,
    ) -> Result<(), Fault>
        requires below { RunsBelow A.world self.now F.pre F.post (height_over item.now) }
        requires ready { IsReadyInRows A.world self.now rows.old.items memo.old (SoundFor item.now) }
        ensures { PutsInSlots A.world self.now rows.old.items memo.old (SoundFor item.now)
            (λ ps w s. IsEntered ps w slot s (where_in_slot w s slot item.now) result
            rows.new.items memo.new) }
    {
        let value = self.run(memo, &hand_of(rows), item)?;
        let tuple = tuple_in(&value)?.try_clone()?;
        forget(memo, slot);
        put(rows, slot, Some(tuple))?;
        Ok(())
    }

    /// Puts the tuples that steps have into slots from this one on.
    fn bind_all(
        &self,
        memo: &mut Memo,
        rows: &mut Vec<Option<Tuple>>,
        slot: usize,
        items: &[Step],
    ) -> Result<(), Fault>
        requires below { RunsBelow A.world self.now F.pre F.post (height_over_all items.now) }
        requires ready { IsReadyInRows A.world self.now rows.old.items memo.old (SoundForAll
            items.now) }
        ensures { PutsInSlots A.world self.now rows.old.items memo.old (SoundForAll items.now)
            (λ ps w s. IsEntered ps w slot s (plan_where_bound w s slot (steps_view items.now))
            result rows.new.items memo.new) }
    {
        for (place, item) in items.iter().enumerate() {
            let Some(next) = slot.checked_add(place) else {
                return Err(Fault::Memory);
            };
            self.bind(memo, rows, next, item)?;
        }
        Ok(())
    }

    /// The value of a step where the tuples that items have are in slots from this one on.
    fn value_behind(
        &self,
        memo: &mut Memo,
        rows: &mut Vec<Option<Tuple>>,
        slot: usize,
        items: &[Step],
        value: &Step,
    ) -> Result<Value, Fault>
        requires below { RunsBelow A.world self.now F.pre F.post (height_over_bound items.now
            value.now) }
        requires ready { IsReadyInRows A.world self.now rows.old.items memo.old
            (SoundForBound items.now value.now) }
        ensures { PutsInSlots A.world self.now rows.old.items memo.old (SoundForBound items.now
            value.now)
            (λ ps w s. Answers (λ v. v) result (plan_where_bound w s slot (steps_view items.now)
            (λ s. plan_value w s (step_view value.now))) × IsMemoFrom ps w slot s memo.new) }
    {
        self.bind_all(memo, rows, slot, items)?;
        self.run(memo, &hand_of(rows), value)
    }

    /// The value of a step where the values of items are in scope, each in a slot of its own from
    /// this one on.
    #[inline(never)]
    pub(crate) fn bound(
        &self,
        memo: &mut Memo,
        hand: &Hand<'_, '_>,
        slot: usize,
        items: &[Step],
        value: &Step,
    ) -> Result<Value, Fault>
        requires below { RunsBelow A.world self.now F.pre F.post (height_over_bound items.now
            value.now) }
        requires ready { IsReadyAt A.world self.now hand.now memo.old (SoundForBound items.now
            value.now) }
        ensures { Runs A.world self.now hand.now memo.old memo.new (SoundForBound items.now
            value.now)
            result (bound slot (steps_view items.now) (step_view value.now)) }
    {
        let mut rows = rows_before(self.alloc, memo, hand, slot)?;
        let answer = self.value_behind(memo, &mut rows, slot, items, value);
        forget(memo, slot);
        answer
    }

    // ---- items that are the same in each tuple of a loop

    /// The loop where the tuples that items have are in scope in slots from this one on, if they
    /// all have one.
    #[inline(never)]
    fn loop_behind(
        &self,
        memo: &mut Memo,
        inside: &Inside,
        slot: usize,
        items: &[Step],
    ) -> Option<Inside>
        requires below { RunsBelow A.world self.now F.pre F.post (height_over_all items.now) }
        requires ready { IsReadyInside A.world self.now inside.now memo.old (SoundForAll items.now) }
        requires order { inside.now.slot < slot }
        ensures { KeepsInside A.world self.now inside.now memo.old memo.new (SoundForAll items.now)
            (λ w s k. IfSome result (IsBehind w inside.now slot (steps_view items.now))) }
    {
        let Ok(mut rows) = again_before(self.alloc, &inside.outer, slot) else {
            return None;
        };
        let bound = self.bind_all(memo, &mut rows, slot, items);
        forget(memo, inside.slot);
        match bound {
            Ok(()) => Some(Inside {
                slot: inside.slot,
                outer: rows,
            }),
            Err(_) => None,
        }
    }

    /// The loop where the items of a WITH are in scope already, and what stands behind them, if
    /// the items name no tuple that the loop goes over, and there are such tuples.
    #[inline(never)]
    pub(crate) fn hoisted_loop<'s>(
        &self,
        memo: &mut Memo,
        inside: &Inside,
        rows: &[Tuple],
        step: &'s Step,
    ) -> Option<Hoisted<'s>>
        requires below { RunsBelow A.world self.now F.pre F.post (height_over step.now) }
        requires ready { IsReadyInside A.world self.now inside.now memo.old (SoundFor step.now) }
        ensures height { IfSome result (λ h. step_height h.step.now < step_height step.now) }
        ensures sound { (ps : Parts) → IsSound ps step.now
            → IfSome result (λ h. IsSound ps h.step.now) }
        ensures kept { KeepsInside A.world self.now inside.now memo.old memo.new (SoundFor step.now)
            (λ w s k. IfSome result (λ h. IsHoisted w inside.now step.now h.inside h.step.now)) }
    {
        if rows.is_empty() {
            return None;
        }
        match step {
            Step::Bound {
                slot,
                reach,
                items,
                value,
            } => {
                if inside.slot < *reach {
                    return None;
                }
                if *slot <= inside.slot {
                    return None;
                }
                let Some(inner) = self.loop_behind(memo, inside, *slot, items) else {
                    return None;
                };
                Some(Hoisted {
                    inside: inner,
                    step: value,
                })
            }
            _ => None,
        }
    }
}
