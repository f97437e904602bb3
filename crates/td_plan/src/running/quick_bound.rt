//! The loop where the tuples of WITH's items are in scope already, found without causes: the answer
//! of each item is kept.
ghost use Rattle.std.specs.Prelude.{◌≡◌, IfSome};
ghost use Rattle.td_eval.specs.model.OperatorValues.{on_tuple};
ghost use Rattle.td_eval.specs.model.Worlds.{World};
ghost use Rattle.td_plan.specs.code.Plans.{Slots, plan_where_bound};
ghost use Rattle.td_plan.specs.code.Bindings.{AreEntered, IsBoundInside, where_in_slot};
ghost use Rattle.td_plan.specs.code.Hands.{slots_in};
ghost use Rattle.td_plan.specs.code.Memos.{AreSound, IsMemo, IsMemoBelow, IsSound, Parts};
ghost use Rattle.td_plan.specs.code.Runs.{step_value};
ghost use Rattle.td_plan.specs.code.StepViews.{steps_view};
ghost use Rattle.td_tree.specs.model.Outcomes.{Valued, with_value};

use crate::plan::step::Step;
use crate::running::bound::again_before;
use crate::running::hand::{Batch, Inside, put};
use crate::running::memo::{Memo, lent_answer};
use td_eval::operators::requirements::tuple_in;
use td_value::tuple::Tuple;

/// The tuple that is a step's value, if its answer is kept.
fn kept_tuple<'m>(memo: &'m Memo, step: &Step) -> Option<&'m Tuple>
    ensures { IfSome result (λ t. (ps : Parts) (w : World) (s : Slots) → IsSound ps step.now
        → IsMemo ps w s memo.now
        → with_value (step_value w s step.now) (λ v. on_tuple v Valued) ≡ Valued t.now) }
{
    match step {
        Step::Once { place, .. } => tuple_in(lent_answer(memo, *place)?).ok(),
        _ => None,
    }
}

/// Puts the tuple that is a step's value into the slot, if it is kept.
fn put_kept(memo: &Memo, rows: &mut Vec<Option<Tuple>>, slot: usize, item: &Step) -> Option<()>
    ensures { IfSome result (λ _. (ps : Parts) (w : World) → IsSound ps item.now
        → IsMemoBelow ps w slot (slots_in rows.old.items) memo.now
        → AreEntered ps w slot (slots_in rows.old.items)
        (where_in_slot w (slots_in rows.old.items) slot item.now) rows.new.items memo.now) }
{
    let tuple = kept_tuple(memo, item)?;
    let copy = tuple.try_clone().ok()?;
    put(rows, slot, Some(copy)).ok()
}

/// Puts the tuples that are the values of steps into slots from this one on, if they are kept.
fn put_all_kept(
    memo: &Memo,
    rows: &mut Vec<Option<Tuple>>,
    slot: usize,
    items: &[Step],
) -> Option<()>
    ensures { IfSome result (λ _. (ps : Parts) (w : World) → AreSound ps items.now
        → IsMemoBelow ps w slot (slots_in rows.old.items) memo.now
        → AreEntered ps w slot (slots_in rows.old.items)
        (plan_where_bound w (slots_in rows.old.items) slot (steps_view items.now)) rows.new.items
        memo.now) }
{
    for (place, item) in items.iter().enumerate() {
        let next = slot.checked_add(place)?;
        put_kept(memo, rows, next, item)?;
    }
    Some(())
}

/// The loop where the tuples of a WITH's items are in scope in slots from this one on, if the
/// items name no tuple that the loop goes over, and their answers are kept.
#[inline(never)]
pub(crate) fn quick_behind(
    batch: &Batch<'_>,
    slot: usize,
    reach: usize,
    items: &[Step],
) -> Option<Inside>
    ensures { IfSome result (λ inner. (ps : Parts) (w : World)
        → IsBoundInside ps w batch.now.memo.now batch.now.inside.now slot reach
        (steps_view items.now) (AreSound ps items.now) inner) }
{
    let inside = batch.inside;
    if inside.slot < reach || slot <= inside.slot {
        return None;
    }
    let mut outer = again_before(batch.alloc, &inside.outer, slot).ok()?;
    put_all_kept(batch.memo, &mut outer, slot, items)?;
    Some(Inside {
        slot: inside.slot,
        outer,
    })
}
