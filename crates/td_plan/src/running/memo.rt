//! The answers of parts of a plan that are kept while it is run.
ghost use Rattle.std.specs.Prelude.{◌≡◌, ◌<◌, false, IfOk, IfSome, length, slice_set};
ghost use Rattle.std.specs.List.{slice_get};
ghost use Rattle.td_eval.specs.model.Worlds.{World};
ghost use Rattle.td_plan.specs.code.Plans.{Slots, plan_value};
ghost use Rattle.td_plan.specs.code.Memos.{AgreeBelow, AreKept, AreWithin, IsMemo, IsMemoBelow};
ghost use Rattle.td_plan.specs.code.Memos.{IsWithin, Parts, Reaches};
ghost use Rattle.td_plan.specs.code.Quick.{IsQuick};
ghost use Rattle.td_tree.specs.model.Outcomes.{Answers, Outcome};
ghost use Rattle.td_value.specs.model.Values.{Val};

use std::alloc::{AllocError, Global};
use td_tree::fault::Fault;
use td_value::value::Value;

/// The answer of a part that names no slot from the reach on.
#[derive(Drop)]
pub(crate) struct Kept {
    pub(crate) answer: Result<Value, Fault>,
    pub(crate) reach: usize,
}

/// The answers of parts by their places. None of them reaches further than the deepest.
#[derive(Drop)]
pub(crate) struct Memo {
    pub(crate) kept: Vec<Option<Kept>>,
    pub(crate) deepest: usize,
}

/// The answer again.
pub(crate) fn again(answer: &Result<Value, Fault>) -> Result<Value, Fault>
    ensures { (o : Outcome Val) → Answers (λ v. v) answer.now o → Answers (λ v. v) result o }
{
    match answer {
        Ok(value) => Ok(value.try_clone()?),
        Err(fault) => Err(*fault),
    }
}

/// Room for so many answers, none of which is kept.
pub(crate) fn new_memo(alloc: Global, places: usize) -> Result<Memo, AllocError>
    ensures { IfOk result (λ m. (ps : Parts) (w : World) (s : Slots) → IsMemo ps w s m) }
{
    let mut kept = Vec::with_capacity(alloc, places)?;
    for _place in 0..places {
        kept.push(None)?;
    }
    Ok(Memo { kept, deepest: 0 })
}

/// The answer of the part at a place, if it is kept.
pub(crate) fn kept_answer(memo: &Memo, place: usize) -> Option<Result<Value, Fault>>
    ensures { IfSome result (λ r. (ps : Parts) (w : World) (s : Slots) → IsMemo ps w s memo.now
        → Answers (λ v. v) r (plan_value w s (ps place))) }
{
    match memo.kept.get(place) {
        Some(Some(found)) => Some(again(&found.answer)),
        _ => None,
    }
}

/// The value of the part at a place, if it is kept.
#[inline]
pub(crate) fn lent_answer(memo: &Memo, place: usize) -> Option<&Value>
    ensures { (ps : Parts) (w : World) (s : Slots) → IsMemo ps w s memo.now
        → IsQuick (λ v. v.now) result (plan_value w s (ps place)) }
{
    match memo.kept.get(place) {
        Some(Some(found)) => match &found.answer {
            Ok(value) => Some(value),
            Err(_) => None,
        },
        _ => None,
    }
}

/// Puts what is kept at a place.
fn set(kept: &mut Vec<Option<Kept>>, place: usize, found: Option<Kept>)
    requires { place < length kept.old.items }
    ensures { kept.new.items ≡ slice_set kept.old.items place found }
{
    kept[place] = found;
}

/// Keeps the answer of the part at a place.
pub(crate) fn keep(memo: &mut Memo, place: usize, reach: usize, answer: &Result<Value, Fault>)
    ensures { (ps : Parts) (w : World) (s : Slots) → IsMemo ps w s memo.old
        → IsWithin reach (ps place) → Answers (λ v. v) answer.now (plan_value w s (ps place))
        → IsMemo ps w s memo.new }
{
    if place < memo.kept.len() {
        let answer = again(answer);
        set(&mut memo.kept, place, Some(Kept { answer, reach }));
        memo.deepest = memo.deepest.max(reach);
    }
}

/// Whether an answer is kept there that names the slot or one further in.
fn is_named_by(kept: &[Option<Kept>], place: usize, slot: usize) -> bool
    ensures { result ≡ false → Reaches slot (slice_get kept.now place) }
{
    match kept.get(place) {
        Some(Some(found)) => slot < found.reach,
        _ => false,
    }
}

/// Forgets the answers that name the slot or one further in.
fn forget_all(kept: &mut Vec<Option<Kept>>, slot: usize)
    ensures kept { (ps : Parts) (w : World) (s : Slots) → AreKept ps w s kept.old.items
        → AreKept ps w s kept.new.items }
    ensures within { AreWithin slot kept.new.items }
{
    for place in 0..kept.len() {
        if is_named_by(kept, place, slot) {
            set(kept, place, None);
        }
    }
}

/// Forgets the answers that name the slot or one further in: what is left is so whatever stands
/// there.
#[inline]
pub(crate) fn forget(memo: &mut Memo, slot: usize)
    ensures { (ps : Parts) (w : World) (s t : Slots) → AgreeBelow slot s t
        → IsMemo ps w s memo.old → IsMemoBelow ps w slot t memo.new }
{
    if slot < memo.deepest {
        forget_all(&mut memo.kept, slot);
        memo.deepest = slot;
    }
}
