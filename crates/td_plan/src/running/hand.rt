//! The tuples in scope.
ghost use Rattle.std.specs.Prelude.{◌≡◌, ◌<◌, ◌≤◌, IfOk, OnOk, length, option_map, slice_set};
ghost use Rattle.std.specs.List.{slice_get};
ghost use Rattle.td_eval.specs.model.Worlds.{World};
ghost use Rattle.td_plan.specs.code.Plans.{value_or, with_slot};
ghost use Rattle.td_plan.specs.code.Hands.{cells_lent, cells_of, slots_in, slots_inside, slots_of};
ghost use Rattle.td_plan.specs.code.Memos.{IsMemo, IsMemoBelow, Parts};
ghost use Rattle.td_tree.specs.model.Outcomes.{Answers};

use crate::running::memo::{Memo, forget};
use std::alloc::{AllocError, Global};
use td_tree::cause::Cause;
use td_tree::fault::Fault;
use td_value::tuple::Tuple;
use td_value::value::Value;

/// The innermost tuple in scope with its slot, and the tuples further out by their slots.
#[derive(Drop)]
pub(crate) struct Hand<'t, 'o> {
    pub(crate) tuple: Option<&'t Tuple>,
    pub(crate) slot: usize,
    pub(crate) outer: &'o [Option<Tuple>],
}

/// The slot of the tuples that a loop goes over, and the tuples further out by their slots.
#[derive(Drop)]
pub(crate) struct Inside {
    pub(crate) slot: usize,
    pub(crate) outer: Vec<Option<Tuple>>,
}

/// Tuples of a loop in which steps are looked at without causes, and what is kept.
#[derive(Drop)]
pub(crate) struct Batch<'b> {
    pub(crate) alloc: Global,
    pub(crate) memo: &'b Memo,
    pub(crate) inside: &'b Inside,
    pub(crate) rows: &'b [Tuple],
}

/// What is found in each of the tuples without causes, if it is in all.
pub(crate) type QuickColumn<T> = Option<Vec<T>>;

/// The tuple in a slot further out.
#[inline]
pub(crate) fn outer_tuple(outer: &[Option<Tuple>], slot: usize) -> Option<&Tuple>
    ensures { cells_lent result ≡ slots_in outer.now slot }
{
    match outer.get(slot) {
        Some(Some(tuple)) => Some(tuple),
        _ => None,
    }
}

/// The tuple in a slot.
#[inline]
pub(crate) fn tuple_in<'h>(hand: &'h Hand<'_, '_>, slot: usize) -> Option<&'h Tuple>
    ensures { cells_lent result ≡ slots_of hand.now slot }
{
    if slot == hand.slot {
        return hand.tuple;
    }
    outer_tuple(hand.outer, slot)
}

/// The attribute at a place of the tuple in a slot.
pub(crate) fn attribute(hand: &Hand<'_, '_>, slot: usize, place: usize) -> Result<Value, Fault>
    ensures { Answers (λ v. v) result (value_or (slice_get (slots_of hand.now slot) place)) }
{
    let tuple = tuple_in(hand, slot).ok_or(Fault::Refused(Cause::NameUnknown))?;
    let value = tuple
        .values()
        .get(place)
        .ok_or(Fault::Refused(Cause::NameUnknown))?;
    Ok(value.try_clone()?)
}

/// Where a tuple of a loop is in scope.
#[inline]
pub(crate) fn hand_inside<'h>(inside: &'h Inside, row: &'h Tuple) -> Hand<'h, 'h>
    ensures { slots_of result ≡ slots_inside inside.now row.now }
{
    Hand {
        tuple: Some(row),
        slot: inside.slot,
        outer: &inside.outer,
    }
}

/// Where these tuples are in scope, each in the slot of its place.
#[inline]
pub(crate) fn hand_of(rows: &[Option<Tuple>]) -> Hand<'_, '_>
    ensures { slots_of result ≡ slots_in rows.now }
{
    Hand {
        tuple: None,
        slot: rows.len(),
        outer: rows,
    }
}

/// A lent tuple again, if there is one.
fn lent_again(tuple: Option<&Tuple>) -> Result<Option<Tuple>, AllocError>
    ensures { IfOk result (λ copy. copy ≡ option_map (λ t. t.now) tuple.entry) }
{
    match tuple {
        Some(tuple) => Ok(Some(tuple.try_clone()?)),
        None => Ok(None),
    }
}

/// The tuples again, with room for one more.
pub(crate) fn all_again(
    alloc: Global,
    rows: &[Option<Tuple>],
) -> Result<Vec<Option<Tuple>>, AllocError>
    ensures { IfOk result (λ copy. slots_in copy.items ≡ slots_in rows.now) }
{
    let mut copy = Vec::with_capacity(alloc, rows.len().saturating_add(1))?;
    for row in rows {
        copy.push(lent_again(row.as_ref())?)?;
    }
    Ok(copy)
}

/// Has at least so many slots.
fn fill(rows: &mut Vec<Option<Tuple>>, count: usize) -> Result<(), AllocError>
    ensures same { OnOk result (slots_in rows.new.items ≡ slots_in rows.old.items) }
    ensures count { OnOk result (count ≤ length rows.new.items) }
{
    while rows.len() < count {
        rows.push(None)?;
    }
    Ok(())
}

/// Puts a tuple into a slot that there is.
fn set(rows: &mut Vec<Option<Tuple>>, slot: usize, row: Option<Tuple>)
    requires { slot < length rows.old.items }
    ensures { rows.new.items ≡ slice_set rows.old.items slot row }
{
    rows[slot] = row;
}

/// Puts a tuple into a slot.
pub(crate) fn put(
    rows: &mut Vec<Option<Tuple>>,
    slot: usize,
    row: Option<Tuple>,
) -> Result<(), AllocError>
    ensures { OnOk result
        (slots_in rows.new.items ≡ with_slot slot (cells_of row) (slots_in rows.old.items)) }
{
    fill(rows, slot)?;
    if slot < rows.len() {
        set(rows, slot, row);
        Ok(())
    } else {
        Ok(rows.push(row)?)
    }
}

/// What a loop needs whose tuples are in the slot: all tuples in scope outside of it. What is kept
/// and names the slot is forgotten.
#[inline(never)]
pub(crate) fn entered(
    alloc: Global,
    memo: &mut Memo,
    hand: &Hand<'_, '_>,
    slot: usize,
) -> Result<Inside, AllocError>
    ensures slot { IfOk result (λ inside. inside.slot ≡ slot) }
    ensures outer { IfOk result (λ inside. slots_in inside.outer.items ≡ slots_of hand.now) }
    ensures memo { (ps : Parts) (w : World) → IsMemo ps w (slots_of hand.now) memo.old
        → IsMemoBelow ps w slot (slots_of hand.now) memo.new }
{
    forget(memo, slot);
    let mut outer = all_again(alloc, hand.outer)?;
    let tuple = lent_again(hand.tuple)?;
    put(&mut outer, hand.slot, tuple)?;
    Ok(Inside { slot, outer })
}
