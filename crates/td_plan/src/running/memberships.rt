//! IN a relation that is the same for all tuples of a loop: its tuples are hashed once.
ghost use Rattle.std.specs.Prelude.{◌≡◌, [], ◌∷◌, ℤ, IfOk, IfSome, IsTrue, List, map};
ghost use Rattle.std.specs.HashSet.{contains};
ghost use Rattle.std.specs.List.Sorted.{IsPermutation, IsStrictlySortedBy};
ghost use Rattle.std.specs.Ordering.{eq_by_cmp, int_cmp};
ghost use Rattle.td_algebra.specs.code.Layouts.{numbered_sources};
ghost use Rattle.td_eval.specs.model.OperatorValues.{comparison_value};
ghost use Rattle.td_eval.specs.model.Worlds.{World};
ghost use Rattle.td_plan.specs.code.Hands.{slots_of};
ghost use Rattle.td_plan.specs.code.Memberships.{AreAllBelow, AreMemberships, IsPutInHand};
ghost use Rattle.td_plan.specs.code.Memberships.{tuple_inside};
ghost use Rattle.td_plan.specs.code.Memos.{AreSound, IsMemo, IsSound, Parts};
ghost use Rattle.td_plan.specs.code.Quick.{AreInRows, AreQuick, IsQuick};
ghost use Rattle.td_plan.specs.code.QuickInside.{AreComparedIn, FoundIn, IsMemoInside};
ghost use Rattle.td_plan.specs.code.QuickInside.{value_inside};
ghost use Rattle.td_plan.specs.code.Runs.{step_values};
ghost use Rattle.td_plan.specs.declared.running.hand.Inside.{Inside};
ghost use Rattle.td_tree.specs.declared.operator.Comparison.TheVariants as comparisons;
ghost use Rattle.td_tree.specs.model.Outcomes.{Outcome, Valued, gathered, with_value};
ghost use Rattle.td_types.specs.model.Headings.{are_distinct};
ghost use Rattle.td_types.specs.model.Types as types;
ghost use Rattle.td_value.specs.model.Sets.{has};
ghost use Rattle.td_value.specs.model.Values.{Tuple, Val, boolean, relation_value, tuple_cmp};
ghost use Rattle.td_value.specs.model.Values.{tuple_value};

use crate::plan::step::{Dyadic, Selector, Step};
use crate::running::hand::{Batch, Hand, QuickColumn, hand_inside};
use crate::running::memo::{Memo, lent_answer};
use crate::running::quick::quick_value;
use crate::running::quick_numbers::{attribute_numbers, quick_numbers};
use std::alloc::{AllocError, Global};
use std::cmp::Ordering;
use std::collections::HashSet;
use td_algebra::laid_out::LaidOut;
use td_algebra::layout::Layout;
use td_eval::flat::layout_of;
use td_tree::name::Name;
use td_tree::operator::Comparison;
use td_types::heading::Heading;
use td_types::ty::Ty;
use td_value::relation::Rel;
use td_value::tuple::{Tuple, have_heading};
use td_value::value::{Node, Value};

/// The value of a step that is a constant or a part whose answer is kept: it is the same in all
/// tuples of a loop.
fn common_value<'m>(memo: &'m Memo, step: &'m Step) -> Option<&'m Value>
    ensures { (ps : Parts) (w : World) (inside : Inside) (t : Tuple) → IsSound ps step.now
        → IsMemoInside ps w inside memo.now
        → IsQuick (λ v. v.now) result (value_inside w inside step.now t) }
{
    match step {
        Step::Constant(value) => Some(value),
        Step::Once { place, .. } => lent_answer(memo, *place),
        _ => None,
    }
}

/// Puts the values of the parts into the list, in place of what is there, if all are found without
/// causes.
fn put_parts(memo: &Memo, hand: &Hand<'_, '_>, parts: &[Step], row: &mut Vec<Value>) -> Option<()>
    ensures { IfSome result (λ _. (ps : Parts) (w : World) → AreSound ps parts.now
        → IsMemo ps w (slots_of hand.now) memo.now
        → gathered (step_values w (slots_of hand.now) parts.now) ≡ Valued row.new.items) }
{
    row.clear();
    for part in parts {
        let value = quick_value(memo, hand, part)?.try_clone().ok()?;
        row.push(value).ok()?;
    }
    Some(())
}

/// Puts after the others the tuple that gives the names the values of the parts, if these are found
/// without causes. The row is a list in which they are put together.
fn put_tuple(
    memo: &Memo,
    hand: &Hand<'_, '_>,
    names: &[Name],
    parts: &[Step],
    row: &mut Vec<Value>,
    laid: &mut LaidOut<'_>,
) -> Option<()>
    requires distinct { IsTrue (are_distinct names.now) }
    requires places { IsPermutation (numbered_sources 0 names.now) laid.old.0 }
    ensures layout { IfSome result (λ _. laid.new.0 ≡ laid.old.0) }
    ensures put { IfSome result (λ _. IsPutInHand memo.now (slots_of hand.now) names.now parts.now
        laid.old.1 laid.new.1) }
{
    put_parts(memo, hand, parts, row)?;
    if row.len() != names.len() {
        return None;
    }
    laid.put(row, &[]).ok()
}

/// The tuples that give the names the values of the parts in each of the rows.
fn tuples_of(
    batch: &Batch<'_>,
    names: &[Name],
    parts: &[Step],
    layout: &Layout,
) -> QuickColumn<Tuple>
    requires distinct { IsTrue (are_distinct names.now) }
    requires places { IsPermutation (numbered_sources 0 names.now) layout.now }
    ensures { (ps : Parts) (w : World) → AreSound ps parts.now
        → IsMemoInside ps w batch.now.inside.now batch.now.memo.now → AreQuick tuple_value
        (tuple_inside w batch.now.inside.now names.now parts.now) batch.now.rows.now result }
{
    let mut laid = LaidOut::new(batch.alloc, layout, batch.rows.len()).ok()?;
    let mut values = Vec::with_capacity(batch.alloc, names.len()).ok()?;
    for row in batch.rows {
        let hand = hand_inside(batch.inside, row);
        put_tuple(batch.memo, &hand, names, parts, &mut values, &mut laid)?;
    }
    laid.finish(batch.alloc).ok()
}

/// The tuples, hashed.
fn hashed_tuples(alloc: Global, rows: &[Tuple]) -> Result<HashSet<Tuple>, AllocError>
    ensures { IfOk result (λ set. (t : Tuple)
        → contains (eq_by_cmp tuple_cmp) set t ≡ has tuple_cmp t rows.now) }
{
    let mut set = HashSet::with_capacity(alloc, rows.len())?;
    for row in rows {
        set.insert(row.try_clone()?)?;
    }
    Ok(set)
}

/// Which of the tuples are members of the relation, if all are of its heading.
fn members_among(alloc: Global, tuples: &[Tuple], rel: &Rel) -> QuickColumn<bool>
    ensures { (f : Tuple → Outcome Val) (ts : List Tuple) → AreInRows tuple_value f ts tuples.now
        → AreQuick boolean (λ t. with_value (f t)
        (λ v. comparison_value comparisons.In v (relation_value rel.now))) ts result }
{
    if !have_heading(tuples, rel.heading()) {
        return None;
    }
    let members = hashed_tuples(alloc, rel.rows()).ok()?;
    let mut truths = Vec::with_capacity(alloc, tuples.len()).ok()?;
    for tuple in tuples {
        truths.push(members.contains(tuple)).ok()?;
    }
    Some(truths)
}

/// The numbers, hashed.
fn hashed_numbers(alloc: Global, numbers: &[i64]) -> Result<HashSet<i64>, AllocError>
    ensures { IfOk result (λ set. (z : ℤ)
        → contains (eq_by_cmp int_cmp) set z ≡ has int_cmp z numbers.now) }
{
    let mut set = HashSet::with_capacity(alloc, numbers.len())?;
    for number in numbers {
        set.insert(*number)?;
    }
    Ok(set)
}

/// The first place, from this one on, where no member is below the number.
fn place_from(members: &[i64], place: usize, number: i64) -> usize {
    for later in place..members.len() {
        if members[later] >= number {
            return later;
        }
    }
    members.len()
}

/// Whether all members before the place are below the number, where they ascend.
#[inline]
fn is_behind(members: &[i64], place: usize, number: i64) -> bool
    requires { IsStrictlySortedBy int_cmp members.now }
    ensures { IsTrue result → AreAllBelow members.now place number }
{
    if place == 0 {
        return true;
    }
    match members.get(place - 1) {
        Some(member) => member.cmp(&number).is_lt(),
        None => false,
    }
}

/// Whether the number is among members that ascend, if the place tells: it is there, or would be.
#[inline]
fn told_at(members: &[i64], place: usize, number: i64) -> Option<bool>
    requires { IsStrictlySortedBy int_cmp members.now }
    ensures { IfSome result (λ told. told ≡ has int_cmp number members.now) }
{
    if !is_behind(members, place, number) {
        return None;
    }
    match members.get(place) {
        None => Some(false),
        Some(member) => match member.cmp(&number) {
            Ordering::Less => None,
            Ordering::Equal => Some(true),
            Ordering::Greater => Some(false),
        },
    }
}

/// Which of the numbers are among members that ascend, if the numbers do so too.
fn merged_memberships(alloc: Global, numbers: &[i64], members: &[i64]) -> QuickColumn<bool>
    requires { IsStrictlySortedBy int_cmp members.now }
    ensures { IfSome result (λ truths.
        truths.items ≡ map (λ z. has int_cmp z members.now) numbers.now) }
{
    let mut truths = Vec::with_capacity(alloc, numbers.len()).ok()?;
    let mut place = 0;
    for number in numbers {
        place = place_from(members, place, *number);
        let told = told_at(members, place, *number)?;
        truths.push(told).ok()?;
    }
    Some(truths)
}

/// Which of the numbers are among members that ascend.
fn numbers_among(alloc: Global, numbers: &[i64], members: &[i64]) -> QuickColumn<bool>
    requires { IsStrictlySortedBy int_cmp members.now }
    ensures { IfSome result (λ truths.
        truths.items ≡ map (λ z. has int_cmp z members.now) numbers.now) }
{
    if let Some(truths) = merged_memberships(alloc, numbers, members) {
        return Some(truths);
    }
    let members = hashed_numbers(alloc, members).ok()?;
    let mut truths = Vec::with_capacity(alloc, numbers.len()).ok()?;
    for number in numbers {
        truths.push(members.contains(number)).ok()?;
    }
    Some(truths)
}

/// Whether the heading gives INTEGER to that name, and has no other.
fn is_one_number(heading: &Heading, name: &Name) -> bool
    ensures { IsTrue result → heading.now ≡ (name.now, types.integer) ∷ [] }
{
    match heading.get(name) {
        Some(Ty::Int) => heading.len() == 1,
        _ => false,
    }
}

/// The truth values of IN the relation, where tuple and relation have one attribute each, and all
/// that it has are numbers.
fn number_memberships(
    batch: &Batch<'_>,
    names: &[Name],
    parts: &[Step],
    rel: &Rel,
) -> QuickColumn<bool>
    ensures { AreMemberships batch.now names.now parts.now rel.now result }
{
    let [name] = names else {
        return None;
    };
    let [part] = parts else {
        return None;
    };
    if !is_one_number(rel.heading(), name) {
        return None;
    }
    let members = attribute_numbers(batch.alloc, rel.rows(), 0)?;
    let numbers = quick_numbers(batch, part)?;
    numbers_among(batch.alloc, &numbers, &members)
}

/// The truth values of IN the relation, for the tuples that give the names the values of the parts
/// in each of the rows.
fn memberships_of(batch: &Batch<'_>, names: &[Name], parts: &[Step], rel: &Rel) -> QuickColumn<bool>
    ensures { AreMemberships batch.now names.now parts.now rel.now result }
{
    if let Some(truths) = number_memberships(batch, names, parts, rel) {
        return Some(truths);
    }
    let layout = layout_of(batch.alloc, names).ok()??;
    let tuples = tuples_of(batch, names, parts, &layout)?;
    members_among(batch.alloc, &tuples, rel)
}

/// The truth values of IN, where a tuple of parts is looked for in one relation for all rows.
fn memberships_in(batch: &Batch<'_>, left: &Step, right: &Step) -> QuickColumn<bool>
    ensures { AreComparedIn batch.now left.now comparisons.In right.now result }
{
    let value = common_value(batch.memo, right)?;
    let Node::Rel(rel) = &value.node else {
        return None;
    };
    match left {
        Step::Select(selector, parts) => match selector {
            Selector::Tuple(names) => memberships_of(batch, names, parts, rel),
            _ => None,
        },
        _ => None,
    }
}

/// The truth values of a condition that is such an IN.
pub(crate) fn memberships(batch: &Batch<'_>, condition: &Step) -> QuickColumn<bool>
    ensures { FoundIn boolean batch.now condition.now result }
{
    match condition {
        Step::Dyadic(left, op, right) => match op {
            Dyadic::Comparison(op) => match op {
                Comparison::In => memberships_in(batch, left, right),
                _ => None,
            },
            Dyadic::Operator(_) => None,
        },
        _ => None,
    }
}
