//! When a candidate key holds.
ghost use Rattle.std.specs.Prelude.{◌≡◌, [], IfOk, OnOk, filter, length, option_map};
ghost use Rattle.std.specs.List.{IsAllAdjacentAnswer, slice_get};
ghost use Rattle.std.specs.List.Sorted.{IsPermutation, IsSortedBy};
ghost use Rattle.std.specs.Option.{option_cmp};
ghost use Rattle.std.specs.Ordering.{is_eq, is_lt};
ghost use Rattle.td_types.specs.model.Headings.{projection};
ghost use Rattle.td_value.specs.model.Agreement.{agree_on};
ghost use Rattle.td_value.specs.model.Values.{heading_of, value_cmp};
ghost use Rattle.td_value.specs.code.Views.{values_of};
ghost use Rattle.td_body.specs.model.Bodies.{agreeing, key_holds};
ghost use Rattle.td_body.specs.code.KeyParts.{by_places, places_from, values_cmp};

use std::alloc::{AllocError, Global};
use std::cmp::Ordering;
use td_tree::name::Name;
use td_types::names::is_among;
use td_value::relation::Rel;
use td_value::tuple::Tuple;
use td_value::value::Value;

/// The places of those of the names that are in the key.
pub(crate) fn places_of(
    alloc: Global,
    names: &[Name],
    key: &[Name],
) -> Result<Vec<usize>, AllocError>
    ensures { IfOk result (λ places. places.items ≡ places_from 0 key.now names.now) }
{
    let mut places = Vec::with_capacity(alloc, key.len())?;
    let mut place = 0;
    for name in names {
        if is_among(name, key) {
            places.push(place)?;
        }
        place += 1;
    }
    Ok(places)
}

/// The tuple's value at a place.
pub(crate) fn value_at(tuple: &Tuple, place: usize) -> Option<&Value>
    ensures { option_map (λ v. v.now) result ≡ slice_get (values_of tuple.now) place }
{
    tuple.values().get(place)
}

/// How a value that may be there stands to another one: none is before any.
fn compare_found(value: Option<&Value>, other: Option<&Value>) -> Ordering
    ensures { result ≡ option_cmp value_cmp
        (option_map (λ v. v.now) value.entry) (option_map (λ v. v.now) other.entry) }
{
    match (value, other) {
        (Some(value), Some(other)) => value.cmp(other),
        (Some(_), None) => Ordering::Greater,
        (None, Some(_)) => Ordering::Less,
        (None, None) => Ordering::Equal,
    }
}

/// How two tuples stand by their values at the places.
pub(crate) fn compare_at(places: &[usize], tuple: &Tuple, other: &Tuple) -> Ordering
    ensures { result ≡ by_places places.now tuple.now other.now }
{
    for place in places {
        match compare_found(value_at(tuple, *place), value_at(other, *place)) {
            Ordering::Equal => {}
            order => return order,
        }
    }
    Ordering::Equal
}

/// Whether each of the tuples is before the next by its values at the places.
fn ascend_at(places: &[usize], tuples: &[Tuple]) -> bool
    ensures { IsAllAdjacentAnswer
        (λ s t b. b ≡ is_lt (by_places places.now s t)) tuples.now result }
{
    tuples.is_sorted_by(|tuple, next| compare_at(places, tuple, next).is_lt())
}

/// The tuples, sorted by their values at the places.
fn sorted_at(places: &[usize], relation: &Rel) -> Result<Vec<Tuple>, AllocError>
    ensures permutation { IfOk result (λ v. IsPermutation relation.now.body v.items) }
    ensures sorted { IfOk result (λ v.
        IsSortedBy (λ s t. is_lt (by_places places.now s t)) v.items) }
{
    let mut tuples = relation.try_clone()?.into_rows()?;
    tuples.sort_unstable_by(|tuple, other| compare_at(places, tuple, other));
    Ok(tuples)
}

/// Whether no two tuples of the relation agree on the names of the key.
pub fn key_holds(alloc: Global, key: &[Name], relation: &Rel) -> Result<bool, AllocError>
    ensures { IfOk result (λ b. b ≡ key_holds key.now relation.now.body) }
{
    let rows = relation.rows();
    let Some(first) = rows.first() else {
        return Ok(true);
    };
    let places = places_of(alloc, first.names(), key)?;
    if ascend_at(&places, rows) {
        return Ok(true);
    }
    let sorted = sorted_at(&places, relation)?;
    Ok(ascend_at(&places, &sorted))
}

/// How the tuple's values at the places stand to as many values.
pub(crate) fn compare_with(places: &[usize], tuple: &Tuple, values: &[Value]) -> Ordering
    requires { length places.now ≡ length values.now }
    ensures { result ≡ values_cmp places.now tuple.now values.now }
{
    for (index, place) in places.iter().enumerate() {
        match compare_found(value_at(tuple, *place), values.get(index)) {
            Ordering::Equal => {}
            order => return order,
        }
    }
    Ordering::Equal
}

/// Puts the tuples whose values at the places are those after the others.
fn keep_agreeing(
    places: &[usize],
    values: &[Value],
    tuples: &[Tuple],
    kept: &mut Vec<Tuple>,
) -> Result<(), AllocError>
    requires same { length places.now ≡ length values.now }
    requires none { kept.old.items ≡ [] }
    ensures { OnOk result (kept.new.items
        ≡ filter (λ t. is_eq (values_cmp places.now t values.now)) tuples.now) }
{
    for tuple in tuples {
        if compare_with(places, tuple, values).is_eq() {
            kept.push(tuple.try_clone()?)?;
        }
    }
    Ok(())
}

/// The members of the relation that agree with the part on the names of the key, which are the
/// part's.
fn members_agreeing(
    alloc: Global,
    key: &[Name],
    part: &Tuple,
    relation: &Rel,
) -> Result<Vec<Tuple>, AllocError>
    requires { heading_of part.now ≡ projection key.now relation.now.heading }
    ensures { IfOk result (λ kept.
        kept.items ≡ filter (agree_on key.now part.now) relation.now.body) }
{
    let rows = relation.rows();
    let mut kept = Vec::new(alloc);
    let Some(first) = rows.first() else {
        return Ok(kept);
    };
    let places = places_of(alloc, first.names(), key)?;
    keep_agreeing(&places, part.values(), rows, &mut kept)?;
    Ok(kept)
}

/// The relation of those members that agree with the part on the names of the key, which are the
/// part's.
pub fn agreeing(
    alloc: Global,
    key: &[Name],
    part: &Tuple,
    relation: &Rel,
) -> Result<Rel, AllocError>
    requires { heading_of part.now ≡ projection key.now relation.now.heading }
    ensures { IfOk result (λ found. found ≡ agreeing key.now part.now relation.now) }
{
    let kept = members_agreeing(alloc, key, part, relation)?;
    relation.reveal();
    let heading = relation.heading().try_clone()?;
    Rel::of_ascending(heading, kept)
}
