//! Tuples, each with the relation of the tuples that agree with it. They are found by a look-up of
//! their values on the names.
ghost use Rattle.std.specs.Prelude.{◌≡◌, IfOk, IsTrue};
ghost use Rattle.td_algebra.specs.code.Lookups.{AreWithin, partners_in};
ghost use Rattle.td_group.specs.model.Groups.{groups, groups_on};
ghost use Rattle.td_types.specs.model.Headings.{agree, has_attributes};
ghost use Rattle.td_types.specs.model.Types.{attribute_names};
ghost use Rattle.td_value.specs.model.Values.{relation_view};
ghost use Rattle.td_value.specs.code.Views.{values_of};

use std::alloc::{AllocError, Global};
use td_algebra::lookup::{Lookup, common_places};
use td_tree::fault::without_refusal;
use td_tree::name::Name;
use td_types::heading::Heading;
use td_value::relation::Rel;
use td_value::tuple::Tuple;

/// Copies of the rows that have the tuple's values at the places.
fn partners_of(
    alloc: Global,
    lookup: &Lookup,
    places: &[usize],
    tuple: &Tuple,
) -> Result<Vec<Tuple>, AllocError>
    requires { AreWithin places.now (values_of tuple.now) }
    ensures { IfOk result (λ rows. rows.items ≡ partners_in lookup.now places.now tuple.now) }
{
    let mut rows = Vec::with_capacity(alloc, lookup.partners(places, tuple).count())?;
    for row in lookup.partners(places, tuple) {
        rows.push(row.try_clone()?)?;
    }
    Ok(rows)
}

/// The relation of those of its rows that have the tuple's values at the places.
fn group_of(
    alloc: Global,
    rel: &Rel,
    lookup: &Lookup,
    places: &[usize],
    tuple: &Tuple,
) -> Result<Rel, AllocError>
    requires within { AreWithin places.now (values_of tuple.now) }
    requires rows { lookup.now.1 ≡ rel.now.body }
    ensures { IfOk result (λ r. r ≡ relation_view rel.now.heading
        (partners_in lookup.now places.now tuple.now)) }
{
    rel.reveal();
    let rows = partners_of(alloc, lookup, places, tuple)?;
    rel.with_body(rows)
}

/// Each tuple of `per` with the relation of those that agree with it on the common attributes.
pub(crate) fn groups_on(
    alloc: Global,
    common: &Heading,
    rel: &Rel,
    per: &Rel,
) -> Result<Vec<(Tuple, Rel)>, AllocError>
    requires rel { IsTrue (has_attributes (attribute_names common.now) rel.now.heading) }
    requires per { IsTrue (has_attributes (attribute_names common.now) per.now.heading) }
    ensures { IfOk result (λ found.
        found.items ≡ groups_on (attribute_names common.now) rel.now per.now.body) }
{
    let own_places = common_places(alloc, rel.heading(), common)?;
    let lookup = Lookup::new(alloc, &own_places, rel.rows())?;
    let places = common_places(alloc, per.heading(), common)?;
    let mut found = Vec::with_capacity(alloc, per.rows().len())?;
    for tuple in per.rows() {
        let group = group_of(alloc, rel, &lookup, &places, tuple)?;
        found.push((tuple.try_clone()?, group))?;
    }
    Ok(found)
}

/// The names of the attributes.
pub(crate) fn attribute_names(heading: &Heading) -> Result<Vec<Name>, AllocError>
    ensures { IfOk result (λ names. names.items ≡ attribute_names heading.now) }
{
    heading.new_names(&[])
}

/// Each tuple of `per`, ascending, with the relation of the tuples that agree with it on the common
/// names. `Heading::agrees_with` is the test of what is required.
pub fn groups(alloc: Global, rel: &Rel, per: &Rel) -> Result<Vec<(Tuple, Rel)>, AllocError>
    requires { IsTrue (agree per.now.heading rel.now.heading) }
    ensures { IfOk result (λ found. found.items ≡ groups rel.now per.now) }
{
    per.heading().reveal();
    let common = without_refusal(per.heading().common(rel.heading()))?;
    groups_on(alloc, &common, rel, per)
}
