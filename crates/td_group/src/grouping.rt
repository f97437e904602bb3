//! GROUP: the tuples by their rest, each with the relation of the parts that stand beside it.
ghost use Rattle.std.specs.Prelude.{◌≡◌, ◌++◌, IfOk, IsTrue, OnOk, filter, length, map};
ghost use Rattle.std.specs.List.{All, flat_map};
ghost use Rattle.td_algebra.specs.code.Lookups.{AreWithin, partners_in};
ghost use Rattle.td_algebra.specs.code.Layouts.{AreInRange, placed_tuple};
ghost use Rattle.td_group.specs.model.Nesting.{can_nest, grouped_relation};
ghost use Rattle.td_types.specs.model.Headings.{has_attributes};
ghost use Rattle.td_types.specs.model.Types.{attribute_names};
ghost use Rattle.td_value.specs.model.Agreement.{agree_on};
ghost use Rattle.td_value.specs.model.Values.{IsTupleOf, Tuple, relation_of, relation_value};
ghost use Rattle.td_value.specs.code.Views.{values_of};

use crate::groups::attribute_names;
use crate::layouts::row_layout;
use crate::wrapping::wrapped_parts;
use std::alloc::{AllocError, Global};
use td_algebra::extension::{Column, extend};
use td_algebra::layout::Layout;
use td_algebra::lookup::{Lookup, common_places};
use td_algebra::projection::project;
use td_tree::fault::without_refusal;
use td_tree::name::Name;
use td_types::heading::Heading;
use td_types::ty::Ty;
use td_value::relation::Rel;
use td_value::tuple::Tuple;
use td_value::value::Value;

/// Puts copies of the rows that have the tuple's values at the places after the others.
fn put_partners(
    lookup: &Lookup,
    places: &[usize],
    tuple: &Tuple,
    rows: &mut Vec<Tuple>,
) -> Result<(), AllocError>
    requires { AreWithin places.now (values_of tuple.now) }
    ensures { OnOk result (rows.new.items
        ≡ rows.old.items ++ partners_in lookup.now places.now tuple.now) }
{
    for row in lookup.partners(places, tuple) {
        rows.push(row.try_clone()?)?;
    }
    Ok(())
}

/// The rows that have a tuple's values at the places, for each of the tuples, one group after the
/// other.
fn rows_by_group(
    alloc: Global,
    lookup: &Lookup,
    places: &[usize],
    tuples: &[Tuple],
    count: usize,
) -> Result<Vec<Tuple>, AllocError>
    requires { All (λ t. AreWithin places.now (values_of t)) tuples.now }
    ensures { IfOk result (λ rows.
        rows.items ≡ flat_map (partners_in lookup.now places.now) tuples.now) }
{
    let mut rows = Vec::with_capacity(alloc, count)?;
    for tuple in tuples {
        put_partners(lookup, places, tuple, &mut rows)?;
    }
    Ok(rows)
}

/// Copies of the tuples.
fn copies_of(alloc: Global, tuples: &[Tuple]) -> Result<Vec<Tuple>, AllocError>
    ensures { IfOk result (λ copies. copies.items ≡ tuples.now) }
{
    let mut copies = Vec::with_capacity(alloc, tuples.len())?;
    for tuple in tuples {
        copies.push(tuple.try_clone()?)?;
    }
    Ok(copies)
}

/// The relation of the tuples as a value, of the same heading as that one.
fn value_of_set(alloc: Global, like: &Rel, tuples: &[Tuple]) -> Result<Value, AllocError>
    requires { All (IsTupleOf like.now.heading) tuples.now }
    ensures { IfOk result (λ v. v ≡ relation_value (relation_of like.now.heading tuples.now)) }
{
    let rel = like.with_set_of(copies_of(alloc, tuples)?)?;
    Value::relation(alloc, rel)
}

/// How many rows have the tuple's values at the places.
fn count_of(lookup: &Lookup, places: &[usize], tuple: &Tuple) -> usize
    requires { AreWithin places.now (values_of tuple.now) }
    ensures { result ≡ length (partners_in lookup.now places.now tuple.now) }
{
    let mut count = 0;
    for partner in lookup.partners(places, tuple) {
        partner.reveal();
        count += 1;
    }
    count
}

/// The relations of the groups' parts as values, of the same heading as that one. The parts stand
/// one group after the other, and a group has as many as the tuple has partners.
fn values_by_group(
    alloc: Global,
    like: &Rel,
    parts: &[Tuple],
    lookup: &Lookup,
    places: &[usize],
    tuples: &[Tuple],
) -> Result<Vec<Value>, AllocError>
    requires within { All (λ t. AreWithin places.now (values_of t)) tuples.now }
    requires headed { All (IsTupleOf like.now.heading) parts.now }
    requires long { length parts.now
        ≡ length (flat_map (partners_in lookup.now places.now) tuples.now) }
    ensures { (part : Tuple → Tuple)
        → parts.now ≡ map part (flat_map (partners_in lookup.now places.now) tuples.now)
        → IfOk result (λ values. values.items ≡ map (λ t. relation_value
        (relation_of like.now.heading (map part (partners_in lookup.now places.now t))))
        tuples.now) }
{
    let mut values = Vec::with_capacity(alloc, tuples.len())?;
    let mut left = parts;
    for tuple in tuples {
        let count = count_of(lookup, places, tuple);
        let (group, others) = left.split_at(count);
        values.push(value_of_set(alloc, like, group)?)?;
        left = others;
    }
    Ok(values)
}

/// For each of the keys the relation of the parts that the layout makes of the rows that agree with
/// it on the rest, as a value of the same heading as that relation.
fn group_values(
    alloc: Global,
    rel: &Rel,
    rest: &Heading,
    keys: &Rel,
    layout: &Layout,
    like: &Rel,
) -> Result<Vec<Value>, AllocError>
    requires rel { IsTrue (has_attributes (attribute_names rest.now) rel.now.heading) }
    requires keys { IsTrue (has_attributes (attribute_names rest.now) keys.now.heading) }
    requires range { All (λ t. AreInRange layout.now (values_of t)) rel.now.body }
    requires headed { All (λ t. IsTupleOf like.now.heading
        (placed_tuple layout.now (values_of t))) rel.now.body }
    ensures { IfOk result (λ values. values.items ≡ map (λ w. relation_value
        (relation_of like.now.heading (map (λ t. placed_tuple layout.now (values_of t))
        (filter (agree_on (attribute_names rest.now) w) rel.now.body)))) keys.now.body) }
{
    let own_places = common_places(alloc, rel.heading(), rest)?;
    let lookup = Lookup::new(alloc, &own_places, rel.rows())?;
    let places = common_places(alloc, keys.heading(), rest)?;
    let rows = rows_by_group(alloc, &lookup, &places, keys.rows(), rel.rows().len())?;
    let parts = wrapped_parts(alloc, layout, &rows)?;
    values_by_group(alloc, like, &parts, &lookup, &places, keys.rows())
}

/// The relation with the attributes of the names put into one relation-valued attribute. `can_nest`
/// is the test of what is required.
pub fn group(alloc: Global, rel: &Rel, names: &[Name], name: Name) -> Result<Rel, AllocError>
    requires { IsTrue (can_nest names.now name rel.now.heading) }
    ensures { IfOk result (λ r. r ≡ grouped_relation names.now name rel.now) }
{
    let heading = rel.heading();
    heading.reveal();
    rel.reveal();
    let part = without_refusal(heading.project(names))?;
    part.reveal();
    let rest = heading.lacking(&part)?;
    let keys = project(alloc, rel, &attribute_names(&rest)?)?;
    let layout = row_layout(alloc, &rest, heading, &[])?;
    let empty = Rel::of_ascending(part.try_clone()?, Vec::new(alloc))?;
    let values = group_values(alloc, rel, &rest, &keys, &layout, &empty)?;
    let ty = Ty::Rel(part);
    extend(alloc, &keys, name, Column { ty, values })
}
