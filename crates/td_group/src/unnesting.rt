//! UNGROUP and UNWRAP: the tuples that an attribute's value has or is, each with the rest.
ghost use Rattle.std.specs.Prelude.{◌≡◌, ◌++◌, IfOk, IsTrue, OnOk, Some, map};
ghost use Rattle.std.specs.List.{All};
ghost use Rattle.td_algebra.specs.code.Pairs.{IsPaired, pair_tuple, pairs_with};
ghost use Rattle.td_group.specs.model.Nesting.{can_unnest, inner_heading, is_relation_type};
ghost use Rattle.td_group.specs.model.Nesting.{is_tuple_type, tuples_inside, unnested_relation};
ghost use Rattle.td_types.specs.model.Headings.{has_attribute};
ghost use Rattle.td_types.specs.model.Types.{type_at};
ghost use Rattle.td_value.specs.model.Values.{value_at};

use crate::groups::attribute_names;
use crate::layouts::row_layout;
use std::alloc::{AllocError, Global};
use td_algebra::laid_out::LaidOut;
use td_algebra::layout::Layout;
use td_tree::fault::without_refusal;
use td_tree::name::Name;
use td_types::heading::Heading;
use td_types::ty::Ty;
use td_value::relation::Rel;
use td_value::tuple::Tuple;
use td_value::value::{Node, Value};

/// The heading of the attribute of a tuple or relation type.
fn inner_heading(alloc: Global, heading: &Heading, name: &Name) -> Result<Heading, AllocError>
    ensures { IfOk result (λ h. h ≡ inner_heading name.now heading.now) }
{
    match heading.get(name) {
        Some(Ty::Tup(inner)) => inner.try_clone(),
        Some(Ty::Rel(inner)) => inner.try_clone(),
        _ => Ok(Heading::empty(alloc)),
    }
}

/// Puts the tuple that the layout makes of the row with each of the tuples after the others.
fn put_with_each(row: &Tuple, tuples: &[Tuple], laid: &mut LaidOut) -> Result<(), AllocError>
    requires { All (IsPaired laid.old.0 row.now) tuples.now }
    ensures layout { OnOk result (laid.new.0 ≡ laid.old.0) }
    ensures put { OnOk result (laid.new.1
        ≡ laid.old.1 ++ map (pair_tuple laid.old.0 row.now) tuples.now) }
{
    for tuple in tuples {
        laid.put(row.values(), tuple.values())?;
    }
    Ok(())
}

/// Puts the tuples that the layout makes of the row with each of those that the value has or is
/// after the others.
fn put_inside(row: &Tuple, value: &Value, laid: &mut LaidOut) -> Result<(), AllocError>
    requires { All (IsPaired laid.old.0 row.now) (tuples_inside (Some value.now)) }
    ensures layout { OnOk result (laid.new.0 ≡ laid.old.0) }
    ensures put { OnOk result (laid.new.1 ≡ laid.old.1
        ++ map (pair_tuple laid.old.0 row.now) (tuples_inside (Some value.now))) }
{
    match &value.node {
        Node::Tup(tuple) => laid.put(row.values(), tuple.values()),
        Node::Rel(inner) => put_with_each(row, inner.rows(), laid),
        _ => Ok(()),
    }
}

/// Puts the tuples that the layout makes of the row with each of those that its attribute's value
/// has or is after the others.
fn put_unnested(row: &Tuple, name: &Name, laid: &mut LaidOut) -> Result<(), AllocError>
    requires { All (IsPaired laid.old.0 row.now) (tuples_inside (value_at name.now row.now)) }
    ensures layout { OnOk result (laid.new.0 ≡ laid.old.0) }
    ensures put { OnOk result (laid.new.1 ≡ laid.old.1
        ++ map (pair_tuple laid.old.0 row.now) (tuples_inside (value_at name.now row.now))) }
{
    match row.get(name) {
        Some(value) => put_inside(row, value, laid),
        None => Ok(()),
    }
}

/// The tuples that the layout makes of each row with each of those that its attribute's value has
/// or is.
fn unnested_rows(
    alloc: Global,
    layout: &Layout,
    rows: &[Tuple],
    name: &Name,
) -> Result<Vec<Tuple>, AllocError>
    requires { All (λ u. All (IsPaired layout.now u) (tuples_inside (value_at name.now u)))
        rows.now }
    ensures { IfOk result (λ unnested. unnested.items ≡ pairs_with
        (λ u. tuples_inside (value_at name.now u)) (pair_tuple layout.now) rows.now) }
{
    let mut laid = LaidOut::new(alloc, layout, rows.len())?;
    for row in rows {
        put_unnested(row, name, &mut laid)?;
    }
    laid.finish(alloc)
}

/// The relation with what is inside the attribute in its place.
fn unnest(alloc: Global, rel: &Rel, name: &Name) -> Result<Rel, AllocError>
    requires there { IsTrue (has_attribute name.now rel.now.heading) }
    requires apart { IsTrue (can_unnest name.now rel.now.heading) }
    ensures { IfOk result (λ r. r ≡ unnested_relation name.now rel.now) }
{
    let heading = rel.heading();
    heading.reveal();
    let inner = inner_heading(alloc, heading, name)?;
    inner.reveal();
    let rest = without_refusal(heading.without(name))?;
    let part = heading.lacking(&rest)?;
    let layout = row_layout(alloc, &part, heading, &attribute_names(&inner)?)?;
    let rows = unnested_rows(alloc, &layout, rel.rows(), name)?;
    let heading = without_refusal(rest.union(&inner))?;
    Rel::new(heading, rows)
}

/// The relation with the tuples of a relation-valued attribute in its place. `can_unnest` is the
/// test of what is asked of the names.
pub fn ungroup(alloc: Global, rel: &Rel, name: &Name) -> Result<Rel, AllocError>
    requires relation { IsTrue (is_relation_type (type_at name.now rel.now.heading)) }
    requires apart { IsTrue (can_unnest name.now rel.now.heading) }
    ensures { IfOk result (λ r. r ≡ unnested_relation name.now rel.now) }
{
    unnest(alloc, rel, name)
}

/// The relation with the attributes of a tuple-valued attribute in its place. `can_unnest` is the
/// test of what is asked of the names.
pub fn unwrap(alloc: Global, rel: &Rel, name: &Name) -> Result<Rel, AllocError>
    requires tuple { IsTrue (is_tuple_type (type_at name.now rel.now.heading)) }
    requires apart { IsTrue (can_unnest name.now rel.now.heading) }
    ensures { IfOk result (λ r. r ≡ unnested_relation name.now rel.now) }
{
    unnest(alloc, rel, name)
}
