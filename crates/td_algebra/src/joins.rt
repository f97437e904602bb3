//! JOIN, TIMES and COMPOSE.
ghost use Rattle.std.specs.Prelude.{◌≡◌, ◌+◌, ◌<◌, ◌^◌, ◌++◌, IfOk, IsTrue, OnOk, filter, length};
ghost use Rattle.std.specs.Prelude.{map};
ghost use Rattle.std.specs.List.{All};
ghost use Rattle.std.specs.List.Sorted.{IsPermutation};
ghost use Rattle.td_types.specs.model.Headings.{agree, have_no_common};
ghost use Rattle.td_types.specs.model.Types.{IsHeading, attribute_names, pack};
ghost use Rattle.td_value.specs.model.Values.{Tuple, HaveSameMembers, IsTupleOf};
ghost use Rattle.td_value.specs.code.Views.{values_of};
ghost use Rattle.td_algebra.specs.code.Columns.{AreAfter};
ghost use Rattle.td_algebra.specs.code.Lookups.{AreWithin, partners_in};
ghost use Rattle.td_algebra.specs.model.Operators.{are_partners, composition, join, product};
ghost use Rattle.td_algebra.specs.code.Pairs.{IsPaired, pair_sources, pair_tuple, pairs_with};
ghost use Rattle.td_algebra.specs.code.Pairs.{partners_paired};

use crate::laid_out::LaidOut;
use crate::layout::{Layout, put_sources};
use crate::lookup::{Lookup, common_places};
use std::alloc::{AllocError, Global};
use td_tree::fault::without_refusal;
use td_types::heading::Heading;
use td_value::relation::Rel;
use td_value::tuple::Tuple;

/// Puts the row's tuple with each of its partners after the others.
fn put_pairs(
    places: &[usize],
    row: &Tuple,
    lookup: &Lookup,
    pairs: &mut LaidOut,
) -> Result<(), AllocError>
    requires within { AreWithin places.now (values_of row.now) }
    requires paired { All (IsPaired pairs.old.0 row.now)
        (partners_in lookup.now places.now row.now) }
    ensures layout { OnOk result (pairs.new.0 ≡ pairs.old.0) }
    ensures put { OnOk result (pairs.new.1 ≡ pairs.old.1
        ++ map (pair_tuple pairs.old.0 row.now) (partners_in lookup.now places.now row.now)) }
{
    for partner in lookup.partners(places, row) {
        pairs.put(row.values(), partner.values())?;
    }
    Ok(())
}

/// The tuples of each row with each of its partners.
fn pairs_of(
    alloc: Global,
    layout: &Layout,
    places: &[usize],
    rows: &[Tuple],
    lookup: &Lookup,
) -> Result<Vec<Tuple>, AllocError>
    requires within { All (λ t. AreWithin places.now (values_of t)) rows.now }
    requires paired { All (λ t. All (IsPaired layout.now t)
        (partners_in lookup.now places.now t)) rows.now }
    ensures { IfOk result (λ pairs. pairs.items
        ≡ pairs_with (partners_in lookup.now places.now) (pair_tuple layout.now) rows.now) }
{
    let mut pairs = LaidOut::new(alloc, layout, rows.len())?;
    for row in rows {
        put_pairs(places, row, lookup, &mut pairs)?;
    }
    pairs.finish(alloc)
}

/// The tuples of the pairs of partners, found by the values of the other's tuples.
fn partner_pairs(
    alloc: Global,
    rel: &Rel,
    other: &Rel,
    layout: &Layout,
) -> Result<Vec<Tuple>, AllocError>
    requires { (t u : Tuple) → IsTupleOf rel.now.heading t → IsTupleOf other.now.heading u
        → IsPaired layout.now t u }
    ensures { IfOk result (λ pairs. pairs.items ≡ pairs_with
        (λ t. filter (are_partners rel.now other.now t) other.now.body)
        (pair_tuple layout.now) rel.now.body) }
{
    let partner_places = common_places(alloc, other.heading(), rel.heading())?;
    let lookup = Lookup::new(alloc, &partner_places, other.rows())?;
    let places = common_places(alloc, rel.heading(), other.heading())?;
    pairs_of(alloc, layout, &places, rel.rows(), &lookup)
}

/// The layout of the tuples of pairs: the names of the one heading but for those that are left out,
/// and those that it lacks of the other. The values of each are counted from a start.
fn pair_layout(
    alloc: Global,
    left_out: &Heading,
    heading: &Heading,
    start: usize,
    other: &Heading,
    other_start: usize,
) -> Result<Layout, AllocError>
    requires own { start + length heading.now < 2 ^ 64 }
    requires other { other_start + length other.now < 2 ^ 64 }
    ensures { IfOk result (λ layout. IsPermutation
        (pair_sources left_out.now start heading.now other_start other.now) layout) }
{
    heading.reveal();
    other.reveal();
    let mut sources = Vec::new(alloc);
    put_sources(&mut sources, heading, start, left_out)?;
    put_sources(&mut sources, other, other_start, heading)?;
    Layout::new(alloc, sources)
}

/// The joined tuples of two relations, where the partners in the second are looked up.
fn pairs_from_first(
    alloc: Global,
    left_out: &Heading,
    rel: &Rel,
    other: &Rel,
) -> Result<Vec<Tuple>, AllocError>
    ensures { IfOk result (λ pairs. pairs.items
        ≡ partners_paired left_out.now rel.now other.now) }
{
    let heading = rel.heading();
    let others = other.heading();
    rel.reveal();
    other.reveal();
    heading.reveal();
    others.reveal();
    let layout = pair_layout(alloc, left_out, heading, 0, others, heading.len())?;
    partner_pairs(alloc, rel, other, &layout)
}

/// The joined tuples of two relations, where the partners in the first are looked up.
fn pairs_from_second(
    alloc: Global,
    left_out: &Heading,
    rel: &Rel,
    other: &Rel,
) -> Result<Vec<Tuple>, AllocError>
    ensures { IfOk result (λ pairs. HaveSameMembers pairs.items
        (partners_paired left_out.now rel.now other.now)) }
{
    let heading = rel.heading();
    let others = other.heading();
    rel.reveal();
    other.reveal();
    heading.reveal();
    others.reveal();
    let layout = pair_layout(alloc, left_out, heading, others.len(), others, 0)?;
    partner_pairs(alloc, other, rel, &layout)
}

/// The joined tuples of two relations. Partners are looked up in the relation with fewer tuples.
fn partners_of_either(
    alloc: Global,
    left_out: &Heading,
    rel: &Rel,
    other: &Rel,
) -> Result<Vec<Tuple>, AllocError>
    ensures { IfOk result (λ pairs. HaveSameMembers pairs.items
        (partners_paired left_out.now rel.now other.now)) }
{
    if rel.rows().len() < other.rows().len() {
        pairs_from_second(alloc, left_out, rel, other)
    } else {
        pairs_from_first(alloc, left_out, rel, other)
    }
}

/// Each tuple united with each of its partners in the other relation, which are found by a hash of
/// the values of the common attributes.
pub fn hash_join(alloc: Global, rel: &Rel, other: &Rel) -> Result<Rel, AllocError>
    requires { IsTrue (agree rel.now.heading other.now.heading) }
    ensures { IfOk result (λ r. r ≡ join rel.now other.now) }
{
    rel.reveal();
    other.reveal();
    let heading = without_refusal(rel.heading().union(other.heading()))?;
    let none = Heading::empty(alloc);
    let pairs = partners_of_either(alloc, &none, rel, other)?;
    Rel::new(heading, pairs)
}

/// Each tuple united with each of its partners in the other relation.
pub fn join(alloc: Global, rel: &Rel, other: &Rel) -> Result<Rel, AllocError>
    requires { IsTrue (agree rel.now.heading other.now.heading) }
    ensures { IfOk result (λ r. r ≡ join rel.now other.now) }
{
    hash_join(alloc, rel, other)
}

/// Puts the row's tuple with each of the others after those that are there.
fn put_with_each(row: &Tuple, others: &[Tuple], pairs: &mut LaidOut) -> Result<(), AllocError>
    requires { All (IsPaired pairs.old.0 row.now) others.now }
    ensures layout { OnOk result (pairs.new.0 ≡ pairs.old.0) }
    ensures put { OnOk result (pairs.new.1
        ≡ pairs.old.1 ++ map (pair_tuple pairs.old.0 row.now) others.now) }
{
    let values = row.values();
    for other in others {
        pairs.put(values, other.values())?;
    }
    Ok(())
}

/// The tuples of each row with each of the others.
fn all_pairs(
    alloc: Global,
    layout: &Layout,
    rows: &[Tuple],
    others: &[Tuple],
) -> Result<Vec<Tuple>, AllocError>
    requires { All (λ t. All (IsPaired layout.now t) others.now) rows.now }
    ensures { IfOk result (λ pairs. pairs.items
        ≡ pairs_with (λ t. others.now) (pair_tuple layout.now) rows.now) }
{
    let count = rows.len().saturating_mul(others.len());
    let mut pairs = LaidOut::new(alloc, layout, count)?;
    for row in rows {
        put_with_each(row, others, &mut pairs)?;
    }
    pairs.finish(alloc)
}

/// Whether all attributes of the other heading come after those of the heading. An empty one has
/// no first or last.
fn comes_before(heading: &Heading, other: &Heading) -> bool
    ensures { IsTrue result → AreAfter heading.now (attribute_names other.now) }
{
    let Some(place) = heading.len().checked_sub(1) else {
        return false;
    };
    match (heading.at(place), other.at(0)) {
        (Some((last, _)), Some((first, _))) => last < first,
        _ => false,
    }
}

/// The product, where the attributes of the second relation come after those of the first: its
/// tuples are made in their order.
fn ascending_product(alloc: Global, rel: &Rel, other: &Rel) -> Result<Rel, AllocError>
    requires apart { IsTrue (have_no_common rel.now.heading other.now.heading) }
    requires after { AreAfter rel.now.heading (attribute_names other.now.heading) }
    ensures { IfOk result (λ r. r ≡ product rel.now other.now) }
{
    rel.reveal();
    other.reveal();
    let heading = rel.heading();
    let others = other.heading();
    heading.reveal();
    others.reveal();
    let none = Heading::empty(alloc);
    let layout = pair_layout(alloc, &none, heading, 0, others, heading.len())?;
    let pairs = all_pairs(alloc, &layout, rel.rows(), other.rows())?;
    let united = without_refusal(heading.union(others))?;
    Rel::of_ascending(united, pairs)
}

/// Each tuple united with each of the other relation.
pub fn times(alloc: Global, rel: &Rel, other: &Rel) -> Result<Rel, AllocError>
    requires { IsTrue (have_no_common rel.now.heading other.now.heading) }
    ensures { IfOk result (λ r. r ≡ product rel.now other.now) }
{
    if comes_before(rel.heading(), other.heading()) {
        return ascending_product(alloc, rel, other);
    }
    if comes_before(other.heading(), rel.heading()) {
        rel.reveal();
        other.reveal();
        rel.heading().reveal();
        other.heading().reveal();
        return ascending_product(alloc, other, rel);
    }
    join(alloc, rel, other)
}

/// The join without the common attributes.
pub fn compose(alloc: Global, rel: &Rel, other: &Rel) -> Result<Rel, AllocError>
    requires { IsTrue (agree rel.now.heading other.now.heading) }
    ensures { IfOk result (λ r. r ≡ composition rel.now other.now) }
{
    rel.reveal();
    other.reveal();
    rel.heading().reveal();
    let own = rel.heading().lacking(other.heading())?;
    let others = other.heading().lacking(rel.heading())?;
    let heading = without_refusal(own.union(&others))?;
    let pairs = partners_of_either(alloc, other.heading(), rel, other)?;
    Rel::new(heading, pairs)
}
