//! UNION, INTERSECT, MINUS, inclusion and disjointness, by a pass over the ascending tuples of both
//! operands side by side, or by a search for each tuple of one that is far shorter. Both have one
//! heading.
ghost use Rattle.std.specs.Prelude.{◌≡◌, ◌++◌, IfOk, IsTrue, OnOk, filter};
ghost use Rattle.std.specs.List.{All, list_all};
ghost use Rattle.td_algebra.specs.code.Merges.{begins_with, below, is_wanted, merged_tuples};
ghost use Rattle.td_algebra.specs.code.Merges.{not_below};
ghost use Rattle.td_algebra.specs.code.Merges.{without_first};
ghost use Rattle.td_algebra.specs.model.Operators.{difference, intersection, is_disjoint};
ghost use Rattle.td_algebra.specs.model.Operators.{is_subset, restriction, union};
ghost use Rattle.td_value.specs.model.Values.{IsAscendingBody, IsTupleOf, relation_view};

use std::alloc::{AllocError, Global};
use td_value::relation::Rel;
use td_value::tuple::Tuple;

/// The rows from the first on that is not below the row.
fn not_below<'a>(rows: &'a [Tuple], row: &Tuple) -> &'a [Tuple]
    ensures { result.now ≡ not_below row.now rows.now }
{
    let mut rest = rows;
    while let [first, later @ ..] = rest {
        if !first.cmp(row).is_lt() {
            return rest;
        }
        rest = later;
    }
    rest
}

/// Whether the first of the rows is the row.
fn begins_with(rows: &[Tuple], row: &Tuple) -> bool
    ensures { result ≡ begins_with row.now rows.now }
{
    match rows {
        [first, ..] => row == first,
        [] => false,
    }
}

/// The rows without the first where that is the row.
fn without_first<'a>(rows: &'a [Tuple], row: &Tuple) -> &'a [Tuple]
    ensures { result.now ≡ without_first row.now rows.now }
{
    match rows {
        [first, later @ ..] if row == first => later,
        _ => rows,
    }
}

/// Puts copies of the rows, as long as they are below the row, after the others; and gives the rows
/// after them.
fn put_below<'a>(
    kept: &mut Vec<Tuple>,
    rows: &'a [Tuple],
    row: &Tuple,
) -> Result<&'a [Tuple], AllocError>
    ensures kept { OnOk result (kept.new.items ≡ kept.old.items ++ below row.now rows.now) }
    ensures rest { IfOk result (λ rest. rest.now ≡ not_below row.now rows.now) }
{
    let mut rest = rows;
    while let [first, later @ ..] = rest {
        if !first.cmp(row).is_lt() {
            return Ok(rest);
        }
        kept.push(first.try_clone()?)?;
        rest = later;
    }
    Ok(rest)
}

/// Puts copies of the rows after the others.
fn append_copies(kept: &mut Vec<Tuple>, rows: &[Tuple]) -> Result<(), AllocError>
    ensures { OnOk result (kept.new.items ≡ kept.old.items ++ rows.now) }
{
    for row in rows {
        kept.push(row.try_clone()?)?;
    }
    Ok(())
}

/// The rows of both, ascending.
fn merged_tuples(alloc: Global, rows: &[Tuple], others: &[Tuple]) -> Result<Vec<Tuple>, AllocError>
    ensures { IfOk result (λ merge. merge.items ≡ merged_tuples rows.now others.now) }
{
    let mut kept = Vec::with_capacity(alloc, rows.len())?;
    let mut rest = others;
    for row in rows {
        rest = put_below(&mut kept, rest, row)?;
        kept.push(row.try_clone()?)?;
        rest = without_first(rest, row);
    }
    append_copies(&mut kept, rest)?;
    Ok(kept)
}

/// The rows that are among the others, or those that are not, as is wanted.
fn kept_rows(
    alloc: Global,
    rows: &[Tuple],
    others: &[Tuple],
    wanted: bool,
) -> Result<Vec<Tuple>, AllocError>
    requires rows { IsAscendingBody rows.now }
    requires others { IsAscendingBody others.now }
    ensures { IfOk result (λ kept. kept.items ≡ filter (is_wanted wanted others.now) rows.now) }
{
    let mut kept = Vec::new(alloc);
    let mut rest = others;
    for row in rows {
        rest = not_below(rest, row);
        if begins_with(rest, row) == wanted {
            kept.push(row.try_clone()?)?;
        }
    }
    Ok(kept)
}

/// The rows that the relation has, or those that it has not, as is wanted. Each is searched for.
fn searched_rows(
    alloc: Global,
    rows: &[Tuple],
    other: &Rel,
    wanted: bool,
) -> Result<Vec<Tuple>, AllocError>
    ensures { IfOk result (λ kept. kept.items ≡ filter (is_wanted wanted other.now.body) rows.now) }
{
    let mut kept = Vec::new(alloc);
    for row in rows {
        if other.contains(row) == wanted {
            kept.push(row.try_clone()?)?;
        }
    }
    Ok(kept)
}

/// From so many times as many rows on, a search for each of the fewer is faster than a pass over
/// both.
const FAR_MORE: usize = 16;

/// The rows of the first that the second has, or those that it has not, as is wanted.
fn chosen_rows(
    alloc: Global,
    rel: &Rel,
    other: &Rel,
    wanted: bool,
) -> Result<Vec<Tuple>, AllocError>
    ensures { IfOk result (λ kept.
        kept.items ≡ filter (is_wanted wanted other.now.body) rel.now.body) }
{
    if rel.rows().len() < other.rows().len() / FAR_MORE {
        searched_rows(alloc, rel.rows(), other, wanted)
    } else {
        kept_rows(alloc, rel.rows(), other.rows(), wanted)
    }
}

/// The relation with the heading of another, of rows of that heading that ascend.
pub(crate) fn with_rows(rel: &Rel, rows: Vec<Tuple>) -> Result<Rel, AllocError>
    requires headed { All (IsTupleOf rel.now.heading) rows.items }
    requires ascending { IsAscendingBody rows.items }
    ensures { IfOk result (λ r. r ≡ relation_view rel.now.heading rows.items) }
{
    Rel::of_ascending(rel.heading().try_clone()?, rows)
}

/// Whether it is soon found that all tuples of the first are wanted: it has none, or those that the
/// second has not are wanted and that has none.
fn keeps_all(rel: &Rel, other: &Rel, wanted: bool) -> bool
    ensures { IsTrue result → filter (is_wanted wanted other.now.body) rel.now.body ≡ rel.now.body }
{
    if wanted {
        rel.rows().is_empty()
    } else {
        rel.rows().is_empty() || other.rows().is_empty()
    }
}

/// The tuples of the first that are in the second, or those that are not, as is wanted.
fn wanted_part(alloc: Global, rel: &Rel, other: &Rel, wanted: bool) -> Result<Rel, AllocError>
    ensures { IfOk result (λ r.
        r ≡ restriction (is_wanted wanted other.now.body) rel.now) }
{
    rel.reveal();
    if keeps_all(rel, other, wanted) {
        return rel.try_clone();
    }
    let rows = chosen_rows(alloc, rel, other, wanted)?;
    with_rows(rel, rows)
}

/// The tuples that are in the one or in the other.
pub fn union(alloc: Global, rel: &Rel, other: &Rel) -> Result<Rel, AllocError>
    requires { rel.now.heading ≡ other.now.heading }
    ensures { IfOk result (λ r. r ≡ union rel.now other.now) }
{
    rel.reveal();
    if other.rows().is_empty() {
        return rel.try_clone();
    }
    if rel.rows().is_empty() {
        return other.try_clone();
    }
    let rows = merged_tuples(alloc, rel.rows(), other.rows())?;
    with_rows(rel, rows)
}

/// The tuples that are in both: those of the shorter that the other has.
pub fn intersect(alloc: Global, rel: &Rel, other: &Rel) -> Result<Rel, AllocError>
    requires { rel.now.heading ≡ other.now.heading }
    ensures { IfOk result (λ r. r ≡ intersection rel.now other.now) }
{
    if other.rows().len() < rel.rows().len() {
        wanted_part(alloc, other, rel, true)
    } else {
        wanted_part(alloc, rel, other, true)
    }
}

/// The tuples that are in the first and not in the second.
pub fn minus(alloc: Global, rel: &Rel, other: &Rel) -> Result<Rel, AllocError>
    requires { rel.now.heading ≡ other.now.heading }
    ensures { IfOk result (λ r. r ≡ difference rel.now other.now) }
{
    wanted_part(alloc, rel, other, false)
}

/// Whether each of the rows is among the others, or whether none is, as is wanted.
fn are_wanted(rows: &[Tuple], others: &[Tuple], wanted: bool) -> bool
    requires rows { IsAscendingBody rows.now }
    requires others { IsAscendingBody others.now }
    ensures { result ≡ list_all (is_wanted wanted others.now) rows.now }
{
    let mut rest = others;
    for row in rows {
        rest = not_below(rest, row);
        if begins_with(rest, row) != wanted {
            return false;
        }
    }
    true
}

/// Whether each tuple of the first is in the second.
pub fn subset(rel: &Rel, other: &Rel) -> bool
    requires { rel.now.heading ≡ other.now.heading }
    ensures { result ≡ is_subset rel.now other.now }
{
    are_wanted(rel.rows(), other.rows(), true)
}

/// Whether no tuple is in both.
pub fn disjoint(rel: &Rel, other: &Rel) -> bool
    requires { rel.now.heading ≡ other.now.heading }
    ensures { result ≡ is_disjoint rel.now other.now }
{
    are_wanted(rel.rows(), other.rows(), false)
}
