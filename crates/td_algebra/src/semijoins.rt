//! MATCHING and NOT MATCHING.
ghost use Rattle.std.specs.Prelude.{◌≡◌, IfOk, filter};
ghost use Rattle.std.specs.List.{All, list_any};
ghost use Rattle.td_algebra.specs.code.Lookups.{AreWithin, has_partner_in, wanted_answer};
ghost use Rattle.td_algebra.specs.model.Operators.{are_partners, restriction, semidifference};
ghost use Rattle.td_algebra.specs.model.Operators.{semijoin};
ghost use Rattle.td_value.specs.code.Views.{values_of};

use crate::lookup::{Lookup, common_places};
use std::alloc::{AllocError, Global};
use td_value::relation::Rel;
use td_value::tuple::Tuple;

/// The rows that have a partner in the look-up, or else those that have none.
fn rows_by_partners(
    alloc: Global,
    places: &[usize],
    rows: &[Tuple],
    lookup: &Lookup,
    there: bool,
) -> Result<Vec<Tuple>, AllocError>
    requires { All (λ t. AreWithin places.now (values_of t)) rows.now }
    ensures { IfOk result (λ kept. kept.items
        ≡ filter (λ t. wanted_answer there (has_partner_in lookup.now places.now t)) rows.now) }
{
    let mut kept = Vec::new(alloc);
    for row in rows {
        if lookup.has_partner(places, row) == there {
            kept.push(row.try_clone()?)?;
        }
    }
    Ok(kept)
}

/// The tuples that have a partner in the other, or else those that have none.
fn by_partners(alloc: Global, rel: &Rel, other: &Rel, there: bool) -> Result<Rel, AllocError>
    ensures { IfOk result (λ r. r ≡ restriction (λ t. wanted_answer there
        (list_any (are_partners rel.now other.now t) other.now.body)) rel.now) }
{
    let partner_places = common_places(alloc, other.heading(), rel.heading())?;
    let lookup = Lookup::new(alloc, &partner_places, other.rows())?;
    let places = common_places(alloc, rel.heading(), other.heading())?;
    let kept = rows_by_partners(alloc, &places, rel.rows(), &lookup, there)?;
    Rel::of_ascending(rel.heading().try_clone()?, kept)
}

/// The tuples that have a partner in the other relation.
pub fn matching(alloc: Global, rel: &Rel, other: &Rel) -> Result<Rel, AllocError>
    ensures { IfOk result (λ r. r ≡ semijoin rel.now other.now) }
{
    by_partners(alloc, rel, other, true)
}

/// The tuples that have none.
pub fn not_matching(alloc: Global, rel: &Rel, other: &Rel) -> Result<Rel, AllocError>
    ensures { IfOk result (λ r. r ≡ semidifference rel.now other.now) }
{
    by_partners(alloc, rel, other, false)
}
