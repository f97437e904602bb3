//! Projection: the tuples with some of their attributes alone.
ghost use Rattle.std.specs.Prelude.{◌≡◌, ◌∷◌, ◌++◌, [], IfOk, IsTrue, OnOk, map};
ghost use Rattle.std.specs.List.{All};
ghost use Rattle.std.specs.List.Sorted.{IsPermutation};
ghost use Rattle.td_algebra.specs.code.Layouts.{AreInRange, Sources, placed_tuple};
ghost use Rattle.td_algebra.specs.model.Operators.{projected_relation};
ghost use Rattle.td_types.specs.model.Headings.{has_projection};
ghost use Rattle.td_value.specs.model.Values.{HaveSameMembers};
ghost use Rattle.td_value.specs.code.Views.{values_of};

use crate::laid_out::LaidOut;
use crate::layout::{Layout, kept_layout};
use std::alloc::{AllocError, Global};
use std::collections::HashMap;
use td_tree::fault::without_refusal;
use td_tree::name::Name;
use td_value::relation::Rel;
use td_value::tuple::Tuple;

/// Puts the tuple that is made of the row after the others, unless it is found among them: the
/// places tell by a hash where to look.
fn put_unseen(
    places: &mut HashMap<u64, usize>,
    kept: &mut LaidOut,
    row: &Tuple,
) -> Result<(), AllocError>
    requires { AreInRange kept.old.0 (values_of row.now) }
    ensures layout { OnOk result (kept.new.0 ≡ kept.old.0) }
    ensures members { (sources : Sources) → IsPermutation sources kept.old.0
        → OnOk result (HaveSameMembers kept.new.1
        (kept.old.1 ++ placed_tuple sources (values_of row.now) ∷ [])) }
{
    let values = row.values();
    let hash = kept.layout().hash_of(values);
    if kept.stands_at(values, places.get(&hash)) {
        return Ok(());
    }
    places.insert(hash, kept.len())?;
    kept.put(values, &[])
}

/// The tuples that the layout makes of the rows. One that comes again is mostly left out.
fn distinct(alloc: Global, layout: &Layout, rows: &[Tuple]) -> Result<Vec<Tuple>, AllocError>
    requires { All (λ t. AreInRange layout.now (values_of t)) rows.now }
    ensures { (sources : Sources) → IsPermutation sources layout.now
        → IfOk result (λ tuples. HaveSameMembers tuples.items
        (map (λ t. placed_tuple sources (values_of t)) rows.now)) }
{
    let mut places = HashMap::new(alloc);
    let mut kept = LaidOut::new(alloc, layout, 0)?;
    for row in rows {
        put_unseen(&mut places, &mut kept, row)?;
    }
    kept.finish(alloc)
}

/// The relation projected on the names. `Heading::has_projection` is the test of what is required.
pub fn project(alloc: Global, rel: &Rel, names: &[Name]) -> Result<Rel, AllocError>
    requires { IsTrue (has_projection names.now rel.now.heading) }
    ensures { IfOk result (λ r. r ≡ projected_relation names.now rel.now) }
{
    let operand = rel.heading();
    let heading = without_refusal(operand.project(names))?;
    if heading.len() == operand.len() {
        rel.reveal();
        return rel.try_clone();
    }
    let layout = kept_layout(alloc, operand, &heading)?;
    let rows = distinct(alloc, &layout, rel.rows())?;
    Rel::new(heading, rows)
}
