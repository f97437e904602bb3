//! WRAP: each tuple with the tuple of some of its attributes in their place.
ghost use Rattle.std.specs.Prelude.{◌≡◌, ◌∷◌, ◌++◌, [], IfOk, IsTrue, length, map};
ghost use Rattle.std.specs.List.{All};
ghost use Rattle.std.specs.List.Sorted.{IsPermutation};
ghost use Rattle.td_algebra.specs.code.Layouts.{AreInRange, Sources, placed_tuple};
ghost use Rattle.td_group.specs.model.Nesting.{can_nest, wrapped_relation};
ghost use Rattle.td_value.specs.model.Values.{Tuple, Val, tuple_value};
ghost use Rattle.td_value.specs.code.Views.{values_of};

use crate::layouts::row_layout;
use std::alloc::{AllocError, Global};
use td_algebra::laid_out::LaidOut;
use td_algebra::layout::Layout;
use td_tree::fault::without_refusal;
use td_tree::name::Name;
use td_types::ty::Ty;
use td_value::relation::Rel;
use td_value::tuple::Tuple;
use td_value::value::Value;

/// The tuples that the layout makes of the rows.
pub(crate) fn wrapped_parts(
    alloc: Global,
    layout: &Layout,
    rows: &[Tuple],
) -> Result<Vec<Tuple>, AllocError>
    requires { All (λ t. AreInRange layout.now (values_of t)) rows.now }
    ensures { (sources : Sources) → IsPermutation sources layout.now
        → IfOk result (λ parts. parts.items
        ≡ map (λ t. placed_tuple sources (values_of t)) rows.now) }
{
    let mut parts = LaidOut::new(alloc, layout, rows.len())?;
    for row in rows {
        parts.put(row.values(), &[])?;
    }
    parts.finish(alloc)
}

/// The tuples that the layout makes of the rows, each with its part as one value more.
fn wrapped_rows(
    alloc: Global,
    layout: &Layout,
    rows: &[Tuple],
    parts: &[Tuple],
) -> Result<Vec<Tuple>, AllocError>
    requires long { length parts.now ≡ length rows.now }
    requires range { All (λ t. (v : Val) → AreInRange layout.now (values_of t ++ v ∷ []))
        rows.now }
    ensures { (sources : Sources) (part : Tuple → Tuple) → IsPermutation sources layout.now
        → parts.now ≡ map part rows.now
        → IfOk result (λ wrapped. wrapped.items
        ≡ map (λ t. placed_tuple sources (values_of t ++ tuple_value (part t) ∷ [])) rows.now) }
{
    let mut wrapped = LaidOut::new(alloc, layout, rows.len())?;
    for index in 0..rows.len() {
        let part = Value::tuple(alloc, parts[index].try_clone()?)?;
        wrapped.put(rows[index].values(), &[part])?;
    }
    wrapped.finish(alloc)
}

/// The relation with the attributes of the names put into one tuple-valued attribute. `can_nest` is
/// the test of what is required.
pub fn wrap(alloc: Global, rel: &Rel, names: &[Name], name: Name) -> Result<Rel, AllocError>
    requires { IsTrue (can_nest names.now name rel.now.heading) }
    ensures { IfOk result (λ r. r ≡ wrapped_relation names.now name rel.now) }
{
    let heading = rel.heading();
    heading.reveal();
    let part = without_refusal(heading.project(names))?;
    let rest = heading.lacking(&part)?;
    let part_layout = row_layout(alloc, &rest, heading, &[])?;
    let parts = wrapped_parts(alloc, &part_layout, rel.rows())?;
    let layout = row_layout(alloc, &part, heading, &[name.try_clone()?])?;
    let rows = wrapped_rows(alloc, &layout, rel.rows(), &parts)?;
    let heading = without_refusal(rest.with(name, Ty::Tup(part)))?;
    heading.reveal();
    Rel::new(heading, rows)
}
