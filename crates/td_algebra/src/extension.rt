//! EXTEND: the tuples with new attributes, whose values are given as columns.
ghost use Rattle.std.specs.Prelude.{◌≡◌, ◌↔◌, ◌+◌, ◌<◌, ◌∷◌, ◌++◌, [], IfOk, IsTrue, List};
ghost use Rattle.std.specs.Prelude.{length, map, not};
ghost use Rattle.std.specs.Cmp.Lexicographic.{slice_cmp};
ghost use Rattle.std.specs.List.{All, list_all};
ghost use Rattle.std.specs.List.Sorted.{IsPermutation};
ghost use Rattle.std.specs.Ordering.{is_lt, nat_cmp};
ghost use Rattle.td_algebra.specs.code.Columns.{AreAfter, AreColumns, AreColumnsOf, IsColumn};
ghost use Rattle.td_algebra.specs.code.Columns.{column_attributes};
ghost use Rattle.td_algebra.specs.code.Columns.{columns_view};
ghost use Rattle.td_algebra.specs.code.Layouts.{Sources, placed_tuple, sources_with};
ghost use Rattle.td_algebra.specs.model.Operators.{Addition, extended_relation, new_attribute};
ghost use Rattle.td_types.specs.model.Headings.{are_distinct, has_attribute, have_no_common};
ghost use Rattle.td_types.specs.model.Headings.{heading_union, outside};
ghost use Rattle.td_types.specs.model.Types.{attribute_names};
ghost use Rattle.td_types.specs.code.Views.{type_view};
ghost use Rattle.td_value.specs.model.Values.{IsAscendingBody, IsTuple, IsTupleOf, Tuple, Val};
ghost use Rattle.td_value.specs.model.Values.{relation_of};
ghost use Rattle.td_value.specs.code.Views.{values_of};

use crate::laid_out::LaidOut;
use crate::layout::{Layout, put_names, put_sources};
use std::alloc::{AllocError, Global};
use td_tree::name::Name;
use td_types::heading::Heading;
use td_types::names::names_of;
use td_types::ty::Ty;
use td_value::relation::Rel;
use td_value::tuple::Tuple;
use td_value::value::Value;

/// A new attribute's type, and its value for each row of a relation, in the order of the rows.
#[derive(Drop)]
pub struct Column {
    pub ty: Ty,
    pub values: Vec<Value>,
}

impl Column {
    /// Whether there is one value of the type for each row.
    pub fn fits(&self, rel: &Rel) -> bool
        ensures { IsTrue result
            ↔ IsColumn (type_view self.now.ty) self.now.values.items rel.now.body }
    {
        self.values.len() == rel.rows().len()
            && self.values.iter().all(|value| value.has_type(&self.ty))
    }
}

/// The heading with the columns' attributes.
pub(crate) fn heading_with(
    heading: &Heading,
    columns: &[(Name, Column)],
) -> Result<Heading, AllocError>
    ensures { IfOk result (λ h.
        h ≡ heading_union heading.now (column_attributes (columns_view columns.now))) }
{
    let mut extended = heading.try_clone()?;
    for (name, column) in columns {
        extended = extended.add(name.try_clone()?, column.ty.try_clone()?)?;
    }
    Ok(extended)
}

/// The layout of a row's values, but for those of the part's names, followed by the columns'.
pub(crate) fn extended_layout(
    alloc: Global,
    part: &Heading,
    heading: &Heading,
    names: &[Name],
) -> Result<Layout, AllocError>
    requires { IsTrue (are_distinct (attribute_names (outside part.now heading.now) ++ names.now)) }
    ensures { IfOk result (λ layout.
        IsPermutation (sources_with part.now heading.now names.now) layout) }
{
    heading.reveal();
    let mut sources = Vec::new(alloc);
    put_sources(&mut sources, heading, 0, part)?;
    put_names(&mut sources, names, heading.len())?;
    Layout::new(alloc, sources)
}

/// The rows, each with its values of the columns.
pub(crate) fn extended_rows(
    alloc: Global,
    rows: &[Tuple],
    columns: &[(Name, Column)],
    layout: &Layout,
) -> Result<Vec<Tuple>, AllocError>
    requires fit { AreColumns (columns_view columns.now) rows.now }
    requires range { All (λ t. All (λ s. s.1 < length (values_of t) + length columns.now)
        layout.now) rows.now }
    ensures rows { (sources : Sources) (additions : List Addition)
        → IsPermutation sources layout.now
        → AreColumnsOf (columns_view columns.now) rows.now additions
        → IfOk result (λ made. made.items
        ≡ map (λ t. placed_tuple sources
        (values_of t ++ map (λ a. a.value t) additions)) rows.now) }
    ensures valid { IfOk result (λ made. All IsTuple made.items) }
{
    let mut extended = LaidOut::new(alloc, layout, rows.len())?;
    for row in 0..rows.len() {
        extended.put_extended(rows[row].values(), columns, row)?;
    }
    extended.finish(alloc)
}

/// The relation of the rows, which ascend already where that is told.
fn relation_of(heading: Heading, rows: Vec<Tuple>, ascend: bool) -> Result<Rel, AllocError>
    requires headed { All (IsTupleOf heading) rows.items }
    requires ascending { IsTrue ascend → IsAscendingBody rows.items }
    ensures { IfOk result (λ r. r ≡ relation_of heading rows.items) }
{
    if ascend {
        Rel::of_ascending(heading, rows)
    } else {
        Rel::new(heading, rows)
    }
}

/// Whether each of the names stands after the last one.
fn are_above(last: &Name, names: &[Name]) -> bool
    ensures { result ≡ list_all (λ n. is_lt (slice_cmp nat_cmp last.now n)) names.now }
{
    names.iter().all(|name| last < name)
}

/// Whether the names come after all those of the heading. An empty heading has no last name.
fn come_after(heading: &Heading, names: &[Name]) -> bool
    ensures { IsTrue result → AreAfter heading.now names.now }
{
    let Some(place) = heading.len().checked_sub(1) else {
        return false;
    };
    match heading.at(place) {
        Some((last, _)) => are_above(last, names),
        None => false,
    }
}

/// The relation with several new attributes. `Heading::is_apart_from` and `Column::fits` are tests
/// of what is required.
pub fn extend_all(alloc: Global, rel: &Rel, columns: Vec<(Name, Column)>) -> Result<Rel, AllocError>
    requires distinct { IsTrue (are_distinct
        (attribute_names (column_attributes (columns_view columns.items)))) }
    requires new { IsTrue (have_no_common
        (column_attributes (columns_view columns.items)) rel.now.heading) }
    requires fit { AreColumns (columns_view columns.items) rel.now.body }
    ensures { (additions : List Addition)
        → AreColumnsOf (columns_view columns.items) rel.now.body additions
        → IfOk result (λ r. r ≡ extended_relation additions rel.now) }
{
    let old = rel.heading();
    old.reveal();
    let heading = heading_with(old, &columns)?;
    heading.reveal();
    let names = names_of(alloc, &columns)?;
    let nothing = Heading::empty(alloc);
    let layout = extended_layout(alloc, &nothing, old, &names)?;
    let rows = extended_rows(alloc, rel.rows(), &columns, &layout)?;
    let ascend = come_after(old, &names);
    relation_of(heading, rows, ascend)
}

/// The relation with one new attribute. `Heading::get` and `Column::fits` are tests of what is
/// required.
pub fn extend(alloc: Global, rel: &Rel, name: Name, column: Column) -> Result<Rel, AllocError>
    requires new { IsTrue (not (has_attribute name rel.now.heading)) }
    requires fit { IsColumn (type_view column.ty) column.values.items rel.now.body }
    ensures { (value : Tuple → Val) → column.values.items ≡ map value rel.now.body
        → IfOk result (λ r. r
        ≡ extended_relation (new_attribute name (type_view column.ty) value ∷ []) rel.now) }
{
    let mut columns = Vec::with_capacity(alloc, 1)?;
    columns.push((name, column))?;
    extend_all(alloc, rel, columns)
}
