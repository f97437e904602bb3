//! Where the values of a result's tuples come from.
ghost use Rattle.std.specs.Prelude.{◌≡◌, ◌↔◌, ◌+◌, ◌<◌, ◌^◌, ◌++◌, IfOk, IsTrue, OnOk, Some};
ghost use Rattle.std.specs.Prelude.{length};
ghost use Rattle.std.specs.Prelude.{map};
ghost use Rattle.std.specs.Cmp.Lexicographic.{slice_cmp};
ghost use Rattle.std.specs.List.{All, slice_get};
ghost use Rattle.std.specs.List.Sorted.{IsPermutation, IsStrictlySortedBy};
ghost use Rattle.std.specs.Ordering.{nat_cmp};
ghost use Rattle.td_algebra.specs.code.Columns.{cells_at};
ghost use Rattle.td_algebra.specs.code.Layouts.{AreInRange, numbered_sources, placed_values};
ghost use Rattle.td_algebra.specs.code.Layouts.{source_names, source_unless, sources_outside};
ghost use Rattle.td_types.specs.model.Headings.{are_distinct, outside};

use crate::extension::Column;
use std::alloc::{AllocError, Global};
use std::hash::{FoldHasher, Hash, Hasher};
use std::marker::Model;
use td_tree::name::Name;
use td_types::heading::Heading;
use td_types::names::names_of;
use td_value::names::NameList;
use td_value::placing::value_at;
use td_value::value::Value;

/// The names of a result's tuples, ascending, each with the place of its value in the values of
/// one tuple followed by those of another.
#[derive(Drop)]
pub struct Layout {
    names: NameList,
    places: Vec<usize>,
}

impl Model for Layout {
    ghost use Rattle.std.specs.Prelude.{◌≡◌, length};
    ghost use Rattle.std.specs.List.{zip};
    ghost use Rattle.td_algebra.specs.code.Layouts.{Sources};

    ghost Value = { Sources };

    ghost view = { λ a. zip a.names a.places.items };

    ghost invariant = { λ a. length a.names ≡ length a.places.items };
}

/// The places of the sources.
fn places_of(alloc: Global, sources: &[(Name, usize)]) -> Result<Vec<usize>, AllocError>
    ensures { IfOk result (λ places. places.items ≡ map (λ s. s.1) sources.now) }
{
    let mut places = Vec::with_capacity(alloc, sources.len())?;
    for (_, place) in sources {
        places.push(*place)?;
    }
    Ok(places)
}

/// The value at the place in those of the first, followed by those of the columns for a tuple at a
/// place.
fn cell_at<'a>(
    place: usize,
    first: &'a [Value],
    columns: &'a [(Name, Column)],
    at: usize,
) -> &'a Value
    requires range { place < length (first.now ++ cells_at at columns.now) }
    requires long { All (λ c. at < length c.1.values.items) columns.now }
    ensures { slice_get (first.now ++ cells_at at columns.now) place ≡ Some result.now }
{
    if place < first.len() {
        &first[place]
    } else {
        &columns[place - first.len()].1.values[at]
    }
}

impl Layout {
    /// The layout of the names, each with its place.
    pub fn new(alloc: Global, sources: Vec<(Name, usize)>) -> Result<Layout, AllocError>
        requires { IsTrue (are_distinct (map (λ s. s.0) sources.items)) }
        ensures { IfOk result (λ layout. IsPermutation sources.items layout) }
    {
        let mut sorted = sources;
        sorted.sort_unstable();
        let places = places_of(alloc, &sorted)?;
        let names = NameList::new(alloc, names_of(alloc, &sorted)?)?;
        Ok(Layout { names, places })
    }

    /// The names, ascending.
    pub(crate) fn names(&self) -> &NameList
        ensures names { result.now ≡ source_names self.now }
        ensures ascending { IsStrictlySortedBy (slice_cmp nat_cmp) (source_names self.now) }
    {
        self.names.reveal();
        &self.names
    }

    /// The places of the values, in the order of the names.
    pub(crate) fn places(&self) -> &[usize]
        ensures places { result.now ≡ map (λ s. s.1) self.now }
        ensures long { length result.now ≡ length (source_names self.now) }
    {
        self.places.as_slice()
    }

    /// Puts into the list, in place of what is there, the values at the places in those of the
    /// first, followed by those of the columns for a tuple at a place.
    pub(crate) fn put_cells(
        &self,
        first: &[Value],
        columns: &[(Name, Column)],
        at: usize,
        row: &mut Vec<Value>,
    ) -> Result<(), AllocError>
        requires range { AreInRange self.now (first.now ++ cells_at at columns.now) }
        requires long { All (λ c. at < length c.1.values.items) columns.now }
        ensures { OnOk result (row.new.items
            ≡ placed_values self.now (first.now ++ cells_at at columns.now)) }
    {
        row.clear();
        for place in &self.places {
            row.push(cell_at(*place, first, columns, at).try_clone()?)?;
        }
        Ok(())
    }

    /// A number by which a tuple that is made of the values can be looked up.
    pub(crate) fn hash_of(&self, values: &[Value]) -> u64
        requires { AreInRange self.now values.now }
    {
        let mut state = FoldHasher::default();
        for place in &self.places {
            value_at(*place, values, &[]).hash(&mut state);
        }
        state.finish()
    }

    /// Whether a tuple's own values are those that a tuple made of the values has.
    pub(crate) fn makes(&self, own: &[Value], values: &[Value]) -> bool
        requires long { length own.now ≡ length self.now }
        requires range { AreInRange self.now values.now }
        ensures { IsTrue result ↔ (own.now ≡ placed_values self.now values.now) }
    {
        for index in 0..self.places.len() {
            if own[index] != *value_at(self.places[index], values, &[]) {
                return false;
            }
        }
        true
    }
}

/// Puts the name with its place after the others, unless the part has an attribute of the name.
fn put_source(
    sources: &mut Vec<(Name, usize)>,
    name: &Name,
    place: usize,
    part: &Heading,
) -> Result<(), AllocError>
    ensures { OnOk result (sources.new.items
        ≡ sources.old.items ++ source_unless part.now name.now place) }
{
    if part.get(name).is_none() {
        sources.push((name.try_clone()?, place))?;
    }
    Ok(())
}

/// Puts the names with their places, counted from the start, after the others.
pub fn put_names(
    sources: &mut Vec<(Name, usize)>,
    names: &[Name],
    start: usize,
) -> Result<(), AllocError>
    requires { start + length names.now < 2 ^ 64 }
    ensures { OnOk result (sources.new.items
        ≡ sources.old.items ++ numbered_sources start names.now) }
{
    for index in 0..names.len() {
        sources.push((names[index].try_clone()?, start + index))?;
    }
    Ok(())
}

/// Puts the names of the heading's attributes with their places, counted from the start, after the
/// others; but for those that the part has too.
pub fn put_sources(
    sources: &mut Vec<(Name, usize)>,
    heading: &Heading,
    start: usize,
    part: &Heading,
) -> Result<(), AllocError>
    requires { start + length heading.now < 2 ^ 64 }
    ensures { OnOk result (sources.new.items
        ≡ sources.old.items ++ sources_outside part.now start heading.now) }
{
    for index in 0..heading.len() {
        if let Some((name, _)) = heading.at(index) {
            put_source(sources, name, start + index, part)?;
        }
    }
    Ok(())
}

/// The layout of the values of a heading's attributes whose names another has too.
pub(crate) fn kept_layout(
    alloc: Global,
    heading: &Heading,
    kept: &Heading,
) -> Result<Layout, AllocError>
    ensures { IfOk result (λ layout. IsPermutation
        (sources_outside (outside kept.now heading.now) 0 heading.now) layout) }
{
    heading.reveal();
    let dropped = heading.lacking(kept)?;
    let mut sources = Vec::new(alloc);
    put_sources(&mut sources, heading, 0, &dropped)?;
    Layout::new(alloc, sources)
}
