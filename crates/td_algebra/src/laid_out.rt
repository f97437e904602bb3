//! The tuples that a layout makes of values, one after the other.
ghost use Rattle.std.specs.Prelude.{◌≡◌, ◌<◌, ◌∷◌, ◌++◌, [], IfOk, IsTrue, OnOk, length};
ghost use Rattle.std.specs.List.{All, Contains};
ghost use Rattle.std.specs.List.Sorted.{IsPermutation};
ghost use Rattle.td_algebra.specs.code.Columns.{cells_at};
ghost use Rattle.td_algebra.specs.code.Layouts.{AreInRange, Sources, placed_tuple};
ghost use Rattle.td_value.specs.model.Values.{IsTuple};

use crate::extension::Column;
use crate::layout::Layout;
use std::alloc::{AllocError, Global};
use std::marker::Model;
use td_tree::name::Name;
use td_value::tuple::Tuple;
use td_value::tuples::Tuples;
use td_value::value::Value;

/// The tuples that a layout has made so far, seen as its sources with the tuples. The row is a list
/// in which the values of the next one are put together.
#[derive(Drop)]
pub struct LaidOut<'a> {
    layout: &'a Layout,
    made: Tuples,
    row: Vec<Value>,
}

impl<'a> Model for LaidOut<'a> {
    ghost use Rattle.std.specs.Prelude.{List};
    ghost use Rattle.std.specs.Coded.{coded×, coded_list, coded_ℕ};
    ghost use Rattle.td_algebra.specs.code.Layouts.{IsLaidOut, Sources};
    ghost use Rattle.td_value.specs.model.Values.{Tuple};
    ghost use Rattle.td_value.specs.code.ValueCode.{tuple_code};

    ghost Value = { Sources × List Tuple };

    ghost coded = { coded× (coded_list (coded× (coded_list coded_ℕ) coded_ℕ)) (coded_list tuple_code) };

    ghost view = { λ a. (a.layout.now, a.made.tuples) };

    ghost invariant = { λ a. IsLaidOut a.layout.now a.made };
}

/// Each of the tuples is one. It takes no time.
fn know_tuples(tuples: &[Tuple])
    ensures { All IsTuple tuples.now }
{
    for tuple in tuples {
        tuple.reveal();
    }
}

impl<'a> LaidOut<'a> {
    /// No tuples of the layout, with room for so many.
    pub fn new(alloc: Global, layout: &'a Layout, count: usize) -> Result<LaidOut<'a>, AllocError>
        ensures { IfOk result (λ laid. laid ≡ (layout.now, [])) }
    {
        let made = Tuples::new(alloc, layout.names(), count)?;
        let row = Vec::new(alloc);
        Ok(LaidOut { layout, made, row })
    }

    /// The layout.
    pub(crate) fn layout(&self) -> &Layout
        ensures { result.now ≡ self.now.0 }
    {
        self.layout
    }

    /// How many tuples there are.
    pub fn len(&self) -> usize
        ensures { result ≡ length self.now.1 }
    {
        self.made.len()
    }

    /// Puts after the others the tuple whose values stand at the places in those of the first,
    /// followed by those of the second.
    pub fn put(&mut self, first: &[Value], second: &[Value]) -> Result<(), AllocError>
        requires { AreInRange self.old.0 (first.now ++ second.now) }
        ensures layout { OnOk result (self.new.0 ≡ self.old.0) }
        ensures put { (sources : Sources) → IsPermutation sources self.old.0
            → OnOk result (self.new.1
            ≡ self.old.1 ++ placed_tuple sources (first.now ++ second.now) ∷ []) }
    {
        self.made.push_placed(self.layout.places(), first, second)
    }

    /// Puts after the others the tuple whose values stand at the places in those of the first,
    /// followed by those of the columns for a tuple at a place.
    pub(crate) fn put_extended(
        &mut self,
        first: &[Value],
        columns: &[(Name, Column)],
        at: usize,
    ) -> Result<(), AllocError>
        requires range { AreInRange self.old.0 (first.now ++ cells_at at columns.now) }
        requires long { All (λ c. at < length c.1.values.items) columns.now }
        ensures layout { OnOk result (self.new.0 ≡ self.old.0) }
        ensures put { (sources : Sources) → IsPermutation sources self.old.0
            → OnOk result (self.new.1
            ≡ self.old.1 ++ placed_tuple sources (first.now ++ cells_at at columns.now) ∷ []) }
    {
        self.layout.put_cells(first, columns, at, &mut self.row)?;
        self.made.push(&mut self.row)
    }

    /// Whether the tuple at the place, if one is there, is the one that is made of the values.
    pub(crate) fn stands_at(&self, values: &[Value], place: Option<&usize>) -> bool
        requires { AreInRange self.now.0 values.now }
        ensures { (sources : Sources) → IsPermutation sources self.now.0
            → IsTrue result → Contains self.now.1 (placed_tuple sources values.now) }
    {
        let Some(place) = place else {
            return false;
        };
        *place < self.made.len() && self.layout.makes(self.made.row(*place), values)
    }

    /// The tuples.
    pub fn finish(self, alloc: Global) -> Result<Vec<Tuple>, AllocError>
        ensures made { IfOk result (λ tuples. tuples.items ≡ self.entry.1) }
        ensures valid { IfOk result (λ tuples. All IsTuple tuples.items) }
    {
        let tuples = self.made.finish(alloc)?;
        know_tuples(&tuples);
        Ok(tuples)
    }
}
