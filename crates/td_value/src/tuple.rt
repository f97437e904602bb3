//! Tuples.
ghost use Rattle.std.specs.Prelude.{◌≡◌, ◌↔◌, ◌+◌, ◌≤◌, ◌∷◌, ◌++◌, [], IfOk, IsTrue, OnOk};
ghost use Rattle.std.specs.Prelude.{length, option_map};
ghost use Rattle.std.specs.Ordering.{is_lt, nat_cmp};
ghost use Rattle.std.specs.Cmp.Lexicographic.{slice_cmp};
ghost use Rattle.std.specs.List.{All};
ghost use Rattle.std.specs.List.Sorted.{IsSortedBy, IsStrictlySortedBy};
ghost use Rattle.td_tree.specs.model.Outcomes.{Answers};
ghost use Rattle.td_value.specs.model.Values.{AreFields, HasValuesOf, IsTuple, IsTupleOf};
ghost use Rattle.td_value.specs.model.Values.{made_tuple, pack_fields, projected_tuple};
ghost use Rattle.td_value.specs.model.Values.{tuple_names, value_at};
ghost use Rattle.td_value.specs.code.Views.{tuple_view, values_of};

use crate::lists::put;
use crate::names::NameList;
use crate::user::know_values;
use crate::value::Value;
use std::alloc::{AllocError, Global};
use std::marker::Model;
use std::rc::Rc;
use td_tree::cause::Cause;
use td_tree::fault::Fault;
use td_tree::name::Name;
use td_types::heading::Heading;
use td_types::names::{is_among, names_of, repeats_a_name};

/// The values of tuples of the same names, one tuple after the other.
#[cycle(value)]
#[derive(Drop)]
pub struct Block {
    pub(crate) names: Rc<Vec<Name>>,
    pub(crate) width: usize,
    pub(crate) cells: Vec<Value>,
}

/// A finite map from names to values, seen as its entries in name order: one row of a block, where
/// it begins. The tuples of one relation mostly share a block, and so do copies of a tuple.
#[cycle(value)]
#[derive(Drop)]
pub struct Tuple {
    pub(crate) block: Rc<Block>,
    pub(crate) start: usize,
}

impl Model for Tuple {
    ghost use Rattle.td_value.specs.code.Depths.{tuple_depth};
    ghost use Rattle.td_value.specs.model.Values.{Tuple};
    ghost use Rattle.td_value.specs.code.ValueCode.{tuple_code};

    ghost Value = { Tuple };

    ghost coded = { tuple_code };

    ghost use Rattle.td_value.specs.code.Blocks.{IsRow, row_view};

    ghost view = { λ a.
        row_view a.block.value.names.value.items a.start a.block.value.cells.items };

    ghost invariant = { λ a. IsRow a.block.value.names.value.items a.block.value.width a.start
        a.block.value.cells.items };

    ghost size = { tuple_depth };

    ghost use Rattle.td_value.specs.code.Falls.{block_falls};

    ghost size_decreases = { λ a h. block_falls a.block.value.cells.items _ h.deepest };
}

/// The tuple of the names with the values, in a block of its own.
pub(crate) fn lone_row(
    alloc: Global,
    names: Rc<Vec<Name>>,
    values: Vec<Value>,
) -> Result<Tuple, AllocError>
    requires same { length names.value.items ≡ length values.items }
    requires valid { IsTuple (tuple_view names.value.items values.items) }
    ensures { IfOk result (λ t. t ≡ tuple_view names.value.items values.items) }
{
    let width = values.len();
    let block = Block {
        names,
        width,
        cells: values,
    };
    let block = Rc::new(alloc, block)?;
    Ok(Tuple { block, start: 0 })
}

impl Tuple {
    /// The tuple that gives each name its value, where no name comes twice.
    pub fn new(alloc: Global, entries: Vec<(Name, Value)>) -> Result<Tuple, Fault>
        ensures answer { Answers (λ t. t) result (made_tuple entries.items) }
        ensures values { IfOk result (HasValuesOf entries.items) }
    {
        let mut sorted = entries;
        sorted.sort_unstable();
        if repeats_a_name(&sorted) {
            return Err(Fault::Refused(Cause::Heading));
        }
        Ok(from_sorted(alloc, sorted)?)
    }
}

/// The tuple of entries whose names ascend.
fn from_sorted(alloc: Global, entries: Vec<(Name, Value)>) -> Result<Tuple, AllocError>
    requires { IsStrictlySortedBy (slice_cmp nat_cmp) (tuple_names entries.items) }
    ensures { IfOk result (λ t. t ≡ entries.items) }
{
    let names = Rc::new(alloc, names_of(alloc, &entries)?)?;
    let values = values_alone(alloc, entries)?;
    lone_row(alloc, names, values)
}

/// The values of the entries.
fn values_alone(alloc: Global, entries: Vec<(Name, Value)>) -> Result<Vec<Value>, AllocError>
    ensures values { IfOk result (λ values. values.items ≡ values_of entries.items) }
    ensures valid { OnOk result (AreFields (pack_fields entries.items)) }
{
    let mut values = Vec::with_capacity(alloc, entries.len())?;
    for (name, value) in entries {
        name.reveal();
        let _ = &value.node;
        put(&mut values, value)?;
    }
    Ok(values)
}

/// Puts copies of the name and the value after the others.
fn keep_entry(
    name: &Name,
    value: &Value,
    names: &mut Vec<Name>,
    values: &mut Vec<Value>,
) -> Result<(), AllocError>
    ensures names { OnOk result (names.new.items ≡ names.old.items ++ name.now ∷ []) }
    ensures values { OnOk result (values.new.items ≡ values.old.items ++ value.now ∷ []) }
{
    put(names, name.try_clone()?)?;
    put(values, value.try_clone()?)
}

/// Puts the entries whose names are wanted into the empty lists of names and of values.
fn keep_entries(
    names: &[Name],
    values: &[Value],
    wanted: &[Name],
    kept_names: &mut Vec<Name>,
    kept_values: &mut Vec<Value>,
) -> Result<(), AllocError>
    requires same { length names.now ≡ length values.now }
    requires no_names { kept_names.old.items ≡ [] }
    requires no_values { kept_values.old.items ≡ [] }
    ensures lengths { OnOk result (length kept_names.new.items ≡ length kept_values.new.items) }
    ensures kept { OnOk result (tuple_view kept_names.new.items kept_values.new.items
        ≡ projected_tuple wanted.now (tuple_view names.now values.now)) }
{
    let mut place = 0;
    for v in values {
        let name = &names[place];
        if is_among(name, wanted) {
            keep_entry(name, v, kept_names, kept_values)?;
        }
        place += 1;
    }
    Ok(())
}

impl Tuple {
    /// The tuple of the list's names with the values, in the same order. It shares the list.
    pub fn of(alloc: Global, names: &NameList, values: Vec<Value>) -> Result<Tuple, AllocError>
        requires { length names.now ≡ length values.items }
        ensures { IfOk result (λ t. t ≡ tuple_view names.now values.items) }
    {
        know_values(&values);
        lone_row(alloc, names.names.clone()?, values)
    }
}

/// The tuple of the entries whose names are wanted.
fn kept_entries(
    names: &[Name],
    values: &[Value],
    wanted: &[Name],
    alloc: Global,
) -> Result<Tuple, AllocError>
    requires same { length names.now ≡ length values.now }
    requires valid { IsTuple (tuple_view names.now values.now) }
    ensures { IfOk result (λ t. t ≡ projected_tuple wanted.now (tuple_view names.now values.now)) }
{
    let mut kept_names = Vec::with_capacity(alloc, wanted.len())?;
    let mut kept_values = Vec::with_capacity(alloc, wanted.len())?;
    keep_entries(names, values, wanted, &mut kept_names, &mut kept_values)?;
    lone_row(alloc, Rc::new(alloc, kept_names)?, kept_values)
}

impl Tuple {
    /// The tuple of those attributes alone whose names are among the names.
    pub fn project(&self, names: &[Name]) -> Result<Tuple, AllocError>
        ensures { IfOk result (λ t. t ≡ projected_tuple names.now self.now) }
    {
        kept_entries(
            self.names(),
            self.values(),
            names,
            *self.block.cells.allocator(),
        )
    }
}

impl Tuple {
    ghost use Rattle.td_value.specs.model.Values.{IsTuple, tuple_names};
    ghost use Rattle.td_value.specs.code.Views.{values_of};

    /// How many attributes it has.
    pub fn len(&self) -> usize
        ensures { result ≡ length self.now }
    {
        self.block.width
    }

    /// Whether it is the tuple without attributes.
    pub fn is_empty(&self) -> bool
        ensures { IsTrue result ↔ (self.now ≡ []) }
    {
        self.len() == 0
    }

    /// The names, ascending.
    pub fn names(&self) -> &[Name]
        ensures names { result.now ≡ tuple_names self.now }
        ensures valid { IsTuple self.now }
    {
        self.block.names.as_slice()
    }

    /// What holds of every tuple. It takes no time.
    pub fn reveal(&self)
        ensures { IsTuple self.now }
    {
        let _ = &self.block;
    }

    /// The values, in the order of their names.
    pub fn values(&self) -> &[Value]
        ensures values { result.now ≡ values_of self.now }
        ensures valid { IsTuple self.now }
    {
        let block: &Block = &self.block;
        let end = self.start + block.width;
        &block.cells[self.start..end]
    }

    /// The value of the attribute of that name.
    pub fn get(&self, name: &Name) -> Option<&Value>
        ensures { option_map (λ v. v.now) result ≡ value_at name.now self.now }
    {
        value_named(self.names(), self.values(), name)
    }
}

/// The value that stands where the name does.
fn value_named<'a>(names: &[Name], values: &'a [Value], name: &Name) -> Option<&'a Value>
    requires same { length names.now ≡ length values.now }
    requires ascending { IsStrictlySortedBy (slice_cmp nat_cmp) names.now }
    ensures { option_map (λ v. v.now) result ≡ value_at name.now (tuple_view names.now values.now) }
{
    match names.binary_search(name) {
        Ok(place) => Some(&values[place]),
        Err(_) => None,
    }
}

/// Whether each of the tuples has the heading.
pub fn have_heading(tuples: &[Tuple], heading: &Heading) -> bool
    ensures { IsTrue result ↔ All (IsTupleOf heading.now) tuples.now }
{
    for tuple in tuples {
        if !tuple.has_heading(heading) {
            return false;
        }
    }
    true
}
