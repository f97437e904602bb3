//! Tuples of the same names, made one after the other in one block.
ghost use Rattle.std.specs.Prelude.{◌≡◌, ◌<◌, ◌≤◌, ◌+◌, ◌∷◌, ◌++◌, [], IfOk, IsTrue, OnErr, OnOk};
ghost use Rattle.std.specs.Prelude.{Some, length};
ghost use Rattle.std.specs.List.{slice_get};
ghost use Rattle.td_value.specs.model.Values.{AreValues, Tuple, pack_parts};
ghost use Rattle.td_value.specs.code.Blocks.{AreAsDeep, AreWhole, IsRow, making, row_view, rows_of};
ghost use Rattle.td_value.specs.code.Blocks.{with_row};
ghost use Rattle.td_value.specs.code.Depths.{depth, parts_depth};
ghost use Rattle.td_value.specs.code.Views.{values_of};
ghost use Rattle.td_value.specs.code.Zipped.{AreNames};

use crate::names::NameList;
use crate::tuple::{Block, Tuple, lone_row};
use crate::user::know_values;
use crate::value::{Node, Value};
use std::alloc::{AllocError, Global};
use std::marker::Model;
use std::rc::Rc;
use td_tree::name::Name;

/// A maker of tuples of the same names. They share one block where it is soon found that they all
/// nest equally deep, as tuples of flat values do.
#[derive(Drop)]
pub struct Tuples {
    names: Rc<Vec<Name>>,
    width: usize,
    pub(crate) count: usize,
    pub(crate) cells: Vec<Value>,
}

impl Model for Tuples {
    ghost use Rattle.td_value.specs.code.Blocks.{AreRowsOf, Making, making, making_code, rows_of};

    ghost Value = { Making };

    ghost coded = { making_code };

    ghost view = { λ a.
        making a.names.value.items (rows_of a.names.value.items a.count a.cells.items) };

    ghost invariant = { λ a. AreRowsOf a.names.value.items a.width a.count a.cells.items };
}

/// Puts copies of the values after the others.
pub fn put_copies(values: &[Value], made: &mut Vec<Value>) -> Result<(), AllocError>
    ensures { OnOk result (made.new.items ≡ made.old.items ++ values.now) }
{
    for value in values {
        made.push(value.try_clone()?)?;
    }
    Ok(())
}

impl Value {
    /// Whether it holds no other value.
    fn is_flat(&self) -> bool
        ensures { IsTrue result → depth self.now ≡ 0 }
    {
        match &self.node {
            Node::Bool(_) => true,
            Node::Int(_) => true,
            Node::Text(_) => true,
            Node::User(_) => false,
            Node::Tup(_) => false,
            Node::Rel(_) => false,
        }
    }

    /// How deep a row nests by it, or 0 where that takes long to find: 1 where it holds no other
    /// value, 3 where it is a user value of such components or a tuple of such values.
    fn level(&self) -> usize
        ensures { 0 < result → depth self.now + 1 ≡ result }
    {
        match &self.node {
            Node::Bool(_) => 1,
            Node::Int(_) => 1,
            Node::Text(_) => 1,
            Node::User(u) => level_of_parts(&u.components),
            Node::Tup(t) => level_of_parts(t.values()),
            Node::Rel(_) => 0,
        }
    }
}

/// Whether none of the values holds another.
fn are_flat(values: &[Value]) -> bool
    ensures { IsTrue result → parts_depth (pack_parts values.now) ≤ 1 }
{
    for value in values {
        if !value.is_flat() {
            return false;
        }
    }
    true
}

/// How deep a row nests by a value that holds the values, or 0 where that takes long to find.
fn level_of_parts(values: &[Value]) -> usize
    ensures { 0 < result → parts_depth (pack_parts values.now) + 2 ≡ result }
{
    if !values.is_empty() && are_flat(values) {
        3
    } else {
        0
    }
}

/// How deep a row of the values nests, or 0 where that takes long to find.
pub(crate) fn level_of_row(values: &[Value]) -> usize
    ensures { 0 < result → parts_depth (pack_parts values.now) ≡ result }
{
    let mut deepest = 0;
    for value in values {
        let level = value.level();
        if level == 0 {
            return 0;
        }
        if deepest < level {
            deepest = level;
        }
    }
    deepest
}

/// Whether it was soon found that the rows all nest as deep as another.
fn are_alike(names: &[Name], count: usize, cells: &[Value]) -> bool
    requires { AreWhole names.now count cells.now }
    ensures { IsTrue result
        → AreAsDeep names.now count cells.now (parts_depth (pack_parts cells.now)) }
{
    let width = names.len();
    if count == 0 {
        return true;
    }
    if width > 0 && are_flat(cells) {
        return true;
    }
    let level = level_of_row(&cells[..width]);
    if level == 0 {
        return false;
    }
    let mut start = 0;
    let mut left = count;
    while left > 0 {
        let end = start + width;
        if level_of_row(&cells[start..end]) != level {
            return false;
        }
        start = end;
        left -= 1;
    }
    true
}

/// The row of the block that begins at the place.
fn row_at(block: &Rc<Block>, start: usize) -> Result<Tuple, AllocError>
    requires { IsRow block.now.value.names.value.items block.now.value.width start
        block.now.value.cells.items }
    ensures { IfOk result (λ t.
        t ≡ row_view block.now.value.names.value.items start block.now.value.cells.items) }
{
    let block = block.clone()?;
    Ok(Tuple { block, start })
}

/// The rows of one block, each of which nests as deep as the block.
fn shared_rows(
    alloc: Global,
    names: Rc<Vec<Name>>,
    count: usize,
    cells: Vec<Value>,
) -> Result<Vec<Tuple>, AllocError>
    requires whole { AreWhole names.value.items count cells.items }
    requires deep { AreAsDeep names.value.items count cells.items
        (parts_depth (pack_parts cells.items)) }
    requires names { AreNames names.value.items }
    requires valid { AreValues (pack_parts cells.items) }
    ensures { IfOk result (λ tuples. tuples.items ≡ rows_of names.value.items count cells.items) }
{
    let mut tuples = Vec::with_capacity(alloc, count)?;
    let width = names.len();
    let block = Block {
        names,
        width,
        cells,
    };
    let block = Rc::new(alloc, block)?;
    let mut start = 0;
    let mut left = count;
    while left > 0 {
        tuples.push(row_at(&block, start)?)?;
        start += width;
        left -= 1;
    }
    Ok(tuples)
}

/// The rows, each in a block of its own.
fn lone_rows(
    alloc: Global,
    names: &Rc<Vec<Name>>,
    count: usize,
    cells: &[Value],
) -> Result<Vec<Tuple>, AllocError>
    requires whole { AreWhole names.now.value.items count cells.now }
    requires names { AreNames names.now.value.items }
    requires valid { AreValues (pack_parts cells.now) }
    ensures { IfOk result (λ tuples. tuples.items ≡ rows_of names.now.value.items count cells.now) }
{
    let mut tuples = Vec::with_capacity(alloc, count)?;
    let width = names.len();
    let mut start = 0;
    let mut left = count;
    while left > 0 {
        let end = start + width;
        let mut row = Vec::with_capacity(alloc, width)?;
        put_copies(&cells[start..end], &mut row)?;
        tuples.push(lone_row(alloc, names.clone()?, row)?)?;
        start = end;
        left -= 1;
    }
    Ok(tuples)
}

impl Tuples {
    /// No tuples of the names, with room for so many.
    pub fn new(alloc: Global, names: &NameList, count: usize) -> Result<Tuples, AllocError>
        ensures { IfOk result (λ made. made ≡ making names.now []) }
    {
        let names = names.names.clone()?;
        let width = names.len();
        let Some(room) = width.checked_mul(count) else {
            return Err(AllocError);
        };
        let cells = Vec::with_capacity(alloc, room)?;
        Ok(Tuples {
            names,
            width,
            count: 0,
            cells,
        })
    }

    /// Takes the values of one more tuple, in the order of the names. The list of them stays, empty.
    pub fn push(&mut self, row: &mut Vec<Value>) -> Result<(), AllocError>
        requires { length row.old.items ≡ length self.old.names }
        ensures pushed { OnOk result (self.new ≡ with_row row.old.items self.old) }
        ensures taken { OnOk result (row.new.items ≡ []) }
        ensures same { OnErr result (self.new ≡ self.old) }
    {
        let Some(count) = self.count.checked_add(1) else {
            return Err(AllocError);
        };
        self.cells.append(row)?;
        self.count = count;
        Ok(())
    }

    /// How many tuples there are.
    pub fn len(&self) -> usize
        ensures { result ≡ length self.now.tuples }
    {
        self.count
    }

    /// The values of the tuple at the place.
    pub fn row(&self, place: usize) -> &[Value]
        requires { place < length self.now.tuples }
        ensures { (t : Tuple) → slice_get self.now.tuples place ≡ Some t
            → result.now ≡ values_of t }
    {
        let start = place * self.width;
        let end = start + self.width;
        &self.cells[start..end]
    }

    /// The tuples.
    pub fn finish(self, alloc: Global) -> Result<Vec<Tuple>, AllocError>
        ensures { IfOk result (λ tuples. tuples.items ≡ self.tuples) }
    {
        let Tuples {
            names,
            width: _,
            count,
            mut cells,
        } = self;
        know_values(&cells);
        cells.shrink_to_fit();
        if are_alike(&names, count, &cells) {
            shared_rows(alloc, names, count, cells)
        } else {
            lone_rows(alloc, &names, count, &cells)
        }
    }
}
