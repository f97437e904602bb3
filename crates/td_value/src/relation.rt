//! Relations.
ghost use Rattle.std.specs.Prelude.{◌≡◌, ◌<◌, ◌≤◌, IfErr, IfOk, IsTrue, OnErr, OnOk, length};
ghost use Rattle.std.specs.Prelude.{not};
ghost use Rattle.std.specs.List.{All, insert, remove};
ghost use Rattle.td_value.specs.code.Places.{IsPlaceFor, IsPlaceOf};
ghost use Rattle.td_value.specs.model.Sets.{has, set_of};
ghost use Rattle.td_value.specs.model.Values.{HaveSameMembers, HaveSameNames, IsAscendingBody};
ghost use Rattle.td_value.specs.model.Values.{IsTupleOf, relation_view, tuple_cmp, with_tuple};
ghost use Rattle.td_value.specs.model.Values.{without_tuple};

use crate::buckets::in_order_by_buckets;
use crate::lists::put;
use crate::numbered::{are_worth_numbering, in_order_by_numbers};
use crate::order::compare_by_values;
use crate::sharing::gathered;
use crate::tuple::Tuple;
use std::alloc::AllocError;
use std::marker::Model;
use std::rc::Rc;
use td_types::heading::Heading;

/// A heading with a set of tuples, seen as the strictly ascending list of them. Copies of a
/// relation share both, and take no memory.
#[cycle(value)]
#[derive(Drop)]
pub struct Rel {
    pub(crate) heading: Rc<Heading>,
    pub(crate) rows: Rc<Vec<Tuple>>,
}

impl Model for Rel {
    ghost use Rattle.td_value.specs.code.Depths.{relation_depth};
    ghost use Rattle.td_value.specs.model.Values.{IsRelation, Relation};
    ghost use Rattle.td_value.specs.code.ValueCode.{relation_code};

    ghost Value = { Relation };

    ghost coded = { relation_code };

    ghost use Rattle.td_value.specs.model.Values.{relation_view};

    ghost view = { λ a. relation_view a.heading.value a.rows.value.items };

    ghost invariant = { λ a. IsRelation (relation_view a.heading.value a.rows.value.items) };

    ghost size = { relation_depth };

    ghost use Rattle.td_value.specs.code.Falls.{relation_falls};

    ghost size_decreases = { λ a h. relation_falls a.rows.value.items };
}

/// Whether each of the tuples stands before the next.
fn ascend(rows: &[Tuple]) -> bool
    requires { HaveSameNames rows.now }
    ensures { IsTrue result → IsAscendingBody rows.now }
{
    let mut place = rows.len().saturating_sub(1);
    while place > 0 {
        if !compare_by_values(&rows[place - 1], &rows[place]).is_lt() {
            return false;
        }
        place -= 1;
    }
    true
}

/// The tuples in their order, each once, by the values of each.
fn in_order_by_values(rows: Vec<Tuple>) -> Vec<Tuple>
    requires { HaveSameNames rows.items }
    ensures { result.items ≡ set_of tuple_cmp rows.items }
{
    let mut rows = rows;
    rows.sort_unstable_by(|a, b| compare_by_values(a, b));
    rows.dedup();
    rows.shrink_to_fit();
    rows
}

/// The tuples in their order, each once.
fn in_order(rows: Vec<Tuple>) -> Vec<Tuple>
    requires { HaveSameNames rows.items }
    ensures { result.items ≡ set_of tuple_cmp rows.items }
{
    if ascend(&rows) {
        return rows;
    }
    if are_worth_numbering(&rows) {
        if let Ok(Some(sorted)) = in_order_by_buckets(*rows.allocator(), &rows) {
            return sorted;
        }
        if let Ok(list) = Vec::with_capacity(*rows.allocator(), rows.len()) {
            return in_order_by_numbers(rows, list);
        }
    }
    in_order_by_values(rows)
}

/// The tuples again, in a list of their own with room for so many.
fn copies_of(rows: &Vec<Tuple>, room: usize) -> Result<Vec<Tuple>, AllocError>
    ensures { IfOk result (λ copy. copy.items ≡ rows.now.items) }
{
    let mut copy = Vec::with_capacity(*rows.allocator(), room)?;
    for row in rows {
        put(&mut copy, row.try_clone()?)?;
    }
    Ok(copy)
}

/// Where the tuple stands among tuples that ascend, or where it would.
fn place_of(rows: &[Tuple], tuple: &Tuple) -> Result<usize, usize>
    requires { IsAscendingBody rows.now }
    ensures there { IfOk result (IsPlaceOf tuple.now rows.now) }
    ensures none { IfErr result (IsPlaceFor tuple.now rows.now) }
{
    rows.binary_search(tuple)
}

/// Puts the tuple at the place of the list. Where memory is refused it comes back.
fn put_among(rows: &mut Vec<Tuple>, place: usize, tuple: Tuple) -> Result<(), Tuple>
    requires { place ≤ length rows.old.items }
    ensures put { OnOk result (rows.new.items ≡ insert rows.old.items place tuple) }
    ensures back { IfErr result (λ back. back ≡ tuple) }
    ensures same { OnErr result (rows.new.items ≡ rows.old.items) }
{
    match rows.insert(place, tuple) {
        Ok(()) => Ok(()),
        Err(refused) => Err(refused.value),
    }
}

/// A copy of the tuples with the tuple at the place.
fn copy_with(rows: &Vec<Tuple>, place: usize, tuple: &Tuple) -> Result<Rc<Vec<Tuple>>, AllocError>
    requires { place ≤ length rows.now.items }
    ensures { IfOk result (λ with. with.value.items ≡ insert rows.now.items place tuple.now) }
{
    let mut copy = copies_of(rows, rows.len() + 1)?;
    copy.insert(place, tuple.try_clone()?)?;
    Ok(Rc::new(*copy.allocator(), copy)?)
}

/// A copy of the tuples but the one at the place.
fn copy_without(rows: &Vec<Tuple>, place: usize) -> Result<Rc<Vec<Tuple>>, AllocError>
    requires { place < length rows.now.items }
    ensures { IfOk result (λ without. without.value.items ≡ remove rows.now.items place) }
{
    let mut copy = copies_of(rows, rows.len())?;
    let _ = copy.remove(place);
    Ok(Rc::new(*copy.allocator(), copy)?)
}

/// Puts the tuple at the place. Where memory is refused it comes back.
fn put_at(rows: &mut Rc<Vec<Tuple>>, place: usize, tuple: Tuple) -> Result<(), Tuple>
    requires { place ≤ length rows.old.value.items }
    ensures put { OnOk result (rows.new.value.items ≡ insert rows.old.value.items place tuple) }
    ensures back { IfErr result (λ back. back ≡ tuple) }
    ensures same { OnErr result (rows.new.value.items ≡ rows.old.value.items) }
{
    if let Some(own) = Rc::get_mut(rows) {
        return put_among(own, place, tuple);
    }
    let Ok(copy) = copy_with(rows, place, &tuple) else {
        return Err(tuple);
    };
    *rows = copy;
    Ok(())
}

/// Takes out the tuple at the place.
fn take_at(rows: &mut Rc<Vec<Tuple>>, place: usize) -> Result<(), AllocError>
    requires { place < length rows.old.value.items }
    ensures taken { OnOk result (rows.new.value.items ≡ remove rows.old.value.items place) }
    ensures same { OnErr result (rows.new.value.items ≡ rows.old.value.items) }
{
    if let Some(own) = Rc::get_mut(rows) {
        let _ = own.remove(place);
        return Ok(());
    }
    *rows = copy_without(rows, place)?;
    Ok(())
}

impl Rel {
    /// The relation with that heading whose body is the set of the tuples.
    pub fn new(heading: Heading, rows: Vec<Tuple>) -> Result<Rel, AllocError>
        requires { All (IsTupleOf heading) rows.items }
        ensures value { IfOk result (λ r. r ≡ relation_view heading (set_of tuple_cmp rows.items)) }
        ensures members { IfOk result (λ r. HaveSameMembers r.body rows.items) }
    {
        heading.reveal();
        let rows = gathered(in_order(rows))?;
        Rel::of_ascending(heading, rows)
    }

    /// The relation with that heading of tuples that ascend already.
    pub fn of_ascending(heading: Heading, rows: Vec<Tuple>) -> Result<Rel, AllocError>
        requires headed { All (IsTupleOf heading) rows.items }
        requires ascending { IsAscendingBody rows.items }
        ensures { IfOk result (λ r. r ≡ relation_view heading rows.items) }
    {
        heading.reveal();
        let alloc = *rows.allocator();
        let heading = Rc::new(alloc, heading)?;
        let rows = Rc::new(alloc, rows)?;
        Ok(Rel { heading, rows })
    }

    /// The relation of the same heading of tuples that ascend already. Both share the heading.
    pub fn with_body(&self, rows: Vec<Tuple>) -> Result<Rel, AllocError>
        requires headed { All (IsTupleOf self.now.heading) rows.items }
        requires ascending { IsAscendingBody rows.items }
        ensures { IfOk result (λ r. r ≡ relation_view self.now.heading rows.items) }
    {
        let heading = self.heading.clone()?;
        heading.reveal();
        let rows = Rc::new(*rows.allocator(), rows)?;
        Ok(Rel { heading, rows })
    }

    /// The relation of the same heading whose body is the set of the tuples. Both share the
    /// heading.
    pub fn with_set_of(&self, rows: Vec<Tuple>) -> Result<Rel, AllocError>
        requires { All (IsTupleOf self.now.heading) rows.items }
        ensures { IfOk result (λ r.
            r ≡ relation_view self.now.heading (set_of tuple_cmp rows.items)) }
    {
        let rows = gathered(in_order(rows))?;
        self.with_body(rows)
    }

    /// Whether the tuple is a member.
    pub fn contains(&self, tuple: &Tuple) -> bool
        ensures { result ≡ has tuple_cmp tuple.now self.now.body }
    {
        place_of(&self.rows, tuple).is_ok()
    }

    /// Makes the tuple a member, and answers whether it was none. Where memory is refused the
    /// tuple comes back.
    pub fn insert(&mut self, tuple: Tuple) -> Result<bool, Tuple>
        requires { IsTupleOf self.old.heading tuple }
        ensures new { IfOk result (λ new. new ≡ not (has tuple_cmp tuple self.old.body)) }
        ensures with { OnOk result (self.new ≡ with_tuple tuple self.old) }
        ensures back { IfErr result (λ back. back ≡ tuple) }
        ensures same { OnErr result (self.new ≡ self.old) }
    {
        let Err(place) = place_of(&self.rows, &tuple) else {
            return Ok(false);
        };
        put_at(&mut self.rows, place, tuple)?;
        Ok(true)
    }

    /// Takes the tuple out, and answers whether it was a member.
    pub fn remove(&mut self, tuple: &Tuple) -> Result<bool, AllocError>
        ensures there { IfOk result (λ there. there ≡ has tuple_cmp tuple.now self.old.body) }
        ensures without { OnOk result (self.new ≡ without_tuple tuple.now self.old) }
        ensures same { OnErr result (self.new ≡ self.old) }
    {
        let Ok(place) = place_of(&self.rows, tuple) else {
            return Ok(false);
        };
        take_at(&mut self.rows, place)?;
        Ok(true)
    }

    /// The heading.
    pub fn heading(&self) -> &Heading
        ensures { result.now ≡ self.now.heading }
    {
        &self.heading
    }

    /// What holds of every relation. It takes no time.
    pub fn reveal(&self)
        ensures headed { All (IsTupleOf self.now.heading) self.now.body }
        ensures ascending { IsAscendingBody self.now.body }
    {
        let _ = self.rows();
    }

    /// The tuples, ascending.
    pub fn rows(&self) -> &[Tuple]
        ensures rows { result.now ≡ self.now.body }
        ensures headed { All (IsTupleOf self.now.heading) self.now.body }
        ensures ascending { IsAscendingBody self.now.body }
    {
        self.rows.as_slice()
    }

    /// The tuples, ascending, in place of the relation. It wants memory where a copy shares them.
    pub fn into_rows(self) -> Result<Vec<Tuple>, AllocError>
        ensures rows { IfOk result (λ rows. rows.items ≡ self.body) }
        ensures headed { IfOk result (λ rows. All (IsTupleOf self.heading) rows.items) }
    {
        let Rel { heading: _, rows } = self;
        match Rc::try_unwrap(rows) {
            Ok(rows) => Ok(rows),
            Err(shared) => copies_of(&shared, shared.len()),
        }
    }
}
