//! Tuples by number.
ghost use Rattle.std.specs.Prelude.{ℕ, ◌&&◌, ◌++◌, ◌+◌, ◌<◌, ◌^◌, ◌∷◌, ◌≡◌, ◌≤◌, Bool, IfOk};
ghost use Rattle.std.specs.Prelude.{IfSome, IsTrue, List, OnOk, [], false, length, not};
ghost use Rattle.std.specs.Prelude.{slice_index_or, slice_set, take, true};
ghost use Rattle.std.specs.List.{All};
ghost use Rattle.td_value.specs.model.Values.{IsTupleOf, Tuple, relation_view};
ghost use Rattle.td_body.specs.code.Numbered.{front, live, tuple_eq};

use super::chains::note;
use std::alloc::{AllocError, Global};
use std::marker::Model;
use td_types::heading::Heading;
use td_value::relation::Rel;
use td_value::tuple::Tuple;

/// Tuples that are numbered from 0 up: those of a relation in its order, and those that came later.
/// A tuple that went out keeps its number, and is marked.
#[derive(Drop)]
pub(crate) struct Rows {
    base: Rel,
    late: Vec<Tuple>,
    gone: Vec<bool>,
}

impl Model for Rows {
    ghost use Rattle.std.specs.Prelude.{◌≡◌, ◌++◌, ◌-◌, length, min, vec_capacity, vec_len};
    ghost use Rattle.std.specs.List.{All};
    ghost use Rattle.td_value.specs.model.Values.{IsTupleOf};
    ghost use Rattle.td_body.specs.code.Numbered.{Numbered, numbered_code};

    ghost Value = { Numbered };

    ghost coded = { numbered_code };

    ghost view = { λ r. record {
      heading = r.base.heading;
      rows = r.base.body ++ r.late.items;
      gone = r.gone.items;
      fixed = length r.base.body;
      room = min (vec_capacity r.late - vec_len r.late) (vec_capacity r.gone - vec_len r.gone);
    } };

    ghost invariant = { λ r. (length r.gone.items ≡ length (r.base.body ++ r.late.items))
        × All (IsTupleOf r.base.heading) (r.base.body ++ r.late.items) };
}

/// So many more tuples may come late, or be gone, than stand in order, before they are put in order
/// anew.
const FEW: usize = 16;

/// As many marks, all clear.
fn clear_marks(alloc: Global, count: usize) -> Result<Vec<bool>, AllocError>
    ensures length { IfOk result (λ v. length v.items ≡ count) }
    ensures clear { IfOk result (λ v. (i : ℕ) (d : Bool) → i < count
        → slice_index_or v.items i d ≡ false) }
{
    let mut marks = Vec::with_capacity(alloc, count.saturating_add(count / 8))?;
    for _i in 0..count {
        marks.push(false)?;
    }
    Ok(marks)
}

impl Rows {
    /// The tuples of the relation, of which none is gone.
    pub(crate) fn of(alloc: Global, base: Rel) -> Result<Rows, AllocError>
        ensures heading { IfOk result (λ r. r.heading ≡ base.heading) }
        ensures rows { IfOk result (λ r. r.rows ≡ base.body) }
        ensures live { IfOk result (λ r. live r.rows r.gone ≡ base.body) }
        ensures fixed { IfOk result (λ r. r.fixed ≡ length base.body) }
    {
        base.reveal();
        let gone = clear_marks(alloc, base.rows().len())?;
        Ok(Rows {
            base,
            late: Vec::new(alloc),
            gone,
        })
    }

    /// Their heading.
    pub(crate) fn heading(&self) -> &Heading
        ensures { result.now ≡ self.now.heading }
    {
        self.base.heading()
    }

    /// How many numbers there are.
    pub(crate) fn count(&self) -> usize
        ensures count { result ≡ length self.now.rows }
        ensures marks { length self.now.gone ≡ length self.now.rows }
        ensures small { result < 2 ^ 63 }
        ensures fixed { self.now.fixed ≤ length self.now.rows }
        ensures headed { All (IsTupleOf self.now.heading) self.now.rows }
    {
        self.gone.len()
    }

    /// The tuple of a number.
    pub(crate) fn row_at(&self, number: usize) -> &Tuple
        requires { number < length self.now.rows }
        ensures { result.now ≡ slice_index_or self.now.rows number result.now }
    {
        let first = self.base.rows();
        if number < first.len() {
            &first[number]
        } else {
            &self.late[number - first.len()]
        }
    }

    /// Whether the tuple of a number is not gone.
    pub(crate) fn is_live(&self, number: usize) -> bool
        requires { number < length self.now.rows }
        ensures { result ≡ not (slice_index_or self.now.gone number true) }
    {
        !self.gone[number]
    }

    /// Marks the tuple of a number, or clears its mark.
    pub(crate) fn mark(&mut self, number: usize, gone: bool)
        requires { number < length self.old.rows }
        ensures gone { self.new.gone ≡ slice_set self.old.gone number gone }
        ensures rows { self.new.rows ≡ self.old.rows }
        ensures fixed { self.new.fixed ≡ self.old.fixed }
        ensures heading { self.new.heading ≡ self.old.heading }
    {
        self.gone[number] = gone;
    }

    /// Makes room for one tuple more.
    pub(crate) fn reserve(&mut self) -> Result<(), AllocError>
        ensures rows { self.new.rows ≡ self.old.rows }
        ensures gone { self.new.gone ≡ self.old.gone }
        ensures fixed { self.new.fixed ≡ self.old.fixed }
        ensures heading { self.new.heading ≡ self.old.heading }
        ensures room { OnOk result (0 < self.new.room) }
    {
        self.late.reserve(1)?;
        self.gone.reserve(1)?;
        Ok(())
    }

    /// Puts a tuple behind the others.
    pub(crate) fn push(&mut self, tuple: Tuple)
        requires room { 0 < self.old.room }
        requires headed { IsTupleOf self.old.heading tuple }
        ensures rows { self.new.rows ≡ self.old.rows ++ tuple ∷ [] }
        ensures gone { self.new.gone ≡ self.old.gone ++ false ∷ [] }
        ensures fixed { self.new.fixed ≡ self.old.fixed }
        ensures heading { self.new.heading ≡ self.old.heading }
    {
        note(&mut self.late, tuple);
        note(&mut self.gone, false);
    }

    /// Takes the last tuple out, which came later than the first ones.
    pub(crate) fn pop(&mut self) -> Tuple
        requires { self.old.fixed < length self.old.rows }
        ensures rows { self.old.rows ≡ self.new.rows ++ result ∷ [] }
        ensures gone { self.new.gone ≡ front self.old.gone }
        ensures fixed { self.new.fixed ≡ self.old.fixed }
        ensures heading { self.new.heading ≡ self.old.heading }
    {
        let marks = self.gone.as_slice().len();
        self.gone.truncate(marks - 1);
        self.late.pop().unwrap()
    }

    /// Whether many of the tuples came late, or many are gone.
    pub(crate) fn is_loose(&self, alive: usize) -> bool {
        self.late.len() / 2 > self.base.rows().len() / 2 + FEW
            || self.gone.len() / 2 > alive.saturating_add(FEW)
    }

    /// How many of these are seen, once the tuple of this number is, where all before it are.
    fn seen_at(&self, number: usize, tuples: &[Tuple], seen: usize) -> Option<usize>
        requires within { number < length self.now.rows }
        requires headed { All (IsTupleOf self.now.heading) tuples.now }
        requires few { seen ≤ length tuples.now }
        requires seen { live (take number self.now.rows) (take number self.now.gone)
            ≡ take seen tuples.now }
        ensures few { IfSome result (λ n. n ≤ length tuples.now) }
        ensures seen { IfSome result (λ n. live (take (number + 1) self.now.rows)
            (take (number + 1) self.now.gone) ≡ take n tuples.now) }
    {
        let _count = self.count();
        let _row = self.row_at(number);
        if !self.is_live(number) {
            return Some(seen);
        }
        if seen == tuples.len() {
            return None;
        }
        if !is_row(self, number, &tuples[seen]) {
            return None;
        }
        Some(seen + 1)
    }

    /// Whether these are all the tuples that are not gone, in the order of their numbers.
    pub(crate) fn are(&self, tuples: &[Tuple]) -> bool
        requires { All (IsTupleOf self.now.heading) tuples.now }
        ensures { IsTrue result → live self.now.rows self.now.gone ≡ tuples.now }
    {
        let count = self.count();
        let mut seen = 0;
        for number in 0..count {
            let Some(next) = self.seen_at(number, tuples, seen) else {
                return false;
            };
            seen = next;
        }
        seen == tuples.len()
    }

    /// Copies of the tuples of these numbers that are not gone.
    fn live_in(&self, alloc: Global, from: usize, to: usize) -> Result<Vec<Tuple>, AllocError>
        requires order { from ≤ to }
        requires within { to ≤ length self.now.rows }
        ensures { IfOk result (λ v. live (take from self.now.rows) (take from self.now.gone)
            ++ v.items ≡ live (take to self.now.rows) (take to self.now.gone)) }
    {
        let mut tuples = Vec::with_capacity(alloc, to - from)?;
        for number in from..to {
            keep_live(self, number, &mut tuples)?;
        }
        Ok(tuples)
    }

    /// The relation of the first tuples that are not gone. Where none is, they are shared.
    pub(crate) fn first_live(&self, alloc: Global, alive: usize) -> Result<Rel, AllocError>
        requires { alive ≡ length (live self.now.rows self.now.gone) }
        ensures { IfOk result (λ r. r ≡ relation_view self.now.heading
            (live (take self.now.fixed self.now.rows) (take self.now.fixed self.now.gone))) }
    {
        let count = self.count();
        self.base.reveal();
        if alive == count {
            return self.base.try_clone();
        }
        let tuples = self.live_in(alloc, 0, self.base.rows().len())?;
        Rel::of_ascending(self.base.heading().try_clone()?, tuples)
    }

    /// Copies of the tuples that came later and are not gone.
    pub(crate) fn late_live(&self, alloc: Global) -> Result<Vec<Tuple>, AllocError>
        ensures { IfOk result (λ v. live (take self.now.fixed self.now.rows)
            (take self.now.fixed self.now.gone) ++ v.items ≡ live self.now.rows self.now.gone) }
    {
        let count = self.count();
        self.live_in(alloc, self.base.rows().len(), count)
    }
}

/// Puts the tuple of a number after the others, where it is not gone.
fn keep_live(rows: &Rows, number: usize, kept: &mut Vec<Tuple>) -> Result<(), AllocError>
    requires { number < length rows.now.rows }
    ensures { (first : List Tuple) → OnOk result (first ++ kept.old.items
        ≡ live (take number rows.now.rows) (take number rows.now.gone)
        → first ++ kept.new.items
        ≡ live (take (number + 1) rows.now.rows) (take (number + 1) rows.now.gone)) }
{
    let _count = rows.count();
    let row = rows.row_at(number);
    if !rows.is_live(number) {
        return Ok(());
    }
    kept.push(row.try_clone()?)?;
    Ok(())
}

/// Whether the tuple of a number is there and is this one.
pub(crate) fn is_row(rows: &Rows, number: usize, tuple: &Tuple) -> bool
    requires within { number < length rows.now.rows }
    requires headed { IsTupleOf rows.now.heading tuple.now }
    ensures { result ≡ (not (slice_index_or rows.now.gone number true)
        && tuple_eq tuple.now (slice_index_or rows.now.rows number tuple.now)) }
{
    let _count = rows.count();
    let row = rows.row_at(number);
    rows.is_live(number) && tuple.compare_values(row).is_eq()
}
