//! Tuples by number, found by their values for one key.
ghost use Rattle.std.specs.Prelude.{if◌then◌else◌, ℕ, ◌&&◌, ◌++◌, ◌+◌, ◌<◌, ◌∷◌, ◌≡◌, ◌≤◌, Bool};
ghost use Rattle.std.specs.Prelude.{IfOk, IfSome, IsTrue, List, None, OnOk, [], false, length, map};
ghost use Rattle.std.specs.Prelude.{not, slice_index_or, slice_set, take, true};
ghost use Rattle.std.specs.List.{list_any};
ghost use Rattle.std.specs.Ordering.{is_eq};
ghost use Rattle.td_value.specs.model.Sets.{has};
ghost use Rattle.td_value.specs.model.Values.{HaveSameMembers, IsTupleOf, Tuple, tuple_cmp};
ghost use Rattle.td_body.specs.code.Chains.{AreChained, last_in, latest};
ghost use Rattle.td_body.specs.code.Hashes.{part_hash, with_part};
ghost use Rattle.td_body.specs.code.KeyIndexes.{AreGone, CanKeep, HasRoom, IsIndex, IsLinked};
ghost use Rattle.td_body.specs.code.KeyIndexes.{agree_at, hashes_in};
ghost use Rattle.td_body.specs.code.KeyParts.{tuple_values_at, values_cmp};
ghost use Rattle.td_body.specs.code.Numbered.{front, live};

use super::chains::Chains;
use super::count::Count;
use super::hashes::{hash_at, hash_of};
use super::rows::{Rows, is_row};
use crate::keys::{compare_at, compare_with};
use std::alloc::{AllocError, Global};
use td_value::tuple::Tuple;
use td_value::value::Value;

/// Tuples by number, found by their values at the places of a key.
#[derive(Drop)]
pub(crate) struct KeyIndex {
    pub(crate) places: Vec<usize>,
    pub(crate) chains: Chains,
    /// How many tuples that are not gone agree with a later one on the key.
    pub(crate) clashes: Count,
}

/// So many numbers are tried before a tuple is looked for by its hash.
const NEAR: usize = 4;

/// Whether two tuples have the same values at the places.
pub(crate) fn agree_at(places: &[usize], tuple: &Tuple, other: &Tuple) -> bool
    ensures { result ≡ agree_at places.now tuple.now other.now }
{
    compare_at(places, tuple, other).is_eq()
}

/// Whether the tuple of a number is there and agrees with this one at the places.
fn is_like(places: &[usize], rows: &Rows, number: usize, tuple: &Tuple) -> bool
    requires { number < length rows.now.rows }
    ensures { result ≡ (not (slice_index_or rows.now.gone number true)
        && agree_at places.now tuple.now (slice_index_or rows.now.rows number tuple.now)) }
{
    rows.is_live(number) && agree_at(places, tuple, rows.row_at(number))
}

/// Whether one of the first tuples is there and agrees with this one at the places, where the walk
/// over those of its hash begins.
fn is_agreed(
    places: &[usize],
    rows: &Rows,
    count: usize,
    next: &[usize],
    tuple: &Tuple,
    last: usize,
) -> bool
    requires within { count ≤ length rows.now.rows }
    requires long { count ≤ length next.now }
    requires chained { (skipped : List Bool) × AreGone skipped rows.now.gone
        × (count ≤ length skipped)
        × AreChained (map (part_hash places.now) rows.now.rows) skipped count next.now
        × (last ≡ latest (map (part_hash places.now) rows.now.rows) skipped
        (part_hash places.now tuple.now) count) }
    ensures { result ≡ list_any (agree_at places.now tuple.now)
        (live (take count rows.now.rows) (take count rows.now.gone)) }
{
    let _count = rows.count();
    let mut at = last;
    'walk: while at > 0 {
        let number = at - 1;
        if is_like(places, rows, number, tuple) {
            return true;
        }
        at = next[number];
    }
    false
}

/// Whether two lists of tuples have the same values at the places and the same marks, in turn.
fn are_alike(places: &[usize], old: &Rows, rows: &Rows) -> bool
    ensures values { IsTrue result → map (tuple_values_at places.now) rows.now.rows
        ≡ map (tuple_values_at places.now) old.now.rows }
    ensures gone { IsTrue result → rows.now.gone ≡ old.now.gone }
{
    let count = rows.count();
    if old.count() != count {
        return false;
    }
    for number in 0..count {
        let row = rows.row_at(number);
        if !agree_at(places, row, old.row_at(number)) {
            return false;
        }
        if rows.is_live(number) != old.is_live(number) {
            return false;
        }
    }
    true
}

/// Puts the tuple of a number after the others, where it is there and its values at the places are
/// those of the part.
fn keep_like(
    places: &[usize],
    rows: &Rows,
    number: usize,
    part: &[Value],
    found: &mut Vec<Tuple>,
) -> Result<(), AllocError>
    requires within { number < length rows.now.rows }
    requires same { length places.now ≡ length part.now }
    ensures kept { (d : Tuple) → OnOk result (found.new.items
        ≡ (if not (slice_index_or rows.now.gone number true)
        && is_eq (values_cmp places.now (slice_index_or rows.now.rows number d) part.now)
        then found.old.items ++ slice_index_or rows.now.rows number d ∷ []
        else found.old.items)) }
{
    let row = rows.row_at(number);
    if rows.is_live(number) && compare_with(places, row, part).is_eq() {
        found.push(row.try_clone()?)?;
    }
    Ok(())
}

impl KeyIndex {
    /// No tuples.
    pub(crate) fn new(alloc: Global, places: Vec<usize>) -> KeyIndex
        ensures index { IsIndex [] [] result }
        ensures skipped { result.chains.skipped.items ≡ [] }
        ensures before { result.clashes.before.items ≡ [] }
        ensures places { result.places.items ≡ places.items }
    {
        KeyIndex {
            places,
            chains: Chains::new(alloc),
            clashes: Count::of(alloc, 0),
        }
    }

    /// The tuples, found by their values at the places.
    pub(crate) fn of(alloc: Global, places: Vec<usize>, rows: &Rows) -> Result<KeyIndex, AllocError>
        ensures index { IfOk result (IsIndex rows.now.rows rows.now.gone) }
        ensures before { IfOk result (λ x. x.clashes.before.items ≡ []) }
        ensures places { IfOk result (λ x. x.places.items ≡ places.items) }
    {
        let count = rows.count();
        let mut index = KeyIndex::new(alloc, places);
        index.chains.reserve(count.saturating_add(count / 8))?;
        for number in 0..count {
            index.add(rows, number)?;
        }
        Ok(index)
    }

    /// The tuples, found as those of an index are that have the same values in turn.
    fn like(&self, alloc: Global) -> Result<KeyIndex, AllocError>
        ensures index { IfOk result (λ x. (old rows : List Tuple) (old_gone gone : List Bool)
            → IsIndex old old_gone self.now
            → map (tuple_values_at self.now.places.items) rows
            ≡ map (tuple_values_at self.now.places.items) old
            → gone ≡ old_gone → IsIndex rows gone x) }
        ensures before { IfOk result (λ x. x.clashes.before.items ≡ []) }
        ensures places { IfOk result (λ x. x.places.items ≡ self.now.places.items) }
    {
        let places = Vec::from_slice(alloc, &self.places)?;
        let chains = self.chains.copied()?;
        Ok(KeyIndex {
            places,
            chains,
            clashes: Count::of(alloc, self.clashes.now),
        })
    }

    /// The tuples, found by the key of an index, with the tuples of that.
    pub(crate) fn renewed(
        &self,
        alloc: Global,
        old: &Rows,
        rows: &Rows,
    ) -> Result<KeyIndex, AllocError>
        requires { IsIndex old.now.rows old.now.gone self.now }
        ensures index { IfOk result (IsIndex rows.now.rows rows.now.gone) }
        ensures before { IfOk result (λ x. x.clashes.before.items ≡ []) }
        ensures places { IfOk result (λ x. x.places.items ≡ self.now.places.items) }
    {
        if are_alike(&self.places, old, rows) {
            let index = self.like(alloc)?;
            return Ok(index);
        }
        let places = Vec::from_slice(alloc, &self.places)?;
        KeyIndex::of(alloc, places, rows)
    }

    /// Puts in the tuple of a number, where all before it are in and none is skipped.
    fn add(&mut self, rows: &Rows, number: usize) -> Result<(), AllocError>
        requires within { number < length rows.now.rows }
        requires index { IsIndex (take number rows.now.rows) (take number rows.now.gone) self.old }
        ensures index { OnOk result (IsIndex (take (number + 1) rows.now.rows)
            (take (number + 1) rows.now.gone) self.new) }
        ensures before { self.new.clashes.before.items ≡ self.old.clashes.before.items }
        ensures places { self.new.places.items ≡ self.old.places.items }
    {
        self.chains.reserve(1)?;
        let _count = rows.count();
        let row = rows.row_at(number);
        let last = self.chains.put_in(hash_at(&self.places, row));
        if !rows.is_live(number) {
            return Ok(());
        }
        if is_agreed(&self.places, rows, number, &self.chains.next, row, last) {
            self.clashes.now += 1;
        }
        Ok(())
    }

    /// Makes room for one tuple more.
    pub(crate) fn reserve(&mut self) -> Result<(), AllocError>
        ensures index { (rows : List Tuple) (gone : List Bool)
            → IsIndex rows gone self.old → IsIndex rows gone self.new }
        ensures before { self.new.clashes.before.items ≡ self.old.clashes.before.items }
        ensures places { self.new.places.items ≡ self.old.places.items }
        ensures room { OnOk result (HasRoom self.new) }
    {
        self.chains.reserve(1)
    }

    /// The number of a tuple that is there.
    pub(crate) fn find(&self, rows: &Rows, tuple: &Tuple) -> Option<usize>
        requires headed { IsTupleOf rows.now.heading tuple.now }
        requires linked { IsLinked rows.now.rows rows.now.gone self.now }
        ensures within { IfSome result (λ i. i < length rows.now.rows) }
        ensures there { IfSome result (λ i. slice_index_or rows.now.gone i true ≡ false) }
        ensures same { IfSome result (λ i.
            slice_index_or rows.now.rows i tuple.now ≡ tuple.now) }
        ensures none { result ≡ None
            → has tuple_cmp tuple.now (live rows.now.rows rows.now.gone) ≡ false }
    {
        let _count = rows.count();
        let mut at = self.chains.last(hash_at(&self.places, tuple));
        'walk: while at > 0 {
            let number = at - 1;
            if is_row(rows, number, tuple) {
                return Some(number);
            }
            at = self.chains.next[number];
        }
        None
    }

    /// The number of a tuple that is there. It is looked for first at a number and a few behind it.
    pub(crate) fn find_near(&self, rows: &Rows, tuple: &Tuple, hint: usize) -> Option<usize>
        requires headed { IsTupleOf rows.now.heading tuple.now }
        requires linked { IsLinked rows.now.rows rows.now.gone self.now }
        ensures within { IfSome result (λ i. i < length rows.now.rows) }
        ensures there { IfSome result (λ i. slice_index_or rows.now.gone i true ≡ false) }
        ensures same { IfSome result (λ i.
            slice_index_or rows.now.rows i tuple.now ≡ tuple.now) }
        ensures none { result ≡ None
            → has tuple_cmp tuple.now (live rows.now.rows rows.now.gone) ≡ false }
    {
        let end = rows.count().min(hint.saturating_add(NEAR));
        for number in hint..end {
            if is_row(rows, number, tuple) {
                return Some(number);
            }
        }
        self.find(rows, tuple)
    }

    /// The tuples whose values at the places are those of the part.
    pub(crate) fn found(
        &self,
        alloc: Global,
        rows: &Rows,
        part: &[Value],
    ) -> Result<Vec<Tuple>, AllocError>
        requires linked { IsLinked rows.now.rows rows.now.gone self.now }
        requires same { length self.now.places.items ≡ length part.now }
        ensures { IfOk result (λ found. HaveSameMembers found.items
            (with_part self.now.places.items part.now (live rows.now.rows rows.now.gone))) }
    {
        let _count = rows.count();
        let mut found = Vec::new(alloc);
        let mut at = self.chains.last(hash_of(part));
        'walk: while at > 0 {
            let number = at - 1;
            keep_like(&self.places, rows, number, part, &mut found)?;
            at = self.chains.next[number];
        }
        Ok(found)
    }

    /// Skips the last tuples of the hash that are gone, but for the first one of the hash.
    fn skip_gone(&mut self, rows: &Rows, hash: u64)
        requires { IsIndex rows.now.rows rows.now.gone self.old }
        ensures index { IsIndex rows.now.rows rows.now.gone self.new }
        ensures before { self.new.clashes.before.items ≡ self.old.clashes.before.items }
        ensures places { self.new.places.items ≡ self.old.places.items }
        ensures room { HasRoom self.old → HasRoom self.new }
    {
        let _count = rows.count();
        let mut at = self.chains.last(hash);
        'walk: while at > 0 {
            let number = at - 1;
            let before = self.chains.next[number];
            if before == 0 || rows.is_live(number) {
                return;
            }
            self.chains.skip_last(hash, number, before);
            at = before;
        }
    }

    /// Puts a tuple behind the others.
    pub(crate) fn put_in(&mut self, rows: &Rows, tuple: &Tuple)
        requires index { IsIndex rows.now.rows rows.now.gone self.old }
        requires room { HasRoom self.old }
        ensures index { IsIndex (rows.now.rows ++ tuple.now ∷ []) (rows.now.gone ++ false ∷ [])
            self.new }
        ensures before { self.new.clashes.before.items ≡ self.old.clashes.before.items }
        ensures places { self.new.places.items ≡ self.old.places.items }
    {
        let count = rows.count();
        let hash = hash_at(&self.places, tuple);
        self.skip_gone(rows, hash);
        let last = self.chains.put_in(hash);
        if is_agreed(&self.places, rows, count, &self.chains.next, tuple, last) {
            self.clashes.now += 1;
        }
    }

    /// Leaves out the tuple of a number, which has just been marked.
    pub(crate) fn take_out(&mut self, rows: &Rows, number: usize)
        requires within { number < length rows.now.rows }
        requires marked { slice_index_or rows.now.gone number false ≡ true }
        requires index { IsIndex rows.now.rows (slice_set rows.now.gone number false) self.old }
        ensures index { IsIndex rows.now.rows rows.now.gone self.new }
        ensures before { self.new.clashes.before.items ≡ self.old.clashes.before.items }
        ensures places { self.new.places.items ≡ self.old.places.items }
    {
        let count = rows.count();
        if self.clashes.now == 0 {
            return;
        }
        let row = rows.row_at(number);
        let last = self.chains.last(hash_at(&self.places, row));
        if is_agreed(&self.places, rows, count, &self.chains.next, row, last) {
            self.clashes.now -= 1;
        }
    }

    /// Takes out the last tuple. What is known of the clashes is no longer right.
    pub(crate) fn take_last(&mut self, tuple: &Tuple)
        requires { (rows : List Tuple) × (gone : List Bool)
            × (length gone ≡ length (rows ++ tuple.now ∷ []))
            × IsLinked (rows ++ tuple.now ∷ []) gone self.old }
        ensures linked { (rows : List Tuple) (gone : List Bool)
            → length gone ≡ length (rows ++ tuple.now ∷ [])
            → IsLinked (rows ++ tuple.now ∷ []) gone self.old
            → IsLinked rows (front gone) self.new }
        ensures before { self.new.clashes.before.items ≡ self.old.clashes.before.items }
        ensures places { self.new.places.items ≡ self.old.places.items }
    {
        self.chains.take_last(hash_at(&self.places, tuple));
    }

    /// Links the tuple of a number, which is gone and is to come back.
    pub(crate) fn link(&mut self, rows: &Rows, number: usize)
        requires within { number < length rows.now.rows }
        requires linked { IsLinked rows.now.rows rows.now.gone self.old }
        ensures linked { IsLinked rows.now.rows (slice_set rows.now.gone number false) self.new }
        ensures before { self.new.clashes.before.items ≡ self.old.clashes.before.items }
        ensures places { self.new.places.items ≡ self.old.places.items }
    {
        let _count = rows.count();
        if self.chains.skipped[number] {
            let row = rows.row_at(number);
            self.chains.link(hash_at(&self.places, row), number);
        }
    }

    /// Makes room to keep one set more.
    pub(crate) fn reserve_keep(&mut self) -> Result<(), AllocError>
        ensures index { (rows : List Tuple) (gone : List Bool)
            → IsIndex rows gone self.old → IsIndex rows gone self.new }
        ensures before { self.new.clashes.before.items ≡ self.old.clashes.before.items }
        ensures places { self.new.places.items ≡ self.old.places.items }
        ensures room { OnOk result (CanKeep self.new) }
    {
        self.clashes.reserve()
    }

    /// Keeps how many clashes there are.
    pub(crate) fn keep(&mut self)
        requires { CanKeep self.old }
        ensures index { (rows : List Tuple) (gone : List Bool)
            → IsIndex rows gone self.old → IsIndex rows gone self.new }
        ensures before { self.new.clashes.before.items
            ≡ self.old.clashes.before.items ++ self.old.clashes.now ∷ [] }
        ensures places { self.new.places.items ≡ self.old.places.items }
    {
        self.clashes.keep();
    }

    /// Goes back to how many clashes there were when a set was kept last.
    pub(crate) fn go_back(&mut self)
        requires { 0 < length self.old.clashes.before.items }
        ensures linked { (rows : List Tuple) (gone : List Bool)
            → IsLinked rows gone self.old → IsLinked rows gone self.new }
        ensures before { self.old.clashes.before.items
            ≡ self.new.clashes.before.items ++ self.new.clashes.now ∷ [] }
        ensures places { self.new.places.items ≡ self.old.places.items }
    {
        self.clashes.go_back();
    }

    /// Keeps nothing.
    pub(crate) fn forget(&mut self)
        ensures index { (rows : List Tuple) (gone : List Bool)
            → IsIndex rows gone self.old → IsIndex rows gone self.new }
        ensures before { self.new.clashes.before.items ≡ [] }
        ensures places { self.new.places.items ≡ self.old.places.items }
    {
        self.clashes.forget();
    }
}
