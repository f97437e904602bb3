//! Numbers, chained by hashes.
ghost use Rattle.std.specs.Prelude.{◌≡◌, ◌∷◌, ◌++◌, [], ◌<◌, ◌≤◌, ◌+◌, ◌-◌, ℕ, List, IfOk, OnOk};
ghost use Rattle.std.specs.Prelude.{cond, false, length, nat_eq, slice_index, slice_index_or};
ghost use Rattle.std.specs.Prelude.{slice_set, true, vec_capacity, vec_len};
ghost use Rattle.indexmap.specs.IndexMap.{spare};
ghost use Rattle.td_body.specs.code.Chains.{AreLinked, IsAbove, last_in};
ghost use Rattle.td_body.specs.code.Numbered.{front};

use indexmap::IndexMap;
use std::alloc::{AllocError, Global};

/// The numbers of items from 0 up, found by the items' hashes. Items may be skipped, but for the
/// first one of each hash.
#[derive(Drop)]
pub(crate) struct Chains {
    /// One more than the number of the last item of each hash.
    pub(crate) last: IndexMap<u64, usize>,
    /// For each item, one more than the number of the one before it that has its hash, or 0.
    pub(crate) next: Vec<usize>,
    /// Whether the chains pass over an item.
    pub(crate) skipped: Vec<bool>,
}

/// Writes one item more, where there is room for it.
pub(crate) fn note<T: Drop>(items: &mut Vec<T>, item: T)
    requires { vec_len items.old < vec_capacity items.old }
    ensures items { items.new.items ≡ items.old.items ++ item ∷ [] }
    ensures len { vec_len items.new ≡ vec_len items.old + 1 }
    ensures space { vec_capacity items.old ≤ vec_capacity items.new }
{
    items.push(item).unwrap();
}

/// What the table has for the hash.
fn last_of(last: &IndexMap<u64, usize>, hash: u64) -> usize
    ensures { result ≡ last_in last.now hash }
{
    match last.get(&hash) {
        Some(count) => *count,
        None => 0,
    }
}

/// Writes a number for the hash, where there is room, and gives the one that was there.
fn put_last(last: &mut IndexMap<u64, usize>, hash: u64, count: usize) -> usize
    requires { 0 < spare last.old }
    ensures old { result ≡ last_in last.old hash }
    ensures last { (h : ℕ) → last_in last.new h ≡ cond (nat_eq hash h) count (last_in last.old h) }
    ensures room { spare last.old ≤ spare last.new + 1 }
{
    match last.insert(hash, count).unwrap() {
        Some(old) => old,
        None => 0,
    }
}

/// Writes another number for a hash that has one; 0 takes it out.
fn put_back(last: &mut IndexMap<u64, usize>, hash: u64, count: usize)
    requires { 0 < last_in last.old hash }
    ensures last { (h : ℕ) → last_in last.new h ≡ cond (nat_eq hash h) count (last_in last.old h) }
    ensures room { spare last.old ≤ spare last.new }
{
    if count == 0 {
        let _ = last.swap_remove(&hash);
    } else if let Some(old) = last.get_mut(&hash) {
        *old = count;
    }
}

impl Chains {
    /// No items.
    pub(crate) fn new(alloc: Global) -> Chains
        ensures linked { AreLinked [] result.skipped.items result.last result.next.items }
        ensures skipped { result.skipped.items ≡ [] }
    {
        Chains {
            last: IndexMap::new(alloc),
            next: Vec::new(alloc),
            skipped: Vec::new(alloc),
        }
    }

    /// Makes room for so many items more.
    pub(crate) fn reserve(&mut self, more: usize) -> Result<(), AllocError>
        ensures same { (hashes : List ℕ)
            → AreLinked hashes self.old.skipped.items self.old.last self.old.next.items
            → AreLinked hashes self.new.skipped.items self.new.last self.new.next.items }
        ensures marks { self.new.skipped.items ≡ self.old.skipped.items }
        ensures last { OnOk result (more ≤ spare self.new.last) }
        ensures next { OnOk result (vec_len self.new.next + more ≤ vec_capacity self.new.next) }
        ensures skipped { OnOk result
            (vec_len self.new.skipped + more ≤ vec_capacity self.new.skipped) }
    {
        self.last.reserve(more)?;
        self.next.reserve(more)?;
        self.skipped.reserve(more)?;
        Ok(())
    }

    /// The same items.
    pub(crate) fn copied(&self) -> Result<Chains, AllocError>
        ensures linked { IfOk result (λ x. (hashes : List ℕ)
            → AreLinked hashes self.now.skipped.items self.now.last self.now.next.items
            → AreLinked hashes x.skipped.items x.last x.next.items) }
        ensures skipped { IfOk result (λ x. x.skipped.items ≡ self.now.skipped.items) }
    {
        let last = self.last.clone()?;
        let next = Vec::from_slice(*self.next.allocator(), &self.next)?;
        let skipped = Vec::from_slice(*self.skipped.allocator(), &self.skipped)?;
        Ok(Chains {
            last,
            next,
            skipped,
        })
    }

    /// One more than the number of the last item of the hash, or 0.
    pub(crate) fn last(&self, hash: u64) -> usize
        ensures { result ≡ last_in self.now.last hash }
    {
        last_of(&self.last, hash)
    }

    /// Puts an item of the hash behind the others, and gives what was found by it before.
    pub(crate) fn put_in(&mut self, hash: u64) -> usize
        requires last { 0 < spare self.old.last }
        requires next { vec_len self.old.next < vec_capacity self.old.next }
        requires skipped { vec_len self.old.skipped < vec_capacity self.old.skipped }
        ensures old { result ≡ last_in self.old.last hash }
        ensures linked { (hashes : List ℕ)
            → AreLinked hashes self.old.skipped.items self.old.last self.old.next.items
            → AreLinked (hashes ++ hash ∷ []) self.new.skipped.items self.new.last
            self.new.next.items }
        ensures skipped { self.new.skipped.items ≡ self.old.skipped.items ++ false ∷ [] }
    {
        let count = self.next.len();
        let old = put_last(&mut self.last, hash, count + 1);
        note(&mut self.next, old);
        note(&mut self.skipped, false);
        old
    }

    /// Takes out the last item, which has the hash.
    pub(crate) fn take_last(&mut self, hash: u64)
        requires { (hashes : List ℕ) × AreLinked (hashes ++ hash ∷ []) self.old.skipped.items
            self.old.last self.old.next.items }
        ensures linked { (hashes : List ℕ)
            → AreLinked (hashes ++ hash ∷ []) self.old.skipped.items self.old.last
            self.old.next.items
            → AreLinked hashes self.new.skipped.items self.new.last self.new.next.items }
        ensures skipped { self.new.skipped.items ≡ front self.old.skipped.items }
    {
        let before = self.next.pop().unwrap();
        let was_skipped = self.skipped.pop().unwrap();
        if !was_skipped {
            put_back(&mut self.last, hash, before);
        }
    }

    /// Skips the last item of the hash that is not skipped, before which there is another one.
    pub(crate) fn skip_last(&mut self, hash: u64, number: usize, before: usize)
        requires linked { (hashes : List ℕ)
            × AreLinked hashes self.old.skipped.items self.old.last self.old.next.items }
        requires last { last_in self.old.last hash ≡ number + 1 }
        requires before { slice_index_or self.old.next.items number before ≡ before }
        requires some { 0 < before }
        ensures linked { (hashes : List ℕ)
            → AreLinked hashes self.old.skipped.items self.old.last self.old.next.items
            → AreLinked hashes self.new.skipped.items self.new.last self.new.next.items }
        ensures last { last_in self.new.last hash ≡ before }
        ensures skipped { self.new.skipped.items ≡ slice_set self.old.skipped.items number true }
        ensures next { self.new.next ≡ self.old.next }
        ensures room { spare self.old.last ≤ spare self.new.last }
        ensures len { vec_len self.new.skipped ≡ vec_len self.old.skipped }
        ensures space { vec_capacity self.old.skipped ≤ vec_capacity self.new.skipped }
    {
        put_back(&mut self.last, hash, before);
        self.skipped[number] = true;
    }

    /// One more than the number of the first item of the hash behind this one, which is skipped,
    /// that is not skipped.
    fn above(&self, hash: u64, number: usize) -> usize
        requires linked { (hashes : List ℕ)
            × AreLinked hashes self.now.skipped.items self.now.last self.now.next.items
            × (slice_index hashes number ≡ hash) }
        requires there { number + 1 < last_in self.now.last hash }
        ensures { (hashes : List ℕ)
            → AreLinked hashes self.now.skipped.items self.now.last self.now.next.items
            → IsAbove hashes self.now.skipped.items self.now.next.items hash number result }
    {
        let mut at = self.last(hash);
        'walk: while self.next[at - 1] > number + 1 {
            at = self.next[at - 1];
        }
        at
    }

    /// Links an item of the hash, which was skipped, again.
    pub(crate) fn link(&mut self, hash: u64, number: usize)
        requires linked { (hashes : List ℕ)
            × AreLinked hashes self.old.skipped.items self.old.last self.old.next.items
            × (slice_index hashes number ≡ hash) }
        requires within { number < length self.old.skipped.items }
        requires skipped { slice_index_or self.old.skipped.items number false ≡ true }
        ensures linked { (hashes : List ℕ)
            → AreLinked hashes self.old.skipped.items self.old.last self.old.next.items
            → slice_index hashes number ≡ hash
            → AreLinked hashes self.new.skipped.items self.new.last self.new.next.items }
        ensures skipped { self.new.skipped.items ≡ slice_set self.old.skipped.items number false }
    {
        let last = self.last(hash);
        if last <= number {
            self.next[number] = last;
            put_back(&mut self.last, hash, number + 1);
        } else {
            let above = self.above(hash, number);
            self.next[number] = self.next[above - 1];
            self.next[above - 1] = number + 1;
        }
        self.skipped[number] = false;
    }
}
