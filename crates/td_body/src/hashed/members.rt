//! The members of a body by number, with the steps that led to them.
ghost use Rattle.std.specs.Prelude.{◌≡◌, ◌∷◌, ◌++◌, [], ◌<◌, ◌↔◌, IfOk, IfSome, IsTrue, OnErr};
ghost use Rattle.std.specs.Prelude.{OnOk, false, length, map, not};
ghost use Rattle.std.specs.List.{All, slice_get};
ghost use Rattle.td_types.specs.model.Types.{attribute_names};
ghost use Rattle.td_value.specs.model.Sets.{has};
ghost use Rattle.td_value.specs.model.Values.{HaveSameMembers, IsAscendingBody, IsRelation};
ghost use Rattle.td_value.specs.model.Values.{IsTupleOf, relation_view, tuple_cmp, with_tuple};
ghost use Rattle.td_value.specs.model.Values.{without_tuple};
ghost use Rattle.td_body.specs.code.Hashes.{with_part};
ghost use Rattle.td_body.specs.code.KeyIndexes.{IsIndex};
ghost use Rattle.td_body.specs.code.KeyParts.{apart_at, places_from};
ghost use Rattle.td_body.specs.code.Members.{ArePlaced, IsFresh, changed_set, places_in, tuples_of};
ghost use Rattle.td_body.specs.code.Numbered.{live};

use super::back::undo_steps;
use super::chains::note;
use super::count::Count;
use super::filled::{indexes_like, indexes_of};
use super::index::KeyIndex;
use super::indexes::{
    forget_every, go_back_every, keep_every, put_in_every, reserve_every, reserve_keep_every,
    take_out_every,
};
use super::rows::Rows;
use super::step::Step;
use std::alloc::{AllocError, Global};
use std::marker::Model;
use td_algebra::sets::union;
use td_tree::name::Name;
use td_types::heading::Heading;
use td_value::relation::Rel;
use td_value::tuple::Tuple;
use td_value::value::Value;

/// The members of a body by number, found by each key, that can go back to what they were.
#[derive(Drop)]
pub(crate) struct Members {
    rows: Rows,
    /// How many of the numbers are not gone.
    alive: Count,
    indexes: Vec<KeyIndex>,
    log: Vec<Step>,
    /// Where the next tuple that goes out is looked for first.
    hint: usize,
    /// How many tuples came in since they were last moved together: what their blocks may hold.
    held: usize,
}

impl Model for Members {
    ghost use Rattle.std.specs.Prelude.{map};
    ghost use Rattle.td_value.specs.model.Values.{relation_view};
    ghost use Rattle.td_body.specs.code.Logs.{kept_by};
    ghost use Rattle.td_body.specs.code.Members.{AreMembers, Members, members_code, places_in};
    ghost use Rattle.td_body.specs.code.Members.{tuples_of};
    ghost use Rattle.td_body.specs.code.Numbered.{live};

    ghost Value = { Members };

    ghost coded = { members_code };

    ghost view = { λ m. record {
      relation = relation_view m.rows.heading (tuples_of (live m.rows.rows m.rows.gone));
      kept = map (relation_view m.rows.heading)
          (kept_by tuples_of m.log.items m.rows.rows m.rows.gone);
      places = places_in m.indexes.items;
    } };

    ghost invariant = { λ m. AreMembers m.rows.rows m.rows.gone m.rows.fixed m.alive.now
        m.alive.before.items m.indexes.items m.log.items };
}

/// A change of so many tuples, or of fewer, is not large beside any members.
const FEW: usize = 16;

/// A change of one tuple for so many members is not large.
const MEMBERS_A_TUPLE: usize = 4;

impl Members {
    /// The members that have these indexes, which keep nothing.
    fn fresh(
        alloc: Global,
        rows: Rows,
        alive: usize,
        indexes: Vec<KeyIndex>,
        held: usize,
    ) -> Members
        requires apart { tuples_of (live rows.rows rows.gone) ≡ live rows.rows rows.gone }
        requires alive { alive ≡ length (live rows.rows rows.gone) }
        requires index { All (IsIndex rows.rows rows.gone) indexes.items }
        requires before { All IsFresh indexes.items }
        requires some { 0 < length indexes.items }
        ensures relation { result.relation
            ≡ relation_view rows.heading (live rows.rows rows.gone) }
        ensures kept { result.kept ≡ [] }
        ensures places { result.places ≡ places_in indexes.items }
    {
        let _count = rows.count();
        Members {
            rows,
            alive: Count::of(alloc, alive),
            indexes,
            log: Vec::new(alloc),
            hint: 0,
            held,
        }
    }

    /// The members that the relation has, found by each of the keys.
    pub(crate) fn of_relation(
        alloc: Global,
        relation: Rel,
        keys: &[Vec<Name>],
    ) -> Result<Members, AllocError>
        ensures relation { IfOk result (λ m. m.relation ≡ relation) }
        ensures kept { IfOk result (λ m. m.kept ≡ []) }
        ensures placed { IfOk result (λ m. ArePlaced (map (λ key. key.items) keys.now)
            (attribute_names relation.heading) m.places) }
    {
        relation.reveal();
        let alive = relation.rows().len();
        let rows = Rows::of(alloc, relation)?;
        let indexes = indexes_of(alloc, keys, &rows)?;
        Ok(Members::fresh(alloc, rows, alive, indexes, alive))
    }

    /// The members that the relation has, found by the keys of these, where the blocks of its
    /// tuples hold so many.
    fn made_of(&self, relation: Rel, held: usize) -> Result<Members, AllocError>
        ensures relation { IfOk result (λ m. m.relation ≡ relation) }
        ensures kept { IfOk result (λ m. m.kept ≡ []) }
        ensures places { IfOk result (λ m. m.places ≡ self.now.places) }
    {
        relation.reveal();
        let alloc = *self.log.allocator();
        let alive = relation.rows().len();
        let rows = Rows::of(alloc, relation)?;
        let indexes = indexes_like(alloc, &self.indexes, &self.rows, &rows)?;
        Ok(Members::fresh(alloc, rows, alive, indexes, held))
    }

    /// The members that the relation has, found by the keys of these. Its tuples are moved together
    /// first where their blocks may hold more than twice as many, which is given.
    pub(crate) fn renewed(&self, relation: Rel, held: usize) -> Result<Members, AllocError>
        ensures relation { IfOk result (λ m. m.relation ≡ relation) }
        ensures kept { IfOk result (λ m. m.kept ≡ []) }
        ensures places { IfOk result (λ m. m.places ≡ self.now.places) }
    {
        let count = relation.rows().len();
        if held / 2 > count {
            self.made_of(relation.moved_together()?, count)
        } else {
            self.made_of(relation, held)
        }
    }

    // ---- what is seen

    /// Their heading.
    pub(crate) fn heading(&self) -> &Heading
        ensures { result.now ≡ self.now.relation.heading }
    {
        self.rows.heading()
    }

    /// How many members there are.
    pub(crate) fn len(&self) -> usize
        ensures length { result ≡ length self.now.relation.body }
        ensures valid { IsRelation self.now.relation }
    {
        self.rows.heading().reveal();
        let _count = self.rows.count();
        self.alive.now
    }

    /// What holds of all members: they are a relation. It takes no time.
    pub(crate) fn reveal(&self)
        ensures { IsRelation self.now.relation }
    {
        let _ = self.len();
    }

    /// Whether the tuple is a member.
    pub(crate) fn contains(&self, tuple: &Tuple) -> bool
        requires { IsTupleOf self.now.relation.heading tuple.now }
        ensures { result ≡ has tuple_cmp tuple.now self.now.relation.body }
    {
        self.indexes[0].find(&self.rows, tuple).is_some()
    }

    /// Whether these, which ascend, are the members, where that is seen at once.
    pub(crate) fn are(&self, tuples: &[Tuple]) -> bool
        requires headed { All (IsTupleOf self.now.relation.heading) tuples.now }
        requires ascending { IsAscendingBody tuples.now }
        ensures { IsTrue result → self.now.relation.body ≡ tuples.now }
    {
        self.alive.now == tuples.len() && self.rows.are(tuples)
    }

    /// The heading with the members as a relation.
    pub(crate) fn to_rel(&self, alloc: Global) -> Result<Rel, AllocError>
        ensures { IfOk result (λ r. r ≡ self.now.relation) }
    {
        let _count = self.rows.count();
        self.rows.heading().reveal();
        let first = self.rows.first_live(alloc, self.alive.now)?;
        first.reveal();
        let late = self.rows.late_live(alloc)?;
        if late.as_slice().is_empty() {
            return Ok(first);
        }
        let late = Rel::new(self.rows.heading().try_clone()?, late)?;
        union(alloc, &first, &late)
    }

    /// The members whose values at the places of that number are those of the part.
    pub(crate) fn members_with(
        &self,
        alloc: Global,
        number: usize,
        part: &[Value],
    ) -> Result<Vec<Tuple>, AllocError>
        requires within { number < length self.now.places }
        requires same { IfSome (slice_get self.now.places number) (λ places.
            length places ≡ length part.now) }
        ensures { IfSome (slice_get self.now.places number) (λ places. IfOk result (λ found.
            HaveSameMembers found.items (with_part places part.now self.now.relation.body))) }
    {
        self.indexes[number].found(alloc, &self.rows, part)
    }

    /// Whether no two members have the same values at the places of that number. It takes no walk.
    pub(crate) fn are_apart(&self, number: usize) -> bool
        requires { number < length self.now.places }
        ensures { IfSome (slice_get self.now.places number) (λ places.
            result ≡ apart_at places self.now.relation.body) }
    {
        self.indexes[number].clashes.now == 0
    }

    /// How much they keep.
    pub(crate) fn kept_count(&self) -> usize
        ensures { result ≡ length self.now.kept }
    {
        self.alive.before.len()
    }

    /// How many tuples their blocks may hold.
    pub(crate) fn held(&self) -> usize {
        self.held
    }

    /// Whether many are gone or came late.
    pub(crate) fn is_loose(&self) -> bool {
        self.rows.is_loose(self.alive.now)
    }

    /// Whether a change of so many tuples is large beside the members: step by step it takes longer
    /// than members that are made anew, and they would not stand in order after it.
    pub(crate) fn is_large(&self, tuples: usize) -> bool {
        tuples > self.alive.now / MEMBERS_A_TUPLE + FEW
    }

    // ---- one step

    /// Puts a tuple in that is no member.
    fn put_in(&mut self, tuple: &Tuple) -> Result<(), AllocError>
        requires headed { IsTupleOf self.old.relation.heading tuple.now }
        requires new { has tuple_cmp tuple.now self.old.relation.body ≡ false }
        ensures relation { OnOk result
            (self.new.relation ≡ with_tuple tuple.now self.old.relation) }
        ensures same { OnErr result (self.new.relation ≡ self.old.relation) }
        ensures kept { self.new.kept ≡ self.old.kept }
        ensures places { self.new.places ≡ self.old.places }
    {
        let copy = tuple.try_clone()?;
        self.log.reserve(1)?;
        self.rows.reserve()?;
        reserve_every(&mut self.indexes)?;
        let _count = self.rows.count();
        put_in_every(&mut self.indexes, &self.rows, tuple);
        self.rows.push(copy);
        self.alive.now += 1;
        self.held = self.held.saturating_add(1);
        note(&mut self.log, Step::Added);
        Ok(())
    }

    /// Makes the tuple a member, in a block that holds no more than it needs, and answers whether
    /// it was none.
    pub(crate) fn insert(&mut self, tuple: &Tuple) -> Result<bool, AllocError>
        requires headed { IsTupleOf self.old.relation.heading tuple.now }
        ensures new { IfOk result (λ new.
            new ≡ not (has tuple_cmp tuple.now self.old.relation.body)) }
        ensures relation { OnOk result
            (self.new.relation ≡ with_tuple tuple.now self.old.relation) }
        ensures same { OnErr result (self.new.relation ≡ self.old.relation) }
        ensures kept { self.new.kept ≡ self.old.kept }
        ensures places { self.new.places ≡ self.old.places }
    {
        self.reveal();
        if self.contains(tuple) {
            return Ok(false);
        }
        self.put_in(&tuple.kept_small()?)?;
        Ok(true)
    }

    /// Takes the tuple out, and answers whether it was a member.
    pub(crate) fn remove(&mut self, tuple: &Tuple) -> Result<bool, AllocError>
        requires { IsTupleOf self.old.relation.heading tuple.now }
        ensures there { IfOk result (λ there.
            there ≡ has tuple_cmp tuple.now self.old.relation.body) }
        ensures relation { OnOk result
            (self.new.relation ≡ without_tuple tuple.now self.old.relation) }
        ensures same { OnErr result (self.new.relation ≡ self.old.relation) }
        ensures kept { self.new.kept ≡ self.old.kept }
        ensures places { self.new.places ≡ self.old.places }
    {
        let Some(number) = self.indexes[0].find_near(&self.rows, tuple, self.hint) else {
            return Ok(false);
        };
        let _count = self.rows.count();
        self.log.push(Step::Dropped(number))?;
        self.hint = number + 1;
        self.rows.mark(number, true);
        self.alive.now -= 1;
        take_out_every(&mut self.indexes, &self.rows, number);
        Ok(true)
    }

    /// Keeps the members as they are.
    fn keep(&mut self) -> Result<(), AllocError>
        ensures relation { self.new.relation ≡ self.old.relation }
        ensures kept { OnOk result (self.new.kept ≡ self.old.kept ++ self.old.relation ∷ []) }
        ensures same { OnErr result (self.new.kept ≡ self.old.kept) }
        ensures places { self.new.places ≡ self.old.places }
    {
        self.log.reserve(1)?;
        self.alive.reserve()?;
        reserve_keep_every(&mut self.indexes)?;
        keep_every(&mut self.indexes);
        self.alive.keep();
        note(&mut self.log, Step::Kept);
        Ok(())
    }

    /// Goes back to what they were before the latest change of which that is kept. It takes no
    /// memory.
    pub(crate) fn go_back(&mut self)
        requires { 0 < length self.old.kept }
        ensures back { self.old.kept ≡ self.new.kept ++ self.new.relation ∷ [] }
        ensures heading { self.new.relation.heading ≡ self.old.relation.heading }
        ensures places { self.new.places ≡ self.old.places }
    {
        undo_steps(&mut self.rows, &mut self.indexes, &mut self.log);
        self.alive.go_back();
        go_back_every(&mut self.indexes);
    }

    /// Keeps nothing earlier any longer. It takes no memory.
    pub(crate) fn settle(&mut self)
        ensures relation { self.new.relation ≡ self.old.relation }
        ensures kept { self.new.kept ≡ [] }
        ensures places { self.new.places ≡ self.old.places }
    {
        self.log.clear();
        self.alive.forget();
        forget_every(&mut self.indexes);
    }

    // ---- one change

    /// Which of the tuples are no members.
    fn new_among(&self, tuples: &[Tuple]) -> Result<Vec<bool>, AllocError>
        requires { All (IsTupleOf self.now.relation.heading) tuples.now }
        ensures { IfOk result (λ mask. mask.items
            ≡ map (λ t. not (has tuple_cmp t self.now.relation.body)) tuples.now) }
    {
        let mut mask = Vec::with_capacity(*self.log.allocator(), tuples.len())?;
        for tuple in tuples {
            mask.push(!self.contains(tuple))?;
        }
        Ok(mask)
    }

    /// Takes tuples out.
    fn take_out(&mut self, out: &[Tuple]) -> Result<(), AllocError>
        requires { All (IsTupleOf self.old.relation.heading) out.now }
        ensures relation { OnOk result (self.new.relation ≡ relation_view
            self.old.relation.heading (changed_set out.now [] self.old.relation.body)) }
        ensures heading { self.new.relation.heading ≡ self.old.relation.heading }
        ensures kept { self.new.kept ≡ self.old.kept }
        ensures places { self.new.places ≡ self.old.places }
    {
        self.hint = 0;
        for tuple in out {
            self.remove(tuple)?;
        }
        self.reveal();
        Ok(())
    }

    /// Puts tuples in, which ascend. It is asked first which of them are no members, so that those
    /// that come in need not be compared with each other.
    fn put_all_in(&mut self, add: &[Tuple]) -> Result<(), AllocError>
        requires headed { All (IsTupleOf self.old.relation.heading) add.now }
        requires ascending { IsAscendingBody add.now }
        ensures relation { OnOk result (self.new.relation ≡ relation_view
            self.old.relation.heading (changed_set [] add.now self.old.relation.body)) }
        ensures heading { self.new.relation.heading ≡ self.old.relation.heading }
        ensures kept { self.new.kept ≡ self.old.kept }
        ensures places { self.new.places ≡ self.old.places }
    {
        self.reveal();
        let new = self.new_among(add)?;
        for (place, tuple) in add.iter().enumerate() {
            if new[place] {
                self.put_in(tuple)?;
            }
        }
        Ok(())
    }

    /// Takes tuples out, and puts others in.
    fn apply(&mut self, out: &[Tuple], add: &[Tuple]) -> Result<(), AllocError>
        requires out { All (IsTupleOf self.old.relation.heading) out.now }
        requires headed { All (IsTupleOf self.old.relation.heading) add.now }
        requires ascending { IsAscendingBody add.now }
        ensures relation { OnOk result (self.new.relation ≡ relation_view
            self.old.relation.heading (changed_set out.now add.now self.old.relation.body)) }
        ensures heading { self.new.relation.heading ≡ self.old.relation.heading }
        ensures kept { self.new.kept ≡ self.old.kept }
        ensures places { self.new.places ≡ self.old.places }
    {
        self.take_out(out)?;
        self.put_all_in(add)
    }

    /// Takes tuples out, puts others in, which ascend, and keeps what they were.
    pub(crate) fn change(&mut self, out: &[Tuple], add: &[Tuple]) -> Result<(), AllocError>
        requires out { All (IsTupleOf self.old.relation.heading) out.now }
        requires headed { All (IsTupleOf self.old.relation.heading) add.now }
        requires ascending { IsAscendingBody add.now }
        ensures relation { OnOk result (self.new.relation ≡ relation_view
            self.old.relation.heading (changed_set out.now add.now self.old.relation.body)) }
        ensures kept { OnOk result (self.new.kept ≡ self.old.kept ++ self.old.relation ∷ []) }
        ensures same { OnErr result ((self.new.relation ≡ self.old.relation)
            × (self.new.kept ≡ self.old.kept)) }
        ensures places { self.new.places ≡ self.old.places }
    {
        self.keep()?;
        match self.apply(out, add) {
            Ok(()) => Ok(()),
            Err(error) => {
                self.go_back();
                Err(error)
            }
        }
    }

    /// Puts the members in order anew, where they keep nothing, and many are gone or came late.
    /// Where memory is refused they stay as they are.
    pub(crate) fn compact(&mut self)
        ensures relation { self.new.relation ≡ self.old.relation }
        ensures kept { self.new.kept ≡ self.old.kept }
        ensures places { self.new.places ≡ self.old.places }
    {
        if self.kept_count() > 0 {
            return;
        }
        if !self.is_loose() {
            return;
        }
        if let Ok(relation) = self.to_rel(*self.log.allocator()) {
            if let Ok(next) = self.renewed(relation, self.held) {
                *self = next;
            }
        }
    }
}
