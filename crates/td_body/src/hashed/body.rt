//! Bodies whose members are hashed.
ghost use Rattle.std.specs.Prelude.{◌≡◌, ◌∷◌, ◌++◌, [], ℕ, List, IfOk, OnErr, OnOk};
ghost use Rattle.std.specs.List.{All};
ghost use Rattle.td_body.specs.model.Bodies.{after_change};
ghost use Rattle.td_body.specs.code.HashBodies.{IsPlacedFor, kept_with_aside};

use super::members::Members;
use crate::body::Body;
use crate::changes::changed_relation;
use std::alloc::{AllocError, Global};
use std::marker::Model;
use std::mem;
use std::rc::Rc;
use td_tree::name::Name;
use td_types::heading::Heading;
use td_value::relation::Rel;
use td_value::tuple::Tuple;

/// A body whose members have numbers, and are found by the hashes of their values for each key. A
/// change costs by the tuples that it changes, and so does the way back.
#[derive(Drop)]
pub struct HashBody {
    keys: Rc<Vec<Vec<Name>>>,
    members: Members,
    aside: Vec<Members>,
    count: usize,
}

impl Model for HashBody {
    ghost use Rattle.std.specs.Prelude.{map};
    ghost use Rattle.td_body.specs.model.Bodies.{BodyView};
    ghost use Rattle.td_body.specs.code.BodyCode.{body_code};
    ghost use Rattle.td_body.specs.code.HashBodies.{IsHashBody, kept_with_aside};

    ghost Value = { BodyView };

    ghost coded = { body_code };

    ghost view = { λ b. record {
      relation = b.members.relation;
      keys = map (λ key. key.items) b.keys.value.items;
      kept = kept_with_aside b.aside.items b.members;
    } };

    ghost invariant = { λ b.
        IsHashBody (map (λ key. key.items) b.keys.value.items) b.members b.aside.items b.count };
}

/// The members after a change, made anew: where all go out, those that come in.
fn changed_members(
    alloc: Global,
    members: &Members,
    out: &Rel,
    add: &Rel,
) -> Result<Members, AllocError>
    requires out { out.now.heading ≡ members.now.relation.heading }
    requires add { add.now.heading ≡ members.now.relation.heading }
    ensures relation { IfOk result (λ m.
        m.relation ≡ after_change out.now add.now members.now.relation) }
    ensures kept { IfOk result (λ m. m.kept ≡ []) }
    ensures places { IfOk result (λ m. m.places ≡ members.now.places) }
{
    members.reveal();
    add.reveal();
    let new = add.rows().len();
    if members.are(out.rows()) {
        return members.renewed(add.try_clone()?, new);
    }
    let next = changed_relation(alloc, &members.to_rel(alloc)?, out, add)?;
    members.renewed(next, members.held().saturating_add(new))
}

/// Puts the members aside, and the next ones in their place.
fn put_aside(
    aside: &mut Vec<Members>,
    members: &mut Members,
    next: Members,
) -> Result<(), AllocError>
    ensures aside { OnOk result (aside.new.items ≡ aside.old.items ++ members.old ∷ []) }
    ensures next { OnOk result (members.new ≡ next) }
    ensures same { OnErr result ((aside.new.items ≡ aside.old.items)
        × (members.new ≡ members.old)) }
{
    let before = mem::replace(members, next);
    match aside.push(before) {
        Ok(()) => Ok(()),
        Err(refused) => {
            *members = refused.value;
            Err(AllocError)
        }
    }
}

/// Whether a change is to be carried out by members that are made anew: it is large, or many are
/// gone or came late.
fn is_whole(members: &Members, out: &Rel, add: &Rel) -> bool {
    let tuples = out.rows().len().saturating_add(add.rows().len());
    members.is_loose() || members.is_large(tuples)
}

/// Carries a change out step by step, or puts the members aside for others.
fn change_members(
    alloc: Global,
    members: &mut Members,
    aside: &mut Vec<Members>,
    out: &Rel,
    add: &Rel,
) -> Result<(), AllocError>
    requires out { out.now.heading ≡ members.old.relation.heading }
    requires add { add.now.heading ≡ members.old.relation.heading }
    ensures relation { OnOk result
        (members.new.relation ≡ after_change out.now add.now members.old.relation) }
    ensures kept { OnOk result (kept_with_aside aside.new.items members.new
        ≡ kept_with_aside aside.old.items members.old ++ members.old.relation ∷ []) }
    ensures same { OnErr result ((members.new.relation ≡ members.old.relation)
        × (kept_with_aside aside.new.items members.new
        ≡ kept_with_aside aside.old.items members.old)) }
    ensures placed { (keys : List (List (List ℕ))) → IsPlacedFor keys members.old
        → All (IsPlacedFor keys) aside.old.items
        → IsPlacedFor keys members.new × All (IsPlacedFor keys) aside.new.items }
{
    members.reveal();
    add.reveal();
    if !is_whole(members, out, add) {
        return members.change(out.rows(), add.rows());
    }
    let next = changed_members(alloc, members, out, add)?;
    put_aside(aside, members, next)
}

impl Body for HashBody {
    ghost relation = { λ b. b.relation };

    ghost keys = { λ b. b.keys };

    ghost kept = { λ b. b.kept };

    fn empty(alloc: Global, heading: Heading, names: Vec<Vec<Name>>) -> Result<Self, AllocError> {
        let relation = Rel::of_ascending(heading, Vec::new(alloc))?;
        let members = Members::of_relation(alloc, relation, &names)?;
        let keys = Rc::new(alloc, names)?;
        Ok(HashBody {
            keys,
            members,
            aside: Vec::new(alloc),
            count: 0,
        })
    }

    fn insert(&mut self, tuple: Tuple) -> Result<bool, Tuple> {
        self.members.reveal();
        self.members.compact();
        let Ok(new) = self.members.insert(&tuple) else {
            return Err(tuple);
        };
        self.members.settle();
        Ok(new)
    }

    fn remove(&mut self, tuple: &Tuple) -> Result<bool, AllocError> {
        self.members.reveal();
        self.members.compact();
        let there = self.members.remove(tuple)?;
        self.members.settle();
        Ok(there)
    }

    fn change(&mut self, out: &Rel, add: &Rel) -> Result<(), AllocError> {
        let Some(count) = self.count.checked_add(1) else {
            return Err(AllocError);
        };
        let add = add.try_clone()?.kept_small()?;
        self.members.compact();
        change_members(
            *self.keys.allocator(),
            &mut self.members,
            &mut self.aside,
            out,
            &add,
        )?;
        self.count = count;
        Ok(())
    }

    fn revert(&mut self) -> bool {
        if self.members.kept_count() > 0 {
            self.members.go_back();
            self.count -= 1;
            return true;
        }
        match self.aside.pop() {
            Some(before) => {
                self.members = before;
                self.count -= 1;
                true
            }
            None => false,
        }
    }

    fn settle(&mut self) {
        self.aside.clear();
        self.members.settle();
        self.count = 0;
    }

    fn kept(&self) -> usize {
        self.count
    }

    fn contains(&self, tuple: &Tuple) -> bool {
        self.members.contains(tuple)
    }

    fn len(&self) -> usize {
        self.members.len()
    }

    fn to_rel(&self) -> Result<Rel, AllocError> {
        self.members.to_rel(*self.keys.allocator())
    }

    fn try_clone(&self) -> Result<Self, AllocError> {
        let alloc = *self.keys.allocator();
        let relation = self.members.to_rel(alloc)?;
        let members = self.members.renewed(relation, self.members.held())?;
        Ok(HashBody {
            keys: self.keys.clone()?,
            members,
            aside: Vec::new(alloc),
            count: 0,
        })
    }

    fn find_by_key(&self, key: usize, part: &Tuple) -> Result<Rel, AllocError> {
        self.members.reveal();
        let alloc = *self.keys.allocator();
        let tuples = self.members.members_with(alloc, key, part.values())?;
        Rel::new(self.members.heading().try_clone()?, tuples)
    }

    fn key_holds(&self, key: usize) -> Result<bool, AllocError> {
        self.members.reveal();
        Ok(self.members.are_apart(key))
    }
}
