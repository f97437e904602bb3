//! The tables of a catalogue, and steps back.
ghost use Rattle.std.specs.Prelude.{◌≡◌, ◌+◌, ◌<◌, ◌≤◌, ◌∷◌, ◌++◌, [], OnOk, false};
ghost use Rattle.std.specs.Prelude.{if◌then◌else◌, insert, is_some, nat_lt};
ghost use Rattle.std.specs.Map.{lookup};
ghost use Rattle.std.specs.List.{list_any};
ghost use Rattle.indexmap.specs.IndexMap.{spare};
ghost use Rattle.indexmap.specs.IndexSet.{spare as names_spare};
ghost use Rattle.td_catalog.specs.code.CatalogViews.{AreEntries, database_view, known_of};
ghost use Rattle.td_catalog.specs.code.CatalogViews.{known_rows};
ghost use Rattle.td_catalog.specs.code.CatalogViews.{rows_of};
ghost use Rattle.td_catalog.specs.code.Histories.{HasRoom, IsOwnStep, IsStage, UsesRoomOf, before};
ghost use Rattle.td_catalog.specs.code.Histories.{dropped_in, held_view};
ghost use Rattle.td_catalog.specs.declared.history.Step.TheVariants as steps;
ghost use Rattle.td_types.specs.model.Types.{same_name};

use crate::entry::{BaseEntry, ConstraintEntry, VirtualEntry};
use crate::history::Step;
use indexmap::{IndexMap, IndexSet};
use std::alloc::AllocError;
use td_body::body::Body;
use td_check::declared::Declared;
use td_tree::name::Name;
use td_types::table::TypeTable;

/// What is defined: types, relvars and constraints, each list in order of definition.
#[derive(Drop)]
pub(crate) struct Tables<B: Body> {
    pub(crate) types: TypeTable,
    pub(crate) bases: IndexMap<Name, BaseEntry<B>>,
    pub(crate) virtuals: IndexMap<Name, VirtualEntry>,
    pub(crate) constraints: IndexMap<Name, ConstraintEntry>,
    /// What expressions may know of the entries: headings and names, kept equal to the lists.
    pub(crate) declared: Declared,
}

/// The place, or the length where it is past that.
fn within(place: usize, len: usize) -> usize
    ensures { result ≡ (if nat_lt place len then place else len) }
{
    if place < len { place } else { len }
}

/// Puts an entry in again at its place, or last where there are fewer. It takes no memory.
fn put_back<V: Drop>(map: &mut IndexMap<Name, V>, place: usize, name: Name, value: V)
    requires new { is_some (lookup (same_name name) map.old.entries) ≡ false }
    requires room { 0 < spare map.old }
    ensures entries { map.new.entries ≡ insert map.old.entries place (name, value) }
    ensures room { spare map.old ≤ spare map.new + 1 }
{
    let at = within(place, map.len());
    let _ = map.shift_insert(at, name, value).unwrap();
}

/// Puts an entry of a new name last. It takes no memory.
pub(crate) fn put_last<V: Drop>(map: &mut IndexMap<Name, V>, name: Name, value: V)
    requires new { is_some (lookup (same_name name) map.old.entries) ≡ false }
    requires room { 0 < spare map.old }
    ensures entries { map.new.entries ≡ map.old.entries ++ (name, value) ∷ [] }
    ensures room { spare map.old ≤ spare map.new + 1 }
{
    let _ = map.insert(name, value).unwrap();
}

/// Puts a new name last. It takes no memory.
pub(crate) fn put_name_last(names: &mut IndexSet<Name>, name: Name)
    requires new { list_any (same_name name) names.old.keys ≡ false }
    requires room { 0 < names_spare names.old }
    ensures keys { names.new.keys ≡ names.old.keys ++ name ∷ [] }
    ensures room { names_spare names.old ≤ names_spare names.new + 1 }
{
    let _ = names.insert(name).unwrap();
}

/// Puts a name in again at its place, or last where there are fewer. It takes no memory.
fn put_name_back(names: &mut IndexSet<Name>, place: usize, name: Name)
    requires new { list_any (same_name name) names.old.keys ≡ false }
    requires room { 0 < names_spare names.old }
    ensures keys { names.new.keys ≡ insert names.old.keys place name }
    ensures room { names_spare names.old ≤ names_spare names.new + 1 }
{
    let at = within(place, names.len());
    let _ = names.shift_insert(at, name).unwrap();
}

impl<B: Body> Tables<B> {
    /// Makes room for one entry more than so many, in each table.
    pub(crate) fn make_room(&mut self, dropped: usize) -> Result<(), AllocError>
        ensures rows { rows_of self.new ≡ rows_of self.old }
        ensures known { known_of self.new ≡ known_of self.old }
        ensures room { UsesRoomOf 0 self.old self.new }
        ensures ok { OnOk result (HasRoom (dropped + 1) self.new) }
    {
        let Some(room) = dropped.checked_add(1) else {
            return Err(AllocError);
        };
        self.bases.reserve(room)?;
        self.virtuals.reserve(room)?;
        self.constraints.reserve(room)?;
        self.declared.bases.reserve(room)?;
        self.declared.virtuals.reserve(room)?;
        self.declared.constraints.reserve(room)
    }

    /// The body of the base relvar of the name goes back.
    fn revert_body(&mut self, name: &Name)
        ensures held { held_view B.relation B.keys B.kept (rows_of self.new)
            ≡ before B.relation B.keys B.kept (steps.BodyChanged name.now)
            (held_view B.relation B.keys B.kept (rows_of self.old)) }
        ensures known { (known_of self.new ≡ known_of self.old)
            × (known_rows (rows_of self.new) ≡ known_rows (rows_of self.old)) }
        ensures room { UsesRoomOf 0 self.old self.new }
    {
        if let Some(place) = self.bases.get_index_of(name) {
            let (_, entry) = self.bases.pair_mut(place);
            entry.body.revert();
        }
    }

    /// Takes a step back. It takes no memory.
    pub(crate) fn undo(&mut self, step: Step<B>)
        requires stage { IsStage (before B.relation B.keys B.kept step
            (held_view B.relation B.keys B.kept (rows_of self.old))) }
        requires room { HasRoom (dropped_in (step ∷ [])) self.old }
        requires named { known_of self.old ≡ known_rows (rows_of self.old) }
        requires own { IsOwnStep step }
        ensures held { held_view B.relation B.keys B.kept (rows_of self.new)
            ≡ before B.relation B.keys B.kept step
            (held_view B.relation B.keys B.kept (rows_of self.old)) }
        ensures named { known_of self.new ≡ known_rows (rows_of self.new) }
        ensures room { UsesRoomOf (dropped_in (step ∷ [])) self.old self.new }
    {
        self.types.reveal();
        match step {
            Step::TypeAdded(name) => self.types.remove(&name),
            Step::BaseAdded => {
                let _ = self.bases.pop();
                let _ = self.declared.bases.pop();
            }
            Step::VirtualAdded => {
                let _ = self.virtuals.pop();
                let _ = self.declared.virtuals.pop();
            }
            Step::ConstraintAdded => {
                let _ = self.constraints.pop();
                let _ = self.declared.constraints.pop();
            }
            Step::TypeDropped(types) => self.types = types,
            Step::BaseDropped(place, name, entry, known) => {
                let (known, heading) = known;
                put_back(&mut self.bases, place, name, entry);
                put_back(&mut self.declared.bases, place, known, heading);
            }
            Step::VirtualDropped(place, name, entry, known) => {
                let (known, heading) = known;
                put_back(&mut self.virtuals, place, name, entry);
                put_back(&mut self.declared.virtuals, place, known, heading);
            }
            Step::ConstraintDropped(place, name, entry, known) => {
                put_back(&mut self.constraints, place, name, entry);
                put_name_back(&mut self.declared.constraints, place, known);
            }
            Step::BodyChanged(name) => self.revert_body(&name),
        }
    }

    /// The body of the base relvar of the name keeps nothing any longer.
    fn settle_body(&mut self, name: &Name)
        requires { AreEntries B.relation B.keys self.old.bases.entries }
        ensures entries { AreEntries B.relation B.keys self.new.bases.entries }
        ensures database { database_view B.relation (rows_of self.new)
            ≡ database_view B.relation (rows_of self.old) }
        ensures known { (known_of self.new ≡ known_of self.old)
            × (known_rows (rows_of self.new) ≡ known_rows (rows_of self.old)) }
        ensures room { UsesRoomOf 0 self.old self.new }
    {
        if let Some(place) = self.bases.get_index_of(name) {
            let (_, entry) = self.bases.pair_mut(place);
            entry.body.settle();
        }
    }

    /// The bodies that the steps changed keep nothing any longer.
    pub(crate) fn settle_bodies(&mut self, steps: &[Step<B>])
        requires { AreEntries B.relation B.keys self.old.bases.entries }
        ensures entries { AreEntries B.relation B.keys self.new.bases.entries }
        ensures database { database_view B.relation (rows_of self.new)
            ≡ database_view B.relation (rows_of self.old) }
        ensures known { (known_of self.new ≡ known_of self.old)
            × (known_rows (rows_of self.new) ≡ known_rows (rows_of self.old)) }
        ensures room { UsesRoomOf 0 self.old self.new }
    {
        'steps: for step in steps {
            if let Step::BodyChanged(name) = step {
                self.settle_body(name);
            }
        }
    }
}
