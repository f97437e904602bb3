//! Bodies that change.
ghost use Rattle.std.specs.Prelude.{◌≡◌, ◌∷◌, ◌++◌, [], IfSome, IsSome, OnErr, OnOk};
ghost use Rattle.td_body.specs.model.Bodies.{after_change};
ghost use Rattle.td_catalog.specs.code.CatalogViews.{IsBodyOf, IsCatalog, database_view, known_of};
ghost use Rattle.td_catalog.specs.code.CatalogViews.{known_rows, rows_of};
ghost use Rattle.td_catalog.specs.model.Database.{base_named, with_body};
ghost use Rattle.td_catalog.specs.code.Histories.{UsesRoomOf, before, held_view};
ghost use Rattle.td_catalog.specs.code.KeptDatabases.{advanced_view, settled_view};
ghost use Rattle.td_catalog.specs.model.TypedDatabases.{AreTyped};
ghost use Rattle.td_catalog.specs.declared.history.Step.TheVariants as steps;
ghost use Rattle.td_value.specs.model.Values.{IsRelation};

use crate::catalog::Catalog;
use crate::entry::BaseEntry;
use crate::history::Step;
use crate::tables::Tables;
use std::alloc::AllocError;
use td_body::body::Body;
use td_tree::name::Name;
use td_value::relation::Rel;

impl<B: Body> BaseEntry<B> {
    /// Takes the tuples of the one relation out of the body, then puts those of the other in.
    fn change(&mut self, out: &Rel, add: &Rel) -> Result<(), AllocError>
        requires out { out.now.heading ≡ (B.relation self.old.body).heading }
        requires add { add.now.heading ≡ (B.relation self.old.body).heading }
        ensures parts { (self.new.heading ≡ self.old.heading) × (self.new.keys ≡ self.old.keys) }
        ensures keys { B.keys self.new.body ≡ B.keys self.old.body }
        ensures changed { OnOk result (B.relation self.new.body
            ≡ after_change out.now add.now (B.relation self.old.body)) }
        ensures kept { OnOk result (B.kept self.new.body
            ≡ B.kept self.old.body ++ B.relation self.old.body ∷ []) }
        ensures same { OnErr result ((B.relation self.new.body ≡ B.relation self.old.body)
            × (B.kept self.new.body ≡ B.kept self.old.body)) }
        ensures valid { IsRelation (B.relation self.new.body) }
    {
        let answer = self.body.change(out, add);
        let _ = self.body.len();
        answer
    }
}

impl<B: Body> Tables<B> {
    /// Takes the tuples of the one relation out of the base relvar of the name, then puts those of
    /// the other in. What it was is kept by the body.
    fn change(&mut self, name: &Name, out: &Rel, add: &Rel) -> Result<(), AllocError>
        requires catalog { IsCatalog B.relation B.keys (rows_of self.old) }
        requires known { IsSome
            (base_named name.now (database_view B.relation (rows_of self.old))) }
        requires headings { IfSome
            (base_named name.now (database_view B.relation (rows_of self.old))) (λ r.
            (out.now.heading ≡ r.relation.heading) × (add.now.heading ≡ r.relation.heading)) }
        requires typed { AreTyped self.old.types add.now }
        ensures catalog { IsCatalog B.relation B.keys (rows_of self.new) }
        ensures led { OnOk result (before B.relation B.keys B.kept (steps.BodyChanged name.now)
            (held_view B.relation B.keys B.kept (rows_of self.new))
            ≡ held_view B.relation B.keys B.kept (rows_of self.old)) }
        ensures changed { OnOk result
            (IfSome (base_named name.now (database_view B.relation (rows_of self.old))) (λ r.
            database_view B.relation (rows_of self.new) ≡ with_body name.now
            (after_change out.now add.now r.relation)
            (database_view B.relation (rows_of self.old)))) }
        ensures same { OnErr result (held_view B.relation B.keys B.kept (rows_of self.new)
            ≡ held_view B.relation B.keys B.kept (rows_of self.old)) }
        ensures known { (known_of self.new ≡ known_of self.old)
            × (known_rows (rows_of self.new) ≡ known_rows (rows_of self.old)) }
        ensures room { UsesRoomOf 0 self.old self.new }
    {
        let Some(place) = self.bases.get_index_of(name) else {
            return Ok(());
        };
        let (_, entry) = self.bases.pair_mut(place);
        entry.change(out, add)
    }
}

impl<B: Body> Catalog<B> {
    /// Takes the tuples of the one relation out of the base relvar of the name, then puts those of
    /// the other in. Its keys need not hold.
    pub fn change(&mut self, name: &Name, out: &Rel, add: &Rel) -> Result<(), AllocError>
        requires known { IsSome (base_named name.now self.old.database) }
        requires headings { IfSome (base_named name.now self.old.database) (λ r.
            (out.now.heading ≡ r.relation.heading) × (add.now.heading ≡ r.relation.heading)) }
        requires typed { AreTyped self.old.database.types add.now }
        ensures changed { OnOk result (IfSome (base_named name.now self.old.database) (λ r.
            self.new ≡ advanced_view (with_body name.now
            (after_change out.now add.now r.relation) self.old.database) self.old)) }
        ensures unchanged { OnErr result (self.new ≡ self.old) }
    {
        let changed = name.try_clone()?;
        self.log.reserve()?;
        self.tables.change(name, out, add)?;
        self.log.note(Step::BodyChanged(changed));
        Ok(())
    }

    /// Gives the base relvar of the name another body, whose keys need not hold. It takes no
    /// memory.
    pub fn set_body(&mut self, name: &Name, body: B)
        requires none_kept { self.old.kept ≡ [] }
        requires known { IsSome (base_named name.now self.old.database) }
        requires body { IfSome (base_named name.now self.old.database) (λ r. IsBodyOf
            r.relation.heading r.keys (B.relation body) (B.keys body)) }
        requires typed { AreTyped self.old.database.types (B.relation body) }
        requires kept { B.kept body ≡ [] }
        ensures { self.new
            ≡ settled_view (with_body name.now (B.relation body) self.old.database) }
    {
        let _ = body.len();
        if let Some(place) = self.tables.bases.get_index_of(name) {
            let (_, entry) = self.tables.bases.pair_mut(place);
            entry.body = body;
        }
    }
}
