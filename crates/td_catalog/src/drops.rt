//! Entries that are taken out. What is defined anew after that stands last.
ghost use Rattle.std.specs.Prelude.{◌≡◌, OnErr, OnOk, false, map, true};
ghost use Rattle.td_catalog.specs.model.Database.{without_constraint, without_relvar, without_type};
ghost use Rattle.td_catalog.specs.code.KeptDatabases.{advanced_view};
ghost use Rattle.td_catalog.specs.model.Mentioned.{constraint_droppable, is_relvar_in_use};
ghost use Rattle.td_catalog.specs.model.Mentioned.{relvar_droppable, type_droppable};
ghost use Rattle.td_tree.specs.model.Outcomes.{Answers};
ghost use Rattle.td_types.specs.model.Headings.{has_name};

use crate::catalog::Catalog;
use crate::definitions::prepare;
use crate::history::Step;
use std::alloc::AllocError;
use td_body::body::Body;
use td_tree::cause::Cause;
use td_tree::fault::Fault;
use td_tree::name::Name;

impl<B: Body> Catalog<B> {
    /// Drops a type: refused where none has the name, else where an entry mentions it.
    pub fn drop_type(&mut self, name: &Name) -> Result<(), Fault>
        ensures answer { Answers (λ u. u) result (type_droppable name.now self.old.database) }
        ensures dropped { OnOk result
            (self.new ≡ advanced_view (without_type name.now self.old.database) self.old) }
        ensures unchanged { OnErr result (self.new ≡ self.old) }
    {
        if self.tables.types.get(name).is_none() {
            return Err(Fault::Refused(Cause::NameUnknown));
        }
        if self.is_type_in_use(name)? {
            return Err(Fault::Refused(Cause::InUse));
        }
        let types = self.tables.types.try_clone()?;
        self.log.reserve()?;
        self.tables.types.remove(name);
        self.log.note(Step::TypeDropped(types));
        Ok(())
    }

    /// Drops the base relvar of the name, that no entry mentions.
    fn drop_base(&mut self, name: &Name) -> Result<(), AllocError>
        requires known { has_name name.now (map (λ r. r.name) self.old.database.bases) ≡ true }
        requires unused { is_relvar_in_use name.now self.old.database ≡ false }
        ensures dropped { OnOk result
            (self.new ≡ advanced_view (without_relvar name.now self.old.database) self.old) }
        ensures unchanged { OnErr result (self.new ≡ self.old) }
    {
        prepare(&mut self.tables, &mut self.log)?;
        let Some((_, known, heading)) = self.tables.declared.bases.shift_remove_full(name) else {
            return Ok(());
        };
        let Some((place, name, entry)) = self.tables.bases.shift_remove_full(name) else {
            return Ok(());
        };
        self.log
            .note(Step::BaseDropped(place, name, entry, (known, heading)));
        Ok(())
    }

    /// Drops the virtual relvar of the name, that no entry mentions.
    fn drop_virtual(&mut self, name: &Name) -> Result<(), AllocError>
        requires known { has_name name.now (map (λ r. r.name) self.old.database.virtuals) ≡ true }
        requires unused { is_relvar_in_use name.now self.old.database ≡ false }
        ensures dropped { OnOk result
            (self.new ≡ advanced_view (without_relvar name.now self.old.database) self.old) }
        ensures unchanged { OnErr result (self.new ≡ self.old) }
    {
        prepare(&mut self.tables, &mut self.log)?;
        let Some((_, known, heading)) = self.tables.declared.virtuals.shift_remove_full(name) else {
            return Ok(());
        };
        let Some((place, name, entry)) = self.tables.virtuals.shift_remove_full(name) else {
            return Ok(());
        };
        self.log
            .note(Step::VirtualDropped(place, name, entry, (known, heading)));
        Ok(())
    }

    /// Drops a relvar, base or virtual: refused where none has the name, else where an entry
    /// mentions it.
    pub fn drop_var(&mut self, name: &Name) -> Result<(), Fault>
        ensures answer { Answers (λ u. u) result (relvar_droppable name.now self.old.database) }
        ensures dropped { OnOk result
            (self.new ≡ advanced_view (without_relvar name.now self.old.database) self.old) }
        ensures unchanged { OnErr result (self.new ≡ self.old) }
    {
        if !self.has_relvar(name) {
            return Err(Fault::Refused(Cause::NameUnknown));
        }
        if self.is_relvar_in_use(name)? {
            return Err(Fault::Refused(Cause::InUse));
        }
        if self.tables.bases.contains_key(name) {
            self.drop_base(name)?;
            return Ok(());
        }
        self.drop_virtual(name)?;
        Ok(())
    }

    /// Drops a constraint: refused where none has the name. No entry mentions one.
    pub fn drop_constraint(&mut self, name: &Name) -> Result<(), Fault>
        ensures answer { Answers (λ u. u) result
            (constraint_droppable name.now self.old.database) }
        ensures dropped { OnOk result
            (self.new ≡ advanced_view (without_constraint name.now self.old.database) self.old) }
        ensures unchanged { OnErr result (self.new ≡ self.old) }
    {
        if !self.tables.constraints.contains_key(name) {
            return Err(Fault::Refused(Cause::NameUnknown));
        }
        prepare(&mut self.tables, &mut self.log)?;
        let Some((_, known)) = self.tables.declared.constraints.shift_remove_full(name) else {
            return Ok(());
        };
        let Some((place, name, entry)) = self.tables.constraints.shift_remove_full(name) else {
            return Ok(());
        };
        self.log
            .note(Step::ConstraintDropped(place, name, entry, known));
        Ok(())
    }
}
