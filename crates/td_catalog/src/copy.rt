//! Copies of catalogues. They share the bodies as far as these share with their copies, and the
//! expressions.
ghost use Rattle.std.specs.Prelude.{◌≡◌, ℕ, IfOk, IsTrue, List, map};
ghost use Rattle.td_types.specs.model.Headings.{are_distinct};
ghost use Rattle.td_catalog.specs.code.CatalogViews.{AreEntries, base_view, constraint_view};
ghost use Rattle.td_catalog.specs.code.CatalogViews.{entry_keys, virtual_view};
ghost use Rattle.td_catalog.specs.code.KeptDatabases.{settled_view};

use crate::catalog::Catalog;
use crate::entry::{BaseEntry, ConstraintEntry, VirtualEntry};
use crate::history::History;
use crate::tables::Tables;
use indexmap::{IndexMap, IndexSet};
use std::alloc::AllocError;
use td_body::body::Body;
use td_check::declared::Declared;
use td_tree::name::Name;
use td_types::heading::Heading;

/// A copy of the names.
fn copied_names(names: &Vec<Name>) -> Result<Vec<Name>, AllocError>
    ensures { IfOk result (λ copy. copy.items ≡ names.now.items) }
{
    let mut copy = Vec::with_capacity(*names.allocator(), names.len())?;
    for name in names {
        copy.push(name.try_clone()?)?;
    }
    Ok(copy)
}

/// A copy of the keys, in the allocator of the list.
pub fn copied_keys(keys: &Vec<Vec<Name>>) -> Result<Vec<Vec<Name>>, AllocError>
    ensures { IfOk result (λ copy. map (λ key. key.items) copy.items
        ≡ map (λ key. key.items) keys.now.items) }
{
    let mut copy = Vec::with_capacity(*keys.allocator(), keys.len())?;
    for key in keys {
        copy.push(copied_names(key)?)?;
    }
    Ok(copy)
}

/// The same names with their headings again.
fn copied_headings(
    headings: &IndexMap<Name, Heading>,
) -> Result<IndexMap<Name, Heading>, AllocError>
    requires { IsTrue (are_distinct (map (λ row. row.0) headings.now.entries)) }
    ensures { IfOk result (λ copy. copy.entries ≡ headings.now.entries) }
{
    let mut copy = IndexMap::with_capacity(*headings.allocator(), headings.len())?;
    for (name, heading) in headings.iter() {
        copy.insert(name.try_clone()?, heading.try_clone()?)?;
    }
    Ok(copy)
}

/// A copy of the set of names.
fn copied_set(names: &IndexSet<Name>) -> Result<IndexSet<Name>, AllocError>
    requires { IsTrue (are_distinct names.now.keys) }
    ensures { IfOk result (λ copy. copy.keys ≡ names.now.keys) }
{
    let mut copy = IndexSet::with_capacity(*names.allocator(), names.len())?;
    for place in 0..names.len() {
        let Some(name) = names.get_index(place) else {
            return Ok(copy);
        };
        copy.insert(name.try_clone()?)?;
    }
    Ok(copy)
}

/// A copy of the declarations.
fn copied_declared(declared: &Declared) -> Result<Declared, AllocError>
    requires bases { IsTrue (are_distinct (map (λ row. row.0) declared.now.bases.entries)) }
    requires virtuals { IsTrue (are_distinct (map (λ row. row.0) declared.now.virtuals.entries)) }
    requires constraints { IsTrue (are_distinct declared.now.constraints.keys) }
    ensures { IfOk result (λ copy. (copy.bases.entries ≡ declared.now.bases.entries)
        × ((copy.virtuals.entries ≡ declared.now.virtuals.entries)
        × (copy.constraints.keys ≡ declared.now.constraints.keys))) }
{
    Ok(Declared {
        bases: copied_headings(&declared.bases)?,
        virtuals: copied_headings(&declared.virtuals)?,
        constraints: copied_set(&declared.constraints)?,
    })
}

impl<B: Body> BaseEntry<B> {
    /// A copy of the entry.
    fn try_clone(&self) -> Result<BaseEntry<B>, AllocError>
        ensures heading { IfOk result (λ copy. copy.heading ≡ self.now.heading) }
        ensures names { IfOk result (λ copy. entry_keys copy ≡ entry_keys self.now) }
        ensures relation { IfOk result
            (λ copy. B.relation copy.body ≡ B.relation self.now.body) }
        ensures keys { IfOk result (λ copy. B.keys copy.body ≡ B.keys self.now.body) }
    {
        let heading = self.heading.try_clone()?;
        let keys = copied_keys(&self.keys)?;
        let body = self.body.try_clone()?;
        Ok(BaseEntry {
            heading,
            keys,
            body,
        })
    }
}

impl VirtualEntry {
    /// The same entry again, which shares the expression.
    fn try_clone(&self) -> Result<VirtualEntry, AllocError>
        ensures { IfOk result
            (λ copy. (name : List ℕ) → virtual_view (name, copy) ≡ virtual_view (name, self.now)) }
    {
        let heading = self.heading.try_clone()?;
        let tree = self.tree.try_clone()?;
        let keys = copied_keys(&self.keys)?;
        Ok(VirtualEntry {
            heading,
            tree,
            keys,
        })
    }
}

impl ConstraintEntry {
    /// The same entry again, which shares the expression.
    fn try_clone(&self) -> Result<ConstraintEntry, AllocError>
        ensures { IfOk result (λ copy. (name : List ℕ) →
            constraint_view (name, copy) ≡ constraint_view (name, self.now)) }
    {
        let tree = self.tree.try_clone()?;
        Ok(ConstraintEntry { tree })
    }
}

impl<B: Body> Catalog<B> {
    /// The base relvars again.
    fn copied_bases(&self) -> Result<IndexMap<Name, BaseEntry<B>>, AllocError>
        ensures bases { IfOk result
            (λ copy. map (base_view B.relation) copy.entries ≡ self.now.database.bases) }
        ensures entries { IfOk result (λ copy. AreEntries B.relation B.keys copy.entries) }
    {
        let mut copy = IndexMap::with_capacity(
            *self.tables.bases.allocator(),
            self.tables.bases.len(),
        )?;
        for (name, entry) in self.tables.bases.iter() {
            copy.insert(name.try_clone()?, entry.try_clone()?)?;
        }
        Ok(copy)
    }

    /// The virtual relvars again.
    fn copied_virtuals(&self) -> Result<IndexMap<Name, VirtualEntry>, AllocError>
        ensures { IfOk result (λ copy. map virtual_view copy.entries ≡ self.now.database.virtuals) }
    {
        let mut copy = IndexMap::with_capacity(
            *self.tables.virtuals.allocator(),
            self.tables.virtuals.len(),
        )?;
        for (name, entry) in self.tables.virtuals.iter() {
            copy.insert(name.try_clone()?, entry.try_clone()?)?;
        }
        Ok(copy)
    }

    /// The constraints again.
    fn copied_constraints(&self) -> Result<IndexMap<Name, ConstraintEntry>, AllocError>
        ensures { IfOk result (λ copy.
            map constraint_view copy.entries ≡ self.now.database.constraints) }
    {
        let alloc = *self.tables.constraints.allocator();
        let mut copy = IndexMap::with_capacity(alloc, self.tables.constraints.len())?;
        for (name, entry) in self.tables.constraints.iter() {
            copy.insert(name.try_clone()?, entry.try_clone()?)?;
        }
        Ok(copy)
    }

    /// A copy of the database, with nothing kept. It takes time and memory in the order of the
    /// entries, not of the tuples, where the bodies' copies do.
    pub fn try_clone(&self) -> Result<Catalog<B>, AllocError>
        ensures { IfOk result (λ copy. copy ≡ settled_view self.now.database) }
    {
        Ok(Catalog {
            tables: Tables {
                types: self.tables.types.try_clone()?,
                bases: self.copied_bases()?,
                virtuals: self.copied_virtuals()?,
                constraints: self.copied_constraints()?,
                declared: copied_declared(&self.tables.declared)?,
            },
            log: History::new(*self.tables.bases.allocator()),
        })
    }
}
