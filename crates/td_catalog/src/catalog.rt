//! Declared types, relvars and constraints, looked up by name, with what they were before changes.
ghost use Rattle.std.specs.Prelude.{◌≡◌, IfSome, option_map, slice_get};
ghost use Rattle.td_catalog.specs.code.CatalogViews.{IsEntry, base_view, virtual_view};
ghost use Rattle.td_catalog.specs.model.Database.{base_named, constraint_named, empty_database};
ghost use Rattle.td_catalog.specs.model.Database.{virtual_named};
ghost use Rattle.td_catalog.specs.code.KeptDatabases.{settled_view};
ghost use Rattle.td_catalog.specs.model.TypedDatabases.{IsTyped};
ghost use Rattle.td_tree.specs.code.TreeViews.{tree_view};
ghost use Rattle.td_types.specs.model.TypeLists.{declared_at};

use crate::entry::{BaseEntry, VirtualEntry};
use crate::history::History;
use crate::tables::Tables;
use indexmap::IndexMap;
use std::alloc::Global;
use std::marker::Model;
use td_body::body::Body;
use td_check::declared::Declared;
use td_tree::expression::Expr;
use td_tree::name::Name;
use td_types::table::{TypeEntry, TypeTable};

/// What is defined, seen as the database whose base relvars hold the relations of their bodies, and
/// the earlier databases to which it can go back.
#[derive(Drop)]
pub struct Catalog<B: Body> {
    pub(crate) tables: Tables<B>,
    /// What led to them, since the first database that is kept.
    pub(crate) log: History<B>,
}

impl<B: Body> Model for Catalog<B> {
    ghost use Rattle.td_catalog.specs.code.DatabaseCode.{catalog_code};
    ghost use Rattle.td_catalog.specs.code.KeptDatabases.{CatalogView};

    ghost Value = { CatalogView };

    ghost coded = { catalog_code };

    ghost use Rattle.td_catalog.specs.code.CatalogViews.{rows_of};
    ghost use Rattle.td_catalog.specs.code.Histories.{AreKept, history_view};

    ghost view = { λ a.
        history_view B.relation B.keys B.kept (rows_of a.tables) a.log.steps.items };

    ghost invariant = { λ a. AreKept B.relation B.keys B.kept a.tables a.log.steps.items };
}

impl<B: Body> Catalog<B> {
    /// Nothing is defined, and nothing kept. It takes no memory.
    pub fn new(alloc: Global) -> Catalog<B>
        ensures { result ≡ settled_view empty_database }
    {
        Catalog {
            tables: Tables {
                types: TypeTable::new(alloc),
                bases: IndexMap::new(alloc),
                virtuals: IndexMap::new(alloc),
                constraints: IndexMap::new(alloc),
                declared: Declared::new(alloc),
            },
            log: History::new(alloc),
        }
    }

    /// What holds of every catalogue. It takes no time.
    pub fn reveal(&self)
        ensures { IsTyped self.now.database }
    {
        let _ = &self.tables.types;
    }

    /// The declared types.
    pub fn types(&self) -> &TypeTable
        ensures { result.now ≡ self.now.database.types }
    {
        &self.tables.types
    }

    /// The declared type of that name.
    pub fn get_type(&self, name: &Name) -> Option<&TypeEntry>
        ensures { option_map (λ e. e.now) result ≡ declared_at name.now self.now.database.types }
    {
        self.tables.types.get(name)
    }

    /// The base relvar of that name.
    pub fn get_base(&self, name: &Name) -> Option<&BaseEntry<B>>
        ensures found { option_map (λ e. base_view B.relation (name.now, e.now)) result
            ≡ base_named name.now self.now.database }
        ensures entry { IfSome result (λ e. IsEntry B.relation B.keys e.now) }
    {
        self.tables.bases.get(name)
    }

    /// The virtual relvar of that name.
    pub fn get_virtual(&self, name: &Name) -> Option<&VirtualEntry>
        ensures { option_map (λ e. virtual_view (name.now, e.now)) result
            ≡ virtual_named name.now self.now.database }
    {
        self.tables.virtuals.get(name)
    }

    /// The expression of the constraint of that name.
    pub fn get_constraint(&self, name: &Name) -> Option<&Expr>
        ensures { option_map (λ e. tree_view e.now) result
            ≡ option_map (λ c. c.tree) (constraint_named name.now self.now.database) }
    {
        let entry = self.tables.constraints.get(name)?;
        Some(entry.tree.tree())
    }

    /// The name of the base relvar at a place in order of definition.
    pub fn base_at(&self, place: usize) -> Option<&Name>
        ensures { option_map (λ n. n.now) result
            ≡ option_map (λ r. r.name) (slice_get self.now.database.bases place) }
    {
        let (name, _) = self.tables.bases.get_index(place)?;
        Some(name)
    }

    /// The name of the virtual relvar at a place in order of definition.
    pub fn virtual_at(&self, place: usize) -> Option<&Name>
        ensures { option_map (λ n. n.now) result
            ≡ option_map (λ v. v.name) (slice_get self.now.database.virtuals place) }
    {
        let (name, _) = self.tables.virtuals.get_index(place)?;
        Some(name)
    }

    /// The name of the constraint at a place in order of definition.
    pub fn constraint_at(&self, place: usize) -> Option<&Name>
        ensures { option_map (λ n. n.now) result
            ≡ option_map (λ c. c.name) (slice_get self.now.database.constraints place) }
    {
        let (name, _) = self.tables.constraints.get_index(place)?;
        Some(name)
    }
}
