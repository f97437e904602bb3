//! Entries by their places in order of definition.
ghost use Rattle.std.specs.Prelude.{◌≡◌, length, option_map, slice_get};
ghost use Rattle.td_catalog.specs.code.CatalogViews.{base_view, virtual_view};
ghost use Rattle.td_catalog.specs.model.Database.{named_constraint};

use crate::catalog::Catalog;
use crate::defining::DefiningExpression;
use crate::entry::{BaseEntry, VirtualEntry};
use td_body::body::Body;
use td_tree::name::Name;

impl<B: Body> Catalog<B> {
    /// How many base relvars there are.
    pub fn base_count(&self) -> usize
        ensures { result ≡ length self.now.database.bases }
    {
        self.tables.bases.len()
    }

    /// How many constraints there are.
    pub fn constraint_count(&self) -> usize
        ensures { result ≡ length self.now.database.constraints }
    {
        self.tables.constraints.len()
    }

    /// The base relvar at a place in order of definition, with its name.
    pub fn nth_base(&self, place: usize) -> Option<(&Name, &BaseEntry<B>)>
        ensures { option_map (λ p. base_view B.relation (p.0.now, p.1.now)) result
            ≡ slice_get self.now.database.bases place }
    {
        self.tables.bases.get_index(place)
    }

    /// The virtual relvar at a place in order of definition, with its name.
    pub fn nth_virtual(&self, place: usize) -> Option<(&Name, &VirtualEntry)>
        ensures { option_map (λ p. virtual_view (p.0.now, p.1.now)) result
            ≡ slice_get self.now.database.virtuals place }
    {
        self.tables.virtuals.get_index(place)
    }

    /// The expression of the constraint at a place in order of definition, with its name.
    pub fn nth_constraint(&self, place: usize) -> Option<(&Name, &DefiningExpression)>
        ensures { option_map (λ p. named_constraint p.0.now p.1.now) result
            ≡ slice_get self.now.database.constraints place }
    {
        let (name, entry) = self.tables.constraints.get_index(place)?;
        Some((name, &entry.tree))
    }
}
