//! What a catalogue makes known to expressions.
ghost use Rattle.std.specs.Prelude.{◌≡◌, [], length, option_map, position, slice_get, take};
ghost use Rattle.td_catalog.specs.model.Database.{database_scope, with_constraints, with_virtuals};
ghost use Rattle.td_tree.specs.code.TreeViews.{tree_view};
ghost use Rattle.td_types.specs.model.Types.{same_name};

use crate::catalog::Catalog;
use td_body::body::Body;
use td_check::scope::Scope;
use td_tree::expression::Expr;
use td_tree::name::Name;

impl<B: Body> Catalog<B> {
    /// What is known to expressions where so many of the virtual relvars are known, in order of
    /// definition: the types, the relvars' names with their headings, and the constraints' names;
    /// no tuple is in scope. It takes no memory, and no time by what is defined.
    pub fn scope_before(&self, count: usize) -> Scope<'_>
        ensures { result ≡ database_scope
            (with_virtuals (take count self.now.database.virtuals) self.now.database) }
    {
        let alloc = *self.tables.bases.allocator();
        Scope::over_declared(alloc, &self.tables.types, &self.tables.declared, count)
    }

    /// What is known to expressions, with all of the virtual relvars.
    pub fn scope(&self) -> Scope<'_>
        ensures { result ≡ database_scope self.now.database }
    {
        self.scope_before(self.tables.virtuals.len())
    }

    /// How many virtual relvars there are.
    pub fn virtual_count(&self) -> usize
        ensures { result ≡ length self.now.database.virtuals }
    {
        self.tables.virtuals.len()
    }

    /// The place in order of definition of the virtual relvar of that name.
    pub fn virtual_place(&self, name: &Name) -> Option<usize>
        ensures { result ≡ position (λ v. same_name v.name name.now) self.now.database.virtuals }
    {
        self.tables.virtuals.get_index_of(name)
    }

    /// The expression of the virtual relvar at a place in order of definition.
    pub fn virtual_tree_at(&self, place: usize) -> Option<&Expr>
        ensures { option_map (λ e. tree_view e.now) result
            ≡ option_map (λ v. v.tree) (slice_get self.now.database.virtuals place) }
    {
        let (_, entry) = self.tables.virtuals.get_index(place)?;
        Some(entry.tree.tree())
    }
}
