//! What an expression may look at.
ghost use Rattle.std.specs.Prelude.{◌≡◌, [], ◌<◌, IfNone, IfOk, IfSome, None, option_map, reverse};
ghost use Rattle.td_eval.specs.code.LentWorlds.{IsNoVirtualRelvar, IsPlaced, IsLentWorld};
ghost use Rattle.td_eval.specs.code.LentWorlds.{IsVirtualRelvar, constraint_world, held_relation};
ghost use Rattle.td_eval.specs.code.LentWorlds.{other_named, other_seen, seen_by, virtual_world};
ghost use Rattle.td_eval.specs.code.LentWorlds.{world_in};
ghost use Rattle.td_eval.specs.model.Worlds.{with_tuples};
ghost use Rattle.td_tree.specs.code.TreeViews.{tree_view};

use crate::env::Env;
use std::alloc::{AllocError, Global};
use td_body::body::Body;
use td_catalog::catalog::Catalog;
use td_check::scope::Scope;
use td_tree::expression::Expr;
use td_tree::name::Name;
use td_types::table::TypeTable;
use td_value::relation::Rel;
use td_value::tuple::Tuple;

/// The declared types and how many of them have selectors that are known; outside of a type's
/// constraint the catalogue, another relation in place of what one of its base relvars holds, and
/// how many of its virtual relvars are known.
#[derive(Drop)]
pub(crate) struct LentWorld<'a, B: Body> {
    pub(crate) alloc: Global,
    pub(crate) types: &'a TypeTable,
    pub(crate) selectors: usize,
    pub(crate) catalog: Option<&'a Catalog<B>>,
    pub(crate) other: Option<(&'a Name, &'a Rel)>,
    pub(crate) virtuals: usize,
}

impl<'a, B: Body> LentWorld<'a, B> {
    /// What an expression that is evaluated there may look at.
    pub(crate) fn of_env(alloc: Global, env: &Env<'a, B>) -> Self
        ensures lent { IsLentWorld result }
        ensures exact { seen_by result ≡ world_in env.now }
    {
        let types = env.catalog.types();
        LentWorld {
            alloc,
            types,
            selectors: types.len(),
            catalog: Some(env.catalog),
            other: env.other,
            virtuals: env.catalog.virtual_count(),
        }
    }

    /// The other relation, where it is of the name.
    fn other_relation(&self, name: &Name) -> Option<&'a Rel>
        ensures { option_map (λ r. r.now) result ≡ other_named name.now (other_seen self.now) }
    {
        let (other, rel) = self.other?;
        if *other == *name { Some(rel) } else { None }
    }

    /// The relation that the relvar of the name holds.
    pub(crate) fn relation(&self, name: &Name) -> Result<Option<Rel>, AllocError>
        ensures { IfOk result (λ found. found ≡ held_relation self.now name.now) }
    {
        let Some(catalog) = self.catalog else {
            return Ok(None);
        };
        if let Some(rel) = self.other_relation(name) {
            return Ok(Some(rel.try_clone()?));
        }
        match catalog.get_base(name) {
            Some(entry) => Ok(Some(entry.body.to_rel()?)),
            None => Ok(None),
        }
    }

    /// The place of the virtual relvar of the name, with its expression, if it is known.
    pub(crate) fn virtual_relvar(&self, name: &Name) -> Option<(usize, &Expr)>
        requires { IsLentWorld self.now }
        ensures found { IfSome result
            (λ found. IsVirtualRelvar self.now name.now found.0 (tree_view found.1.now)) }
        ensures none { IfNone result (IsNoVirtualRelvar self.now name.now) }
    {
        let catalog = self.catalog?;
        let place = catalog.virtual_place(name)?;
        if place < self.virtuals {
            Some((place, catalog.virtual_tree_at(place)?))
        } else {
            None
        }
    }

    /// What is known where no tuple is in scope.
    fn outer_scope(&self) -> Result<Scope<'_>, AllocError>
        requires { IsLentWorld self.now }
        ensures { IfOk result (λ s. s ≡ with_tuples (seen_by self.now).scope []) }
    {
        match self.catalog {
            Some(catalog) => Ok(catalog.scope_before(self.virtuals)),
            None => Ok(Scope::new(self.alloc, self.types)),
        }
    }

    /// What is known where these tuples are in scope.
    pub(crate) fn scope(&self, tuples: &[Tuple]) -> Result<Scope<'_>, AllocError>
        requires { IsLentWorld self.now }
        ensures { IfOk result
            (λ s. s ≡ with_tuples (seen_by self.now).scope (reverse tuples.now)) }
    {
        let mut scope = self.outer_scope()?;
        for tuple in tuples {
            scope.enter(tuple.heading()?)?;
        }
        Ok(scope)
    }

    /// The place of the declared type of the name, if its selector is known.
    pub(crate) fn selector(&self, name: &Name) -> Option<usize>
        requires { IsLentWorld self.now }
        ensures found { IfSome result (λ place. IsPlaced self.now name.now place) }
        ensures none { IfNone result ((seen_by self.now).selector name.now ≡ None) }
    {
        let place = self.types.place(name)?;
        if place < self.selectors {
            Some(place)
        } else {
            None
        }
    }

    /// What the constraint of the type at a place may look at.
    pub(crate) fn in_constraint(&self, place: usize) -> LentWorld<'a, B>
        requires lent { IsLentWorld self.now }
        requires place { place < self.now.selectors }
        ensures lent { IsLentWorld result }
        ensures exact { result ≡ constraint_world place self.now }
    {
        LentWorld {
            alloc: self.alloc,
            types: self.types,
            selectors: place,
            catalog: None,
            other: None,
            virtuals: 0,
        }
    }

    /// What the expression of the virtual relvar at a place may look at.
    pub(crate) fn in_virtual(&self, place: usize) -> LentWorld<'a, B>
        requires { IsLentWorld self.now }
        ensures lent { IsLentWorld result }
        ensures exact { result ≡ virtual_world place self.now }
    {
        LentWorld {
            alloc: self.alloc,
            types: self.types,
            selectors: self.selectors,
            catalog: self.catalog,
            other: None,
            virtuals: place,
        }
    }
}
