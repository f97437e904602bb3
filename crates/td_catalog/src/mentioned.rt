//! What the entries of a catalogue mention.
ghost use Rattle.std.specs.Prelude.{◌≡◌, IfOk, IsTrue, List};
ghost use Rattle.std.specs.List.{list_any};
ghost use Rattle.td_catalog.specs.model.Database.{database_scope};
ghost use Rattle.td_catalog.specs.model.Mentioned.{base_mentions_type, condition_mentions_type};
ghost use Rattle.td_catalog.specs.model.Mentioned.{is_relvar_in_use, is_type_in_use};
ghost use Rattle.td_catalog.specs.model.Mentioned.{type_mentions_type};
ghost use Rattle.td_catalog.specs.code.Sought.{tree_mentions};
ghost use Rattle.td_check.specs.model.Scopes.{alone_with, scope_of};
ghost use Rattle.td_check.specs.model.StaticTypes.{type_of};
ghost use Rattle.td_tree.specs.model.Outcomes.{Valued};
ghost use Rattle.td_tree.specs.code.TreeViews.{tree_view};
ghost use Rattle.td_tree.specs.model.Trees.{Tree};
ghost use Rattle.td_types.specs.model.Headings.{are_distinct, heading_from};
ghost use Rattle.td_types.specs.model.Types.{Type', attribute_names};
ghost use Rattle.td_types.specs.code.Views.{pairs_view};

use crate::catalog::Catalog;
use crate::defining::DefiningExpression;
use std::alloc::{AllocError, Global};
use td_body::body::Body;
use td_check::mentions::mentions;
use td_check::scope::Scope;
use td_tree::expression::Expr;
use td_tree::fault::{Fault, without_refusal};
use td_tree::name::Name;
use td_types::heading::Heading;
use td_types::named::{components_name_user, heading_names_user};
use td_types::names::is_among;
use td_types::table::{TypeEntry, TypeTable};
use td_types::ty::Ty;

/// The space in which a name is looked for.
#[derive(Clone, Copy)]
pub(crate) enum Space {
    Type,
    Relvar,
}

/// Whether the expression, that has a type where these are known, mentions the name.
fn tree_mentions(
    scope: &Scope<'_>,
    space: Space,
    name: &Name,
    tree: &Expr,
) -> Result<bool, AllocError>
    ensures { (t : Type') → type_of scope.now (tree_view tree.now) ≡ Valued t
        → IfOk result (λ found. found
        ≡ tree_mentions space scope.now name.now (tree_view tree.now)) }
{
    match mentions(scope, tree) {
        Ok(seen) => match space {
            Space::Type => Ok(is_among(name, &seen.types)),
            Space::Relvar => Ok(is_among(name, &seen.relvars)),
        },
        Err(Fault::Refused(_)) => Ok(false),
        Err(Fault::Memory) => Err(AllocError),
    }
}

/// Whether a defining expression, that has a type where these are known, mentions the name. Where
/// a relvar's name does not stand in it, nothing of it is gone over.
fn definition_mentions(
    scope: &Scope<'_>,
    space: Space,
    name: &Name,
    definition: &DefiningExpression,
) -> Result<bool, AllocError>
    ensures { (t : Type') → type_of scope.now definition.now ≡ Valued t
        → IfOk result (λ found. found ≡ tree_mentions space scope.now name.now definition.now) }
{
    match space {
        Space::Relvar if !definition.has_name(name) => Ok(false),
        _ => tree_mentions(scope, space, name, definition.tree()),
    }
}

/// The heading of a type's components, which have distinct names.
fn heading_of_components(alloc: Global, components: &[(Name, Ty)]) -> Result<Heading, AllocError>
    requires { IsTrue (are_distinct (attribute_names (pairs_view components.now))) }
    ensures { IfOk result (λ heading. heading ≡ heading_from (pairs_view components.now)) }
{
    let mut attributes = Vec::with_capacity(alloc, components.len())?;
    for (name, ty) in components {
        attributes.push((name.try_clone()?, ty.try_clone()?))?;
    }
    without_refusal(Heading::new(alloc, attributes))
}

/// Whether the constraint, that has a type where the components and these types are known,
/// mentions the type of the name.
fn constraint_mentions(
    alloc: Global,
    types: &TypeTable,
    entry: &TypeEntry,
    name: &Name,
) -> Result<bool, AllocError>
    requires { IsTrue (are_distinct (attribute_names entry.now.components)) }
    ensures { ((e : Tree) → entry.now.constraint ≡ Some e → (t : Type') × (type_of
        (alone_with (heading_from entry.now.components) (scope_of types.now)) e ≡ Valued t))
        → IfOk result (λ found. found ≡ condition_mentions_type name.now entry.now.constraint) }
{
    let Some(constraint) = entry.constraint() else {
        return Ok(false);
    };
    let mut scope = Scope::new(alloc, types);
    scope.enter(heading_of_components(alloc, entry.components())?)?;
    tree_mentions(&scope, Space::Type, name, constraint)
}

impl<B: Body> Catalog<B> {
    /// Whether a declared type mentions the type of the name.
    fn types_mention(&self, name: &Name) -> Result<bool, AllocError>
        ensures { IfOk result (λ found. found
            ≡ list_any (type_mentions_type name.now) self.now.database.types) }
    {
        for place in 0..self.tables.types.len() {
            let Some(entry) = self.tables.types.entry_at(place) else {
                return Ok(false);
            };
            if components_name_user(entry.components(), name)
                || constraint_mentions(
                    *self.tables.bases.allocator(),
                    &self.tables.types,
                    entry,
                    name,
                )?
            {
                return Ok(true);
            }
        }
        Ok(false)
    }

    /// Whether a base relvar mentions it.
    fn bases_mention(&self, name: &Name) -> bool
        ensures { result ≡ list_any (base_mentions_type name.now) self.now.database.bases }
    {
        for entry in self.tables.bases.values() {
            if heading_names_user(&entry.heading, name) {
                return true;
            }
        }
        false
    }

    /// Whether the expression of a virtual relvar mentions the name.
    fn virtuals_mention(
        &self,
        scope: &Scope<'_>,
        space: Space,
        name: &Name,
    ) -> Result<bool, AllocError>
        requires { scope.now ≡ database_scope self.now.database }
        ensures { IfOk result (λ found. found
            ≡ list_any (λ v. tree_mentions space scope.now name.now v.tree)
            self.now.database.virtuals) }
    {
        for entry in self.tables.virtuals.values() {
            if definition_mentions(scope, space, name, &entry.tree)? {
                return Ok(true);
            }
        }
        Ok(false)
    }

    /// Whether the expression of a constraint does.
    fn constraints_mention(
        &self,
        scope: &Scope<'_>,
        space: Space,
        name: &Name,
    ) -> Result<bool, AllocError>
        requires { scope.now ≡ database_scope self.now.database }
        ensures { IfOk result (λ found. found
            ≡ list_any (λ c. tree_mentions space scope.now name.now c.tree)
            self.now.database.constraints) }
    {
        for entry in self.tables.constraints.values() {
            if definition_mentions(scope, space, name, &entry.tree)? {
                return Ok(true);
            }
        }
        Ok(false)
    }

    /// Whether an entry mentions the type of the name.
    pub(crate) fn is_type_in_use(&self, name: &Name) -> Result<bool, AllocError>
        ensures { IfOk result (λ found. found ≡ is_type_in_use name.now self.now.database) }
    {
        if self.types_mention(name)? || self.bases_mention(name) {
            return Ok(true);
        }
        let scope = self.scope();
        Ok(
            self.virtuals_mention(&scope, Space::Type, name)?
                || self.constraints_mention(&scope, Space::Type, name)?,
        )
    }

    /// Whether an entry mentions the relvar of the name.
    pub(crate) fn is_relvar_in_use(&self, name: &Name) -> Result<bool, AllocError>
        ensures { IfOk result (λ found. found ≡ is_relvar_in_use name.now self.now.database) }
    {
        let scope = self.scope();
        Ok(
            self.virtuals_mention(&scope, Space::Relvar, name)?
                || self.constraints_mention(&scope, Space::Relvar, name)?,
        )
    }
}
