//! What an expression is planned in.
ghost use Rattle.std.specs.Prelude.{◌≡◌, IfNone, IfOk, IfSome, OnOk, [], length, reverse};
ghost use Rattle.std.specs.List.{slice_get};
ghost use Rattle.td_catalog.specs.model.Database.{Database, database_scope};
ghost use Rattle.td_check.specs.model.Scopes.{bound_to, entered_with};
ghost use Rattle.td_check.specs.model.StaticTypes.{type_of};
ghost use Rattle.td_plan.specs.code.Planners.{IsPlanner, attribute_place, catalog_database};
ghost use Rattle.td_plan.specs.code.Planners.{is_named, place_in};
ghost use Rattle.td_eval.specs.model.DatabaseWorlds.{world_of};
ghost use Rattle.td_eval.specs.model.TreeValues.{value_of};
ghost use Rattle.td_tree.specs.model.Outcomes.{Answers, Valued};
ghost use Rattle.td_tree.specs.code.TreeViews.{tree_view};
ghost use Rattle.td_types.specs.model.Types as types;
ghost use Rattle.td_types.specs.model.Types.{Heading, pack};
ghost use Rattle.td_types.specs.code.Views.{type_view};

use std::alloc::{AllocError, Global};
use td_body::body::Body;
use td_catalog::catalog::Catalog;
use td_check::expression::check_expr;
use td_check::scope::Scope;
use td_eval::env::Env;
use td_eval::value::eval;
use td_tree::expression::Expr;
use td_tree::fault::Fault;
use td_tree::name::Name;
use td_types::heading::Heading;
use td_types::table::TypeTable;
use td_types::ty::Ty;
use td_value::relation::Rel;
use td_value::value::Value;

/// What is defined, as far as planning asks for it.
pub(crate) trait Definitions {
    /// All of it.
    ghost database: { Self → Database };

    /// What is known to expressions where no tuple is in scope.
    fn outermost(&self) -> Scope<'_>
        ensures { result ≡ database_scope (database self.now) };

    /// The declared types.
    fn declared_types(&self) -> &TypeTable
        ensures { result.now ≡ (database self.now).types };

    /// The keys of the base relvar of the name.
    fn keys_of(&self, name: &Name) -> Option<&[Vec<Name>]>;

    /// The value of an expression where no tuple is in scope.
    fn value_alone(&self, alloc: Global, expr: &Expr) -> Result<Value, Fault>
        ensures { Answers (λ v. v) result
            (value_of (world_of (database self.now)) [] (tree_view expr.now)) };
}

impl<B: Body> Definitions for Catalog<B> {
    ghost database = { catalog_database };

    fn outermost(&self) -> Scope<'_> {
        self.scope()
    }

    fn declared_types(&self) -> &TypeTable {
        self.types()
    }

    fn keys_of(&self, name: &Name) -> Option<&[Vec<Name>]> {
        let entry = self.get_base(name)?;
        Some(&entry.keys)
    }

    fn value_alone(&self, alloc: Global, expr: &Expr) -> Result<Value, Fault> {
        value_alone(alloc, self, expr)
    }
}

/// The value of an expression where no tuple is in scope, and no other relation stands in.
fn value_alone<'a, B: Body>(
    alloc: Global,
    catalog: &'a Catalog<B>,
    expr: &Expr,
) -> Result<Value, Fault>
    ensures { Answers (λ v. v) result
        (value_of (world_of catalog.now.database) [] (tree_view expr.now)) }
{
    let other: Option<(&'a Name, &'a Rel)> = None;
    let env = Env {
        catalog,
        other,
        tuples: &[],
    };
    eval(alloc, &env, expr)
}

/// What is known where an expression stands.
#[derive(Drop)]
pub(crate) struct Planner<'a, C> {
    pub(crate) alloc: Global,
    pub(crate) catalog: &'a C,
    /// The name of the relvar in whose place another relation stands.
    pub(crate) replaced: Option<&'a Name>,
    pub(crate) scope: Scope<'a>,
}

/// Whether the attribute at a place of a heading has the name.
fn is_at(heading: &Heading, place: usize, name: &Name) -> bool
    ensures { result ≡ is_named name.now (slice_get heading.now place) }
{
    match heading.at(place) {
        Some((other, _)) => *other == *name,
        None => false,
    }
}

/// Where the attribute of a name stands in a heading.
fn place_in(heading: &Heading, name: &Name) -> Option<usize>
    ensures { result ≡ place_in name.now heading.now }
{
    for place in 0..heading.len() {
        if is_at(heading, place, name) {
            return Some(place);
        }
    }
    None
}

/// The slot of the innermost attribute of a name, and its place in its heading. The innermost
/// heading is the last.
fn innermost_place(headings: &[Heading], name: &Name) -> Option<(usize, usize)>
    ensures { result ≡ attribute_place name.now (reverse headings.now) }
{
    match headings.split_last() {
        None => None,
        Some((last, outer)) => match place_in(last, name) {
            Some(place) => Some((outer.len(), place)),
            None => innermost_place(outer, name),
        },
    }
}

impl<'a, C: Definitions> Planner<'a, C> {
    /// Where no tuple is in scope. It takes no memory.
    pub(crate) fn outside(
        alloc: Global,
        catalog: &'a C,
        replaced: Option<&'a Name>,
    ) -> Planner<'a, C>
        ensures planner { IsPlanner C.database result }
        ensures scope { result.scope ≡ database_scope (C.database catalog.now) }
        ensures catalog { result.catalog.now ≡ catalog.now }
    {
        Planner {
            alloc,
            catalog,
            replaced,
            scope: catalog.outermost(),
        }
    }

    /// A further tuple, of the heading, comes into hand.
    pub(crate) fn enter(&mut self, heading: &Heading) -> Result<(), AllocError>
        requires { IsPlanner C.database self.old }
        ensures planner { OnOk result (IsPlanner C.database self.new) }
        ensures scope { OnOk result (self.new.scope ≡ entered_with heading.now self.old.scope) }
    {
        self.scope.enter(heading.try_clone()?)
    }

    /// Where the same tuples are in hand.
    pub(crate) fn again(&self) -> Result<Planner<'a, C>, AllocError>
        requires { IsPlanner C.database self.now }
        ensures planner { IfOk result (λ p. IsPlanner C.database p) }
        ensures scope { IfOk result (λ p. p.scope ≡ self.now.scope) }
    {
        let mut again = Planner::outside(self.alloc, self.catalog, self.replaced);
        let headings = self.scope.headings();
        for outer in headings {
            again.enter(outer)?;
        }
        Ok(again)
    }

    /// Where a further tuple, of the heading, is in hand.
    #[inline(never)]
    pub(crate) fn inner_planner(&self, heading: &Heading) -> Result<Planner<'a, C>, AllocError>
        requires { IsPlanner C.database self.now }
        ensures planner { IfOk result (λ p. IsPlanner C.database p) }
        ensures scope { IfOk result (λ p. p.scope ≡ entered_with heading.now self.now.scope) }
    {
        let mut inner = self.again()?;
        inner.enter(heading)?;
        Ok(inner)
    }

    /// The value of an expression of the type comes into scope by the name.
    pub(crate) fn bind(&mut self, name: &Name, ty: Ty) -> Result<(), AllocError>
        requires { IsPlanner C.database self.old }
        ensures planner { OnOk result (IsPlanner C.database self.new) }
        ensures scope { OnOk result
            (self.new.scope ≡ bound_to name.now (type_view ty) self.old.scope) }
    {
        let heading = Heading::empty(self.alloc).add(name.try_clone()?, ty)?;
        self.enter(&heading)
    }

    /// The slot of a further tuple, which is how many are in scope.
    pub(crate) fn next_slot(&self) -> usize
        requires { IsPlanner C.database self.now }
        ensures { result ≡ length self.now.scope.entered }
    {
        self.scope.headings().len()
    }

    /// The slot of the innermost attribute of the name, and its place in its heading.
    pub(crate) fn attribute_place(&self, name: &Name) -> Option<(usize, usize)>
        requires { IsPlanner C.database self.now }
        ensures { result ≡ attribute_place name.now self.now.scope.entered }
    {
        innermost_place(self.scope.headings(), name)
    }

    /// The type of an expression, if it has one.
    pub(crate) fn type_of(&self, expr: &Expr) -> Result<Option<Ty>, AllocError>
        ensures some { IfOk result (λ found. IfSome found (λ t.
            type_of self.now.scope (tree_view expr.now) ≡ Valued (type_view t))) }
        ensures none { IfOk result (λ found. IfNone found ((t : types.Type')
            → type_of self.now.scope (tree_view expr.now) ≡ Valued t → ⊥)) }
    {
        match check_expr(&self.scope, expr) {
            Ok(ty) => Ok(Some(ty)),
            Err(Fault::Refused(_)) => Ok(None),
            Err(Fault::Memory) => Err(AllocError),
        }
    }

    /// The heading of the relations that are an expression's values.
    pub(crate) fn heading_of(&self, expr: &Expr) -> Result<Option<Heading>, AllocError>
        requires { IsPlanner C.database self.now }
        ensures some { IfOk result (λ found. IfSome found (λ h.
            type_of self.now.scope (tree_view expr.now) ≡ Valued (types.relation (pack h)))) }
        ensures none { IfOk result (λ found. IfNone found ((h : Heading)
            → type_of self.now.scope (tree_view expr.now) ≡ Valued (types.relation (pack h)) → ⊥)) }
    {
        match check_expr(&self.scope, expr) {
            Ok(Ty::Rel(heading)) => Ok(Some(heading)),
            Ok(_) | Err(Fault::Refused(_)) => Ok(None),
            Err(Fault::Memory) => Err(AllocError),
        }
    }
}
