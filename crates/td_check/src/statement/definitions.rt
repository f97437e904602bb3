//! What is required of definitions.
ghost use Rattle.std.specs.Prelude.{◌≡◌, List, map, not, option_map};
ghost use Rattle.td_check.specs.model.OperatorTypes.{over_relation};
ghost use Rattle.td_check.specs.model.StaticTypes.{type_of};
ghost use Rattle.td_check.specs.model.StatementTypes.{both_hold, components_meant, constraint_fits};
ghost use Rattle.td_check.specs.model.StatementTypes.{has_key, heading_rank_fits, holds_or};
ghost use Rattle.td_check.specs.model.StatementTypes.{init_fits, keys_asked, knows_relvar};
ghost use Rattle.td_check.specs.model.StatementTypes.{rank_fits, statement_checked, type_if_given};
ghost use Rattle.td_tree.specs.model.Outcomes.{Answers, with_both, with_value};
ghost use Rattle.td_tree.specs.code.TreeViews.{heading_tree_view, statement_view, tree_view};
ghost use Rattle.td_tree.specs.declared.cause.Cause.TheVariants as causes;
ghost use Rattle.td_types.specs.model.Headings.{heading_from};
ghost use Rattle.td_types.specs.model.TypeLists.{heading_meant};
ghost use Rattle.td_types.specs.model.Types.{Attribute};
ghost use Rattle.td_types.specs.code.Views.{pairs_view, type_view};

use super::parts::{both_hold, check_condition, check_inside, relation_fits, type_if_given};
use crate::expression::check_at;
use crate::place::Place;
use crate::rules::keys::keys_allowed;
use crate::rules::requirements::ask;
use crate::scope::Scope;
use td_tree::cause::Cause;
use td_tree::expression::Expr;
use td_tree::fault::Fault;
use td_tree::gathering::both;
use td_tree::name::Name;
use td_tree::statement::{BaseDefinition, Statement, TypeDefinition, VirtualDefinition};
use td_types::heading::Heading;
use td_types::rank::{rank, rank_of_components};
use td_types::resolve::{resolve_attributes, resolve_heading};
use td_types::table::TypeTable;
use td_types::ty::Ty;

// ---- types

/// What is required of a type's components: a type of them has a rank within the limit.
fn rank_fits(types: &TypeTable, components: &[(Name, Ty)]) -> Result<(), Fault>
    ensures { Answers (λ u. u) result (rank_fits types.now (pairs_view components.now)) }
{
    rank_of_components(types, components)?;
    Ok(())
}

/// What is required of a type's constraint, if it has one: it is BOOLEAN where the components and
/// the earlier types alone are known.
fn constraint_fits(
    scope: &Scope<'_>,
    components: &Heading,
    constraint: Option<&Expr>,
) -> Result<(), Fault>
    ensures { (attributes : List Attribute) → components.now ≡ heading_from attributes
        → Answers (λ u. u) result (constraint_fits scope.now attributes
        (option_map (λ e. tree_view e.now) constraint.entry)) }
{
    match constraint {
        None => Ok(()),
        Some(constraint) => {
            let alone = Scope::new(scope.allocator(), scope.types());
            check_inside(&alone, components, constraint)
        }
    }
}

/// What is required of a type's components and of its constraint.
fn check_components(scope: &Scope<'_>, definition: &TypeDefinition) -> Result<(), Fault>
    ensures { Answers (λ u. u) result
        (with_value (components_meant scope.now.types
        (heading_tree_view definition.now.components.items))
        (λ attributes. both_hold
        (constraint_fits scope.now attributes (option_map tree_view definition.now.constraint))
        (rank_fits scope.now.types attributes))) }
{
    let components = resolve_attributes(scope.types(), &definition.components)?;
    let rank = rank_fits(scope.types(), &components);
    let heading = Heading::new(scope.allocator(), components)?;
    let constraint = constraint_fits(scope, &heading, definition.constraint.as_ref());
    both_hold(constraint, rank)
}

/// What is required of `TYPE`.
pub(crate) fn define_type(scope: &Scope<'_>, definition: &TypeDefinition) -> Result<(), Fault>
    ensures { Answers (λ u. u) result
        (statement_checked scope.now (statement_view (Statement.DefineType definition.now))) }
{
    let is_new = scope.types().get(&definition.name).is_none();
    let named = ask(is_new, Cause::NameTaken);
    both_hold(named, check_components(scope, definition))
}

// ---- relvars

/// What is required of a new relvar's name: no relvar has it, base or virtual.
fn relvar_is_new(scope: &Scope<'_>, name: &Name) -> Result<(), Fault>
    ensures { Answers (λ u. u) result
        (holds_or causes.NameTaken (not (knows_relvar name.now scope.now))) }
{
    ask(!scope.knows_relvar(name), Cause::NameTaken)
}

/// What is required of keys for a heading: they are allowed.
fn keys_asked(heading: &Heading, keys: &[Vec<Name>]) -> Result<(), Fault>
    ensures { Answers (λ u. u) result
        (keys_asked heading.now (map (λ key. key.items) keys.now)) }
{
    ask(keys_allowed(heading, keys), Cause::KeyDeclaration)
}

/// What is required of a relvar's heading: the rank of its type is within the limit.
fn heading_rank_fits(types: &TypeTable, heading: Heading) -> Result<(), Fault>
    ensures { Answers (λ u. u) result (heading_rank_fits types.now heading) }
{
    rank(types, &Ty::Rel(heading))?;
    Ok(())
}

/// What is required of a base relvar's keys: there is one, and they are allowed.
fn base_keys_fit(heading: &Heading, keys: &[Vec<Name>]) -> Result<(), Fault>
    ensures { Answers (λ u. u) result
        (both_hold (has_key (map (λ key. key.items) keys.now))
        (keys_asked heading.now (map (λ key. key.items) keys.now))) }
{
    let has_key = ask(!keys.is_empty(), Cause::KeyDeclaration);
    both_hold(has_key, keys_asked(heading, keys))
}

/// What is required of INIT's type, where it is given.
fn init_fits(heading: &Heading, init: Option<&Ty>) -> Result<(), Fault>
    ensures { Answers (λ u. u) result
        (init_fits heading.now (option_map (λ t. type_view t.now) init.entry)) }
{
    match init {
        None => Ok(()),
        Some(ty) => relation_fits(heading, ty),
    }
}

/// What is required of a base relvar by its heading and INIT's type.
fn base_fits(
    types: &TypeTable,
    heading: Heading,
    init: Option<Ty>,
    keys: &[Vec<Name>],
) -> Result<(), Fault>
    ensures { Answers (λ u. u) result
        (both_hold (init_fits heading (option_map type_view init))
        (both_hold
        (both_hold (has_key (map (λ key. key.items) keys.now))
        (keys_asked heading (map (λ key. key.items) keys.now)))
        (heading_rank_fits types.now heading))) }
{
    let init = init_fits(&heading, init.as_ref());
    let keys = base_keys_fit(&heading, keys);
    both_hold(init, both_hold(keys, heading_rank_fits(types, heading)))
}

/// What is required of a base relvar beside its name.
fn check_base(scope: &Scope<'_>, definition: &BaseDefinition) -> Result<(), Fault>
    ensures { Answers (λ u. u) result
        (with_both
        (heading_meant scope.now.types (heading_tree_view definition.now.heading.items))
        (type_if_given scope.now (option_map tree_view definition.now.init))
        (λ h t. both_hold (init_fits h t)
        (both_hold
        (both_hold (has_key (map (λ key. key.items) definition.now.keys.items))
        (keys_asked h (map (λ key. key.items) definition.now.keys.items)))
        (heading_rank_fits scope.now.types h)))) }
{
    let heading = resolve_heading(scope.types(), &definition.heading);
    let init = type_if_given(definition.init.as_ref(), &Place::outside(scope));
    let (heading, init) = both(heading, init)?;
    base_fits(scope.types(), heading, init, &definition.keys)
}

/// What is required of `VAR .. BASE`.
pub(crate) fn define_base(scope: &Scope<'_>, definition: &BaseDefinition) -> Result<(), Fault>
    ensures { Answers (λ u. u) result
        (statement_checked scope.now (statement_view (Statement.DefineBase definition.now))) }
{
    let named = relvar_is_new(scope, &definition.name);
    both_hold(named, check_base(scope, definition))
}

/// What is required of a virtual relvar by the type of its expression.
fn virtual_fits(types: &TypeTable, ty: Ty, keys: &[Vec<Name>]) -> Result<(), Fault>
    ensures { Answers (λ u. u) result
        (over_relation (type_view ty) (λ h. both_hold
        (keys_asked h (map (λ key. key.items) keys.now)) (heading_rank_fits types.now h))) }
{
    match ty {
        Ty::Rel(heading) => {
            let allowed = keys_asked(&heading, keys);
            both_hold(allowed, heading_rank_fits(types, heading))
        }
        _ => Err(Fault::Refused(Cause::TypeMismatch)),
    }
}

/// What is required of a virtual relvar beside its name.
fn check_virtual(scope: &Scope<'_>, definition: &VirtualDefinition) -> Result<(), Fault>
    ensures { Answers (λ u. u) result
        (with_value (type_of scope.now (tree_view definition.now.expression))
        (λ t. over_relation t (λ h. both_hold
        (keys_asked h (map (λ key. key.items) definition.now.keys.items))
        (heading_rank_fits scope.now.types h)))) }
{
    let ty = check_at(&definition.expression, &Place::outside(scope))?;
    virtual_fits(scope.types(), ty, &definition.keys)
}

/// What is required of `VAR .. VIRTUAL`.
pub(crate) fn define_virtual(scope: &Scope<'_>, definition: &VirtualDefinition) -> Result<(), Fault>
    ensures { Answers (λ u. u) result
        (statement_checked scope.now (statement_view (Statement.DefineVirtual definition.now))) }
{
    let named = relvar_is_new(scope, &definition.name);
    both_hold(named, check_virtual(scope, definition))
}

// ---- constraints

/// What is required of `CONSTRAINT`.
pub(crate) fn define_constraint(
    scope: &Scope<'_>,
    name: &Name,
    condition: &Expr,
) -> Result<(), Fault>
    ensures { Answers (λ u. u) result (statement_checked scope.now
        (statement_view (Statement.DefineConstraint name.now condition.now))) }
{
    let named = ask(!scope.knows_constraint(name), Cause::NameTaken);
    both_hold(named, check_condition(condition, &Place::outside(scope)))
}
