//! Definitions of types, virtual relvars and constraints, and drops.
ghost use Rattle.std.specs.Prelude.{◌≡◌, IfOk, OnOk, map, option_map};
ghost use Rattle.td_catalog.specs.model.Database.{Database, named_constraint, with_constraint};
ghost use Rattle.td_catalog.specs.model.Database.{database_scope};
ghost use Rattle.td_catalog.specs.model.Dumps.{ordered_names};
ghost use Rattle.td_check.specs.model.OperatorTypes.{over_relation};
ghost use Rattle.td_check.specs.model.StaticTypes.{type_of};
ghost use Rattle.td_engine.specs.code.Carried.{Changes, IsAdmitted, failure_of};
ghost use Rattle.td_engine.specs.model.Checks.{BasesHold};
ghost use Rattle.td_engine.specs.model.Machine.{by_outcome, checked_effect, constraint_dropped};
ghost use Rattle.td_engine.specs.model.Machine.{relvar_dropped, type_defined, type_dropped};
ghost use Rattle.td_engine.specs.model.Machine.{unchecked_effect};
ghost use Rattle.td_engine.specs.model.Machine.{virtual_defined};
ghost use Rattle.td_engine.specs.model.Legality.{IsLegal};
ghost use Rattle.td_engine.specs.code.Stages.{GoesOn};
ghost use Rattle.td_tree.specs.model.Outcomes.{Answers, Outcome, Valued, with_value};
ghost use Rattle.td_tree.specs.code.TreeViews.{heading_tree_view, statement_view, tree_view};
ghost use Rattle.td_types.specs.model.Types.{IsHeading, Type', pack};
ghost use Rattle.td_types.specs.code.Views.{type_view};

use crate::checks::{check_last_constraint, check_last_virtual};
use crate::paired::paired;
use crate::refusal::{Failure, Refusal};
use std::alloc::Global;
use td_body::body::Body;
use td_catalog::catalog::Catalog;
use td_catalog::keys::ordered_keys;
use td_check::expression::check_expr;
use td_tree::cause::Cause;
use td_tree::expression::Expr;
use td_tree::fault::Fault;
use td_tree::name::Name;
use td_tree::statement::{Statement, TypeDefinition, VirtualDefinition};
use td_types::heading::Heading;
use td_types::resolve::resolve_attributes;
use td_types::ty::Ty;

/// What a fault of the crates below comes to.
pub(crate) fn failure_of(fault: Fault) -> Failure
    ensures { result ≡ failure_of fault }
{
    match fault {
        Fault::Refused(cause) => Failure::Refused(Refusal::Cause(cause)),
        Fault::Memory => Failure::Memory,
    }
}

/// A drop: no check follows.
pub(crate) fn unchecked_effect(done: Result<(), Fault>) -> Result<(), Failure>
    ensures { (db : Database) (o : Outcome Database) → Answers (λ u. db) done o
        → Changes db result (by_outcome o unchecked_effect) }
{
    match done {
        Ok(()) => Ok(()),
        Err(fault) => Err(failure_of(fault)),
    }
}

/// Adds a type of the definition.
fn add_type<B: Body>(catalog: &mut Catalog<B>, definition: TypeDefinition) -> Result<(), Fault>
    requires legal { IsLegal catalog.old.database }
    requires admitted { IsAdmitted catalog.old.database
        (statement_view (Statement.DefineType definition)) }
    ensures answer { Answers (λ u. catalog.new.database) result
        (type_defined catalog.old.database definition.name
        (heading_tree_view definition.components.items)
        (option_map tree_view definition.constraint)) }
    ensures held { OnOk result (BasesHold catalog.new.database) }
    ensures on { GoesOn catalog.old catalog.new }
{
    let components = resolve_attributes(catalog.types(), &definition.components);
    drop(definition.components);
    let (components, (name, constraint)) = paired(
        components,
        (definition.name, definition.constraint),
    )?;
    catalog.add_type(name, components, constraint)
}

/// Adds a type of the definition. No virtual relvar and no constraint can have changed.
pub(crate) fn define_type<B: Body>(
    catalog: &mut Catalog<B>,
    definition: TypeDefinition,
) -> Result<(), Failure>
    requires legal { IsLegal catalog.old.database }
    requires admitted { IsAdmitted catalog.old.database
        (statement_view (Statement.DefineType definition)) }
    ensures change { Changes catalog.new.database result (by_outcome
        (type_defined catalog.old.database definition.name
        (heading_tree_view definition.components.items)
        (option_map tree_view definition.constraint)) checked_effect) }
    ensures on { GoesOn catalog.old catalog.new }
{
    match add_type(catalog, definition) {
        Ok(()) => Ok(()),
        Err(fault) => Err(failure_of(fault)),
    }
}

/// The heading of a relation's type that was answered: another type is refused.
fn over_relation(answer: Result<Ty, Fault>) -> Result<Heading, Fault>
    ensures { (o : Outcome Type') → Answers type_view answer o
        → Answers (λ h. h) result (with_value o (λ t. over_relation t Valued)) }
{
    match answer {
        Ok(Ty::Rel(heading)) => Ok(heading),
        Ok(_) => Err(Fault::Refused(Cause::TypeMismatch)),
        Err(fault) => Err(fault),
    }
}

/// The heading of an expression's value, which is a relation.
fn heading_of<B: Body>(catalog: &Catalog<B>, expression: &Expr) -> Result<Heading, Fault>
    ensures { Answers (λ h. h) result (with_value
        (type_of (database_scope catalog.now.database) (tree_view expression.now))
        (λ t. over_relation t Valued)) }
{
    let scope = catalog.scope();
    over_relation(check_expr(&scope, expression))
}

/// What the relvar of a definition has beside its expression: the heading of that, and its keys,
/// each in name order.
#[derive(Drop)]
struct Derived {
    heading: Heading,
    keys: Vec<Vec<Name>>,
}

fn derived_parts<B: Body>(
    alloc: Global,
    catalog: &Catalog<B>,
    definition: &VirtualDefinition,
) -> Result<Derived, Fault>
    ensures answer { Answers (λ d. d.heading) result (with_value
        (type_of (database_scope catalog.now.database) (tree_view definition.now.expression))
        (λ t. over_relation t Valued)) }
    ensures headed { IfOk result (λ d. IsHeading (pack d.heading)) }
    ensures keys { IfOk result (λ d. map (λ key. key.items) d.keys.items
        ≡ map (ordered_names d.heading) (map (λ key. key.items) definition.now.keys.items)) }
{
    let heading = heading_of(catalog, &definition.expression)?;
    heading.reveal();
    let keys = ordered_keys(alloc, &heading, &definition.keys)?;
    Ok(Derived { heading, keys })
}

/// Adds a virtual relvar of the definition.
fn add_virtual<B: Body>(
    alloc: Global,
    catalog: &mut Catalog<B>,
    definition: VirtualDefinition,
) -> Result<(), Fault>
    requires legal { IsLegal catalog.old.database }
    requires admitted { IsAdmitted catalog.old.database
        (statement_view (Statement.DefineVirtual definition)) }
    ensures answer { Answers (λ u. catalog.new.database) result
        (virtual_defined catalog.old.database definition.name (tree_view definition.expression)
        (map (λ key. key.items) definition.keys.items)) }
    ensures held { OnOk result (BasesHold catalog.new.database) }
    ensures on { GoesOn catalog.old catalog.new }
{
    let derived = derived_parts(alloc, catalog, &definition);
    drop(definition.keys);
    let (derived, (name, expression)) = paired(derived, (definition.name, definition.expression))?;
    catalog.add_virtual(name, derived.heading, expression, derived.keys)
}

/// Adds a virtual relvar of the definition, where its keys hold. No other virtual relvar and no
/// constraint can have changed.
pub(crate) fn define_virtual<B: Body>(
    alloc: Global,
    catalog: &mut Catalog<B>,
    definition: VirtualDefinition,
) -> Result<(), Failure>
    requires legal { IsLegal catalog.old.database }
    requires admitted { IsAdmitted catalog.old.database
        (statement_view (Statement.DefineVirtual definition)) }
    ensures change { Changes catalog.new.database result (by_outcome
        (virtual_defined catalog.old.database definition.name (tree_view definition.expression)
        (map (λ key. key.items) definition.keys.items)) checked_effect) }
    ensures on { GoesOn catalog.old catalog.new }
{
    match add_virtual(alloc, catalog, definition) {
        Ok(()) => check_last_virtual(alloc, catalog),
        Err(fault) => Err(failure_of(fault)),
    }
}

/// Adds a constraint.
fn add_constraint<B: Body>(
    catalog: &mut Catalog<B>,
    name: Name,
    condition: Expr,
) -> Result<(), Fault>
    requires legal { IsLegal catalog.old.database }
    requires admitted { IsAdmitted catalog.old.database
        (statement_view (Statement.DefineConstraint name condition)) }
    ensures answer { Answers (λ u. catalog.new.database) result (Valued
        (with_constraint (named_constraint name (tree_view condition)) catalog.old.database)) }
    ensures held { OnOk result (BasesHold catalog.new.database) }
    ensures on { GoesOn catalog.old catalog.new }
{
    catalog.add_constraint(name, condition)
}

/// Adds a constraint, where it is TRUE. No virtual relvar and no other constraint can have changed.
pub(crate) fn define_constraint<B: Body>(
    alloc: Global,
    catalog: &mut Catalog<B>,
    name: Name,
    condition: Expr,
) -> Result<(), Failure>
    requires legal { IsLegal catalog.old.database }
    requires admitted { IsAdmitted catalog.old.database
        (statement_view (Statement.DefineConstraint name condition)) }
    ensures change { Changes catalog.new.database result (checked_effect
        (with_constraint (named_constraint name (tree_view condition)) catalog.old.database)) }
    ensures on { GoesOn catalog.old catalog.new }
{
    match add_constraint(catalog, name, condition) {
        Ok(()) => check_last_constraint(alloc, catalog),
        Err(fault) => Err(failure_of(fault)),
    }
}

/// Takes out a type that no entry mentions.
pub(crate) fn drop_type<B: Body>(catalog: &mut Catalog<B>, name: &Name) -> Result<(), Fault>
    ensures answer { Answers (λ u. catalog.new.database) result
        (type_dropped catalog.old.database name.now) }
    ensures on { GoesOn catalog.old catalog.new }
{
    catalog.drop_type(name)
}

/// Takes out a relvar that no entry mentions.
pub(crate) fn drop_relvar<B: Body>(catalog: &mut Catalog<B>, name: &Name) -> Result<(), Fault>
    ensures answer { Answers (λ u. catalog.new.database) result
        (relvar_dropped catalog.old.database name.now) }
    ensures on { GoesOn catalog.old catalog.new }
{
    catalog.drop_var(name)
}

/// Takes out a constraint.
pub(crate) fn drop_constraint<B: Body>(catalog: &mut Catalog<B>, name: &Name) -> Result<(), Fault>
    ensures answer { Answers (λ u. catalog.new.database) result
        (constraint_dropped catalog.old.database name.now) }
    ensures on { GoesOn catalog.old catalog.new }
{
    catalog.drop_constraint(name)
}
