//! The keys of virtual relvars and the constraints of a catalogue, after a definition or an
//! assignment.
ghost use Rattle.std.specs.Prelude.{◌≡◌, [], IfOk, IfSome, OnOk, Some, map};
ghost use Rattle.std.specs.List.{AllByRecursion, slice_get};
ghost use Rattle.td_catalog.specs.code.CatalogViews.{IsEntry, entry_keys, virtual_view};
ghost use Rattle.td_catalog.specs.model.Database.{Database, NamedConstraint, VirtualRelvar};
ghost use Rattle.td_catalog.specs.model.Database.{named_constraint, with_constraint, with_virtual};
ghost use Rattle.td_engine.specs.model.Assignments.{source_world};
ghost use Rattle.td_engine.specs.code.Carried.{Changes, Passes};
ghost use Rattle.td_engine.specs.code.AddedTuples.{AreTestedBy, IsTestedBy};
ghost use Rattle.td_engine.specs.model.Checks.{BasesHold, constraint_check, derived_check};
ghost use Rattle.td_engine.specs.code.ConstraintPlans.{AreKeptPlans, IsKeptPlan};
ghost use Rattle.td_engine.specs.model.Checks.{first_refusal};
ghost use Rattle.td_engine.specs.model.Checks.{keys_hold, refusal_unless_passed, virtual_check};
ghost use Rattle.td_engine.specs.model.Checks.{virtual_test};
ghost use Rattle.td_engine.specs.laws.LeftOut.{PassesElsewhere, PassesUnlessNamed};
ghost use Rattle.td_engine.specs.laws.LeftOut.{PassesUnlessReached};
ghost use Rattle.td_engine.specs.model.Machine.{checked_effect};
ghost use Rattle.td_engine.specs.code.Plannable.{IsPlannable, IsPlannableSource};
ghost use Rattle.td_engine.specs.model.Refusals.{by_constraint, by_key};
ghost use Rattle.td_eval.specs.model.DatabaseWorlds.{world_of};
ghost use Rattle.td_eval.specs.model.OperatorValues.{on_relation, truth_value};
ghost use Rattle.td_eval.specs.laws.ReachedRelvars.{reached_from, with_dependent};
ghost use Rattle.td_eval.specs.model.TreeValues.{value_of};
ghost use Rattle.td_eval.specs.model.Worlds.{name_value};
ghost use Rattle.td_tree.specs.model.Outcomes.{Answers, Outcome, Valued, with_value};
ghost use Rattle.td_tree.specs.code.TreeViews.{tree_view};
ghost use Rattle.td_tree.specs.model.Trees as trees;
ghost use Rattle.td_value.specs.model.Values.{Val};

use crate::added::{Added, asks_of_tuples};
use crate::constraint_plans::{keep_plan, plan_at};
use crate::evaluation::{env_with, value};
use crate::refusal::{Failure, Refusal};
use std::alloc::{AllocError, Global};
use td_body::body::Body;
use td_body::keys::key_holds;
use td_catalog::catalog::Catalog;
use td_catalog::defining::DefiningExpression;
use td_catalog::entry::{BaseEntry, VirtualEntry};
use td_catalog::marked_names::MarkedNames;
use td_plan::plan::Plan;
use td_plan::values::value_by;
use td_tree::cause::Cause;
use td_tree::expression::Expr;
use td_tree::fault::Fault;
use td_tree::name::Name;
use td_value::relation::Rel;
use td_value::value::{Node, Value};

/// Whether each of the keys holds.
pub(crate) fn keys_hold(
    alloc: Global,
    keys: &[Vec<Name>],
    relation: &Rel,
) -> Result<bool, AllocError>
    ensures { IfOk result (λ b.
        b ≡ keys_hold (map (λ key. key.items) keys.now) relation.now.body) }
{
    for key in keys {
        if !key_holds(alloc, key, relation)? {
            return Ok(false);
        }
    }
    Ok(true)
}

/// Whether each of the keys of a base relvar holds.
pub(crate) fn entry_keys_hold<B: Body>(entry: &BaseEntry<B>) -> Result<bool, AllocError>
    requires { IsEntry B.relation B.keys entry.now }
    ensures { IfOk result (λ b.
        b ≡ keys_hold (entry_keys entry.now) (B.relation entry.now.body).body) }
{
    for place in 0..entry.keys.len() {
        if !entry.body.key_holds(place)? {
            return Ok(false);
        }
    }
    Ok(true)
}

/// Whether each of the keys holds of the relation that the value is.
fn keys_hold_in(alloc: Global, keys: &[Vec<Name>], value: &Value) -> Result<bool, Fault>
    ensures { Answers (λ b. b) result (on_relation value.now
        (λ r. Valued (keys_hold (map (λ key. key.items) keys.now) r.body))) }
{
    match &value.node {
        Node::Rel(relation) => Ok(keys_hold(alloc, keys, relation)?),
        _ => Err(Fault::Refused(Cause::TypeMismatch)),
    }
}

/// Whether each of the keys holds of what was answered.
fn keys_hold_of(
    alloc: Global,
    keys: &[Vec<Name>],
    answer: Result<Value, Fault>,
) -> Result<bool, Fault>
    ensures { (o : Outcome Val) → Answers (λ v. v) answer o
        → Answers (λ b. b) result (with_value o (λ v. on_relation v
        (λ r. Valued (keys_hold (map (λ key. key.items) keys.now) r.body)))) }
{
    keys_hold_in(alloc, keys, &answer?)
}

/// The value of the relvar of a name.
fn relvar_value<B: Body>(alloc: Global, catalog: &Catalog<B>, name: &Name) -> Result<Value, Fault>
    requires { IsPlannable catalog.now.database (trees.name name.now) }
    ensures { Answers (λ v. v) result
        (name_value (world_of catalog.now.database) [] name.now) }
{
    let relvar = Expr::Name(name.try_clone()?);
    value(alloc, catalog, &relvar)
}

/// Whether a virtual relvar that has keys has a value of which they hold.
fn test_virtual<B: Body>(
    alloc: Global,
    catalog: &Catalog<B>,
    name: &Name,
    entry: &VirtualEntry,
) -> Result<bool, Fault>
    requires { IsPlannable catalog.now.database (trees.name name.now) }
    ensures { Answers (λ b. b) result
        (virtual_test (world_of catalog.now.database) (virtual_view (name.now, entry.now))) }
{
    if entry.keys.is_empty() {
        return Ok(true);
    }
    keys_hold_of(alloc, &entry.keys, relvar_value(alloc, catalog, name))
}

/// What a test of the keys of a relvar comes to.
fn key_passed(name: &Name, test: Result<bool, Fault>) -> Result<(), Failure>
    ensures { (o : Outcome _) → Answers (λ b. b) test o
        → Passes result (refusal_unless_passed (by_key name.now) o) }
{
    if test? {
        Ok(())
    } else {
        Err(Failure::Refused(Refusal::Key(name.try_clone()?)))
    }
}

/// What a test of a constraint comes to.
fn constraint_passed(name: &Name, test: Result<Value, Fault>) -> Result<(), Failure>
    ensures { (o : Outcome Val) → Answers (λ v. v) test o
        → Passes result (refusal_unless_passed (by_constraint name.now) (truth_value o)) }
{
    match test?.node {
        Node::Bool(true) => Ok(()),
        Node::Bool(false) => Err(Failure::Refused(Refusal::Constraint(name.try_clone()?))),
        _ => Err(Failure::Refused(Refusal::Cause(Cause::TypeMismatch))),
    }
}

/// The keys of a virtual relvar hold, which is tested where it is among those reached.
fn check_virtual<B: Body>(
    alloc: Global,
    catalog: &Catalog<B>,
    reached: &MarkedNames,
    name: &Name,
    entry: &VirtualEntry,
) -> Result<(), Failure>
    requires plannable { IsPlannable catalog.now.database (trees.name name.now) }
    requires elsewhere { PassesUnlessReached reached.now (world_of catalog.now.database)
        (virtual_view (name.now, entry.now)) }
    ensures { Passes result (virtual_check (world_of catalog.now.database)
        (virtual_view (name.now, entry.now))) }
{
    if !reached.includes(name) {
        return Ok(());
    }
    key_passed(name, test_virtual(alloc, catalog, name, entry))
}

/// The virtual relvars among those reached have keys that hold.
fn check_virtuals<B: Body>(
    alloc: Global,
    catalog: &Catalog<B>,
    reached: &MarkedNames,
) -> Result<(), Failure>
    requires { AllByRecursion
        (PassesUnlessReached reached.now (world_of catalog.now.database))
        catalog.now.database.virtuals }
    ensures { Passes result
        (first_refusal (virtual_check (world_of catalog.now.database))
        catalog.now.database.virtuals) }
{
    catalog.reveal();
    for place in 0..catalog.virtual_count() {
        let Some((name, entry)) = catalog.nth_virtual(place) else {
            return Ok(());
        };
        match check_virtual(alloc, catalog, reached, name, entry) {
            Ok(()) => {}
            Err(failure) => return Err(failure),
        }
    }
    Ok(())
}

/// A constraint is TRUE.
fn test_constraint<B: Body>(
    alloc: Global,
    catalog: &Catalog<B>,
    plan: Option<&Plan>,
    name: &Name,
    condition: &DefiningExpression,
) -> Result<(), Failure>
    requires plannable { IsPlannable catalog.now.database condition.now }
    requires plan { IsKeptPlan catalog.now.database condition.now plan }
    ensures { Passes result (constraint_check (world_of catalog.now.database)
        (named_constraint name.now condition.now)) }
{
    let env = env_with(catalog, None);
    constraint_passed(name, value_by(alloc, &env, plan, condition.tree()))
}

/// A constraint is TRUE where the relvar's name means the tuples that came into it alone.
fn test_added<B: Body>(
    alloc: Global,
    catalog: &Catalog<B>,
    added: &Added<'_>,
    plan: Option<&Plan>,
    name: &Name,
    condition: &DefiningExpression,
) -> Result<(), Failure>
    requires plannable { IsPlannableSource catalog.now.database added.now.relvar.now
        added.now.tuples.now condition.now }
    requires plan { IsKeptPlan catalog.now.database condition.now plan }
    ensures { Passes result (constraint_check
        (source_world catalog.now.database added.now.relvar.now added.now.tuples.now)
        (named_constraint name.now condition.now)) }
{
    let env = env_with(catalog, Some((added.relvar, added.tuples)));
    constraint_passed(name, value_by(alloc, &env, plan, condition.tree()))
}

/// A constraint is TRUE: one that asks of each tuple of the relvar that was changed is tested by
/// what came into it.
fn test_after<B: Body>(
    alloc: Global,
    catalog: &Catalog<B>,
    reached: &MarkedNames,
    added: Option<&Added<'_>>,
    plan: Option<&Plan>,
    name: &Name,
    condition: &DefiningExpression,
) -> Result<(), Failure>
    requires plannable { IsPlannable catalog.now.database condition.now }
    requires added { IfSome added (IsTestedBy reached.now catalog.now.database
        (named_constraint name.now condition.now)) }
    requires plan { IsKeptPlan catalog.now.database condition.now plan }
    ensures { Passes result (constraint_check (world_of catalog.now.database)
        (named_constraint name.now condition.now)) }
{
    let Some(added) = added else {
        return test_constraint(alloc, catalog, plan, name, condition);
    };
    if asks_of_tuples(alloc, condition.tree(), added.relvar, reached) {
        test_added(alloc, catalog, added, plan, name, condition)
    } else {
        test_constraint(alloc, catalog, plan, name, condition)
    }
}

/// A constraint is TRUE, which is tested where one of those reached is named in it.
fn check_constraint<B: Body>(
    alloc: Global,
    catalog: &Catalog<B>,
    plans: &mut Vec<Option<Plan>>,
    reached: &MarkedNames,
    added: Option<&Added<'_>>,
    place: usize,
    name: &Name,
    condition: &DefiningExpression,
) -> Result<(), Failure>
    requires plannable { IsPlannable catalog.now.database condition.now }
    requires elsewhere { PassesUnlessNamed reached.now (world_of catalog.now.database)
        (named_constraint name.now condition.now) }
    requires added { IfSome added (IsTestedBy reached.now catalog.now.database
        (named_constraint name.now condition.now)) }
    requires place { slice_get catalog.now.database.constraints place
        ≡ Some (named_constraint name.now condition.now) }
    requires plans { AreKeptPlans catalog.now.database plans.old.items }
    ensures passed { Passes result (constraint_check (world_of catalog.now.database)
        (named_constraint name.now condition.now)) }
    ensures plans { AreKeptPlans catalog.now.database plans.new.items }
{
    if !condition.names_any(reached) {
        return Ok(());
    }
    keep_plan(alloc, catalog, plans, place, condition)?;
    test_after(
        alloc,
        catalog,
        reached,
        added,
        plan_at(plans, place),
        name,
        condition,
    )
}

/// The constraints in which one of those reached is named are TRUE.
fn check_constraints<B: Body>(
    alloc: Global,
    catalog: &Catalog<B>,
    plans: &mut Vec<Option<Plan>>,
    reached: &MarkedNames,
    added: Option<&Added<'_>>,
) -> Result<(), Failure>
    requires elsewhere { AllByRecursion
        (PassesUnlessNamed reached.now (world_of catalog.now.database))
        catalog.now.database.constraints }
    requires added { IfSome added (AreTestedBy reached.now catalog.now.database) }
    requires plans { AreKeptPlans catalog.now.database plans.old.items }
    ensures passed { Passes result
        (first_refusal (constraint_check (world_of catalog.now.database))
        catalog.now.database.constraints) }
    ensures plans { AreKeptPlans catalog.now.database plans.new.items }
{
    catalog.reveal();
    for place in 0..catalog.constraint_count() {
        let Some((name, condition)) = catalog.nth_constraint(place) else {
            return Ok(());
        };
        match check_constraint(
            alloc, catalog, plans, reached, added, place, name, condition,
        ) {
            Ok(()) => {}
            Err(failure) => return Err(failure),
        }
    }
    Ok(())
}

/// The virtual relvars have keys that hold, and then the constraints are TRUE.
fn check_derived<B: Body>(
    alloc: Global,
    catalog: &Catalog<B>,
    plans: &mut Vec<Option<Plan>>,
    reached: &MarkedNames,
    added: Option<&Added<'_>>,
) -> Result<(), Failure>
    requires elsewhere { PassesElsewhere reached.now catalog.now.database }
    requires added { IfSome added (AreTestedBy reached.now catalog.now.database) }
    requires plans { AreKeptPlans catalog.now.database plans.old.items }
    ensures passed { Passes result (derived_check catalog.now.database) }
    ensures plans { AreKeptPlans catalog.now.database plans.new.items }
{
    match check_virtuals(alloc, catalog, reached) {
        Ok(()) => check_constraints(alloc, catalog, plans, reached, added),
        Err(failure) => Err(failure),
    }
}

/// After a change that reaches these relvars the keys of the virtual relvars hold, and the
/// constraints are TRUE. Those of the base relvars were found to hold before.
pub(crate) fn check_after<B: Body>(
    alloc: Global,
    catalog: &Catalog<B>,
    plans: &mut Vec<Option<Plan>>,
    reached: &MarkedNames,
    added: Option<&Added<'_>>,
) -> Result<(), Failure>
    requires held { BasesHold catalog.now.database }
    requires elsewhere { PassesElsewhere reached.now catalog.now.database }
    requires added { IfSome added (AreTestedBy reached.now catalog.now.database) }
    requires plans { AreKeptPlans catalog.now.database plans.old.items }
    ensures change { Changes catalog.now.database result (checked_effect catalog.now.database) }
    ensures plans { AreKeptPlans catalog.now.database plans.new.items }
{
    check_derived(alloc, catalog, plans, reached, added)
}

// ---- what was defined last

/// The keys of the virtual relvar that was defined last hold.
pub(crate) fn check_last_virtual<B: Body>(
    alloc: Global,
    catalog: &Catalog<B>,
) -> Result<(), Failure>
    ensures { (db : Database) (v : VirtualRelvar) → catalog.now.database ≡ with_virtual v db
        → Passes result (virtual_check (world_of catalog.now.database) v) }
{
    catalog.reveal();
    let place = catalog.virtual_count().saturating_sub(1);
    match catalog.nth_virtual(place) {
        Some((name, entry)) => key_passed(name, test_virtual(alloc, catalog, name, entry)),
        None => Ok(()),
    }
}

/// The constraint that was defined last is TRUE.
pub(crate) fn check_last_constraint<B: Body>(
    alloc: Global,
    catalog: &Catalog<B>,
) -> Result<(), Failure>
    ensures { (db : Database) (k : NamedConstraint)
        → catalog.now.database ≡ with_constraint k db
        → Passes result (constraint_check (world_of catalog.now.database) k) }
{
    catalog.reveal();
    let place = catalog.constraint_count().saturating_sub(1);
    match catalog.nth_constraint(place) {
        Some((name, condition)) => test_constraint(alloc, catalog, None, name, condition),
        None => Ok(()),
    }
}
