//! Assignments, all at once: what they change of their targets, and the catalogue with it.
ghost use Rattle.std.specs.Prelude.{◌≡◌, ◌+◌, ◌<◌, ◌∷◌, [], IfOk, IfSome, OnOk};
ghost use Rattle.std.specs.Prelude.{length, map, slice_get};
ghost use Rattle.std.specs.Map.{keys_of};
ghost use Rattle.td_catalog.specs.model.Database.{Database, base_named, base_relvar, with_bases};
ghost use Rattle.td_catalog.specs.model.Database.{with_body};
ghost use Rattle.td_catalog.specs.model.TypedDatabases.{IsTyped};
ghost use Rattle.td_engine.specs.model.Assignments.{assigned_database, given_by, target_of};
ghost use Rattle.td_engine.specs.model.Assignments.{with_all_assigned, with_assigned};
ghost use Rattle.td_engine.specs.model.Assignments.{with_assignment};
ghost use Rattle.td_engine.specs.code.AddedTuples.{AreTestedByAdditions};
ghost use Rattle.td_engine.specs.code.Carried.{Changes, IsAdmitted, Passes};
ghost use Rattle.td_engine.specs.code.Changes.{AreChanges, AreTypedChanges, IsChangeOf};
ghost use Rattle.td_engine.specs.code.Changes.{IsOfHeading, IsTypedChange, assigned_over};
ghost use Rattle.td_engine.specs.code.Changes.{changed_by, given_as, given_in};
ghost use Rattle.td_engine.specs.model.Checks.{BasesHold, base_check, first_refusal};
ghost use Rattle.td_engine.specs.code.ConstraintPlans.{AreKeptPlans};
ghost use Rattle.td_engine.specs.code.AssignedRelations.{AreAssigned, IsAssigned, assigned_of};
ghost use Rattle.td_engine.specs.code.AssignedRelations.{assigned_bases};
ghost use Rattle.td_engine.specs.laws.LeftOut.{PassesElsewhere};
ghost use Rattle.td_engine.specs.model.Machine.{by_outcome, checked_effect};
ghost use Rattle.td_engine.specs.model.Legality.{IsLegal};
ghost use Rattle.td_engine.specs.code.Plannable.{IsAdmittedAssignment};
ghost use Rattle.td_engine.specs.code.Stages.{GoesOn};
ghost use Rattle.td_engine.specs.code.Targets.{IsTarget};
ghost use Rattle.td_eval.specs.laws.ReachedRelvars.{reached_from};
ghost use Rattle.td_tree.specs.model.Outcomes.{Answers};
ghost use Rattle.td_tree.specs.code.TreeViews.{assignment_view, statement_view};
ghost use Rattle.td_tree.specs.model.Trees.{assign_all};
ghost use Rattle.td_value.specs.model.Values.{IsRelation};

use crate::added::Added;
use crate::change::Change;
use crate::checks::{check_after, entry_keys_hold};
use crate::definitions::failure_of;
use crate::reached::reached_from;
use crate::refusal::{Failure, Refusal};
use crate::target::Target;
use indexmap::IndexMap;
use std::alloc::{AllocError, Global};
use td_body::body::Body;
use td_catalog::catalog::Catalog;
use td_plan::plan::Plan;
use td_tree::cause::Cause;
use td_tree::fault::Fault;
use td_tree::name::Name;
use td_tree::statement::{Assignment, Statement};
use td_value::relation::Rel;

// ---- what targets are given

/// The name of the target.
fn target_of(assignment: &Assignment) -> &Name
    ensures { result.now ≡ target_of (assignment_view assignment.now) }
{
    match assignment {
        Assignment::Assign(target, _)
        | Assignment::Insert(target, _)
        | Assignment::DisjointInsert(target, _)
        | Assignment::Delete(target, _)
        | Assignment::IncludedDelete(target, _)
        | Assignment::Update(_, target, _, _) => target,
    }
}

/// What an assignment changes of a target that was given a relation before.
fn change_of_given<'c, B: Body>(
    target: &Target<'c, B>,
    relation: &'c Rel,
    assignment: &Assignment,
) -> Result<Change, Fault>
    requires legal { IsLegal target.now.catalog.now.database }
    requires admitted { IsAdmittedAssignment target.now.catalog.now.database
        (assignment_view assignment.now) }
    requires target { IsTarget B.relation B.keys target.now }
    requires named { target_of (assignment_view assignment.now) ≡ target.now.name.now }
    requires assigned { IsAssigned target.now.catalog.now.database
        (target.now.name.now, relation.now) }
    ensures answer { Answers (λ c. changed_by c relation.now) result
        (assigned_over target.now.catalog.now.database relation.now
        (assignment_view assignment.now)) }
    ensures headings { IfOk result (IsOfHeading relation.now.heading) }
{
    let given = Some(relation);
    let target = Target {
        alloc: target.alloc,
        catalog: target.catalog,
        name: target.name,
        entry: target.entry,
        given,
    };
    target.change(assignment)
}

/// What a later assignment changes of a target, with what was changed before.
fn next_change<B: Body>(
    target: &Target<'_, B>,
    change: &Change,
    assignment: &Assignment,
) -> Result<Change, Fault>
    requires legal { IsLegal target.now.catalog.now.database }
    requires admitted { IsAdmittedAssignment target.now.catalog.now.database
        (assignment_view assignment.now) }
    requires target { IsTarget B.relation B.keys target.now }
    requires named { target_of (assignment_view assignment.now) ≡ target.now.name.now }
    requires change { IsOfHeading (B.relation target.now.entry.now.body).heading change.now }
    requires assigned { IsAssigned target.now.catalog.now.database (
      target.now.name.now,
      changed_by change.now (B.relation target.now.entry.now.body),
    ) }
    ensures answer { Answers (λ c. changed_by c (B.relation target.now.entry.now.body)) result
        (assigned_over target.now.catalog.now.database
        (changed_by change.now (B.relation target.now.entry.now.body))
        (assignment_view assignment.now)) }
    ensures headings { IfOk result
        (IsOfHeading (B.relation target.now.entry.now.body).heading) }
{
    let earlier = target.entry.body.to_rel()?;
    let so_far = change.after(target.alloc, &earlier)?;
    let next = change_of_given(target, &so_far, assignment)?;
    let given = next.after(target.alloc, &so_far)?;
    Ok(Change::between(target.alloc, &earlier, &given)?)
}

/// What an assignment changes of its target.
fn assigned<'c, B: Body>(
    alloc: Global,
    catalog: &'c Catalog<B>,
    given: &IndexMap<Name, Change>,
    assignment: &'c Assignment,
) -> Result<Change, Fault>
    requires legal { IsLegal catalog.now.database }
    requires admitted { IsAdmittedAssignment catalog.now.database (assignment_view assignment.now) }
    requires changes { AreChanges catalog.now.database given.now.entries }
    requires all_assigned { AreAssigned catalog.now.database
        (given_in catalog.now.database given.now.entries) }
    ensures answer { Answers
        (given_as catalog.now.database (target_of (assignment_view assignment.now))) result
        (assigned_of catalog.now.database (given_in catalog.now.database given.now.entries)
        (assignment_view assignment.now)) }
    ensures change { IfOk result (λ c.
        IsChangeOf catalog.now.database (target_of (assignment_view assignment.now), c)) }
{
    let name = target_of(assignment);
    let Some(entry) = catalog.get_base(name) else {
        return Err(Fault::Refused(Cause::NameUnknown));
    };
    let nothing: Option<&'c Rel> = None;
    let target = Target {
        alloc,
        catalog,
        name,
        entry,
        given: nothing,
    };
    match given.get(name) {
        None => target.change(assignment),
        Some(change) => next_change(&target, change, assignment),
    }
}

/// Gives its target what an assignment gives.
fn assign_one<B: Body>(
    alloc: Global,
    catalog: &Catalog<B>,
    given: &mut IndexMap<Name, Change>,
    assignment: &Assignment,
) -> Result<(), Fault>
    requires legal { IsLegal catalog.now.database }
    requires admitted { IsAdmittedAssignment catalog.now.database (assignment_view assignment.now) }
    requires changes { AreChanges catalog.now.database given.old.entries }
    requires all_assigned { AreAssigned catalog.now.database
        (given_in catalog.now.database given.old.entries) }
    ensures answer { Answers (λ u. given_in catalog.now.database given.new.entries) result
        (with_assignment catalog.now.database (given_in catalog.now.database given.old.entries)
        (assignment_view assignment.now)) }
    ensures changes { OnOk result (AreChanges catalog.now.database given.new.entries) }
{
    let change = assigned(alloc, catalog, given, assignment)?;
    given.insert(target_of(assignment).try_clone()?, change)?;
    Ok(())
}

/// What the targets are given by all assignments, one after another.
fn given_by<B: Body>(
    alloc: Global,
    catalog: &Catalog<B>,
    assignments: &[Assignment],
) -> Result<IndexMap<Name, Change>, Fault>
    requires legal { IsLegal catalog.now.database }
    requires admitted { IsAdmitted catalog.now.database
        (assign_all (map assignment_view assignments.now)) }
    ensures answer { Answers (λ g. given_in catalog.now.database g.entries) result
        (given_by catalog.now.database [] (map assignment_view assignments.now)) }
    ensures changes { IfOk result (λ g. AreChanges catalog.now.database g.entries) }
{
    let mut given = IndexMap::new(alloc);
    for assignment in assignments {
        match assign_one(alloc, catalog, &mut given, assignment) {
            Ok(()) => {}
            Err(fault) => return Err(fault),
        }
    }
    Ok(given)
}

// ---- the catalogue with it

/// The keys of a base relvar hold.
fn check_keys<B: Body>(catalog: &Catalog<B>, name: &Name) -> Result<(), Failure>
    ensures { IfSome (base_named name.now catalog.now.database) (λ r. Passes result (base_check r)) }
{
    let Some(entry) = catalog.get_base(name) else {
        return Ok(());
    };
    if entry_keys_hold(entry)? {
        Ok(())
    } else {
        Err(Failure::Refused(Refusal::Key(name.try_clone()?)))
    }
}

/// The target, if it is the only one, and its change.
fn only_one(given: &IndexMap<Name, Change>) -> Option<(&Name, &Change)>
    ensures { IfSome result (λ e. given.now.entries ≡ (e.0.now, e.1.now) ∷ []) }
{
    if given.len() == 1 {
        given.get_index(0)
    } else {
        None
    }
}

/// What came into the one target, if it is the only one.
fn added_alone(given: &IndexMap<Name, Change>) -> Option<Added<'_>>
    ensures { IfSome result (λ a. (c : Change)
        × (given.now.entries ≡ (a.relvar.now, c) ∷ []) × (a.tuples.now ≡ c.add)
        × IsRelation c.add) }
{
    let (relvar, change) = only_one(given)?;
    change.add.heading().reveal();
    change.add.reveal();
    Some(Added {
        relvar,
        tuples: &change.add,
    })
}

/// Changes a base relvar: refused where a key does not hold of it then.
fn put<B: Body>(catalog: &mut Catalog<B>, name: &Name, change: &Change) -> Result<(), Failure>
    requires { IsTypedChange catalog.old.database (name.now, change.now) }
    ensures check { IfSome (base_named name.now catalog.old.database) (λ r.
        Passes result (base_check (base_relvar r.name r.keys (changed_by change.now r.relation)))) }
    ensures put { OnOk result (catalog.new.database ≡ with_body name.now
        (given_as catalog.old.database name.now change.now) catalog.old.database) }
    ensures on { GoesOn catalog.old catalog.new }
{
    catalog.change(name, &change.out, &change.add)?;
    check_keys(catalog, name)
}

/// Lets the base relvar at a place take what it was given, where those before it did: refused where
/// a key does not hold of it then.
fn put_assigned<B: Body>(
    catalog: &mut Catalog<B>,
    given: &IndexMap<Name, Change>,
    place: usize,
) -> Result<(), Failure>
    ghost db: { Database }
    requires db { IsTyped db × BasesHold db }
    requires all_assigned { AreTypedChanges db given.now.entries }
    requires so_far { catalog.old.database ≡ with_bases
        (assigned_bases (given_in db given.now.entries) place db.bases) db }
    requires place { place < length db.bases }
    ensures check { IfSome (slice_get db.bases place) (λ r.
        Passes result (base_check (with_assigned (given_in db given.now.entries) r))) }
    ensures next { OnOk result (catalog.new.database ≡ with_bases
        (assigned_bases (given_in db given.now.entries) (place + 1) db.bases) db) }
    ensures on { GoesOn catalog.old catalog.new }
{
    let Some((name, _)) = catalog.nth_base(place) else {
        return Ok(());
    };
    let name = name.try_clone()?;
    let Some(change) = given.get(&name) else {
        return Ok(());
    };
    put(catalog, &name, change)
}

/// Lets the base relvars take what they were given: refused where a key does not hold then.
fn put_all_assigned<B: Body>(
    catalog: &mut Catalog<B>,
    given: &IndexMap<Name, Change>,
) -> Result<(), Failure>
    ghost db: { Database }
    requires db { (db ≡ catalog.old.database) × IsTyped db × BasesHold db }
    requires all_assigned { AreTypedChanges db given.now.entries }
    ensures check { Passes result (first_refusal base_check
        (with_all_assigned (given_in db given.now.entries) db).bases) }
    ensures next { OnOk result (catalog.new.database
        ≡ with_all_assigned (given_in db given.now.entries) db) }
    ensures on { GoesOn catalog.old catalog.new }
{
    for place in 0..catalog.base_count() {
        match put_assigned(catalog, given, place) {
            Ok(()) => {}
            Err(failure) => return Err(failure),
        }
    }
    Ok(())
}

/// The names of what was given something, in its order.
fn names_of_all(alloc: Global, given: &IndexMap<Name, Change>) -> Result<Vec<Name>, AllocError>
    ensures { IfOk result (λ names. names.items ≡ keys_of given.now.entries) }
{
    let mut names = Vec::with_capacity(alloc, given.len())?;
    for place in 0..given.len() {
        let Some((name, _)) = given.get_index(place) else {
            return Ok(names);
        };
        names.push(name.try_clone()?)?;
    }
    Ok(names)
}

/// After the base relvars were given this, what it reaches passes its checks; nothing else can
/// have changed.
fn settle_all_assigned<B: Body>(
    alloc: Global,
    catalog: &Catalog<B>,
    plans: &mut Vec<Option<Plan>>,
    given: &IndexMap<Name, Change>,
) -> Result<(), Failure>
    requires held { BasesHold catalog.now.database }
    requires elsewhere { PassesElsewhere
        (reached_from (keys_of given.now.entries) catalog.now.database.virtuals)
        catalog.now.database }
    requires added { AreTestedByAdditions catalog.now.database given.now.entries }
    requires plans { AreKeptPlans catalog.now.database plans.old.items }
    ensures change { Changes catalog.now.database result (checked_effect catalog.now.database) }
    ensures plans { AreKeptPlans catalog.now.database plans.new.items }
{
    if catalog.virtual_count() == 0 && catalog.constraint_count() == 0 {
        return Ok(());
    }
    let reached = reached_from(catalog, names_of_all(alloc, given)?)?;
    let added = added_alone(given);
    check_after(alloc, catalog, plans, &reached, added.as_ref())
}

/// Lets the targets take what they were given: refused where a key does not hold then. One target
/// alone is looked up by its name.
fn change_bases<B: Body>(
    catalog: &mut Catalog<B>,
    given: &IndexMap<Name, Change>,
) -> Result<(), Failure>
    ghost db: { Database }
    requires db { (db ≡ catalog.old.database) × IsTyped db × BasesHold db }
    requires all_assigned { AreTypedChanges db given.now.entries }
    ensures check { Passes result (first_refusal base_check
        (with_all_assigned (given_in db given.now.entries) db).bases) }
    ensures next { OnOk result (catalog.new.database
        ≡ with_all_assigned (given_in db given.now.entries) db) }
    ensures on { GoesOn catalog.old catalog.new }
{
    match only_one(given) {
        Some((name, change)) => put(catalog, name, change),
        None => put_all_assigned(catalog, given),
    }
}

/// Lets the base relvars take what they were given, where what is checked is passed.
fn assign_each<B: Body>(
    alloc: Global,
    catalog: &mut Catalog<B>,
    plans: &mut Vec<Option<Plan>>,
    given: &IndexMap<Name, Change>,
) -> Result<(), Failure>
    requires legal { IsLegal catalog.old.database }
    requires all_assigned { AreTypedChanges catalog.old.database given.now.entries }
    requires typed { AreAssigned catalog.old.database
        (given_in catalog.old.database given.now.entries) }
    requires plans { AreKeptPlans catalog.old.database plans.old.items }
    ensures change { Changes catalog.new.database result (checked_effect
        (with_all_assigned (given_in catalog.old.database given.now.entries) catalog.old.database)) }
    ensures before { AreKeptPlans catalog.old.database plans.new.items }
    ensures after { OnOk result (AreKeptPlans catalog.new.database plans.new.items) }
    ensures on { GoesOn catalog.old catalog.new }
{
    catalog.reveal();
    match change_bases(catalog, given) {
        Ok(()) => settle_all_assigned(alloc, catalog, plans, given),
        Err(failure) => Err(failure),
    }
}

/// Does what a statement of assignments means.
pub(crate) fn assign<B: Body>(
    alloc: Global,
    catalog: &mut Catalog<B>,
    plans: &mut Vec<Option<Plan>>,
    assignments: Vec<Assignment>,
) -> Result<(), Failure>
    requires legal { IsLegal catalog.old.database }
    requires admitted { IsAdmitted catalog.old.database
        (statement_view (Statement.Assign assignments)) }
    requires plans { AreKeptPlans catalog.old.database plans.old.items }
    ensures change { Changes catalog.new.database result (by_outcome (assigned_database
        catalog.old.database (map assignment_view assignments.items)) checked_effect) }
    ensures before { AreKeptPlans catalog.old.database plans.new.items }
    ensures after { OnOk result (AreKeptPlans catalog.new.database plans.new.items) }
    ensures on { GoesOn catalog.old catalog.new }
{
    match given_by(alloc, catalog, &assignments) {
        Ok(given) => {
            drop(assignments);
            assign_each(alloc, catalog, plans, &given)
        }
        Err(fault) => Err(failure_of(fault)),
    }
}
