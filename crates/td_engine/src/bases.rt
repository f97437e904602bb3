//! Definitions of base relvars.
ghost use Rattle.std.specs.Prelude.{◌≡◌, IfOk, IsTrue, OnOk, [], map, not, option_map};
ghost use Rattle.td_body.specs.model.Bodies.{after_change};
ghost use Rattle.td_catalog.specs.model.Database.{base_relvar, knows_relvar, with_base};
ghost use Rattle.td_catalog.specs.model.Dumps.{ordered_names};
ghost use Rattle.td_catalog.specs.model.TypedDatabases.{AreTyped};
ghost use Rattle.td_engine.specs.model.Assignments.{of_heading, relation_for};
ghost use Rattle.td_engine.specs.code.Carried.{Changes, IsAdmitted};
ghost use Rattle.td_engine.specs.model.Machine.{base_defined, by_outcome, checked_effect};
ghost use Rattle.td_engine.specs.model.Machine.{init_relation};
ghost use Rattle.td_engine.specs.model.Legality.{AreBaseKeys, IsLegal};
ghost use Rattle.td_engine.specs.code.Plannable.{IsPlannableIf};
ghost use Rattle.td_engine.specs.code.Stages.{GoesOn};
ghost use Rattle.td_eval.specs.model.DatabaseWorlds.{world_of};
ghost use Rattle.td_eval.specs.model.OperatorValues.{on_relation};
ghost use Rattle.td_tree.specs.model.Outcomes.{Answers, Outcome, Valued, with_value};
ghost use Rattle.td_tree.specs.code.TreeViews.{heading_tree_view, statement_view, tree_view};
ghost use Rattle.td_tree.specs.declared.cause.Cause.TheVariants as causes;
ghost use Rattle.td_types.specs.model.TypeLists.{AreKnown, heading_meant};
ghost use Rattle.td_types.specs.model.Types.{pack};
ghost use Rattle.td_value.specs.model.Values.{Val, relation_view};

use crate::change::{empty_like, empty_of};
use crate::checks::keys_hold;
use crate::definitions::failure_of;
use crate::evaluation::{relation_of, value};
use crate::paired::paired;
use crate::refusal::{Failure, Refusal};
use std::alloc::{AllocError, Global};
use td_body::body::Body;
use td_catalog::catalog::Catalog;
use td_catalog::copy::copied_keys;
use td_catalog::keys::ordered_keys;
use td_tree::cause::Cause;
use td_tree::expression::Expr;
use td_tree::fault::Fault;
use td_tree::name::Name;
use td_tree::statement::{BaseDefinition, Statement};
use td_types::heading::Heading;
use td_types::resolve::resolve_heading;
use td_value::relation::Rel;
use td_value::value::{Node, Value};

/// The relation of a new relvar of the heading.
fn init_relation<B: Body>(
    alloc: Global,
    catalog: &Catalog<B>,
    heading: Heading,
    init: Option<&Expr>,
) -> Result<Rel, Fault>
    requires { IsPlannableIf catalog.now.database (option_map (λ e. tree_view e.now) init) }
    ensures { Answers (λ r. r) result (init_relation catalog.now.database
        (option_map (λ e. tree_view e.now) init.entry) heading) }
{
    match init {
        None => Ok(empty_of(alloc, &heading)?),
        Some(init) => relation_of(&heading, value(alloc, catalog, init)),
    }
}

/// The relation of a new relvar of the definition.
fn new_relation<B: Body>(
    alloc: Global,
    catalog: &Catalog<B>,
    definition: &BaseDefinition,
) -> Result<Rel, Fault>
    requires { IsPlannableIf catalog.now.database (option_map tree_view definition.now.init) }
    ensures { Answers (λ r. r) result (with_value
        (heading_meant catalog.now.database.types
        (heading_tree_view definition.now.heading.items))
        (init_relation catalog.now.database (option_map tree_view definition.now.init))) }
{
    let heading = resolve_heading(catalog.types(), &definition.heading)?;
    init_relation(alloc, catalog, heading, definition.init.as_ref())
}

/// The body after a change, which keeps nothing earlier.
fn body_after<B: Body>(mut body: B, out: &Rel, add: &Rel) -> Result<B, AllocError>
    requires out { out.now.heading ≡ (B.relation body).heading }
    requires add { add.now.heading ≡ (B.relation body).heading }
    ensures relation { IfOk result (λ b.
        B.relation b ≡ after_change out.now add.now (B.relation body)) }
    ensures keys { IfOk result (λ b. B.keys b ≡ B.keys body) }
    ensures kept { IfOk result (λ b. B.kept b ≡ []) }
{
    body.change(out, add)?;
    body.settle();
    Ok(body)
}

/// The body of the keys that holds the relation.
fn body_of<B: Body>(alloc: Global, keys: &Vec<Vec<Name>>, relation: Rel) -> Result<B, AllocError>
    requires { AreBaseKeys relation.heading (map (λ key. key.items) keys.now.items) }
    ensures relation { IfOk result (λ b. B.relation b ≡ relation) }
    ensures keys { IfOk result (λ b. B.keys b ≡ map (λ key. key.items) keys.now.items) }
    ensures kept { IfOk result (λ b. B.kept b ≡ []) }
{
    let none = empty_like(alloc, &relation)?;
    let empty: B = B::empty(alloc, relation.heading().try_clone()?, copied_keys(keys)?)?;
    let _ = empty.len();
    relation.reveal();
    body_after(empty, &none, &relation)
}

/// What a new base relvar is made of.
#[derive(Drop)]
struct Parts<B> {
    name: Name,
    heading: Heading,
    keys: Vec<Vec<Name>>,
    body: B,
}

fn base_parts<B: Body>(
    alloc: Global,
    name: Name,
    keys: Vec<Vec<Name>>,
    relation: Rel,
) -> Result<Parts<B>, AllocError>
    requires { AreBaseKeys relation.heading (map (λ key. key.items) keys.items) }
    ensures name { IfOk result (λ parts. parts.name ≡ name) }
    ensures heading { IfOk result (λ parts. parts.heading ≡ relation.heading) }
    ensures keys { IfOk result (λ parts. parts.keys ≡ keys) }
    ensures relation { IfOk result (λ parts. B.relation parts.body ≡ relation) }
    ensures body { IfOk result (λ parts. B.keys parts.body ≡ map (λ key. key.items) keys.items) }
    ensures kept { IfOk result (λ parts. B.kept parts.body ≡ []) }
{
    let heading = relation.heading().try_clone()?;
    let body = body_of(alloc, &keys, relation)?;
    Ok(Parts {
        name,
        heading,
        keys,
        body,
    })
}

/// Adds a base relvar that holds the relation.
fn add_base<B: Body>(
    alloc: Global,
    catalog: &mut Catalog<B>,
    name: Name,
    keys: Vec<Vec<Name>>,
    relation: Rel,
) -> Result<(), Fault>
    requires heading { AreKnown catalog.old.database.types (pack relation.heading) }
    requires keys { AreBaseKeys relation.heading (map (λ key. key.items) keys.items) }
    requires typed { AreTyped catalog.old.database.types relation }
    ensures added { OnOk result (catalog.new.database ≡ with_base
        (base_relvar name (map (λ key. key.items) keys.items) relation) catalog.old.database) }
    ensures new { OnOk result (IsTrue (not (knows_relvar name catalog.old.database))) }
    ensures on { GoesOn catalog.old catalog.new }
{
    let parts: Parts<B> = base_parts(alloc, name, keys, relation)?;
    let _ = parts.body.len();
    catalog.add_base(parts.name, parts.heading, parts.keys, parts.body)
}

/// Adds a base relvar that holds the relation, where its keys hold. No virtual relvar and no
/// constraint can have changed.
fn add_checked<B: Body>(
    alloc: Global,
    catalog: &mut Catalog<B>,
    name: Name,
    keys: Vec<Vec<Name>>,
    relation: Rel,
) -> Result<(), Failure>
    requires legal { IsLegal catalog.old.database }
    requires heading { AreKnown catalog.old.database.types (pack relation.heading) }
    requires keys { AreBaseKeys relation.heading (map (λ key. key.items) keys.items) }
    requires typed { AreTyped catalog.old.database.types relation }
    ensures change { Changes catalog.new.database result (checked_effect (with_base
        (base_relvar name (map (λ key. key.items) keys.items) relation) catalog.old.database)) }
    ensures on { GoesOn catalog.old catalog.new }
{
    match keys_hold(alloc, &keys, &relation) {
        Ok(true) => {}
        Ok(false) => return Err(Failure::Refused(Refusal::Key(name))),
        Err(_) => return Err(Failure::Memory),
    }
    match add_base(alloc, catalog, name, keys, relation) {
        Ok(()) => Ok(()),
        Err(_) => Err(Failure::Memory),
    }
}

/// Adds a base relvar that holds the relation, of these keys, each in name order.
fn add_ordered<B: Body>(
    alloc: Global,
    catalog: &mut Catalog<B>,
    name: Name,
    keys: Vec<Vec<Name>>,
    relation: Rel,
) -> Result<(), Failure>
    requires legal { IsLegal catalog.old.database }
    requires heading { AreKnown catalog.old.database.types (pack relation.heading) }
    requires keys { AreBaseKeys relation.heading (map (λ key. key.items) keys.items) }
    requires typed { AreTyped catalog.old.database.types relation }
    ensures change { Changes catalog.new.database result (checked_effect (with_base (base_relvar
        name
        (map (ordered_names relation.heading) (map (λ key. key.items) keys.items)) relation)
        catalog.old.database)) }
    ensures on { GoesOn catalog.old catalog.new }
{
    relation.heading().reveal();
    let ordered = ordered_keys(alloc, relation.heading(), &keys)?;
    add_checked(alloc, catalog, name, ordered, relation)
}

/// Adds a base relvar of the definition.
pub(crate) fn define_base<B: Body>(
    alloc: Global,
    catalog: &mut Catalog<B>,
    definition: BaseDefinition,
) -> Result<(), Failure>
    requires legal { IsLegal catalog.old.database }
    requires admitted { IsAdmitted catalog.old.database
        (statement_view (Statement.DefineBase definition)) }
    ensures change { Changes catalog.new.database result (by_outcome
        (base_defined catalog.old.database definition.name
        (heading_tree_view definition.heading.items) (option_map tree_view definition.init)
        (map (λ key. key.items) definition.keys.items)) checked_effect) }
    ensures on { GoesOn catalog.old catalog.new }
{
    let relation = new_relation(alloc, catalog, &definition);
    drop(definition.heading);
    drop(definition.init);
    match paired(relation, (definition.name, definition.keys)) {
        Ok(parts) => {
            let (relation, (name, keys)) = parts;
            add_ordered(alloc, catalog, name, keys, relation)
        }
        Err(fault) => Err(failure_of(fault)),
    }
}
