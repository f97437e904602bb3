//! Tuples of relvars that are found by a key.
ghost use Rattle.std.specs.Prelude.{◌≡◌, IfOk, IfSome, IsTrue, Some, false, map};
ghost use Rattle.std.specs.List.{slice_get};
ghost use Rattle.td_body.specs.model.Bodies.{agreeing};
ghost use Rattle.td_catalog.specs.code.CatalogViews.{IsEntry};
ghost use Rattle.td_eval.specs.model.DatabaseWorlds.{world_of};
ghost use Rattle.td_eval.specs.model.OperatorValues.{of_relation};
ghost use Rattle.td_eval.specs.code.LentWorlds.{world_in};
ghost use Rattle.td_eval.specs.model.Worlds.{known_outcome};
ghost use Rattle.td_plan.specs.code.Hands.{IsPlanWorld, world_around};
ghost use Rattle.td_plan.specs.code.Plans.{agreeing_value, looked_up};
ghost use Rattle.td_tree.specs.model.Outcomes.{Answers, Outcome, with_value};
ghost use Rattle.td_types.specs.model.Headings.{projection};
ghost use Rattle.td_value.specs.model.Agreement.{agree_on};
ghost use Rattle.td_value.specs.model.Values.{Val, heading_of};

use crate::running::plan_world::{PlanWorld, relvar_value};
use std::alloc::{AllocError, Global};
use td_algebra::restriction::restrict;
use td_body::body::Body;
use td_catalog::entry::BaseEntry;
use td_eval::env::Env;
use td_eval::operators::relational::as_value;
use td_eval::operators::requirements::{relation_in, tuple_in};
use td_tree::fault::Fault;
use td_tree::name::Name;
use td_types::heading::Heading;
use td_value::relation::Rel;
use td_value::tuple::Tuple;
use td_value::value::Value;

/// Whether the names are those of the key, in its order.
fn is_key(names: &Vec<Name>, key: &[Name]) -> bool
    ensures { IsTrue result → names.now.items ≡ key.now }
{
    names.as_slice() == key
}

/// The place of the key of these names.
fn place_of_key(keys: &[Vec<Name>], key: &[Name]) -> Option<usize>
    ensures { IfSome result (λ place.
        slice_get (map (λ k. k.items) keys.now) place ≡ Some key.now) }
{
    for place in 0..keys.len() {
        if is_key(&keys[place], key) {
            return Some(place);
        }
    }
    None
}

/// Whether the tuple has the attributes of the names, with their types in the heading, and no
/// others.
fn has_key_heading(heading: &Heading, key: &[Name], part: &Tuple) -> Result<bool, AllocError>
    ensures { IfOk result (λ is. IsTrue is → heading_of part.now ≡ projection key.now heading.now) }
{
    match heading.project(key) {
        Ok(wanted) => Ok(part.has_heading(&wanted)),
        Err(Fault::Refused(_)) => Ok(false),
        Err(Fault::Memory) => Err(AllocError),
    }
}

/// The members of a base relvar's body that agree with the part on a key of these names, where it
/// has such a key.
fn found_by_key<B: Body>(
    entry: &BaseEntry<B>,
    key: &[Name],
    part: &Tuple,
) -> Result<Option<Rel>, AllocError>
    requires { IsEntry B.relation B.keys entry.now }
    ensures { IfOk result (λ found. IfSome found
        (λ r. r ≡ agreeing key.now part.now (B.relation entry.now.body))) }
{
    let Some(place) = place_of_key(&entry.keys, key) else {
        return Ok(None);
    };
    if !has_key_heading(&entry.heading, key, part)? {
        return Ok(None);
    }
    Ok(Some(entry.body.find_by_key(place, part)?))
}

/// Whether another relation stands for the relvar of the name.
fn has_other_relation<B: Body>(env: &Env<'_, B>, name: &Name) -> bool
    ensures { result ≡ false → (world_in env.now).relvar name.now
        ≡ (world_of env.now.catalog.now.database).relvar name.now }
{
    match env.other {
        Some((other, _)) => *other == *name,
        None => false,
    }
}

/// The base relvar of the name, where no other relation stands for it.
pub(crate) fn base_in<'a, B: Body>(env: &Env<'a, B>, name: &Name) -> Option<&'a BaseEntry<B>>
    ensures entry { IfSome result (λ e. IsEntry B.relation B.keys e.now) }
    ensures value { IfSome result (λ e. known_outcome ((world_in env.now).relvar name.now)
        ≡ of_relation (B.relation e.now.body)) }
{
    if has_other_relation(env, name) {
        return None;
    }
    env.catalog.get_base(name)
}

/// Whether each of the tuples agrees with the part on the names.
fn agreements(
    alloc: Global,
    rows: &[Tuple],
    key: &[Name],
    part: &Tuple,
) -> Result<Vec<bool>, AllocError>
    ensures { IfOk result (λ truths.
        truths.items ≡ map (agree_on key.now part.now) rows.now) }
{
    let wanted = part.project(key)?;
    let mut truths = Vec::with_capacity(alloc, rows.len())?;
    for row in rows {
        truths.push(wanted == row.project(key)?)?;
    }
    Ok(truths)
}

/// The tuples of the relation that agree with the part on the names, found one by one.
fn agreeing_tuples(alloc: Global, rel: &Rel, key: &[Name], part: &Tuple) -> Result<Value, Fault>
    ensures { Answers (λ v. v) result (of_relation (agreeing key.now part.now rel.now)) }
{
    let truths = agreements(alloc, rel.rows(), key, part)?;
    as_value(alloc, restrict(alloc, rel, &truths))
}

/// The tuples of the relvar of the name that agree with the part on the names of the key. A base
/// relvar's are found by its key.
fn agreeing_value<B: Body>(
    around: &PlanWorld<'_, '_, '_, B>,
    name: &Name,
    key: &[Name],
    part: &Tuple,
) -> Result<Value, Fault>
    requires { IsPlanWorld around.now }
    ensures { Answers (λ v. v) result (agreeing_value key.now
        (known_outcome ((world_around around.now).relvar name.now)) part.now) }
{
    if let Some(entry) = base_in(around.env, name) {
        if let Some(found) = found_by_key(entry, key, part)? {
            return as_value(around.alloc, Ok(found));
        }
    }
    let operand = relvar_value(around, name)?;
    agreeing_tuples(around.alloc, relation_in(&operand)?, key, part)
}

/// The tuples of the relvar that agree on the key with the tuple that is the part's value.
pub(crate) fn look_up<B: Body>(
    around: &PlanWorld<'_, '_, '_, B>,
    name: &Name,
    key: &[Name],
    part: Result<Value, Fault>,
) -> Result<Value, Fault>
    requires { IsPlanWorld around.now }
    ensures { (o : Outcome Val) → Answers (λ v. v) part o
        → Answers (λ v. v) result (with_value o
        (looked_up key.now (known_outcome ((world_around around.now).relvar name.now)))) }
{
    let part = part?;
    agreeing_value(around, name, key, tuple_in(&part)?)
}
