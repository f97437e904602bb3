//! Operators between a relation and a base relvar, or a projection of one on a key. Whether a tuple
//! of the relation has a partner there is looked up by the key: no other tuple is read.
ghost use Rattle.std.specs.Prelude.{◌≡◌, Bool, IfOk, IfSome, IsTrue, Some, length, map, not};
ghost use Rattle.std.specs.List.{All, list_all, slice_get};
ghost use Rattle.td_algebra.specs.model.Operators.{common_names};
ghost use Rattle.td_catalog.specs.code.CatalogViews.{IsEntry};
ghost use Rattle.td_eval.specs.model.OperatorValues.{of_relation, postfix_value};
ghost use Rattle.td_eval.specs.code.LentWorlds.{world_in};
ghost use Rattle.td_eval.specs.model.Worlds.{known_outcome};
ghost use Rattle.td_plan.specs.code.Plans.{dyadic_value, postfix};
ghost use Rattle.td_plan.specs.code.Hands.{world_around};
ghost use Rattle.td_plan.specs.code.Partners.{IsPartOn, IsValueBeside, asked_value, has_partner};
ghost use Rattle.td_plan.specs.code.StepViews.{dyadic_view, monadic_view, step_view};
ghost use Rattle.td_tree.specs.model.Outcomes.{Answers, Outcome, Valued, with_value};
ghost use Rattle.td_tree.specs.model.Trees.{only, project};
ghost use Rattle.td_types.specs.model.Headings.{agree, projection};
ghost use Rattle.td_types.specs.model.Types.{Heading, attribute_names};
ghost use Rattle.td_value.specs.model.Sets.{has};
ghost use Rattle.td_value.specs.model.Values.{IsRelation, Relation, Tuple, heading_of};
ghost use Rattle.td_value.specs.model.Values.{projected_tuple};
ghost use Rattle.td_value.specs.model.Values.{relation_value, tuple_cmp};

use crate::plan::step::{Dyadic, Monadic, Step};
use crate::running::look_up::base_in;
use crate::running::plan_world::PlanWorld;
use crate::running::quick_rows::negations;
use std::alloc::{AllocError, Global};
use td_algebra::restriction::restrict;
use td_body::body::Body;
use td_catalog::entry::BaseEntry;
use td_eval::env::Env;
use td_eval::operators::requirements::relation_in;
use td_tree::expression::{Attributes, Postfix};
use td_tree::fault::Fault;
use td_tree::name::Name;
use td_tree::operator::{Comparison, Operator};
use td_types::heading::Heading;
use td_value::relation::Rel;
use td_value::tuple::Tuple;
use td_value::value::Value;

/// Tuples are looked up one by one where the relvar has so many times as many.
const TIMES_AS_MANY: usize = 8;

/// What an operator asks of the tuples of its left operand, by whether each has a partner in the
/// right one.
#[derive(Clone, Copy, Drop)]
enum Asked {
    /// Whether all have one.
    All,
    /// Those that have one.
    Partnered,
    /// Those that have none.
    Unpartnered,
}

/// What an operator asks for which the partner of a tuple is the same tuple.
fn asked_of_members(op: Dyadic) -> Option<Asked>
    ensures { IfSome result (λ asked. (r s : Relation) → r.heading ≡ s.heading
        → dyadic_value (dyadic_view op) (relation_value r) (relation_value s)
        ≡ asked_value asked (λ t. has tuple_cmp t s.body) r) }
{
    match op {
        Dyadic::Comparison(op) => match op {
            Comparison::LessOrEqual => Some(Asked::All),
            _ => None,
        },
        Dyadic::Operator(op) => match op {
            Operator::Intersect => Some(Asked::Partnered),
            Operator::Minus => Some(Asked::Unpartnered),
            _ => None,
        },
    }
}

/// What an operator asks for which the partners of a tuple agree with it on the common attributes.
fn asked_of_partners(op: Dyadic) -> Option<Asked>
    ensures { IfSome result (λ asked. (r s : Relation) → IsTrue (agree r.heading s.heading)
        → dyadic_value (dyadic_view op) (relation_value r) (relation_value s)
        ≡ asked_value asked (has_partner (common_names r s) s) r) }
{
    match op {
        Dyadic::Operator(op) => match op {
            Operator::Matching => Some(Asked::Partnered),
            Operator::NotMatching => Some(Asked::Unpartnered),
            _ => None,
        },
        Dyadic::Comparison(_) => None,
    }
}

/// Whether all the truth values are TRUE.
fn are_all(truths: &[bool]) -> bool
    ensures { result ≡ list_all (λ truth. truth) truths.now }
{
    truths.iter().all(|truth| *truth)
}

/// What is asked of the tuples of the relation, each of which has a partner where its truth value
/// is TRUE.
fn value_asked(alloc: Global, asked: Asked, rel: &Rel, truths: &[bool]) -> Result<Value, AllocError>
    requires { length truths.now ≡ length rel.now.body }
    ensures { (p : Tuple → Bool) → truths.now ≡ map p rel.now.body
        → IfOk result (λ v. asked_value asked p rel.now ≡ Valued v) }
{
    match asked {
        Asked::All => Ok(Value::bool(are_all(truths))),
        Asked::Partnered => Value::relation(alloc, restrict(alloc, rel, truths)?),
        Asked::Unpartnered => {
            let others = negations(alloc, truths)?;
            Value::relation(alloc, restrict(alloc, rel, &others)?)
        }
    }
}

/// The heading that was answered, if there is one.
fn heading_if_any(answer: Result<Heading, Fault>) -> Result<Option<Heading>, AllocError>
    ensures { (o : Outcome Heading) → Answers (λ h. h) answer o
        → IfOk result (λ found. IfSome found (λ h. o ≡ Valued h)) }
{
    match answer {
        Ok(heading) => Ok(Some(heading)),
        Err(Fault::Refused(_)) => Ok(None),
        Err(Fault::Memory) => Err(AllocError),
    }
}

/// Whether the part is the projection of the heading on the names.
fn is_part_on(names: &[Name], heading: &Heading, part: &Heading) -> Result<bool, AllocError>
    ensures { IfOk result (λ is. IsTrue is → IsPartOn names.now heading.now part.now) }
{
    match heading_if_any(heading.project(names))? {
        Some(projected) => Ok(projected == *part),
        None => Ok(false),
    }
}

/// The key on which both headings have the part as their projection: its place, and its names.
fn key_of<'k>(
    keys: &'k [Vec<Name>],
    heading: &Heading,
    other: &Heading,
    part: &Heading,
) -> Result<Option<(usize, &'k [Name])>, AllocError>
    ensures place { IfOk result (λ found. IfSome found (λ key.
        slice_get (map (λ k. k.items) keys.now) key.0 ≡ Some key.1.now)) }
    ensures parts { IfOk result (λ found. IfSome found (λ key.
        IsPartOn key.1.now heading.now part.now × IsPartOn key.1.now other.now part.now)) }
{
    for place in 0..keys.len() {
        let names = keys[place].as_slice();
        if is_part_on(names, heading, part)? && is_part_on(names, other, part)? {
            return Ok(Some((place, names)));
        }
    }
    Ok(None)
}

/// Whether a tuple of the relvar agrees with this one on the key.
fn has_partner<B: Body>(
    entry: &BaseEntry<B>,
    place: usize,
    key: &[Name],
    tuple: &Tuple,
) -> Result<bool, AllocError>
    requires entry { IsEntry B.relation B.keys entry.now }
    requires place { slice_get (map (λ k. k.items) entry.now.keys.items) place ≡ Some key.now }
    requires headed { heading_of (projected_tuple key.now tuple.now)
        ≡ projection key.now entry.now.heading }
    ensures { IfOk result (λ has.
        has ≡ has_partner key.now (B.relation entry.now.body) tuple.now) }
{
    let found = entry.body.find_by_key(place, &tuple.project(key)?)?;
    Ok(!found.rows().is_empty())
}

/// Whether a tuple of the relvar agrees on the key with each of the tuples.
fn have_partners<B: Body>(
    alloc: Global,
    entry: &BaseEntry<B>,
    place: usize,
    key: &[Name],
    rows: &[Tuple],
) -> Result<Vec<bool>, AllocError>
    requires entry { IsEntry B.relation B.keys entry.now }
    requires place { slice_get (map (λ k. k.items) entry.now.keys.items) place ≡ Some key.now }
    requires headed { All (λ t. heading_of (projected_tuple key.now t)
        ≡ projection key.now entry.now.heading) rows.now }
    ensures { IfOk result (λ truths.
        truths.items ≡ map (has_partner key.now (B.relation entry.now.body)) rows.now) }
{
    let mut truths = Vec::with_capacity(alloc, rows.len())?;
    for row in rows {
        truths.push(has_partner(entry, place, key, row)?)?;
    }
    Ok(truths)
}

/// The base relvar of the name, where no other relation stands for it and it has many times as many
/// tuples as the relation.
fn larger_base<'a, B: Body>(env: &Env<'a, B>, name: &Name, rel: &Rel) -> Option<&'a BaseEntry<B>>
    ensures entry { IfSome result (λ e. IsEntry B.relation B.keys e.now) }
    ensures value { IfSome result (λ e. known_outcome ((world_in env.now).relvar name.now)
        ≡ of_relation (B.relation e.now.body)) }
    ensures valid { IfSome result (λ e. IsRelation (B.relation e.now.body)) }
{
    let entry = base_in(env, name)?;
    if rel.rows().len() > entry.body.len() / TIMES_AS_MANY {
        return None;
    }
    Some(entry)
}

/// What is asked of the tuples of the relation, by their partners on the attributes of the part,
/// where these are those of a key.
fn value_by_partners<B: Body>(
    alloc: Global,
    asked: Asked,
    rel: &Rel,
    entry: &BaseEntry<B>,
    part: &Heading,
) -> Result<Option<Value>, AllocError>
    requires { IsEntry B.relation B.keys entry.now }
    ensures { IfOk result (λ found. IfSome found (λ v. asked_value asked
        (has_partner (attribute_names part.now) (B.relation entry.now.body)) rel.now ≡ Valued v)) }
{
    let Some((place, key)) = key_of(&entry.keys, rel.heading(), &entry.heading, part)? else {
        return Ok(None);
    };
    let truths = have_partners(alloc, entry, place, key, rel.rows())?;
    Ok(Some(value_asked(alloc, asked, rel, &truths)?))
}

/// The value of an operator between a relation and a projection of the base relvar of the name.
fn value_beside_projection<B: Body>(
    around: &PlanWorld<'_, '_, '_, B>,
    rel: &Rel,
    op: Dyadic,
    name: &Name,
    names: &[Name],
) -> Result<Option<Value>, AllocError>
    ensures { IfOk result (λ found. IfSome found (λ v. with_value
        (with_value (known_outcome ((world_around around.now).relvar name.now))
        (postfix_value (project (only names.now))))
        (dyadic_value (dyadic_view op) (relation_value rel.now)) ≡ Valued v)) }
{
    let Some(asked) = asked_of_members(op) else {
        return Ok(None);
    };
    let Some(entry) = larger_base(around.env, name, rel) else {
        return Ok(None);
    };
    rel.reveal();
    match heading_if_any(entry.heading.project(names))? {
        Some(part) if part == *rel.heading() => {
            value_by_partners(around.alloc, asked, rel, entry, &part)
        }
        _ => Ok(None),
    }
}

/// The value of an operator between a relation and the base relvar of the name.
fn value_beside_relvar<B: Body>(
    around: &PlanWorld<'_, '_, '_, B>,
    rel: &Rel,
    op: Dyadic,
    name: &Name,
) -> Result<Option<Value>, AllocError>
    ensures { IfOk result (λ found. IfSome found (λ v. with_value
        (known_outcome ((world_around around.now).relvar name.now))
        (dyadic_value (dyadic_view op) (relation_value rel.now)) ≡ Valued v)) }
{
    let Some(asked) = asked_of_partners(op) else {
        return Ok(None);
    };
    let Some(entry) = larger_base(around.env, name, rel) else {
        return Ok(None);
    };
    match heading_if_any(rel.heading().common(&entry.heading))? {
        Some(part) => value_by_partners(around.alloc, asked, rel, entry, &part),
        None => Ok(None),
    }
}

/// The names that a projection lists.
fn listed_names(op: &Monadic) -> Option<&[Name]>
    ensures { IfSome result (λ names. monadic_view op.now ≡ postfix (project (only names.now))) }
{
    let Monadic::Postfix(op) = op else {
        return None;
    };
    let Postfix::Project(attributes) = op else {
        return None;
    };
    let Attributes::Only(names) = attributes else {
        return None;
    };
    Some(names.as_slice())
}

/// The value of an operator between a value and what a step gives, where the step is a base relvar
/// or a projection of one, and partners in it are found by a key.
pub(crate) fn value_by_key<B: Body>(
    around: &PlanWorld<'_, '_, '_, B>,
    left: &Value,
    op: Dyadic,
    right: &Step,
) -> Result<Option<Value>, AllocError>
    ensures { IfOk result (λ found. IfSome found (IsValueBeside (world_around around.now) left.now
        (dyadic_view op) (step_view right.now))) }
{
    let Ok(rel) = relation_in(left) else {
        return Ok(None);
    };
    match right {
        Step::Relvar(name) => value_beside_relvar(around, rel, op, name),
        Step::Monadic(projection, operand) => {
            let Some(names) = listed_names(projection) else {
                return Ok(None);
            };
            match &**operand {
                Step::Relvar(name) => value_beside_projection(around, rel, op, name, names),
                _ => Ok(None),
            }
        }
        _ => Ok(None),
    }
}
