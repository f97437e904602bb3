//! Steps of bodies, one after another: what is answered, kept and held then.
ghost use Rattle.std.specs.Prelude.{◌≡◌, ◌<◌, IfOk, IfSome, IsTrue, length};
ghost use Rattle.std.specs.List.{slice_get};
ghost use Rattle.td_types.specs.model.Headings.{projection};
ghost use Rattle.td_value.specs.model.Values.{heading_of};

use super::outer::Outer;
use super::{Call, body_literal, called, is_part, keyed_like, told_found};
use crate::tests::given::{both, kept};
use crate::tests::texts::{is_answer, names, relation};
use crate::tests::values::numbers;
use std::alloc::Global;
use td_body::body::Body;
use td_body::hashed::HashBody;
use td_body::sorted::SortedBody;
use td_tree::cause::Cause;
use td_tree::fault::Fault;
use td_tree::name::Name;
use td_value::relation::Rel;
use td_value::tuple::Tuple;

/// A tuple, as its names with their numbers.
type Entries = &'static [(&'static str, i64)];

/// A step of a body.
#[derive(Clone, Copy)]
enum Step {
    /// A call with that tuple.
    Call(Call, Entries),
    /// A change that takes the tuples of the one relation out, and puts those of the other in.
    Change(&'static str, &'static str),
    /// The body goes back.
    Revert,
    /// The body keeps no earlier relation any longer.
    Settle,
    /// A copy takes the body's place.
    Copy,
}

/// Whether the relation has the body's heading.
fn is_headed<B: Body>(body: &B, rel: &Rel) -> Result<bool, Fault>
    ensures { IfOk result (λ is. IsTrue is
        → rel.now.heading ≡ (B.relation body.now).heading) }
{
    let own = body.to_rel()?;
    let is_headed = rel.heading() == own.heading();
    drop(own);
    Ok(is_headed)
}

/// Changes the body, where the relations have its heading.
fn change<B: Body>(body: &mut B, out: &Rel, add: &Rel) -> Result<bool, Fault>
    ensures keys { B.keys body.new ≡ B.keys body.old }
    ensures heading { (B.relation body.new).heading ≡ (B.relation body.old).heading }
{
    if !is_headed(body, out)? || !is_headed(body, add)? {
        return Err(Fault::Refused(Cause::Heading));
    }
    body.change(out, add)?;
    Ok(true)
}

/// Changes the body by the relations of those texts.
fn change_by<B: Body>(alloc: Global, body: &mut B, out: &str, add: &str) -> Result<bool, Fault>
    ensures keys { B.keys body.new ≡ B.keys body.old }
    ensures heading { (B.relation body.new).heading ≡ (B.relation body.old).heading }
{
    let relations = both(relation(alloc, out), relation(alloc, add))?;
    let answer = change(body, &relations.0, &relations.1);
    drop(relations);
    answer
}

/// What the call of a body that keeps nothing answers, with the tuple of those entries.
fn call<B: Body>(alloc: Global, body: &mut B, call: Call, entries: Entries) -> Result<bool, Fault>
    ensures keys { B.keys body.new ≡ B.keys body.old }
    ensures heading { (B.relation body.new).heading ≡ (B.relation body.old).heading }
{
    if body.kept() > 0 {
        return Err(Fault::Refused(Cause::InUse));
    }
    let tuple = numbers(alloc, entries)?;
    let answer = called(call, body, &tuple);
    drop(tuple);
    answer
}

/// Puts a copy in the body's place.
fn copy<B: Body>(body: &mut B) -> Result<bool, Fault>
    ensures keys { B.keys body.new ≡ B.keys body.old }
    ensures heading { (B.relation body.new).heading ≡ (B.relation body.old).heading }
{
    *body = body.try_clone()?;
    Ok(true)
}

/// What the step answers: TRUE where it has no answer of its own.
fn answer_of<B: Body>(alloc: Global, body: &mut B, step: Step) -> Result<bool, Fault>
    ensures keys { B.keys body.new ≡ B.keys body.old }
    ensures heading { (B.relation body.new).heading ≡ (B.relation body.old).heading }
{
    match step {
        Step::Call(with, entries) => call(alloc, body, with, entries),
        Step::Change(out, add) => change_by(alloc, body, out, add),
        Step::Revert => Ok(body.revert()),
        Step::Settle => {
            body.settle();
            Ok(true)
        }
        Step::Copy => copy(body),
    }
}

/// The answer of a step, how many earlier relations the body keeps then, and its members; then
/// whether its first key holds, and which members agree with the part on it.
fn told_step<B: Body>(
    alloc: Global,
    body: &mut B,
    part: &Tuple,
    step: Step,
) -> Result<String, Fault>
    requires declared { 0 < length (B.keys body.old) }
    requires part { IfSome (slice_get (B.keys body.old) 0) (λ names.
        heading_of part.now ≡ projection names (B.relation body.old).heading) }
    ensures keys { B.keys body.new ≡ B.keys body.old }
    ensures heading { (B.relation body.new).heading ≡ (B.relation body.old).heading }
{
    let answer = answer_of(alloc, body, step);
    let found = both(body_literal(body), told_found(alloc, body, part));
    let (answer, (literal, found)) = both(answer, found)?;
    Ok(format!(in alloc; "{answer} {} {literal} {found}", body.kept())?)
}

const NONE: &str = "RELATION {K INTEGER, V INTEGER} {}";

const FIVE: &str = "RELATION {TUPLE {K 5, V 5}}";

const SIX: &str = "RELATION {TUPLE {K 6, V 6}}";

const BOTH: &str = "RELATION {TUPLE {K 5, V 5}, TUPLE {K 6, V 6}}";

/// The steps of one body, each with what it is to tell.
const STEPS: &[(Step, &str)] = &[
    // two members agree on the key
    (
        Step::Call(Call::Insert, &[("K", 1), ("V", 1)]),
        "true 0 RELATION {K INTEGER, V INTEGER} {TUPLE {K 1, V 1}} \
            true RELATION {K INTEGER, V INTEGER} {TUPLE {K 1, V 1}}",
    ),
    (
        Step::Call(Call::Insert, &[("K", 1), ("V", 2)]),
        "true 0 RELATION {K INTEGER, V INTEGER} {TUPLE {K 1, V 1}, TUPLE {K 1, V 2}} \
            false RELATION {K INTEGER, V INTEGER} {TUPLE {K 1, V 1}, TUPLE {K 1, V 2}}",
    ),
    (
        Step::Call(Call::Remove, &[("K", 1), ("V", 1)]),
        "true 0 RELATION {K INTEGER, V INTEGER} {TUPLE {K 1, V 2}} \
            true RELATION {K INTEGER, V INTEGER} {TUPLE {K 1, V 2}}",
    ),
    // a change of a body with one member, and back
    (
        Step::Change("RELATION {TUPLE {K 1, V 2}}", FIVE),
        "true 1 RELATION {K INTEGER, V INTEGER} {TUPLE {K 5, V 5}} \
            true RELATION {K INTEGER, V INTEGER} {}",
    ),
    (
        Step::Settle,
        "true 0 RELATION {K INTEGER, V INTEGER} {TUPLE {K 5, V 5}} \
            true RELATION {K INTEGER, V INTEGER} {}",
    ),
    (
        Step::Change(FIVE, SIX),
        "true 1 RELATION {K INTEGER, V INTEGER} {TUPLE {K 6, V 6}} \
            true RELATION {K INTEGER, V INTEGER} {}",
    ),
    (
        Step::Revert,
        "true 0 RELATION {K INTEGER, V INTEGER} {TUPLE {K 5, V 5}} \
            true RELATION {K INTEGER, V INTEGER} {}",
    ),
    (
        Step::Revert,
        "false 0 RELATION {K INTEGER, V INTEGER} {TUPLE {K 5, V 5}} \
            true RELATION {K INTEGER, V INTEGER} {}",
    ),
    // what is taken out and put in is a member
    (
        Step::Change(BOTH, BOTH),
        "true 1 RELATION {K INTEGER, V INTEGER} {TUPLE {K 5, V 5}, TUPLE {K 6, V 6}} \
            true RELATION {K INTEGER, V INTEGER} {}",
    ),
    // key parts come and go with the members
    (
        Step::Change(
            SIX,
            "RELATION {TUPLE {K 1, V 7}, TUPLE {K 1, V 8}, TUPLE {K 5, V 9}}",
        ),
        "true 2 RELATION {K INTEGER, V INTEGER} \
            {TUPLE {K 1, V 7}, TUPLE {K 1, V 8}, TUPLE {K 5, V 5}, TUPLE {K 5, V 9}} \
            false RELATION {K INTEGER, V INTEGER} {TUPLE {K 1, V 7}, TUPLE {K 1, V 8}}",
    ),
    (
        Step::Change("RELATION {TUPLE {K 1, V 8}, TUPLE {K 5, V 5}}", NONE),
        "true 3 RELATION {K INTEGER, V INTEGER} {TUPLE {K 1, V 7}, TUPLE {K 5, V 9}} \
            true RELATION {K INTEGER, V INTEGER} {TUPLE {K 1, V 7}}",
    ),
    (
        Step::Revert,
        "true 2 RELATION {K INTEGER, V INTEGER} \
            {TUPLE {K 1, V 7}, TUPLE {K 1, V 8}, TUPLE {K 5, V 5}, TUPLE {K 5, V 9}} \
            false RELATION {K INTEGER, V INTEGER} {TUPLE {K 1, V 7}, TUPLE {K 1, V 8}}",
    ),
    (
        Step::Revert,
        "true 1 RELATION {K INTEGER, V INTEGER} {TUPLE {K 5, V 5}, TUPLE {K 6, V 6}} \
            true RELATION {K INTEGER, V INTEGER} {}",
    ),
    // a copy keeps nothing
    (
        Step::Copy,
        "true 0 RELATION {K INTEGER, V INTEGER} {TUPLE {K 5, V 5}, TUPLE {K 6, V 6}} \
            true RELATION {K INTEGER, V INTEGER} {}",
    ),
    (
        Step::Revert,
        "false 0 RELATION {K INTEGER, V INTEGER} {TUPLE {K 5, V 5}, TUPLE {K 6, V 6}} \
            true RELATION {K INTEGER, V INTEGER} {}",
    ),
    // what is settled is not gone back over
    (
        Step::Change(SIX, NONE),
        "true 1 RELATION {K INTEGER, V INTEGER} {TUPLE {K 5, V 5}} \
            true RELATION {K INTEGER, V INTEGER} {}",
    ),
    (
        Step::Settle,
        "true 0 RELATION {K INTEGER, V INTEGER} {TUPLE {K 5, V 5}} \
            true RELATION {K INTEGER, V INTEGER} {}",
    ),
    (
        Step::Revert,
        "false 0 RELATION {K INTEGER, V INTEGER} {TUPLE {K 5, V 5}} \
            true RELATION {K INTEGER, V INTEGER} {}",
    ),
];

/// How many of the steps tell what they are to tell, before the first that does not.
fn steps_met<B: Body>(alloc: Global, body: &mut B, part: &Tuple) -> usize
    requires declared { 0 < length (B.keys body.old) }
    requires part { IfSome (slice_get (B.keys body.old) 0) (λ names.
        heading_of part.now ≡ projection names (B.relation body.old).heading) }
{
    for (place, (step, want)) in STEPS.iter().enumerate() {
        if !is_answer(told_step(alloc, body, part, *step), Ok(*want)) {
            return place;
        }
    }
    STEPS.len()
}

/// The same on a body of the relation's heading without tuples, with that key.
fn met_by_key<B: Body>(
    alloc: Global,
    key: Vec<Name>,
    part: &Tuple,
    rel: &Rel,
) -> Result<usize, Fault> {
    let is_part = is_part(part, rel, &key);
    let key = kept(key, is_part)?;
    let mut body: B = keyed_like(alloc, rel, key)?;
    let met = steps_met(alloc, &mut body, part);
    drop(body);
    Ok(met)
}

/// How many of the steps tell what they are to tell on a body of numbers K and V with the key K.
fn met<B: Body>(alloc: Global) -> Result<usize, Fault> {
    let given = both(numbers(alloc, &[("K", 1)]), relation(alloc, NONE));
    let (key, given) = both(names(alloc, &["K"]), given)?;
    let met = met_by_key::<B>(alloc, key, &given.0, &given.1);
    drop(given);
    met
}

#[test]
fn steps_of_bodies(rt: HostRuntime) {
    let all = Ok(STEPS.len());
    assert!(rt; met::<SortedBody>(rt.alloc()) == all);
    assert!(rt; met::<HashBody>(rt.alloc()) == all);
    assert!(rt; met::<Outer>(rt.alloc()) == all);
}
