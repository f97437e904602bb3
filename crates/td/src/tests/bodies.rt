//! Bodies of relvars.
ghost use Rattle.std.specs.Prelude.{◌≡◌, ◌∷◌, ◌<◌, IfOk, IfSome, IsTrue, [], length};
ghost use Rattle.std.specs.List.{slice_get};
ghost use Rattle.td_types.specs.model.Headings.{projection};
ghost use Rattle.td_value.specs.model.Values.{IsTupleOf, heading_of, relation_view};

mod outer;
mod steps;

use super::given::{both, kept, list_of, made};
use super::texts::{Want, is_answer, literal, names, relation};
use super::values::numbers;
use std::alloc::Global;
use td_body::body::Body;
use td_body::hashed::HashBody;
use td_body::sorted::SortedBody;
use td_tree::cause::Cause;
use td_tree::fault::Fault;
use td_tree::name::Name;
use td_types::heading::Heading;
use td_value::relation::Rel;
use td_value::tuple::Tuple;

/// The body of the heading without tuples, with one key.
fn keyed<B: Body>(alloc: Global, heading: Heading, key: Vec<Name>) -> Result<B, Fault>
    ensures keys { IfOk result (λ b. B.keys b ≡ key.items ∷ []) }
    ensures relation { IfOk result (λ b. B.relation b ≡ relation_view heading []) }
{
    if !heading.has_all(&key) {
        return Err(Fault::Refused(Cause::Heading));
    }
    let (heading, keys) = both(Ok(heading), list_of(alloc, key))?;
    made(B::empty(alloc, heading, keys))
}

/// The body of the relation's heading without tuples, with one key.
fn keyed_like<B: Body>(alloc: Global, rel: &Rel, key: Vec<Name>) -> Result<B, Fault>
    ensures keys { IfOk result (λ b. B.keys b ≡ key.items ∷ []) }
    ensures relation { IfOk result (λ b. B.relation b ≡ relation_view rel.now.heading []) }
{
    let (heading, key) = both(made(rel.heading().try_clone()), Ok(key))?;
    keyed(alloc, heading, key)
}

/// Puts the tuples of a relation of its heading into the body.
fn fill<B: Body>(body: &mut B, rel: &Rel) -> Result<(), Fault>
    requires { rel.now.heading ≡ (B.relation body.old).heading }
    ensures keys { B.keys body.new ≡ B.keys body.old }
    ensures heading { (B.relation body.new).heading ≡ (B.relation body.old).heading }
{
    let none = body.to_rel()?;
    let done = body.change(&none, rel);
    drop(none);
    made(done)
}

/// The body with one key that holds the relation.
fn filled<B: Body>(alloc: Global, rel: &Rel, key: Vec<Name>) -> Result<B, Fault>
    ensures keys { IfOk result (λ b. B.keys b ≡ key.items ∷ []) }
    ensures heading { IfOk result (λ b. (B.relation b).heading ≡ rel.now.heading) }
{
    let mut body: B = keyed_like(alloc, rel, key)?;
    fill(&mut body, rel)?;
    body.settle();
    Ok(body)
}

fn body_literal<B: Body>(body: &B) -> Result<String, Fault> {
    literal(made(body.to_rel()))
}

// ---- members

/// A call with one tuple.
#[derive(Clone, Copy)]
enum Call {
    Insert,
    Remove,
    Contains,
}

/// Whether the tuple is of the body's heading.
fn is_of<B: Body>(body: &B, tuple: &Tuple) -> Result<bool, Fault>
    ensures { IfOk result (λ is. IsTrue is
        → IsTupleOf (B.relation body.now).heading tuple.now) }
{
    let rel = body.to_rel()?;
    let is_of = tuple.has_heading(rel.heading());
    drop(rel);
    Ok(is_of)
}

/// Makes a copy of the tuple a member.
fn inserted<B: Body>(body: &mut B, tuple: &Tuple) -> Result<bool, Fault>
    requires headed { IsTupleOf (B.relation body.old).heading tuple.now }
    requires none_kept { B.kept body.old ≡ [] }
    ensures keys { B.keys body.new ≡ B.keys body.old }
    ensures heading { (B.relation body.new).heading ≡ (B.relation body.old).heading }
{
    let tuple = tuple.try_clone()?;
    body.insert(tuple).map_err(|_| Fault::Memory)
}

/// What a call of the body, which keeps nothing, answers.
fn called<B: Body>(call: Call, body: &mut B, tuple: &Tuple) -> Result<bool, Fault>
    requires { B.kept body.old ≡ [] }
    ensures keys { B.keys body.new ≡ B.keys body.old }
    ensures heading { (B.relation body.new).heading ≡ (B.relation body.old).heading }
{
    if !is_of(body, tuple)? {
        return Err(Fault::Refused(Cause::Heading));
    }
    match call {
        Call::Insert => inserted(body, tuple),
        Call::Remove => made(body.remove(tuple)),
        Call::Contains => Ok(body.contains(tuple)),
    }
}

/// The answer, how many members the two bodies have, and which the second has.
fn described<B: Body>(
    alloc: Global,
    answer: Result<bool, Fault>,
    body: &B,
    copy: &B,
) -> Result<String, Fault> {
    let (answer, literal) = both(answer, body_literal(copy))?;
    Ok(format!(in alloc; "{answer} {} {} {literal}", body.len(), copy.len())?)
}

/// What a call of the copy of the body answers; how many members the body has then and how many
/// the copy, and which the copy has.
fn told_by_copy<B: Body>(
    alloc: Global,
    call: Call,
    body: &B,
    tuple: &Tuple,
) -> Result<String, Fault> {
    let mut copy = body.try_clone()?;
    let answer = called(call, &mut copy, tuple);
    let text = described(alloc, answer, body, &copy);
    drop(copy);
    text
}

/// The body that holds the relation, with a key of all its names.
fn body_of<B: Body>(alloc: Global, rel: &Rel) -> Result<B, Fault> {
    let key = names(alloc, &["A", "B"])?;
    filled(alloc, rel, key)
}

/// What a call of the copy of a body answers, with the tuple of A 1 and B 2.
fn told<B: Body>(alloc: Global, call: Call, rel: &Rel) -> Result<String, Fault> {
    let tuple = numbers(alloc, &[("A", 1), ("B", 2)]);
    let pair: (B, Tuple) = both(body_of(alloc, rel), tuple)?;
    let text = told_by_copy(alloc, call, &pair.0, &pair.1);
    drop(pair);
    text
}

/// What a call of the copy of a body that holds the relation of that text answers.
fn told_of_text<B: Body>(alloc: Global, call: Call, rel: &str) -> Result<String, Fault> {
    let rel = relation(alloc, rel)?;
    let text = told::<B>(alloc, call, &rel);
    drop(rel);
    text
}

const NONE: &str = "RELATION {A INTEGER, B INTEGER} {}";

const ONE: &str = "RELATION {TUPLE {A 1, B 2}}";

const TWO: &str = "RELATION {TUPLE {A 1, B 2}, TUPLE {A 1, B 3}}";

const CALLS: &[(Call, &str, Want)] = &[
    (
        Call::Insert,
        NONE,
        Ok("true 0 1 RELATION {A INTEGER, B INTEGER} {TUPLE {A 1, B 2}}"),
    ),
    (
        Call::Insert,
        ONE,
        Ok("false 1 1 RELATION {A INTEGER, B INTEGER} {TUPLE {A 1, B 2}}"),
    ),
    (
        Call::Contains,
        ONE,
        Ok("true 1 1 RELATION {A INTEGER, B INTEGER} {TUPLE {A 1, B 2}}"),
    ),
    (
        Call::Contains,
        NONE,
        Ok("false 0 0 RELATION {A INTEGER, B INTEGER} {}"),
    ),
    (
        Call::Remove,
        TWO,
        Ok("true 2 1 RELATION {A INTEGER, B INTEGER} {TUPLE {A 1, B 3}}"),
    ),
    (
        Call::Remove,
        NONE,
        Ok("false 0 0 RELATION {A INTEGER, B INTEGER} {}"),
    ),
];

#[test]
fn members(rt: HostRuntime) {
    for (call, rel, want) in CALLS {
        let sorted = told_of_text::<SortedBody>(rt.alloc(), *call, rel);
        assert!(rt; is_answer(sorted, *want), "{rel}");
        let hashed = told_of_text::<HashBody>(rt.alloc(), *call, rel);
        assert!(rt; is_answer(hashed, *want), "{rel} hashed");
    }
}

// ---- keys

/// Whether the body's first key holds, and which members agree with the part on it.
fn told_found<B: Body>(alloc: Global, body: &B, part: &Tuple) -> Result<String, Fault>
    requires declared { 0 < length (B.keys body.now) }
    requires part { IfSome (slice_get (B.keys body.now) 0) (λ names.
        heading_of part.now ≡ projection names (B.relation body.now).heading) }
{
    let holds = made(body.key_holds(0));
    let (holds, literal) = both(holds, literal(made(body.find_by_key(0, part))))?;
    Ok(format!(in alloc; "{holds} {literal}")?)
}

/// Whether the part has the attributes of the key.
fn is_part(part: &Tuple, rel: &Rel, key: &[Name]) -> Result<bool, Fault>
    ensures { IfOk result (λ is. IsTrue is
        → heading_of part.now ≡ projection key.now rel.now.heading) }
{
    let heading = rel.heading().project(key)?;
    let is_part = part.has_heading(&heading);
    drop(heading);
    Ok(is_part)
}

/// Whether the key holds in a body of the relation, and which members agree with the part on it.
fn told_by_key<B: Body>(
    alloc: Global,
    key: Vec<Name>,
    part: &Tuple,
    rel: &Rel,
) -> Result<String, Fault> {
    let is_part = is_part(part, rel, &key);
    let key = kept(key, is_part)?;
    let body: B = filled(alloc, rel, key)?;
    let text = told_found(alloc, &body, part);
    drop(body);
    text
}

/// Whether a key holds in a body of a relation, and which members agree with a part on it.
fn told_by_texts<B: Body>(
    alloc: Global,
    key: &[&str],
    part: &[(&str, i64)],
    rel: &str,
) -> Result<String, Fault> {
    let given = both(numbers(alloc, part), relation(alloc, rel));
    let (key, given) = both(names(alloc, key), given)?;
    let text = told_by_key::<B>(alloc, key, &given.0, &given.1);
    drop(given);
    text
}

const THREE: &str = "RELATION {TUPLE {A 1, B 2}, TUPLE {A 2, B 3}, TUPLE {A 3, B 2}}";

/// A key, a part that agrees with members on it, and what holds them.
type ByKey = (
    &'static [&'static str],
    &'static [(&'static str, i64)],
    &'static str,
    Want,
);

const KEYS: &[ByKey] = &[
    (
        &["A", "B"],
        &[("A", 1), ("B", 2)],
        ONE,
        Ok("true RELATION {A INTEGER, B INTEGER} {TUPLE {A 1, B 2}}"),
    ),
    (
        &["A"],
        &[("A", 2)],
        THREE,
        Ok("true RELATION {A INTEGER, B INTEGER} {TUPLE {A 2, B 3}}"),
    ),
    // where a key does not hold, several members may agree
    (
        &["B"],
        &[("B", 2)],
        THREE,
        Ok("false RELATION {A INTEGER, B INTEGER} {TUPLE {A 1, B 2}, TUPLE {A 3, B 2}}"),
    ),
    (
        &["B"],
        &[("B", 7)],
        THREE,
        Ok("false RELATION {A INTEGER, B INTEGER} {}"),
    ),
    // the order of rows is not that of the key
    (
        &["B"],
        &[("B", 1)],
        "RELATION {TUPLE {A 1, B 3}, TUPLE {A 2, B 2}, TUPLE {A 3, B 1}}",
        Ok("true RELATION {A INTEGER, B INTEGER} {TUPLE {A 3, B 1}}"),
    ),
    // all members agree on no name
    (
        &[],
        &[],
        TWO,
        Ok("false RELATION {A INTEGER, B INTEGER} {TUPLE {A 1, B 2}, TUPLE {A 1, B 3}}"),
    ),
    (
        &[],
        &[],
        ONE,
        Ok("true RELATION {A INTEGER, B INTEGER} {TUPLE {A 1, B 2}}"),
    ),
];

#[test]
fn members_by_keys(rt: HostRuntime) {
    for (key, part, rel, want) in KEYS {
        let sorted = told_by_texts::<SortedBody>(rt.alloc(), key, part, rel);
        assert!(rt; is_answer(sorted, *want), "{rel}");
        let hashed = told_by_texts::<HashBody>(rt.alloc(), key, part, rel);
        assert!(rt; is_answer(hashed, *want), "{rel} hashed");
    }
}
