//! The operators of two relations.
use super::given::{both, made};
use super::texts::{Want, is_answer, literal, relation};
use std::alloc::Global;
use td_algebra::joins::{compose, hash_join, join, times};
use td_algebra::semijoins::{matching, not_matching};
use td_algebra::sets::{disjoint, intersect, minus, subset, union};
use td_tree::cause::Cause;
use td_tree::fault::Fault;
use td_value::relation::Rel;

#[derive(Clone, Copy)]
enum Call {
    Union,
    Intersect,
    Minus,
    /// The first where it is a subset of the second, else the second.
    Subset,
    /// The first where no tuple is in both, else the second.
    Disjoint,
    Join,
    HashJoin,
    Times,
    Compose,
    Matching,
    NotMatching,
}

/// The first where that holds, else the second.
fn chosen(holds: bool, rel: &Rel, other: &Rel) -> Result<Rel, Fault> {
    if holds {
        made(rel.try_clone())
    } else {
        made(other.try_clone())
    }
}

/// The operators that ask for one heading.
fn of_one_heading(alloc: Global, call: Call, rel: &Rel, other: &Rel) -> Result<Rel, Fault> {
    if *rel.heading() == *other.heading() {
        match call {
            Call::Union => made(union(alloc, rel, other)),
            Call::Intersect => made(intersect(alloc, rel, other)),
            Call::Minus => made(minus(alloc, rel, other)),
            Call::Disjoint => chosen(disjoint(rel, other), rel, other),
            _ => chosen(subset(rel, other), rel, other),
        }
    } else {
        Err(Fault::Refused(Cause::Heading))
    }
}

/// The product, which asks for no common name.
fn multiplied(alloc: Global, rel: &Rel, other: &Rel) -> Result<Rel, Fault> {
    if !rel.heading().is_apart_from(other.heading()) {
        return Err(Fault::Refused(Cause::Heading));
    }
    made(times(alloc, rel, other))
}

/// The operators that ask for no common name of two types.
fn of_two(alloc: Global, call: Call, rel: &Rel, other: &Rel) -> Result<Rel, Fault> {
    if !rel.heading().agrees_with(other.heading()) {
        return Err(Fault::Refused(Cause::Heading));
    }
    match call {
        Call::Join => made(join(alloc, rel, other)),
        Call::HashJoin => made(hash_join(alloc, rel, other)),
        Call::Compose => made(compose(alloc, rel, other)),
        Call::Matching => made(matching(alloc, rel, other)),
        Call::NotMatching => made(not_matching(alloc, rel, other)),
        Call::Times => multiplied(alloc, rel, other),
        _ => of_one_heading(alloc, call, rel, other),
    }
}

fn told(alloc: Global, call: Call, rel: &str, other: &str) -> Result<String, Fault> {
    let pair = both(relation(alloc, rel), relation(alloc, other))?;
    let found = of_two(alloc, call, &pair.0, &pair.1);
    drop(pair);
    literal(found)
}

/// Of the integers A and B.
const TWO: &str = "RELATION {A INTEGER, B INTEGER} {TUPLE {A 1, B 2}, TUPLE {A 1, B 3}}";

const FIRST: &str = "RELATION {A INTEGER, B INTEGER} {TUPLE {A 1, B 2}}";

const SECOND: &str = "RELATION {A INTEGER, B INTEGER} {TUPLE {A 1, B 3}}";

const NONE: &str = "RELATION {A INTEGER, B INTEGER} {}";

const DEE: &str = "RELATION {} {TUPLE {}}";

/// A call of two relations, and what it answers.
type Row = (Call, &'static str, &'static str, Want);

const OF_SETS: &[Row] = &[
    (Call::Union, TWO, TWO, Ok(TWO)),
    (Call::Union, SECOND, TWO, Ok(TWO)),
    (Call::Intersect, TWO, TWO, Ok(TWO)),
    (Call::Intersect, TWO, SECOND, Ok(SECOND)),
    (Call::Minus, TWO, TWO, Ok(NONE)),
    (Call::Minus, TWO, SECOND, Ok(FIRST)),
    (Call::Subset, SECOND, TWO, Ok(SECOND)),
    (Call::Subset, TWO, SECOND, Ok(SECOND)),
    (Call::Disjoint, TWO, SECOND, Ok(SECOND)),
    (Call::Disjoint, TWO, NONE, Ok(TWO)),
    (Call::Disjoint, FIRST, SECOND, Ok(FIRST)),
];

#[test]
fn operators_of_sets(rt: HostRuntime) {
    for (call, rel, other, want) in OF_SETS {
        let found = told(rt.alloc(), *call, rel, other);
        assert!(rt; is_answer(found, *want), "{rel} {other}");
    }
}

const JOINS: &[Row] = &[
    (Call::Join, TWO, TWO, Ok(TWO)),
    (Call::HashJoin, TWO, TWO, Ok(TWO)),
    (
        Call::Join,
        TWO,
        "RELATION {TUPLE {B 3, C 'x'}, TUPLE {B 4, C 'y'}}",
        Ok("RELATION {A INTEGER, B INTEGER, C CHAR} {TUPLE {A 1, B 3, C 'x'}}"),
    ),
    (Call::Times, TWO, DEE, Ok(TWO)),
    (Call::Compose, TWO, TWO, Ok(DEE)),
    (
        Call::Compose,
        TWO,
        "RELATION {TUPLE {B 2, C 'x'}}",
        Ok("RELATION {A INTEGER, C CHAR} {TUPLE {A 1, C 'x'}}"),
    ),
    (Call::Matching, TWO, TWO, Ok(TWO)),
    (Call::NotMatching, TWO, TWO, Ok(NONE)),
    (Call::NotMatching, TWO, "RELATION {TUPLE {B 2}}", Ok(SECOND)),
];

#[test]
fn joins_of_two_relations(rt: HostRuntime) {
    for (call, rel, other, want) in JOINS {
        let found = told(rt.alloc(), *call, rel, other);
        assert!(rt; is_answer(found, *want), "{rel} {other}");
    }
}
