//! Values of expressions: with another relation in place of a relvar's and tuples in hand, and in
//! each tuple of a relation.
use super::given::both;
use super::statements::database;
use super::texts::{Want, expression, is_answer, literal, name, relation, value_literal};
use super::values::numbers;
use std::alloc::Global;
use td_body::sorted::SortedBody;
use td_catalog::catalog::Catalog;
use td_eval::env::Env;
use td_eval::in_tuples::{set_in_tuples, truths_in};
use td_eval::value::eval;
use td_tree::cause::Cause;
use td_tree::expression::{Expr, NamedExpr};
use td_tree::fault::Fault;
use td_tree::name::Name;
use td_types::ty::Ty;
use td_value::relation::Rel;
use td_value::tuple::Tuple;
use td_value::value::Value;

// ---- another relation, and tuples in hand

/// The value where a relvar has another relation, and the tuples are in hand.
fn value_in<'a>(
    alloc: Global,
    catalog: &'a Catalog<SortedBody>,
    other: (&'a Name, &'a Rel),
    tuples: &'a [&'a Tuple],
    text: &str,
) -> Result<Value, Fault> {
    let tree = expression(alloc, text)?;
    let env = Env {
        catalog,
        other: Some(other),
        tuples,
    };
    let value = eval(alloc, &env, &tree);
    drop(tree);
    value
}

/// The literal of the value where R has one tuple, and two tuples are in hand.
fn told(alloc: Global, catalog: &Catalog<SortedBody>, text: &str) -> Result<String, Fault> {
    let other = both(
        name(alloc, "R"),
        relation(alloc, "RELATION {TUPLE {A 5, B 6}}"),
    );
    let tuples = both(
        numbers(alloc, &[("A", 1), ("B", 2)]),
        numbers(alloc, &[("A", 3), ("C", 4)]),
    );
    let (other, tuples) = both(other, tuples)?;
    let hand = [&tuples.0, &tuples.1];
    let found = value_in(alloc, catalog, (&other.0, &other.1), &hand, text);
    drop(other);
    drop(tuples);
    value_literal(alloc, found)
}

const BASES: &[&str] = &[
    "VAR R BASE RELATION {A INTEGER, B INTEGER} KEY {A};",
    "VAR E BASE RELATION {K INTEGER} INIT (RELATION {TUPLE {K 1}, TUPLE {K 2}}) KEY {K};",
];

const VALUES: &[(&str, Want)] = &[
    ("1 + 1", Ok("2")),
    ("COUNT(R) * 10 + COUNT(E)", Ok("12")),
    (
        "R",
        Ok("RELATION {A INTEGER, B INTEGER} {TUPLE {A 5, B 6}}"),
    ),
    ("A * 100 + B * 10 + C", Ok("324")),
    (
        "R WHERE A = B + C - 1",
        Ok("RELATION {A INTEGER, B INTEGER} {}"),
    ),
    ("E WHERE K = B", Ok("RELATION {K INTEGER} {TUPLE {K 2}}")),
    (
        "C / (A - 3) + (9223372036854775807 + 1)",
        Err(Cause::Overflow),
    ),
];

#[test]
fn values_with_tuples_in_hand(rt: HostRuntime) {
    let alloc = rt.alloc();
    let catalog = database(alloc, BASES).expect(&rt, "memory");
    for (text, want) in VALUES {
        assert!(rt; is_answer(told(alloc, &catalog, text), *want), "{text}");
    }
    drop(catalog);
}

// ---- in each tuple

const TWO: &str = "RELATION {TUPLE {A 1, B 2}, TUPLE {A 1, B 3}}";

/// The relation of two tuples, and the expression of that text.
fn two_and(alloc: Global, text: &str) -> Result<(Rel, Expr), Fault> {
    both(relation(alloc, TWO), expression(alloc, text))
}

/// What the condition is in each tuple.
fn truths<'a>(
    alloc: Global,
    catalog: &'a Catalog<SortedBody>,
    text: &str,
) -> Result<Vec<bool>, Fault> {
    let given = two_and(alloc, text)?;
    let other: Option<(&'a Name, &'a Rel)> = None;
    let env = Env {
        catalog,
        other,
        tuples: &[],
    };
    let truths = truths_in(alloc, &env, &given.0, &given.1);
    drop(given);
    truths
}

/// The relation with B set to the integer that the only part is in each tuple.
fn set_to<'a>(
    alloc: Global,
    catalog: &'a Catalog<SortedBody>,
    rel: &Rel,
    parts: &[NamedExpr],
) -> Result<Rel, Fault> {
    if parts.len() != 1 {
        return Err(Fault::Refused(Cause::Syntax));
    }
    let attributes = [(name(alloc, "B")?, Ty::Int)];
    let other: Option<(&'a Name, &'a Rel)> = None;
    let env = Env {
        catalog,
        other,
        tuples: &[],
    };
    let set = set_in_tuples(alloc, &env, rel, &attributes, parts);
    drop(attributes);
    set
}

/// The relation with B set to the integer that the part of EXTEND is in each tuple.
fn set_by(
    alloc: Global,
    catalog: &Catalog<SortedBody>,
    rel: &Rel,
    tree: &Expr,
) -> Result<Rel, Fault> {
    match tree {
        Expr::Extend(_, parts) => set_to(alloc, catalog, rel, parts),
        _ => Err(Fault::Refused(Cause::Syntax)),
    }
}

/// The relation of two tuples with B set to what the part of EXTEND is in each.
fn set(alloc: Global, catalog: &Catalog<SortedBody>, text: &str) -> Result<String, Fault> {
    let given = two_and(alloc, text)?;
    let set = set_by(alloc, catalog, &given.0, &given.1);
    drop(given);
    literal(set)
}

/// Whether the condition is that in the two tuples.
fn is_true_in(
    alloc: Global,
    catalog: &Catalog<SortedBody>,
    text: &str,
    want: [bool; 2],
) -> Result<bool, Fault> {
    let found = truths(alloc, catalog, text)?;
    Ok(found.as_slice() == want.as_slice())
}

#[test]
fn values_in_tuples(rt: HostRuntime) {
    let alloc = rt.alloc();
    let catalog = database(alloc, BASES).expect(&rt, "memory");
    assert!(rt; is_true_in(alloc, &catalog, "B = 2", [true, false]) == Ok(true));
    let refused = truths(alloc, &catalog, "1 / (B - 3) = 1").err();
    assert!(rt; refused == Some(Fault::Refused(Cause::ZeroDivisor)));
    let sums = Ok("RELATION {A INTEGER, B INTEGER} {TUPLE {A 1, B 3}, TUPLE {A 1, B 4}}");
    let found = set(alloc, &catalog, "EXTEND TABLE_DEE ADD (A + B AS B)");
    assert!(rt; is_answer(found, sums));
    drop(catalog);
}
