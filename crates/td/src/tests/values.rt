//! Values, tuples and relations: how they are made, their types and literals, and how they
//! compare.
use super::given::{add, both, list_of, made};
use super::texts::{Want, is_answer, name, value};
use super::types::heading;
use std::alloc::{AllocError, Global};
use std::cmp::Ordering;
use std::hash::{FoldHasher, Hash, Hasher};
use td_tree::cause::Cause;
use td_tree::fault::Fault;
use td_tree::name::Name;
use td_types::heading::Heading;
use td_types::text::type_text;
use td_types::ty::Ty;
use td_value::relation::Rel;
use td_value::tuple::{Tuple, have_heading};
use td_value::user::User;
use td_value::value::{Node, Value};

// ---- tuples and relations

/// The name with the number.
fn entry(alloc: Global, text: &str, number: i64) -> Result<(Name, Value), Fault> {
    Ok((name(alloc, text)?, Value::int(number)))
}

/// The tuple that gives each name its number.
pub fn numbers(alloc: Global, entries: &[(&str, i64)]) -> Result<Tuple, Fault> {
    let mut pairs = Vec::new(alloc);
    for (text, number) in entries {
        add(&mut pairs, entry(alloc, text, *number))?;
    }
    Tuple::new(alloc, pairs)
}

fn tuples(alloc: Global, rows: &[&[(&str, i64)]]) -> Result<Vec<Tuple>, Fault> {
    let mut tuples = Vec::new(alloc);
    for entries in rows {
        add(&mut tuples, numbers(alloc, entries))?;
    }
    Ok(tuples)
}

/// The relation of the heading and the tuples, which are to be of it.
fn related(heading: Heading, tuples: Vec<Tuple>) -> Result<Rel, Fault> {
    if !have_heading(&tuples, &heading) {
        return Err(Fault::Refused(Cause::TypeMismatch));
    }
    made(Rel::new(heading, tuples))
}

/// The relation of the integers A and B with those tuples.
fn of_tuples(alloc: Global, rows: &[&[(&str, i64)]]) -> Result<Rel, Fault> {
    let of_two = heading(alloc, "RELATION {A INTEGER, B INTEGER}");
    let (heading, tuples) = both(of_two, tuples(alloc, rows))?;
    related(heading, tuples)
}

const TWICE: &[&[(&str, i64)]] = &[
    &[("A", 1), ("B", 3)],
    &[("B", 2), ("A", 1)],
    &[("A", 1), ("B", 3)],
];

/// The text of the type, where there is one.
fn text_of(alloc: Global, ty: Result<Ty, AllocError>) -> Result<String, AllocError> {
    let ty = ty?;
    let text = type_text(alloc, &ty);
    drop(ty);
    text
}

/// The type of the tuple, and its literal.
fn described_tuple(alloc: Global, tuple: &Tuple) -> Result<String, Fault> {
    let (ty, literal) = both(text_of(alloc, tuple.type_of()), tuple.literal())?;
    Ok(format!(in alloc; "{ty}: {literal}")?)
}

/// The type of the tuple's copy, and its literal.
fn described_tuple_copy(alloc: Global, tuple: &Tuple) -> Result<String, Fault> {
    let copy = tuple.try_clone()?;
    let text = described_tuple(alloc, &copy);
    drop(copy);
    text
}

/// The type of the copy of a tuple, and its literal.
fn told_tuple(alloc: Global, entries: &[(&str, i64)]) -> Result<String, Fault> {
    let tuple = numbers(alloc, entries)?;
    let text = described_tuple_copy(alloc, &tuple);
    drop(tuple);
    text
}

/// How many rows the relation has, its type and its literal.
fn described_relation(alloc: Global, rel: &Rel) -> Result<String, Fault> {
    let (ty, literal) = both(text_of(alloc, rel.type_of()), rel.literal())?;
    Ok(format!(in alloc; "{} {ty}: {literal}", rel.rows().len())?)
}

/// How many rows the relation's copy has, its type and its literal.
fn described_relation_copy(alloc: Global, rel: &Rel) -> Result<String, Fault> {
    let copy = rel.try_clone()?;
    let text = described_relation(alloc, &copy);
    drop(copy);
    text
}

/// How many rows the copy of a relation has, its type and its literal.
fn told_relation(alloc: Global, rows: &[&[(&str, i64)]]) -> Result<String, Fault> {
    let rel = of_tuples(alloc, rows)?;
    let text = described_relation_copy(alloc, &rel);
    drop(rel);
    text
}

/// Whether the tuple gives the name that number.
fn gives(tuple: &Tuple, name: &Name, number: i64) -> bool {
    match tuple.get(name) {
        Some(value) => *value == Value::int(number),
        None => false,
    }
}

/// Whether the tuple of A and B gives B its number.
fn gives_two(alloc: Global) -> Result<bool, Fault> {
    let pair = both(numbers(alloc, &[("B", 2), ("A", 1)]), name(alloc, "B"))?;
    let is_given = gives(&pair.0, &pair.1, 2);
    drop(pair);
    Ok(is_given)
}

#[test]
fn tuples_and_relations(rt: HostRuntime) {
    let alloc = rt.alloc();
    let name_twice = told_tuple(alloc, &[("A", 1), ("B", 3), ("A", 2)]);
    assert!(rt; is_answer(name_twice, Err(Cause::Heading)));
    let two = told_tuple(alloc, &[("B", 2), ("A", 1)]);
    assert!(rt; is_answer(two, Ok("TUPLE {A INTEGER, B INTEGER}: TUPLE {A 1, B 2}")));
    assert!(rt; gives_two(alloc) == Ok(true));
    let want = "2 RELATION {A INTEGER, B INTEGER}: \
        RELATION {A INTEGER, B INTEGER} {TUPLE {A 1, B 2}, TUPLE {A 1, B 3}}";
    assert!(rt; is_answer(told_relation(alloc, TWICE), Ok(want)));
}

// ---- values of each kind

/// A kind of value.
#[derive(Clone, Copy)]
enum Kind {
    Bool,
    Int,
    Text,
    User,
    Tup,
    Rel,
}

/// The user value QTY(3).
fn quantity(alloc: Global) -> Result<User, Fault> {
    let (name, components) = both(name(alloc, "QTY"), list_of(alloc, Value::int(3)))?;
    Ok(User::new(name, components))
}

/// The user value QTY(3), as a value.
fn user_value(alloc: Global) -> Result<Value, Fault> {
    made(Value::user(alloc, quantity(alloc)?))
}

/// The tuple without attributes, as a value.
fn tuple_value(alloc: Global) -> Result<Value, Fault> {
    made(Value::tuple(alloc, numbers(alloc, &[])?))
}

/// The relation without tuples, as a value.
fn relation_value(alloc: Global) -> Result<Value, Fault> {
    made(Value::relation(alloc, of_tuples(alloc, &[])?))
}

/// A value of the kind.
fn value_of(alloc: Global, kind: Kind) -> Result<Value, Fault> {
    match kind {
        Kind::Bool => Ok(Value::bool(true)),
        Kind::Int => Ok(Value::int(-7)),
        Kind::Text => made(Value::text(alloc, "it's")),
        Kind::User => user_value(alloc),
        Kind::Tup => tuple_value(alloc),
        Kind::Rel => relation_value(alloc),
    }
}

/// The type of the value, and its literal.
fn described(alloc: Global, value: &Value) -> Result<String, Fault> {
    let (ty, literal) = both(text_of(alloc, value.type_of(alloc)), value.literal(alloc))?;
    Ok(format!(in alloc; "{ty}: {literal}")?)
}

/// The type of the value's copy, and its literal.
fn described_copy(alloc: Global, value: &Value) -> Result<String, Fault> {
    let copy = value.try_clone()?;
    let text = described(alloc, &copy);
    drop(copy);
    text
}

/// The type of the copy of a value of the kind, and its literal.
fn told(alloc: Global, kind: Kind) -> Result<String, Fault> {
    let value = value_of(alloc, kind)?;
    let text = described_copy(alloc, &value);
    drop(value);
    text
}

const KINDS: &[(Kind, Want)] = &[
    (Kind::Bool, Ok("BOOLEAN: TRUE")),
    (Kind::Int, Ok("INTEGER: -7")),
    (Kind::Text, Ok("CHAR: 'it''s'")),
    (Kind::User, Ok("QTY: QTY(3)")),
    (Kind::Tup, Ok("TUPLE {}: TUPLE {}")),
    (
        Kind::Rel,
        Ok("RELATION {A INTEGER, B INTEGER}: RELATION {A INTEGER, B INTEGER} {}"),
    ),
];

#[test]
fn values_of_each_kind(rt: HostRuntime) {
    for (kind, want) in KINDS {
        assert!(rt; is_answer(told(rt.alloc(), *kind), *want), "{want:?}");
    }
}

// ---- order, equality and hash

fn hash_of<T: Hash>(item: &T) -> u64 {
    let mut state = FoldHasher::default();
    item.hash(&mut state);
    state.finish()
}

/// Whether the two compare in that order, one way round and the other, and are equal only where it
/// says so, with one hash then.
fn compare<T: Ord + Hash>(first: &T, second: &T, order: Ordering) -> bool {
    let is_equal = order == Ordering::Equal;
    first.cmp(second) == order
        && second.cmp(first) == order.reverse()
        && (first == second) == is_equal
        && (!is_equal || hash_of(first) == hash_of(second))
}

/// Whether the tuples or the relations that the values are compare in that order.
fn nodes_compare(first: &Value, second: &Value, order: Ordering) -> bool {
    match (&first.node, &second.node) {
        (Node::Tup(s), Node::Tup(t)) => compare::<Tuple>(s, t, order),
        (Node::Rel(r), Node::Rel(s)) => compare::<Rel>(r, s, order),
        _ => true,
    }
}

/// Whether the values of the texts compare in that order; and, where they are tuples or relations,
/// these too.
fn do_texts_compare(
    alloc: Global,
    first: &str,
    second: &str,
    order: Ordering,
) -> Result<bool, Fault> {
    let pair = both(value(alloc, first), value(alloc, second))?;
    let do_nodes = nodes_compare(&pair.0, &pair.1, order);
    let do_values = compare(&pair.0, &pair.1, order);
    drop(pair);
    Ok(do_nodes && do_values)
}

const ORDERS: &[(&str, &str, Ordering)] = &[
    ("FALSE", "TRUE", Ordering::Less),
    ("-2", "1", Ordering::Less),
    ("-0", "0", Ordering::Equal),
    // texts compare by their bytes
    ("'B'", "'a'", Ordering::Less),
    ("'aa'", "'a'", Ordering::Greater),
    ("TUPLE {A 1, B 3}", "TUPLE {B 1, A 2}", Ordering::Less),
    ("TUPLE {A 1, B 3}", "TUPLE {B 3, A 1}", Ordering::Equal),
    // the first in a list counts, and a front of a list comes before it
    (
        "RELATION {TUPLE {A 3}, TUPLE {A 1}}",
        "RELATION {TUPLE {A 1}}",
        Ordering::Greater,
    ),
    (
        "RELATION {TUPLE {A 2}, TUPLE {A 1}}",
        "RELATION {TUPLE {A 1}, TUPLE {A 2}, TUPLE {A 1}}",
        Ordering::Equal,
    ),
];

/// Whether the relation types of the headings are equal.
fn types_are_one(first: Heading, second: Heading) -> bool {
    let pair = (Ty::Rel(first), Ty::Rel(second));
    let are_one = compare(&pair.0, &pair.1, Ordering::Equal);
    drop(pair);
    are_one
}

/// Whether two headings are equal, and two types, where the names are written in another order.
fn headings_are_one(alloc: Global) -> Result<bool, Fault> {
    let first = heading(alloc, "RELATION {A INTEGER, B CHAR}");
    let second = heading(alloc, "RELATION {B CHAR, A INTEGER}");
    let (first, second) = both(first, second)?;
    let is_one = compare(&first, &second, Ordering::Equal);
    Ok(types_are_one(first, second) && is_one)
}

#[test]
fn values_and_types_compare(rt: HostRuntime) {
    let alloc = rt.alloc();
    for (first, second, order) in ORDERS {
        let found = do_texts_compare(alloc, first, second, *order);
        assert!(rt; found == Ok(true), "{first} {second}");
    }
    assert!(rt; headings_are_one(alloc) == Ok(true));
}
