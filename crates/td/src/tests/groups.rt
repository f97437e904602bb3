//! Groups of a relation's tuples, and aggregates of values.
use super::given::{add, both};
use super::texts::{Want, is_answer, relation, value, value_literal};
use std::alloc::{AllocError, Global};
use td_group::aggregates::{Agg, aggregate};
use td_group::groups::groups;
use td_tree::cause::Cause;
use td_tree::fault::Fault;
use td_value::relation::Rel;
use td_value::tuple::Tuple;
use td_value::value::Value;

// ---- groups

/// The tuple, and then its group.
fn listed(alloc: Global, tuple: &Tuple, group: &Rel) -> Result<String, AllocError> {
    let (tuple, group) = both(tuple.literal(), group.literal())?;
    format!(in alloc; "{tuple}: {group}; ")
}

/// Each tuple with its group.
fn listed_all(alloc: Global, found: &[(Tuple, Rel)]) -> Result<String, AllocError> {
    let mut text = String::new(alloc);
    for (tuple, group) in found {
        text.push_str(listed(alloc, tuple, group)?.as_str())?;
    }
    Ok(text)
}

/// Each tuple of the second relation with the tuples of the first that agree with it.
fn grouped(alloc: Global, rel: &Rel, per: &Rel) -> Result<String, Fault> {
    if !per.heading().agrees_with(rel.heading()) {
        return Err(Fault::Refused(Cause::Heading));
    }
    let found = groups(alloc, rel, per)?;
    let text = listed_all(alloc, &found);
    drop(found);
    Ok(text?)
}

fn told(alloc: Global, rel: &str, per: &str) -> Result<String, Fault> {
    let pair = both(relation(alloc, rel), relation(alloc, per))?;
    let text = grouped(alloc, &pair.0, &pair.1);
    drop(pair);
    text
}

const TWO: &str = "RELATION {TUPLE {A 1, B 2}, TUPLE {A 1, B 3}}";

const PER: &[(&str, Want)] = &[
    (
        "RELATION {TUPLE {A 1}}",
        Ok("TUPLE {A 1}: RELATION {A INTEGER, B INTEGER} {TUPLE {A 1, B 2}, TUPLE {A 1, B 3}}; "),
    ),
    // with an empty one where no tuple agrees
    (
        "RELATION {TUPLE {B 3, C 0}, TUPLE {B 1, C 0}}",
        Ok(
            "TUPLE {B 1, C 0}: RELATION {A INTEGER, B INTEGER} {}; \
            TUPLE {B 3, C 0}: RELATION {A INTEGER, B INTEGER} {TUPLE {A 1, B 3}}; ",
        ),
    ),
];

#[test]
fn groups_of_tuples(rt: HostRuntime) {
    for (per, want) in PER {
        assert!(rt; is_answer(told(rt.alloc(), TWO, per), *want), "{per}");
    }
}

// ---- aggregates

/// The values of the texts.
fn values(alloc: Global, texts: &[&str]) -> Result<Vec<Value>, Fault> {
    let mut values = Vec::new(alloc);
    for text in texts {
        add(&mut values, value(alloc, text))?;
    }
    Ok(values)
}

/// An aggregate of the values of the texts.
fn aggregated(alloc: Global, asked: Agg, texts: &[&str]) -> Result<String, Fault> {
    let values = values(alloc, texts)?;
    let found = aggregate(asked, &values);
    drop(values);
    value_literal(alloc, found)
}

const AGGREGATES: &[(Agg, &[&str], Want)] = &[
    (Agg::Count, &[], Ok("0")),
    (Agg::Count, &["5", "5"], Ok("2")),
    (Agg::Sum, &["5", "5"], Ok("10")),
    (Agg::Sum, &[], Ok("0")),
    (
        Agg::Sum,
        &["9223372036854775807", "1"],
        Err(Cause::Overflow),
    ),
    // where a part of the sum alone is out of range
    (
        Agg::Sum,
        &["9223372036854775807", "1", "-1"],
        Ok("9223372036854775807"),
    ),
    (Agg::Max, &["1", "3", "2"], Ok("3")),
    (Agg::Max, &[], Err(Cause::EmptyAggregate)),
    (Agg::Min, &["'b'", "'B'"], Ok("'B'")),
    (Agg::Min, &[], Err(Cause::EmptyAggregate)),
];

#[test]
fn aggregates_of_values(rt: HostRuntime) {
    for (asked, texts, want) in AGGREGATES {
        let found = aggregated(rt.alloc(), *asked, texts);
        assert!(rt; is_answer(found, *want), "{asked:?} {texts:?}");
    }
}
