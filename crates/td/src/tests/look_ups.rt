//! Look-ups by key, over a body that finds no memory to be read whole.
use super::statements::steps;
use super::texts::{Want, expression, is_answer, value_literal};
use std::alloc::{AllocError, Global};
use td_body::body::Body;
use td_body::sorted::SortedBody;
use td_catalog::catalog::Catalog;
use td_engine::engine::Engine;
use td_eval::env::Env;
use td_plan::making::plans::plan;
use td_plan::plan::explain::explain;
use td_plan::running::run_plan::run_plan;
use td_tree::fault::Fault;
use td_tree::name::Name;
use td_types::heading::Heading;
use td_value::relation::Rel;
use td_value::tuple::Tuple;

/// A body that does what another does, but finds no memory for the relation of its members.
#[derive(Drop)]
struct Guarded {
    inner: SortedBody,
}

impl Body for Guarded {
    ghost relation = { λ b. ⟦<SortedBody as Body>⟧.relation b.inner };

    ghost keys = { λ b. ⟦<SortedBody as Body>⟧.keys b.inner };

    ghost kept = { λ b. ⟦<SortedBody as Body>⟧.kept b.inner };

    fn empty(alloc: Global, heading: Heading, names: Vec<Vec<Name>>) -> Result<Self, AllocError> {
        let inner = SortedBody::empty(alloc, heading, names)?;
        Ok(Guarded { inner })
    }

    fn insert(&mut self, tuple: Tuple) -> Result<bool, Tuple> {
        self.inner.insert(tuple)
    }

    fn remove(&mut self, tuple: &Tuple) -> Result<bool, AllocError> {
        self.inner.remove(tuple)
    }

    fn change(&mut self, out: &Rel, add: &Rel) -> Result<(), AllocError> {
        self.inner.change(out, add)
    }

    fn revert(&mut self) -> bool {
        self.inner.revert()
    }

    fn settle(&mut self) {
        self.inner.settle();
    }

    fn kept(&self) -> usize {
        self.inner.kept()
    }

    fn contains(&self, tuple: &Tuple) -> bool {
        self.inner.contains(tuple)
    }

    fn len(&self) -> usize {
        self.inner.len()
    }

    fn to_rel(&self) -> Result<Rel, AllocError> {
        Err(AllocError)
    }

    fn try_clone(&self) -> Result<Self, AllocError> {
        let inner = self.inner.try_clone()?;
        Ok(Guarded { inner })
    }

    fn find_by_key(&self, key: usize, part: &Tuple) -> Result<Rel, AllocError> {
        self.inner.find_by_key(key, part)
    }

    fn key_holds(&self, key: usize) -> Result<bool, AllocError> {
        self.inner.key_holds(key)
    }
}

const KNOWN: &[&str] = &[
    "VAR S BASE RELATION {SNO INTEGER, QTY INTEGER} INIT (RELATION {TUPLE {SNO 1, QTY 0},
        TUPLE {SNO 3, QTY 5}}) KEY {SNO};",
    "VAR V VIRTUAL (S WHERE 10 / QTY > 1);",
    "VAR P BASE RELATION {A INTEGER, B CHAR, C INTEGER} INIT (RELATION {TUPLE {A 1, B 'x', C 7},
        TUPLE {A 1, B 'y', C 8}, TUPLE {A 2, B 'x', C 9}}) KEY {B, A} KEY {C};",
];

/// What a plan of the expression gives, and what a person reads of it.
fn told<'a>(
    alloc: Global,
    catalog: &'a Catalog<Guarded>,
    text: &str,
) -> Result<(Result<String, Fault>, String), Fault> {
    let tree = expression(alloc, text)?;
    let other: Option<(&'a Name, &'a Rel)> = None;
    let env = Env {
        catalog,
        other,
        tuples: &[],
    };
    let plan = plan(alloc, &env, &tree);
    drop(tree);
    let plan = plan?;
    let answer = value_literal(alloc, run_plan(alloc, &env, &plan));
    let outline = explain(alloc, &plan);
    drop(plan);
    Ok((answer, outline?))
}

/// What a plan of the expression gives.
fn answer(alloc: Global, catalog: &Catalog<Guarded>, text: &str) -> Result<String, Fault> {
    let (answer, outline) = told(alloc, catalog, text)?;
    drop(outline);
    answer
}

const FOUND: &[(&str, Want)] = &[
    (
        "S WHERE SNO = 3",
        Ok("RELATION {QTY INTEGER, SNO INTEGER} {TUPLE {QTY 5, SNO 3}}"),
    ),
    (
        "S WHERE QTY > 6 AND (1 = SNO)",
        Ok("RELATION {QTY INTEGER, SNO INTEGER} {}"),
    ),
    (
        "(P WHERE A = 1 AND B = 'y') {C}",
        Ok("RELATION {C INTEGER} {TUPLE {C 8}}"),
    ),
    ("COUNT(P WHERE C = 9)", Ok("1")),
    (
        "(S UNION (S) UNION S) WHERE SNO = 3",
        Ok("RELATION {QTY INTEGER, SNO INTEGER} {TUPLE {QTY 5, SNO 3}}"),
    ),
    (
        "(S MINUS (S WHERE SNO = 1)) WHERE SNO = 3",
        Ok("RELATION {QTY INTEGER, SNO INTEGER} {TUPLE {QTY 5, SNO 3}}"),
    ),
    ("COUNT((S JOIN (P WHERE C = 7)) WHERE SNO = 3)", Ok("1")),
    (
        "COUNT(((P WHERE C = 7) TIMES S) WHERE QTY > 4 AND SNO = 3)",
        Ok("1"),
    ),
];

/// The first of these of which a plan gives something else.
fn first_apart(alloc: Global, catalog: &Catalog<Guarded>) -> Option<&'static str> {
    for (text, want) in FOUND {
        if !is_answer(answer(alloc, catalog, text), *want) {
            return Some(*text);
        }
    }
    None
}

/// What may fail is asked of each tuple, and so is what fixes no key: the body is read whole.
const READ_WHOLE: &[&str] = &[
    "S WHERE SNO = 9 AND COUNT(V) = 1",
    "S WHERE SNO = 3 OR SNO = 1",
    "S WHERE SNO = QTY",
    "S WHERE SNO = 1 + 2",
    "P WHERE A = 1",
    "(S UNION S) WHERE SNO = 3 AND COUNT(V) = 1",
    "(S MATCHING S) WHERE SNO = 3",
    "(S JOIN P) WHERE SNO = A AND C = 7",
];

/// The first of these for which a plan finds the memory.
fn first_found(alloc: Global, catalog: &Catalog<Guarded>) -> Option<&'static str> {
    for text in READ_WHOLE {
        if answer(alloc, catalog, text) != Err(Fault::Memory) {
            return Some(*text);
        }
    }
    None
}

/// The first of both.
fn first_otherwise(alloc: Global) -> Result<Option<&'static str>, AllocError> {
    let mut engine: Engine<Guarded> = Engine::new(alloc);
    let done = steps(alloc, &mut engine, KNOWN);
    let otherwise = match first_apart(alloc, engine.catalog()) {
        Some(text) => Some(text),
        None => first_found(alloc, engine.catalog()),
    };
    drop(engine);
    done?;
    Ok(otherwise)
}

#[test]
fn look_ups_read_by_key(rt: HostRuntime) {
    let alloc = rt.alloc();
    assert_eq!(rt; first_otherwise(alloc), Ok(None));
}

const LOOK_UP: &str = "RESTRICTION
  LOOKUP S
    TUPLE SNO
      3
  CONDITION
    =
      ATTRIBUTE 0 1
      3
";

const PUSHED: &str = "UNION
  RESTRICTION BY PUSH
    RELVAR S
    CONDITION
      <
        ATTRIBUTE 0 0
        5
  RESTRICTION BY PUSH
    RELVAR S
    CONDITION
      <
        ATTRIBUTE 0 0
        5
";

/// What a person reads of the plan of the expression.
fn outline(alloc: Global, text: &str) -> Result<String, Fault> {
    let mut engine: Engine<Guarded> = Engine::new(alloc);
    let done = steps(alloc, &mut engine, KNOWN);
    let found = told(alloc, engine.catalog(), text);
    drop(engine);
    done?;
    let (answer, outline) = found?;
    drop(answer);
    Ok(outline)
}

#[test]
fn look_ups_as_a_person_reads_them(rt: HostRuntime) {
    let alloc = rt.alloc();
    let found = outline(alloc, "S WHERE SNO = 3").expect(&rt, "a plan");
    assert_eq!(rt; found.as_str(), LOOK_UP);
    drop(found);
    let pushed = outline(alloc, "(S UNION S) WHERE QTY < 5").expect(&rt, "a plan");
    assert_eq!(rt; pushed.as_str(), PUSHED);
    drop(pushed);
    let joined = outline(alloc, "S JOIN S").expect(&rt, "a plan");
    assert_eq!(rt; joined.as_str(), "HASHJOIN\n  RELVAR S\n  RELVAR S\n");
    drop(joined);
}
