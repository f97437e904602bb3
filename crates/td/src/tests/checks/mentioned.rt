//! The relvars and the types that expressions mention.
use super::super::given::{both, made};
use super::super::statements::database;
use super::super::texts::{expression, is_answer};
use super::{Typed, UNKNOWN};
use std::alloc::{AllocError, Global};
use td_body::sorted::SortedBody;
use td_catalog::catalog::Catalog;
use td_check::mentions::mentions;
use td_check::scope::Scope;
use td_tree::expression::Expr;
use td_tree::fault::Fault;
use td_tree::name::Name;

const KNOWN: &[&str] = &[
    "TYPE QTY POSSREP {C INTEGER};",
    "TYPE PAIR POSSREP {X INTEGER, Y CHAR};",
    "VAR R BASE RELATION {A INTEGER, B INTEGER} KEY {A, B};",
    "VAR S BASE RELATION {B INTEGER, C CHAR} KEY {B, C};",
    // with an attribute of its own name
    "VAR E BASE RELATION {E INTEGER} KEY {E};",
    "VAR Q BASE RELATION {Q QTY, P PAIR} KEY {Q, P};",
    "VAR V VIRTUAL (R);",
    "CONSTRAINT C TRUE;",
];

/// The catalogue in which expressions mention something.
fn known(alloc: Global) -> Result<Catalog<SortedBody>, AllocError> {
    database(alloc, KNOWN)
}

/// The names with commas between, in brackets.
fn listed(alloc: Global, names: &[Name]) -> Result<String, AllocError> {
    let mut text = String::new(alloc);
    for name in names {
        text.push_str(if text.is_empty() { "[" } else { ", " })?;
        text.push_str(name.as_str())?;
    }
    if text.is_empty() {
        text.push_str("[")?;
    }
    text.push_str("]")?;
    Ok(text)
}

/// The relvars that are mentioned, and the types.
fn mentioned_by(alloc: Global, scope: &Scope<'_>, tree: &Expr) -> Result<String, Fault> {
    let found = mentions(scope, tree)?;
    let lists = both(listed(alloc, &found.relvars), listed(alloc, &found.types));
    drop(found);
    let (relvars, types) = lists?;
    made(format!(in alloc; "{relvars} {types}"))
}

/// The relvars that the expression of that text mentions, and the types.
fn mentioned(alloc: Global, scope: &Scope<'_>, text: &str) -> Result<String, Fault> {
    let tree = expression(alloc, text)?;
    let text = mentioned_by(alloc, scope, &tree);
    drop(tree);
    text
}

/// The first of the expressions that mentions something else.
fn first_wrong(alloc: Global, scope: &Scope<'_>, cases: &[Typed]) -> Option<&'static str> {
    for (text, want) in cases {
        if !is_answer(mentioned(alloc, scope, text), *want) {
            return Some(*text);
        }
    }
    None
}

const RELVARS: &[Typed] = &[
    ("1", Ok("[] []")),
    ("R", Ok("[R] []")),
    ("R WHERE A = 1", Ok("[R] []")),
    ("(TUPLE FROM V) IN R", Ok("[R, V] []")),
    // a virtual relvar is mentioned, and not what its own expression mentions
    ("COUNT(V)", Ok("[V] []")),
    // in the order of names, each once
    ("S JOIN R JOIN S", Ok("[R, S] []")),
    (
        "IF IS_EMPTY(S) THEN COUNT(R) ELSE SUM(E, E) END IF",
        Ok("[E, R, S] []"),
    ),
    (
        "EXTEND R {A} ADD (COUNT(S WHERE B = A) AS N)",
        Ok("[R, S] []"),
    ),
    (
        "SUMMARIZE V PER (R {B}) ADD (SUM(A + COUNT(S)) AS N)",
        Ok("[R, S, V] []"),
    ),
    ("SUMMARIZE S BY {B} ADD (COUNT() AS E)", Ok("[S] []")),
];

#[test]
fn mentions_of_relvars(rt: HostRuntime) {
    let alloc = rt.alloc();
    let catalog = known(alloc).expect(&rt, "memory");
    let scope = catalog.scope();
    assert_eq!(rt; first_wrong(alloc, &scope, RELVARS), None);
    drop(scope);
    drop(catalog);
}

/// Where a name is that of an attribute, or of a relvar in a tuple or in a relation.
const NAMES: &[Typed] = &[
    ("TUPLE {A 1, E R, R E}", Ok("[E, R] []")),
    (
        "RELATION {TUPLE {A COUNT(R)}, TUPLE {A COUNT(E)}}",
        Ok("[E, R] []"),
    ),
    // an attribute hides the relvar of its name, where it is in hand alone
    ("R RENAME (A AS S) WHERE S = 1", Ok("[R] []")),
    (
        "TABLE_DEE JOIN (R RENAME (A AS S) WHERE S = COUNT(V)) JOIN S {B}",
        Ok("[R, S, V] []"),
    ),
    (
        "SUM(R RENAME (A AS S), COUNT(E WHERE E = S))",
        Ok("[E, R] []"),
    ),
    // the names that operators list are no relvars
    (
        "R {ALL BUT A} RENAME (B AS S) WRAP ({S} AS E) UNWRAP (E)",
        Ok("[R] []"),
    ),
    ("E FROM TUPLE {E 1}", Ok("[] []")),
];

#[test]
fn mentions_where_names_are_shared(rt: HostRuntime) {
    let alloc = rt.alloc();
    let catalog = known(alloc).expect(&rt, "memory");
    let scope = catalog.scope();
    assert_eq!(rt; first_wrong(alloc, &scope, NAMES), None);
    drop(scope);
    drop(catalog);
}

const TYPES: &[Typed] = &[
    ("QTY(1)", Ok("[] [QTY]")),
    ("R WHERE QTY(A) = QTY(B)", Ok("[R] [QTY]")),
    (
        "PAIR(THE_C(QTY(1)), 'a') = PAIR(1, 'b')",
        Ok("[] [PAIR, QTY]"),
    ),
    ("RELATION {Q QTY, P PAIR} {}", Ok("[] [PAIR, QTY]")),
    ("RELATION {A RELATION {B TUPLE {Q QTY}}} {}", Ok("[] [QTY]")),
    (
        "SUMMARIZE R BY {A} ADD (MAX(THE_X(PAIR(B, 'a'))) AS N)",
        Ok("[R] [PAIR]"),
    ),
    // a component's name mentions no type, nor does a relvar the types in its heading
    ("Q WHERE THE_C(Q) = 1", Ok("[Q] []")),
    ("EXTEND R ADD (QTY(A) AS PAIR)", Ok("[R] [QTY]")),
    // what has no type mentions nothing
    ("R {Z} = QTY(X)", UNKNOWN),
];

#[test]
fn mentions_of_types(rt: HostRuntime) {
    let alloc = rt.alloc();
    let catalog = known(alloc).expect(&rt, "memory");
    let scope = catalog.scope();
    assert_eq!(rt; first_wrong(alloc, &scope, TYPES), None);
    drop(scope);
    drop(catalog);
}
