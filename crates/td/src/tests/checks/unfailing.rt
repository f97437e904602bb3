//! Whether expressions cannot fail.
use super::super::statements::database;
use super::super::texts::expression;
use std::alloc::{AllocError, Global};
use td_body::sorted::SortedBody;
use td_catalog::catalog::Catalog;
use td_check::cannot_fail::cannot_fail;
use td_check::scope::Scope;
use td_tree::cause::Cause;
use td_tree::fault::Fault;

const KNOWN: &[&str] = &[
    "TYPE QTY POSSREP {C INTEGER CONSTRAINT C > 0};",
    "TYPE PAIR POSSREP {X INTEGER, Y CHAR};",
    "VAR R BASE RELATION {A INTEGER, B INTEGER} KEY {A, B};",
    "VAR Q BASE RELATION {Q QTY, P PAIR} KEY {Q, P};",
    "VAR V VIRTUAL (R);",
    "VAR W VIRTUAL (R WHERE 1 / A = 1);",
];

/// The catalogue in which expressions can fail or not.
fn known(alloc: Global) -> Result<Catalog<SortedBody>, AllocError> {
    database(alloc, KNOWN)
}

/// Whether the expression of that text cannot fail.
fn unfailing(alloc: Global, scope: &Scope<'_>, text: &str) -> Result<bool, Fault> {
    let tree = expression(alloc, text)?;
    let answer = cannot_fail(scope, &tree);
    drop(tree);
    answer
}

/// The first of the expressions of which something else is answered.
fn first_other(
    alloc: Global,
    scope: &Scope<'_>,
    texts: &[&'static str],
    want: Result<bool, Fault>,
) -> Option<&'static str> {
    for text in texts {
        if unfailing(alloc, scope, text) != want {
            return Some(*text);
        }
    }
    None
}

const CANNOT_FAIL: &[&str] = &[
    "1",
    // a literal's minus is a part of it
    "-5",
    "'a'",
    "TABLE_DEE",
    "(1)",
    "NOT TRUE",
    "TCLOSE R",
    "A FROM TUPLE {A 1}",
    "R WHERE A = 1",
    "TRUE AND FALSE",
    "'a' || 'b'",
    "R UNION R MINUS R INTERSECT R JOIN R MATCHING R COMPOSE R",
    "R TIMES Q",
    "1 < 2",
    "TUPLE {A 1, B 2} IN R",
    "R {A} RENAME (A AS V)",
    "R GROUP ({A} AS G) UNGROUP (G) WRAP ({A} AS T) UNWRAP (T)",
    // the selector of a type without a constraint
    "PAIR(1, 'a')",
    "THE_X(PAIR(1, 'a'))",
    "Q WHERE THE_C(Q) = 1",
    "IS_EMPTY(R)",
    "RELATION {TUPLE {A 1}, TUPLE {A 2}}",
    // a type that a heading names is no selector
    "IS_EMPTY(RELATION {Q QTY} {})",
    "RELATION {A RELATION {Q QTY}} {}",
    "EXTEND R ADD (A AS C)",
    "IF TRUE THEN 1 ELSE 2 END IF",
    // an attribute hides the virtual relvar of its name
    "R RENAME (A AS V) WHERE V = 1",
    "EXTEND R RENAME (A AS V, B AS W) ADD (W AS X, V AS Y)",
];

const MAY_FAIL: &[&str] = &[
    "1 / 0",
    "1 + 1",
    "1 - 1",
    "1 * 1",
    "-(5)",
    "- -5",
    "TUPLE FROM R",
    "COUNT(R)",
    "SUM(R, A)",
    "MAX(R, A)",
    "MIN(R, A)",
    "SUMMARIZE R BY {A} ADD (COUNT() AS N)",
    "SUMMARIZE R BY {A} ADD (SUM(B) AS N)",
    "SUMMARIZE R PER (R {A}) ADD (MAX(B) AS N)",
    "V",
    "W",
    "QTY(1)",
    // in any place
    "(1 + 1)",
    "NOT (1 + 1 = 2)",
    "A FROM TUPLE {A 1 + 1}",
    "R WHERE COUNT(R) = 1",
    "V WHERE A = 1",
    "FALSE AND 1 / 0 = 1",
    "1 / 0 = 1 OR TRUE",
    "1 < 1 + 1",
    "V {A}",
    "R UNION V",
    "PAIR(COUNT(R), 'a')",
    "THE_C(QTY(1))",
    "IS_EMPTY(V)",
    "RELATION {TUPLE {A 1}, TUPLE {A 1 + 1}}",
    "RELATION {Q QTY} {TUPLE {Q QTY(1)}}",
    "TUPLE {A 1, B 1 + 1}",
    "EXTEND R ADD (A + 1 AS C)",
    "EXTEND V ADD (A AS C)",
    "IF 1 = 1 + 1 THEN 1 ELSE 2 END IF",
    "IF TRUE THEN 1 + 1 ELSE 2 END IF",
    "IF TRUE THEN 1 ELSE 1 + 1 END IF",
    // where no attribute of its name is in hand
    "(R RENAME (A AS V) WHERE V = 1) JOIN V",
];

const UNKNOWN: Result<bool, Fault> = Err(Fault::Refused(Cause::NameUnknown));

/// The first of which something else is answered than is said of each.
fn wrong(alloc: Global, scope: &Scope<'_>) -> Option<&'static str> {
    first_other(alloc, scope, CANNOT_FAIL, Ok(true))
        .or(first_other(alloc, scope, MAY_FAIL, Ok(false)))
        .or(first_other(alloc, scope, &["Z + 1", "Z / 'a'"], UNKNOWN))
}

#[test]
fn what_cannot_fail(rt: HostRuntime) {
    let alloc = rt.alloc();
    let catalog = known(alloc).expect(&rt, "memory");
    let scope = catalog.scope();
    assert_eq!(rt; wrong(alloc, &scope), None);
    drop(scope);
    drop(catalog);
}
