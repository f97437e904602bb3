//! Plans: that they give what the plain evaluation gives, and what a person reads of them.
use super::given::both;
use super::statements::database;
use super::texts::{Want, expression, is_answer, name, relation, value_literal};
use super::values::numbers;
use std::alloc::Global;
use td_body::sorted::SortedBody;
use td_catalog::catalog::Catalog;
use td_eval::env::Env;
use td_eval::value::eval;
use td_plan::making::plans::plan;
use td_plan::plan::Plan;
use td_plan::plan::explain::explain;
use td_plan::running::run_plan::run_plan;
use td_tree::cause::Cause;
use td_tree::fault::Fault;
use td_tree::name::Name;
use td_value::relation::Rel;
use td_value::tuple::Tuple;
use td_value::value::Value;

const KNOWN: &[&str] = &[
    "TYPE QTY POSSREP {C INTEGER CONSTRAINT C > 0};",
    "TYPE PAIR POSSREP {X INTEGER, Y CHAR};",
    "VAR R BASE RELATION {A INTEGER, B INTEGER} KEY {A, B};",
    "VAR S BASE RELATION {SNO INTEGER, CITY CHAR} INIT (RELATION {TUPLE {SNO 1, CITY 'Oslo'},
        TUPLE {SNO 2, CITY 'Rome'}, TUPLE {SNO 3, CITY 'Oslo'}}) KEY {SNO};",
    "VAR SP BASE RELATION {SNO INTEGER, QTY INTEGER} INIT (RELATION {TUPLE {SNO 1, QTY 0},
        TUPLE {SNO 1, QTY 5}, TUPLE {SNO 3, QTY 7}}) KEY {SNO, QTY};",
    "VAR V VIRTUAL (SP WHERE QTY > 1);",
    "VAR W VIRTUAL (SP WHERE 10 / QTY > 1);",
];

/// The value of the expression of that text, by a plan or without one.
fn found(
    alloc: Global,
    env: &Env<'_, SortedBody>,
    text: &str,
    planned: bool,
) -> Result<Value, Fault> {
    let tree = expression(alloc, text)?;
    let answer = if planned {
        let plan = plan(alloc, env, &tree)?;
        let answer = run_plan(alloc, env, &plan);
        drop(plan);
        answer
    } else {
        eval(alloc, env, &tree)
    };
    drop(tree);
    answer
}

/// Whether both ways give the same value or the same cause.
fn is_one(alloc: Global, env: &Env<'_, SortedBody>, text: &str) -> bool {
    let planned = value_literal(alloc, found(alloc, env, text, true));
    let plain = value_literal(alloc, found(alloc, env, text, false));
    planned == plain && planned != Err(Fault::Memory)
}

/// The first of the texts for which the two ways differ.
fn first_apart(
    alloc: Global,
    env: &Env<'_, SortedBody>,
    texts: &[&'static str],
) -> Option<&'static str> {
    for text in texts {
        if !is_one(alloc, env, text) {
            return Some(*text);
        }
    }
    None
}

/// The same where no tuple is in hand.
fn first_apart_in<'a>(
    alloc: Global,
    catalog: &'a Catalog<SortedBody>,
    texts: &[&'static str],
) -> Option<&'static str> {
    let other: Option<(&'a Name, &'a Rel)> = None;
    let env = Env {
        catalog,
        other,
        tuples: &[],
    };
    first_apart(alloc, &env, texts)
}

const EACH_KIND: &[&str] = &[
    "1",
    "-9223372036854775808",
    "'a' || 'b'",
    "TABLE_DEE",
    "((1))",
    "NOT TRUE",
    "-(5)",
    "-(-9223372036854775808)",
    "TCLOSE (SP RENAME (SNO AS X, QTY AS Y))",
    "TUPLE FROM (S WHERE SNO = 1)",
    "TUPLE FROM S",
    "CITY FROM TUPLE FROM (S WHERE SNO = 2)",
    "1 + 2 * 3 - 4 / 2",
    "1 / 0",
    "TRUE AND FALSE OR TRUE",
    "S JOIN SP",
    "S {SNO} UNION SP {SNO} MINUS S {SNO} INTERSECT SP {SNO}",
    "S D_UNION RELATION {TUPLE {SNO 4, CITY 'Bern'}}",
    "S D_UNION (S WHERE SNO = 1)",
    "S I_MINUS (S WHERE SNO = 1)",
    "S I_MINUS RELATION {TUPLE {SNO 4, CITY 'Bern'}}",
    "S MATCHING SP",
    "S NOT MATCHING SP",
    "S COMPOSE SP",
    "S {CITY} TIMES SP {QTY}",
    "S {SNO} = SP {SNO}",
    "SP {SNO} <= S {SNO}",
    "'b' > 'a'",
    "TUPLE {SNO 1} IN S {SNO}",
    "S {ALL BUT CITY} RENAME (SNO AS N)",
    "S GROUP ({SNO} AS G) UNGROUP (G) WRAP ({SNO} AS T) UNWRAP (T)",
    "S RENAME {SNO AS N} GROUP {N} AS G UNGROUP (G) WRAP {N} AS T UNWRAP (T)",
    "PAIR(1, 'a')",
    "QTY(0)",
    "QTY(3)",
    "THE_X(PAIR(1, 'a'))",
    "THE_C(QTY(3))",
    "COUNT(S) + COUNT(R)",
    "IS_EMPTY(R)",
    "SUM(SP, QTY)",
    "MAX(S, CITY)",
    "MIN(R, A)",
    "RELATION {TUPLE {A 1, B 2}, TUPLE {A 1, B 3}}",
    "RELATION {A INTEGER} {}",
    "RELATION {Q QTY} {TUPLE {Q QTY(1)}}",
    "TUPLE {A 1, B 'x'}",
    "EXTEND SP ADD (QTY * 2 AS D, SNO + QTY AS E)",
    "EXTEND SP ADD (10 / QTY AS D)",
    "EXTEND SP : {SNO := QTY, QTY := SNO, T := 'x'}",
    "EXTEND SP : {SNO := 'x'}",
    "EXTEND SP : {QTY := 10 / QTY}",
    "EXTEND R : {A := 'x'}",
    "SUMMARIZE SP BY {SNO} ADD (COUNT() AS N, SUM(QTY) AS T)",
    "SUMMARIZE SP PER (S {SNO}) ADD (SUM(QTY + 1) AS T)",
    "SUMMARIZE SP PER (S {SNO}) ADD (MAX(QTY) AS T)",
    "IF COUNT(S) = 3 THEN 1 ELSE 1 / 0 END IF",
    "V",
    "W",
    "COUNT(V) * 100 + COUNT(V JOIN S)",
];

#[test]
fn plans_of_each_kind_of_node(rt: HostRuntime) {
    let alloc = rt.alloc();
    let catalog = database(alloc, KNOWN).expect(&rt, "memory");
    assert_eq!(rt; first_apart_in(alloc, &catalog, EACH_KIND), None);
    drop(catalog);
}

const IN_TUPLES: &[&str] = &[
    "S WHERE SNO > 1",
    "S WHERE CITY = 'Oslo' AND NOT SNO = 3",
    // the innermost attribute of a name, and one of an outer tuple
    "S WHERE COUNT(SP WHERE SNO = 1) = 2",
    "S WHERE IS_EMPTY(SP RENAME (SNO AS N) WHERE N = SNO)",
    "EXTEND S ADD (SUM(SP RENAME (SNO AS N) WHERE N = SNO, QTY * SNO) AS T)",
    "EXTEND S ADD (SUMMARIZE SP PER (TABLE_DEE) ADD (SUM(QTY + SNO) AS T) AS X)",
    // an attribute hides a relvar of its name
    "S RENAME (SNO AS SP) WHERE SP = 1",
    "(S RENAME (SNO AS V) WHERE V = 1) TIMES V",
    // what does not name the tuple counts in each tuple, and not where there is none
    "S WHERE SNO < COUNT(SP)",
    "S WHERE TUPLE {SNO SNO} IN SP {SNO}",
    "S WHERE SNO = 1 / 0",
    "R WHERE A = 1 / 0",
    "R WHERE A = COUNT(W)",
    "EXTEND R ADD (1 / 0 AS C)",
    "EXTEND R : {A := 1 / 0}",
    "EXTEND S : {SNO := COUNT(SP WHERE QTY > COUNT(S))}",
    "S WHERE COUNT((SP WHERE QTY = 0) D_UNION (SP WHERE QTY = 5)) = SNO",
    "(SP D_UNION SP) WHERE QTY = 0",
    "(SP I_MINUS RELATION {TUPLE {SNO 9, QTY 9}}) WHERE SNO = 1",
    "EXTEND (S WHERE SNO > 1) : {SNO := SNO + COUNT(SP)}",
    "EXTEND S ADD (COUNT(W) AS C)",
    "SUM(R, 1 / 0)",
    "SUM(S, 1 / 0)",
    "SUMMARIZE R BY {A} ADD (SUM(1 / 0) AS C)",
    "SUMMARIZE SP PER (S {SNO}) ADD (SUM(QTY + COUNT(SP)) AS C)",
    "SUMMARIZE SP PER (S {SNO} WHERE SNO = 2) ADD (SUM(1 / 0) AS C)",
    "S WHERE IF SNO = 1 THEN TRUE ELSE SNO < COUNT(SP WHERE QTY = 1 / (SNO - 1)) END IF",
    "S WHERE IF TRUE THEN TRUE ELSE COUNT(W) = 1 END IF",
    // two loops out, and the least of the causes of all
    "S WHERE COUNT(SP WHERE QTY > COUNT(S) AND COUNT(S) > 1) = 1",
    "S WHERE IS_EMPTY(SP WHERE 1 / QTY = SNO) OR 9223372036854775807 + SNO = 1",
    "(S WHERE SNO > 1) WHERE CITY = 'Oslo'",
    "EXTEND (S WHERE SNO > 1) ADD (COUNT(S WHERE SNO > 1) AS N)",
];

#[test]
fn plans_of_what_is_applied_to_tuples(rt: HostRuntime) {
    let alloc = rt.alloc();
    let catalog = database(alloc, KNOWN).expect(&rt, "memory");
    assert_eq!(rt; first_apart_in(alloc, &catalog, IN_TUPLES), None);
    drop(catalog);
}

const WITH_TUPLES: &[&str] = &[
    "A * 100 + B * 10 + C",
    "COUNT(R) * 10 + COUNT(S)",
    "R",
    "R WHERE A = B + C - 1",
    "S WHERE SNO = B AND A = 3",
    "C / (A - 3) + (9223372036854775807 + 1)",
];

/// The first for which the two ways differ where a relvar has another relation, and tuples are in
/// hand.
fn first_apart_with<'a>(
    alloc: Global,
    catalog: &'a Catalog<SortedBody>,
    other: (&'a Name, &'a Rel),
    tuples: &'a [&'a Tuple],
) -> Option<&'static str> {
    let env = Env {
        catalog,
        other: Some(other),
        tuples,
    };
    first_apart(alloc, &env, WITH_TUPLES)
}

/// The same where R has one tuple, and two tuples are in hand.
fn apart_in_hand(
    alloc: Global,
    catalog: &Catalog<SortedBody>,
) -> Result<Option<&'static str>, Fault> {
    let other = both(
        name(alloc, "R"),
        relation(alloc, "RELATION {TUPLE {A 5, B 6}}"),
    );
    let tuples = both(
        numbers(alloc, &[("A", 1), ("B", 2)]),
        numbers(alloc, &[("A", 3), ("C", 4)]),
    );
    let (other, tuples) = both(other, tuples)?;
    let hand = [&tuples.0, &tuples.1];
    let apart = first_apart_with(alloc, catalog, (&other.0, &other.1), &hand);
    drop(other);
    drop(tuples);
    Ok(apart)
}

#[test]
fn plans_with_tuples_in_hand(rt: HostRuntime) {
    let alloc = rt.alloc();
    let catalog = database(alloc, KNOWN).expect(&rt, "memory");
    assert_eq!(rt; apart_in_hand(alloc, &catalog), Ok(None));
    drop(catalog);
}

// ---- where they are run

const MORE: &[&str] = &[
    "TYPE QTY POSSREP {C INTEGER CONSTRAINT C > 0};",
    "TYPE PAIR POSSREP {X INTEGER, Y CHAR};",
    "VAR R BASE RELATION {A INTEGER, B INTEGER} INIT (RELATION {TUPLE {A 1, B 1}}) KEY {A, B};",
    "VAR S BASE RELATION {SNO INTEGER, CITY CHAR} INIT (RELATION {TUPLE {SNO 4, CITY 'Rome'}})
        KEY {SNO};",
    "VAR SP BASE RELATION {SNO INTEGER, QTY INTEGER} INIT (RELATION {TUPLE {SNO 4, QTY 9}})
        KEY {SNO, QTY};",
    "VAR V VIRTUAL (SP WHERE QTY > 1);",
    "VAR W VIRTUAL (SP WHERE 10 / QTY > 1);",
];

/// The plan of an expression where the catalogue is known and no tuple is in hand.
fn planned<'a>(alloc: Global, catalog: &'a Catalog<SortedBody>, text: &str) -> Result<Plan, Fault> {
    let tree = expression(alloc, text)?;
    let other: Option<(&'a Name, &'a Rel)> = None;
    let env = Env {
        catalog,
        other,
        tuples: &[],
    };
    let plan = plan(alloc, &env, &tree);
    drop(tree);
    Ok(plan?)
}

/// What a plan gives there.
fn run_in<'a>(
    alloc: Global,
    catalog: &'a Catalog<SortedBody>,
    plan: &Plan,
) -> Result<String, Fault> {
    let other: Option<(&'a Name, &'a Rel)> = None;
    let env = Env {
        catalog,
        other,
        tuples: &[],
    };
    value_literal(alloc, run_plan(alloc, &env, plan))
}

/// What the plan of an expression that was made in one database gives in another.
fn told_elsewhere(
    alloc: Global,
    first: &Catalog<SortedBody>,
    second: &Catalog<SortedBody>,
    text: &str,
) -> Result<String, Fault> {
    let plan = planned(alloc, first, text)?;
    let told = run_in(alloc, second, &plan);
    drop(plan);
    told
}

const ELSEWHERE: &[(&str, Want)] = &[
    ("COUNT(V) * 10 + COUNT(R WHERE A < COUNT(S))", Ok("10")),
    (
        "S WHERE SNO = SUM(SP, SNO)",
        Ok("RELATION {CITY CHAR, SNO INTEGER} {TUPLE {CITY 'Rome', SNO 4}}"),
    ),
];

#[test]
fn plans_run_in_another_database(rt: HostRuntime) {
    let alloc = rt.alloc();
    let first = database(alloc, KNOWN).expect(&rt, "memory");
    let second = database(alloc, MORE).expect(&rt, "memory");
    for (text, want) in ELSEWHERE {
        let told = told_elsewhere(alloc, &first, &second, text);
        assert!(rt; is_answer(told, *want), "{text}");
    }
    drop(first);
    drop(second);
}

// ---- as a person reads them

/// What a person reads of the plan of the expression of that text.
fn read(alloc: Global, catalog: &Catalog<SortedBody>, text: &str) -> Result<String, Fault> {
    let plan = planned(alloc, catalog, text)?;
    let told = explain(alloc, &plan);
    drop(plan);
    Ok(told?)
}

const COUNTED: &str = "RESTRICTION
  RELVAR S
  CONDITION
    <
      ATTRIBUTE 0 1
      ONCE
        COUNT
          RELVAR SP
";

const LOOK_UP: &str = "RESTRICTION
  LOOKUP S
    TUPLE SNO
      3
  CONDITION
    =
      ATTRIBUTE 0 1
      3
";

const REPLACED: &str = "RESTRICTION
  RELVAR S
  CONDITION
    =
      ATTRIBUTE 0 1
      3
";

const READ: &[(&str, &str)] = &[
    ("S WHERE SNO < COUNT(SP)", COUNTED),
    ("S WHERE SNO = 3", LOOK_UP),
    ("1", "1\n"),
    ("1 + 1", "+\n  1\n  1\n"),
    ("S JOIN SP", "HASHJOIN\n  RELVAR S\n  RELVAR SP\n"),
    ("TUPLE {A 1}", "TUPLE {A 1}\n"),
];

#[test]
fn plans_as_a_person_reads_them(rt: HostRuntime) {
    let alloc = rt.alloc();
    let catalog = database(alloc, KNOWN).expect(&rt, "memory");
    for (text, want) in READ {
        let told = read(alloc, &catalog, text).expect(&rt, "a plan");
        assert_eq!(rt; told.as_str(), *want);
        drop(told);
    }
    drop(catalog);
}

/// Whether a look-up is read of the plan of an expression in which something may fail.
fn has_look_up(alloc: Global, catalog: &Catalog<SortedBody>) -> Result<bool, Fault> {
    let told = read(
        alloc,
        catalog,
        "SP WHERE SNO = 3 AND QTY = 7 AND 10 / QTY > 1",
    )?;
    let found = told.as_str().contains("LOOKUP");
    drop(told);
    Ok(found)
}

#[test]
fn what_may_fail_is_no_look_up(rt: HostRuntime) {
    let alloc = rt.alloc();
    let catalog = database(alloc, KNOWN).expect(&rt, "memory");
    assert_eq!(rt; has_look_up(alloc, &catalog), Ok(false));
    drop(catalog);
}

/// What a person reads of the plan where another relation stands for the relvar of the name.
fn read_beside<'a>(
    alloc: Global,
    catalog: &'a Catalog<SortedBody>,
    target: &'a Name,
    other: &'a Rel,
    text: &str,
) -> Result<String, Fault> {
    let tree = expression(alloc, text)?;
    let env = Env {
        catalog,
        other: Some((target, other)),
        tuples: &[],
    };
    let plan = plan(alloc, &env, &tree);
    drop(tree);
    let plan = plan?;
    let told = explain(alloc, &plan);
    drop(plan);
    Ok(told?)
}

#[test]
fn no_look_up_where_another_relation_stands(rt: HostRuntime) {
    let alloc = rt.alloc();
    let catalog = database(alloc, KNOWN).expect(&rt, "memory");
    let target = name(alloc, "S").expect(&rt, "a name");
    let other = relation(alloc, "RELATION {TUPLE {SNO 3, CITY 'x'}}").expect(&rt, "a relation");
    let told = read_beside(alloc, &catalog, &target, &other, "S WHERE SNO = 3");
    let told = told.expect(&rt, "a plan");
    assert_eq!(rt; told.as_str(), REPLACED);
    drop(told);
    drop(other);
    drop(target);
    drop(catalog);
}

// ---- the rows of one call

const SMALL: &[(&str, Want)] = &[
    ("1 + 1", Ok("2")),
    ("9223372036854775807 + 1", Err(Cause::Overflow)),
    ("-9223372036854775808 - 1", Err(Cause::Overflow)),
    ("-9223372036854775808", Ok("-9223372036854775808")),
    ("SUM(SP, QTY)", Ok("12")),
    ("1 / 0 + 9223372036854775807 * 2", Err(Cause::Overflow)),
    ("TABLE_DEE", Ok("RELATION {} {TUPLE {}}")),
    ("TABLE_DUM", Ok("RELATION {} {}")),
    ("SP {}", Ok("RELATION {} {TUPLE {}}")),
    (
        "COUNT(TCLOSE RELATION {TUPLE {X 1, Y 2}, TUPLE {X 2, Y 3}})",
        Ok("3"),
    ),
    ("COUNT(SP GROUP ({QTY} AS G))", Ok("2")),
    ("IF COUNT(S) = 3 THEN 'x' ELSE 'y' END IF", Ok("'x'")),
    ("TUPLE {SNO 3, CITY 'Oslo'} IN S", Ok("TRUE")),
];

#[test]
fn plans_of_small_expressions(rt: HostRuntime) {
    let alloc = rt.alloc();
    let catalog = database(alloc, KNOWN).expect(&rt, "memory");
    for (text, want) in SMALL {
        let told = told_elsewhere(alloc, &catalog, &catalog, text);
        assert!(rt; is_answer(told, *want), "{text}");
    }
    drop(catalog);
}
