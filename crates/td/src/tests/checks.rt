//! What a scope knows, and the static rules in it.
mod mentioned;
mod unfailing;

use super::given::{both, made};
use super::texts::{Want, expression, is_answer, name, statement};
use super::types::heading;
use std::alloc::Global;
use td_check::expression::check_expr;
use td_check::scope::{Kind, Scope};
use td_check::statement::check_statement;
use td_tree::cause::Cause;
use td_tree::fault::Fault;
use td_tree::name::Name;
use td_types::heading::Heading;
use td_types::table::TypeTable;
use td_types::text::type_text;
use td_types::ty::Ty;

/// A relvar's name and heading.
type Relvar = (Name, Heading);

/// The scope with a relvar that is new to it.
fn with_new_relvar(scope: Scope<'_>, kind: Kind, relvar: Relvar) -> Result<Scope<'_>, Fault> {
    let (relvar, heading) = relvar;
    if scope.knows_relvar(&relvar) {
        return Err(Fault::Refused(Cause::NameTaken));
    }
    made(scope.with_relvar(relvar, kind, heading))
}

/// The scope with a relvar that is new to it, where there is one.
fn with_relvar(
    scope: Scope<'_>,
    kind: Kind,
    relvar: Result<Relvar, Fault>,
) -> Result<Scope<'_>, Fault> {
    let (scope, relvar) = both(Ok(scope), relvar)?;
    with_new_relvar(scope, kind, relvar)
}

/// The scope with a constraint that is new to it.
fn with_constraint(scope: Scope<'_>, constraint: Name) -> Result<Scope<'_>, Fault> {
    if scope.knows_constraint(&constraint) {
        return Err(Fault::Refused(Cause::NameTaken));
    }
    made(scope.with_constraint(constraint))
}

/// Where the base relvar R, the virtual relvar E, which has an attribute of its own name, and the
/// constraint C are known.
fn known(alloc: Global, table: &TypeTable) -> Result<Scope<'_>, Fault> {
    let of_two = both(name(alloc, "R"), heading(alloc, TWO));
    let scope = with_relvar(Scope::new(alloc, table), Kind::Base, of_two)?;
    let of_one = both(name(alloc, "E"), heading(alloc, "RELATION {E INTEGER}"));
    let scope = with_relvar(scope, Kind::Virtual, of_one);
    let (scope, constraint) = both(scope, name(alloc, "C"))?;
    with_constraint(scope, constraint)
}

/// The type of the expression of that text.
fn checked(alloc: Global, scope: &Scope<'_>, text: &str) -> Result<Ty, Fault> {
    let tree = expression(alloc, text)?;
    let ty = check_expr(scope, &tree);
    drop(tree);
    ty
}

/// The text of the type of the expression of that text.
fn type_in(alloc: Global, scope: &Scope<'_>, text: &str) -> Result<String, Fault> {
    let ty = checked(alloc, scope, text)?;
    let text = type_text(alloc, &ty);
    drop(ty);
    made(text)
}

/// An expression, and the text of its type.
type Typed = (&'static str, Want);

/// The first of the expressions that has another type.
fn first_wrong(alloc: Global, scope: &Scope<'_>, cases: &[Typed]) -> Option<&'static str> {
    for (text, want) in cases {
        if !is_answer(type_in(alloc, scope, text), *want) {
            return Some(*text);
        }
    }
    None
}

const TWO: &str = "RELATION {A INTEGER, B INTEGER}";

const UNKNOWN: Want = Err(Cause::NameUnknown);

const MISTYPED: Want = Err(Cause::TypeMismatch);

const IN_NO_TUPLE: &[Typed] = &[
    ("R", Ok(TWO)),
    (
        "R TIMES E",
        Ok("RELATION {A INTEGER, B INTEGER, E INTEGER}"),
    ),
    ("R TIMES R", Err(Cause::Heading)),
    ("A", UNKNOWN),
    ("C", UNKNOWN),
    ("Z + (1 = 'a')", UNKNOWN),
    ("1 WHERE Z", MISTYPED),
];

const IN_TWO: &[Typed] = &[
    ("A + 1", Ok("INTEGER")),
    ("R WHERE A = B", Ok(TWO)),
    ("E WHERE E = A", Ok("RELATION {E INTEGER}")),
    ("SUM(E, A + E)", Ok("INTEGER")),
    ("Z", UNKNOWN),
    ("C", UNKNOWN),
    ("A || 'a'", MISTYPED),
    ("A FROM A", MISTYPED),
];

/// In a tuple of which A is a text, within one of two integers.
const FURTHER_IN: &[Typed] = &[
    ("A || 'a'", Ok("CHAR")),
    ("B + 1", Ok("INTEGER")),
    ("A + 1", MISTYPED),
];

/// The first that is not answered as it should be in two tuples, one within the other; or else in
/// the outer one, once the inner one is left.
fn first_wrong_within(
    alloc: Global,
    scope: &mut Scope<'_>,
    outer: Heading,
    inner: Heading,
) -> Result<Option<&'static str>, Fault> {
    let (inner, _) = both(Ok(inner), made(scope.enter(outer)))?;
    scope.enter(inner)?;
    let wrong = first_wrong(alloc, scope, FURTHER_IN);
    scope.leave();
    Ok(wrong.or(first_wrong(alloc, scope, IN_TWO)))
}

/// The first that is not answered as it should be in tuples.
fn first_wrong_in_tuples(
    alloc: Global,
    scope: &mut Scope<'_>,
) -> Result<Option<&'static str>, Fault> {
    let (outer, inner) = both(heading(alloc, TWO), heading(alloc, "RELATION {A CHAR}"))?;
    first_wrong_within(alloc, scope, outer, inner)
}

const TAKEN: Result<(), Fault> = Err(Fault::Refused(Cause::NameTaken));

const STATEMENTS: &[(&str, Result<(), Fault>)] = &[
    ("WRITE R;", Ok(())),
    ("WRITE Z;", Err(Fault::Refused(Cause::NameUnknown))),
    ("R := R WHERE A = 1;", Ok(())),
    ("E := E;", Err(Fault::Refused(Cause::NotAssignable))),
    ("VAR C BASE RELATION {K INTEGER} KEY {K};", Ok(())),
    ("VAR R BASE RELATION {K INTEGER};", TAKEN),
    (
        "VAR Q BASE RELATION {K INTEGER};",
        Err(Fault::Refused(Cause::KeyDeclaration)),
    ),
    ("VAR R VIRTUAL (1 = 'a');", TAKEN),
    ("CONSTRAINT C TRUE;", TAKEN),
    ("CONSTRAINT R TRUE;", Ok(())),
    ("DROP VAR E;", Ok(())),
    ("DROP TYPE R;", Err(Fault::Refused(Cause::NameUnknown))),
];

/// What the static rules say of the statement of that text.
fn statement_in(alloc: Global, scope: &Scope<'_>, text: &str) -> Result<(), Fault> {
    let statement = statement(alloc, text)?;
    let answer = check_statement(scope, &statement);
    drop(statement);
    answer
}

#[test]
fn statements_and_names_in_tuples(rt: HostRuntime) {
    let alloc = rt.alloc();
    let table = TypeTable::new(alloc);
    let mut scope = known(alloc, &table).expect(&rt, "the scope");
    for (text, want) in STATEMENTS {
        assert!(rt; statement_in(alloc, &scope, text) == *want, "{text}");
    }
    assert_eq!(rt; first_wrong(alloc, &scope, IN_NO_TUPLE), None);
    assert!(rt; first_wrong_in_tuples(alloc, &mut scope) == Ok(None));
    drop(scope);
    drop(table);
}
