//! Names, causes, and trees with their texts and heights.
use super::texts::{Want, expression, is_answer, name, type_tree};
use std::alloc::Global;
use td_tree::cause::Cause;
use td_tree::expression::Expr;
use td_tree::fault::Fault;
use td_tree::name::is_name;
use td_tree::print::{print_expr, print_type};
use td_tree::type_tree::TypeTree;

const WORDS: &[(&str, bool)] = &[
    ("A", true),
    ("é", true),
    ("_a#1", true),
    ("write", false),
    ("the_q", false),
    ("1A", false),
    ("", false),
];

/// Whether the copy of a name has its text, and compares as the texts do.
fn is_copied(alloc: Global) -> Result<bool, Fault> {
    let copy = name(alloc, "Supplier")?.try_clone()?;
    let later = name(alloc, "a")?;
    Ok(copy.as_str() == "Supplier" && copy < later)
}

#[test]
fn words_and_names(rt: HostRuntime) {
    for (word, is) in WORDS {
        assert!(rt; is_name(word) == *is, "{word}");
    }
    assert!(rt; is_copied(rt.alloc()) == Ok(true));
}

const CAUSES: &[Cause] = &[
    Cause::Scan,
    Cause::Syntax,
    Cause::NameUnknown,
    Cause::NameTaken,
    Cause::TypeMismatch,
    Cause::Heading,
    Cause::KeyDeclaration,
    Cause::Rank,
    Cause::InUse,
    Cause::NotAssignable,
    Cause::Transaction,
    Cause::Overflow,
    Cause::ZeroDivisor,
    Cause::EmptyAggregate,
    Cause::NotOneTuple,
    Cause::TypeConstraint,
    Cause::NotDisjoint,
    Cause::NotIncluded,
    Cause::Key,
    Cause::Constraint,
];

/// The causes with their numbers and names.
const NUMBERED: &str = "1 SCAN, 2 SYNTAX, 3 NAME_UNKNOWN, 4 NAME_TAKEN, 5 TYPE_MISMATCH, \
    6 HEADING, 7 KEY_DECLARATION, 8 RANK, 9 IN_USE, 10 NOT_ASSIGNABLE, 11 TRANSACTION, \
    20 OVERFLOW, 21 ZERO_DIVISOR, 22 EMPTY_AGGREGATE, 23 NOT_ONE_TUPLE, 24 TYPE_CONSTRAINT, \
    25 NOT_DISJOINT, 26 NOT_INCLUDED, 30 KEY, 31 CONSTRAINT, ";

/// Puts the cause's number and name at the end of the text.
fn put_cause(text: &mut String, alloc: Global, cause: Cause) -> Result<(), Fault> {
    let told = format!(in alloc; "{} {}, ", cause.number(), cause.name())?;
    Ok(text.push_str(told.as_str())?)
}

/// The causes with their numbers and names.
fn numbered(alloc: Global) -> Result<String, Fault> {
    let mut text = String::new(alloc);
    for cause in CAUSES {
        put_cause(&mut text, alloc, *cause)?;
    }
    Ok(text)
}

#[test]
fn causes_with_their_numbers(rt: HostRuntime) {
    assert!(rt; is_answer(numbered(rt.alloc()), Ok(NUMBERED)));
}

/// The height of the expression, and what it is printed as.
fn printed_tree(alloc: Global, tree: &Expr) -> Result<String, Fault> {
    let print = print_expr(alloc, tree)?;
    Ok(format!(in alloc; "{} {print}", tree.height())?)
}

/// The height of the expression's copy, and what that is printed as.
fn printed(alloc: Global, text: &str) -> Result<String, Fault> {
    let tree = expression(alloc, text)?;
    let print = printed_tree(alloc, &tree);
    drop(tree);
    print
}

const PRINTS: &[(&str, Want)] = &[
    ("01", Ok("1 1")),
    ("COUNT(P)<10", Ok("3 COUNT ( P ) < 10")),
    ("a+007*-3", Ok("3 a + 7 * - 3")),
    (
        "R where not A=-5 or the_q(B)=1",
        Ok("5 R WHERE NOT A = - 5 OR THE_q ( B ) = 1"),
    ),
    ("--0", Ok("2 - - 0")),
    ("R d_union S i_minus T", Ok("3 R D_UNION S I_MINUS T")),
    (
        "extend R:{A:=B,B:=(A)}",
        Ok("3 EXTEND R : { A := B , B := ( A ) }"),
    ),
    (
        "R rename{A as B}rename(B as A)",
        Ok("3 R RENAME { A AS B } RENAME ( B AS A )"),
    ),
    (
        "R group{}as X wrap{all but X}as T",
        Ok("3 R GROUP { } AS X WRAP { ALL BUT X } AS T"),
    ),
    ("R group(all but A as X)", Err(Cause::Syntax)),
    ("extend R:{}", Err(Cause::Syntax)),
    ("1 = 1 = 1", Err(Cause::Syntax)),
];

/// The height of the type, and what it is printed as.
fn printed_type(alloc: Global, ty: &TypeTree) -> Result<String, Fault> {
    let print = print_type(alloc, ty)?;
    Ok(format!(in alloc; "{} {print}", ty.height())?)
}

/// The height of the type's copy, and what that is printed as.
fn type_printed(alloc: Global, text: &str) -> Result<String, Fault> {
    let ty = type_tree(alloc, text)?;
    let print = printed_type(alloc, &ty);
    drop(ty);
    print
}

#[test]
fn prints_and_heights(rt: HostRuntime) {
    let alloc = rt.alloc();
    for (text, want) in PRINTS {
        assert!(rt; is_answer(printed(alloc, text), *want), "{text}");
    }
    let found = type_printed(alloc, "RELATION{A INTEGER,q tuple{}}");
    assert!(rt; is_answer(found, Ok("2 RELATION { A INTEGER , q TUPLE { } }")));
}
