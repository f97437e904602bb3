//! Headings, declared types, ranks and the texts of types.
ghost use Rattle.std.specs.Prelude.{◌<◌};

use super::given::{both, list_of, made};
use super::texts::{Want, is_answer, name, names, type_tree};
use std::alloc::Global;
use td_tree::cause::Cause;
use td_tree::fault::Fault;
use td_tree::name::Name;
use td_tree::type_tree::TypeTree;
use td_types::heading::Heading;
use td_types::rank::rank;
use td_types::resolve::resolve;
use td_types::table::TypeTable;
use td_types::text::type_text;
use td_types::ty::Ty;

// ---- headings

/// The type that is meant where no type is declared.
fn meant_alone(alloc: Global, tree: &TypeTree) -> Result<Ty, Fault> {
    let table = TypeTable::new(alloc);
    let ty = resolve(&table, tree);
    drop(table);
    ty
}

/// The type of that text, in which no user type is.
fn alone(alloc: Global, text: &str) -> Result<Ty, Fault> {
    let tree = type_tree(alloc, text)?;
    let ty = meant_alone(alloc, &tree);
    drop(tree);
    ty
}

/// A copy of the heading of the relation type.
fn heading_of(ty: &Ty) -> Result<Heading, Fault> {
    match ty {
        Ty::Rel(heading) => made(heading.try_clone()),
        _ => Err(Fault::Refused(Cause::TypeMismatch)),
    }
}

/// The heading of the relation type, in which no user type is.
pub fn heading(alloc: Global, text: &str) -> Result<Heading, Fault> {
    let ty = alone(alloc, text)?;
    let heading = heading_of(&ty);
    drop(ty);
    heading
}

/// A call that makes one heading of another, with some names or with another heading.
#[derive(Clone, Copy)]
enum Call {
    Add,
    With,
    Without,
    Project,
    Rename,
    Common,
    Union,
}

/// The heading with one more attribute, an integer.
fn with_integer(own: &Heading, name: &Name) -> Result<Heading, Fault> {
    let (own, name) = both(own.try_clone(), name.try_clone())?;
    own.with(name, Ty::Int)
}

/// The heading with an attribute that is a text, unless it has one of the name.
fn added_text(own: &Heading, name: &Name) -> Result<Heading, Fault> {
    let (own, name) = both(own.try_clone(), name.try_clone())?;
    made(own.add(name, Ty::Text))
}

/// The heading with an attribute under another name.
fn renamed(own: &Heading, old: &Name, new: &Name) -> Result<Heading, Fault> {
    let renaming = both(old.try_clone(), new.try_clone())?;
    own.rename(&[renaming])
}

fn called(call: Call, own: &Heading, names: &[Name], other: &Heading) -> Result<Heading, Fault> {
    match (call, names) {
        (Call::Add, [name]) => added_text(own, name),
        (Call::With, [name]) => with_integer(own, name),
        (Call::Without, [name]) => own.without(name),
        (Call::Project, _) => own.project(names),
        (Call::Rename, [old, new]) => renamed(own, old, new),
        (Call::Common, _) => own.common(other),
        (Call::Union, _) => own.union(other),
        _ => Err(Fault::Refused(Cause::Syntax)),
    }
}

/// The text of the relation type of the heading, where there is one.
fn heading_text(alloc: Global, found: Result<Heading, Fault>) -> Result<String, Fault> {
    let ty = Ty::Rel(found?);
    let text = type_text(alloc, &ty);
    drop(ty);
    made(text)
}

/// What a call of a heading answers.
fn answered(
    alloc: Global,
    call: Call,
    texts: &[&str],
    own: &Heading,
    other: &Heading,
) -> Result<String, Fault> {
    let names = names(alloc, texts)?;
    heading_text(alloc, called(call, own, &names, other))
}

/// What a call of the heading of two integers answers.
fn told(alloc: Global, call: Call, texts: &[&str], other: &str) -> Result<String, Fault> {
    let pair = both(heading(alloc, TWO), heading(alloc, other))?;
    let text = answered(alloc, call, texts, &pair.0, &pair.1);
    drop(pair);
    text
}

const TWO: &str = "RELATION {A INTEGER, B INTEGER}";

const OF_A: &str = "RELATION {A INTEGER}";

const TEXT_A: &str = "RELATION {A CHAR}";

const NO_HEADING: Want = Err(Cause::Heading);

const BY_NAMES: &[(Call, &[&str], Want)] = &[
    (Call::Add, &["A"], Ok(TWO)),
    (
        Call::Add,
        &["AB"],
        Ok("RELATION {A INTEGER, AB CHAR, B INTEGER}"),
    ),
    (Call::With, &["A"], NO_HEADING),
    (
        Call::With,
        &["AB"],
        Ok("RELATION {A INTEGER, AB INTEGER, B INTEGER}"),
    ),
    (Call::Without, &["B"], Ok(OF_A)),
    (Call::Without, &["Z"], NO_HEADING),
    (Call::Project, &["A"], Ok(OF_A)),
    (Call::Project, &["Z"], NO_HEADING),
    (Call::Project, &["A", "A"], NO_HEADING),
    (
        Call::Rename,
        &["A", "C"],
        Ok("RELATION {B INTEGER, C INTEGER}"),
    ),
    (Call::Rename, &["A", "B"], NO_HEADING),
];

const BY_OTHERS: &[(Call, &str, Want)] = &[
    (Call::Common, TWO, Ok(TWO)),
    (Call::Common, OF_A, Ok(OF_A)),
    (Call::Common, TEXT_A, NO_HEADING),
    (Call::Union, TWO, Ok(TWO)),
    (
        Call::Union,
        "RELATION {C CHAR}",
        Ok("RELATION {A INTEGER, B INTEGER, C CHAR}"),
    ),
    (Call::Union, TEXT_A, NO_HEADING),
];

/// Whether the first attribute is the integer A.
fn is_a_first(heading: &Heading) -> bool {
    match heading.at(0) {
        Some((name, ty)) => name.as_str() == "A" && *ty == Ty::Int,
        None => false,
    }
}

fn has_integer(heading: &Heading, name: &Name) -> bool {
    match heading.get(name) {
        Some(ty) => *ty == Ty::Int,
        None => false,
    }
}

/// Whether the heading of the integer A has that attribute alone.
fn has_a_alone(alloc: Global, one: &Heading) -> Result<bool, Fault> {
    let (a, b) = both(name(alloc, "A"), name(alloc, "B"))?;
    Ok(is_a_first(one) && has_integer(one, &a) && one.get(&b).is_none())
}

/// Whether the heading is as it should be with one attribute, and equal to that which is read.
fn has_grown(alloc: Global) -> Result<bool, Fault> {
    let a = name(alloc, "A")?;
    let pair = both(Heading::empty(alloc).with(a, Ty::Int), heading(alloc, OF_A))?;
    let is_equal = pair.0 == pair.1;
    let is_alone = has_a_alone(alloc, &pair.0);
    drop(pair);
    Ok(is_alone? && is_equal)
}

#[test]
fn headings_by_names(rt: HostRuntime) {
    for (call, texts, want) in BY_NAMES {
        let found = told(rt.alloc(), *call, texts, TWO);
        assert!(rt; is_answer(found, *want), "{texts:?}");
    }
}

#[test]
fn headings_by_others(rt: HostRuntime) {
    for (call, other, want) in BY_OTHERS {
        let found = told(rt.alloc(), *call, &[], other);
        assert!(rt; is_answer(found, *want), "{other}");
    }
}

#[test]
fn a_heading_grows(rt: HostRuntime) {
    let empty = Heading::empty(rt.alloc());
    assert!(rt; empty.is_empty() && empty.at(0).is_none());
    drop(empty);
    assert!(rt; has_grown(rt.alloc()) == Ok(true));
}

// ---- declared types

/// The type that is meant where those of the table are declared.
fn meant(alloc: Global, table: &TypeTable, text: &str) -> Result<Ty, Fault> {
    let tree = type_tree(alloc, text)?;
    let ty = resolve(table, &tree);
    drop(tree);
    ty
}

/// Declares a type with one component, of a type of that text.
fn declare(table: &mut TypeTable, alloc: Global, text: &str, ty: &str) -> Result<(), Fault> {
    let component = both(name(alloc, "C"), meant(alloc, table, ty))?;
    let (new, components) = both(name(alloc, text), list_of(alloc, component))?;
    if table.get(&new).is_some() || !table.knows_all(&components) {
        return Err(Fault::Refused(Cause::NameTaken));
    }
    Ok(table.add(new, components, None)?)
}

/// Declares the type after that of the number, with a component of that.
fn declare_next(table: &mut TypeTable, alloc: Global, n: u8) -> Result<(), Fault>
    requires { n < 255 }
{
    let old = format!(in alloc; "T{n}")?;
    let new = format!(in alloc; "T{}", n + 1)?;
    declare(table, alloc, new.as_str(), old.as_str())
}

/// Declares the types QTY, and T1 to T31, each of them but T1 with a component of the one before
/// it.
fn declare_all(table: &mut TypeTable, alloc: Global) -> Result<(), Fault> {
    declare(table, alloc, "QTY", "INTEGER")?;
    declare(table, alloc, "T1", "INTEGER")?;
    for n in 1..31_u8 {
        declare_next(table, alloc, n)?;
    }
    Ok(())
}

/// The table of those types.
fn declared(alloc: Global) -> Result<TypeTable, Fault> {
    let mut table = TypeTable::new(alloc);
    let answer = declare_all(&mut table, alloc);
    let (table, _) = both(Ok(table), answer)?;
    Ok(table)
}

/// The rank of the type, and its text.
fn rank_and_text(alloc: Global, table: &TypeTable, ty: &Ty) -> Result<String, Fault> {
    let text = type_text(alloc, ty)?;
    Ok(format!(in alloc; "{} {text}", rank(table, ty)?)?)
}

/// The rank of the type's copy, and its text.
fn ranked_copy(alloc: Global, table: &TypeTable, ty: &Ty) -> Result<String, Fault> {
    let copy = ty.try_clone()?;
    let text = rank_and_text(alloc, table, &copy);
    drop(copy);
    text
}

/// The rank of the type that is meant, and its text.
fn ranked(alloc: Global, table: &TypeTable, text: &str) -> Result<String, Fault> {
    let ty = meant(alloc, table, text)?;
    let text = ranked_copy(alloc, table, &ty);
    drop(ty);
    text
}

/// A type, and its rank and text.
type Ranked = (&'static str, Want);

/// The first of the types that has another rank or another text.
fn first_wrong(alloc: Global, table: &TypeTable, cases: &[Ranked]) -> Option<&'static str> {
    for (text, want) in cases {
        if !is_answer(ranked(alloc, table, text), *want) {
            return Some(*text);
        }
    }
    None
}

const RANKED: &[Ranked] = &[
    ("INTEGER", Ok("1 INTEGER")),
    ("RELATION {}", Ok("1 RELATION {}")),
    ("QTY", Ok("2 QTY")),
    (
        "relation{B integer, A INTEGER}",
        Ok("2 RELATION {A INTEGER, B INTEGER}"),
    ),
    (
        "TUPLE {T TUPLE {Q QTY}, R RELATION {}, N INTEGER, C CHAR, B BOOLEAN}",
        Ok("4 TUPLE {B BOOLEAN, C CHAR, N INTEGER, R RELATION {}, T TUPLE {Q QTY}}"),
    ),
    ("T31", Ok("32 T31")),
    ("RELATION {A T30}", Ok("32 RELATION {A T30}")),
    ("RELATION {A T31}", Err(Cause::Rank)),
    ("RELATION {A Q}", Err(Cause::NameUnknown)),
    ("RELATION {A CHAR, A CHAR}", NO_HEADING),
];

/// Whether T31 is the last of the declared types.
fn is_last(table: &TypeTable) -> bool {
    match table.at(31) {
        Some(name) => name.as_str() == "T31" && table.at(32).is_none(),
        None => false,
    }
}

/// Whether the type of the name has one component and no constraint.
fn is_bare(table: &TypeTable, name: &Name) -> bool {
    match table.get(name) {
        Some(entry) => entry.components().len() == 1 && entry.constraint().is_none(),
        None => false,
    }
}

/// Whether T31 is the last of the declared types, and QTY has one component and no constraint.
fn are_declared(alloc: Global, table: &TypeTable) -> Result<bool, Fault> {
    let quantity = name(alloc, "QTY")?;
    Ok(is_last(table) && is_bare(table, &quantity))
}

/// The rank of a type that is not declared.
fn rank_of_unknown(alloc: Global) -> Result<u32, Fault> {
    let ty = Ty::User(name(alloc, "QTY")?);
    let table = TypeTable::new(alloc);
    let rank = rank(&table, &ty);
    drop((table, ty));
    rank
}

#[test]
fn declared_types(rt: HostRuntime) {
    let alloc = rt.alloc();
    let table = declared(alloc).expect(&rt, "the types");
    assert!(rt; are_declared(alloc, &table) == Ok(true));
    drop(table);
    assert!(rt; rank_of_unknown(alloc) == Err(Fault::Refused(Cause::NameUnknown)));
}

#[test]
fn ranks_of_types(rt: HostRuntime) {
    let alloc = rt.alloc();
    let table = declared(alloc).expect(&rt, "the types");
    let wrong = first_wrong(alloc, &table, RANKED);
    drop(table);
    assert_eq!(rt; wrong, None);
}
