//! The operators of one relation.
ghost use Rattle.std.specs.Prelude.{IsTrue, not};
ghost use Rattle.td_algebra.specs.code.Columns.{IsColumn};
ghost use Rattle.td_types.specs.model.Headings.{has_attribute};
ghost use Rattle.td_types.specs.code.Views.{type_view};

use super::given::{both, kept, list_of, made};
use super::texts::{Want, is_answer, literal, names, relation};
use std::alloc::Global;
use td_algebra::extension::{Column, extend, extend_all};
use td_algebra::projection::project;
use td_algebra::renaming::rename;
use td_algebra::restriction::restrict;
use td_algebra::setting::set_all;
use td_group::closure::tclose;
use td_group::grouping::group;
use td_group::nesting::{can_nest, can_unnest};
use td_group::unnesting::{ungroup, unwrap};
use td_group::wrapping::wrap;
use td_tree::cause::Cause;
use td_tree::fault::Fault;
use td_tree::name::Name;
use td_types::ty::Ty;
use td_value::relation::Rel;
use td_value::value::Value;

const MISFIT: Fault = Fault::Refused(Cause::Heading);

#[derive(Clone, Copy)]
enum Call {
    Restrict,
    Project,
    Rename,
    Extend,
    ExtendAll,
    SetAll,
    Group,
    Wrap,
    Unnest,
    Close,
}

/// The relation with attributes under other names.
fn renamed(alloc: Global, rel: &Rel, renamings: &[(Name, Name)]) -> Result<Rel, Fault> {
    if !rel.heading().can_rename(renamings)? {
        return Err(MISFIT);
    }
    made(rename(alloc, rel, renamings))
}

/// The relation with an attribute under another name.
fn renamed_one(alloc: Global, rel: &Rel, old: &Name, new: &Name) -> Result<Rel, Fault> {
    let renaming = both(old.try_clone(), new.try_clone())?;
    renamed(alloc, rel, &[renaming])
}

/// A column with the number for each of two rows.
fn twice(alloc: Global, number: i64) -> Result<Column, Fault> {
    let values = Vec::from_array(alloc, [Value::int(number), Value::int(number)])?;
    Ok(Column {
        ty: Ty::Int,
        values,
    })
}

/// The relation with a new attribute of that column.
fn extended(alloc: Global, call: Call, rel: &Rel, name: Name, column: Column) -> Result<Rel, Fault>
    requires new { IsTrue (not (has_attribute name rel.now.heading)) }
    requires fit { IsColumn (type_view column.ty) column.values.items rel.now.body }
{
    match call {
        Call::Extend => made(extend(alloc, rel, name, column)),
        _ => made(extend_all(alloc, rel, list_of(alloc, (name, column))?)),
    }
}

/// The relation with an attribute set to that column.
fn set_to(alloc: Global, rel: &Rel, name: Name, column: Column) -> Result<Rel, Fault>
    requires { IsColumn (type_view column.ty) column.values.items rel.now.body }
{
    made(set_all(alloc, rel, &[(name, column)]))
}

/// The relation of two tuples with an attribute that is set to 7, or is new and is 5, in each.
fn with_column(alloc: Global, call: Call, rel: &Rel, name: &Name) -> Result<Rel, Fault> {
    let is_new = rel.heading().get(name).is_none();
    let number = match call {
        Call::SetAll => 7,
        _ => 5,
    };
    let (column, name) = both(twice(alloc, number), made(name.try_clone()))?;
    let fits = column.fits(rel);
    let (column, name) = kept((column, name), Ok(fits))?;
    match call {
        Call::SetAll => set_to(alloc, rel, name, column),
        _ if is_new => extended(alloc, call, rel, name, column),
        _ => Err(MISFIT),
    }
}

/// The relation with the attributes of a part put into a new one.
fn nested(alloc: Global, call: Call, rel: &Rel, part: &[Name], new: &Name) -> Result<Rel, Fault> {
    let name = new.try_clone()?;
    if !can_nest(rel.heading(), part, &name) {
        return Err(MISFIT);
    }
    match call {
        Call::Group => made(group(alloc, rel, part, name)),
        _ => made(wrap(alloc, rel, part, name)),
    }
}

/// The relation with what is inside an attribute in its place.
fn unnested(alloc: Global, rel: &Rel, name: &Name) -> Result<Rel, Fault> {
    if !can_unnest(rel.heading(), name) {
        return Err(MISFIT);
    }
    match rel.heading().get(name) {
        Some(Ty::Rel(_)) => made(ungroup(alloc, rel, name)),
        Some(Ty::Tup(_)) => made(unwrap(alloc, rel, name)),
        _ => Err(MISFIT),
    }
}

/// The first of the relation's two tuples.
fn restricted(alloc: Global, rel: &Rel) -> Result<Rel, Fault> {
    if rel.rows().len() != 2 {
        return Err(MISFIT);
    }
    made(restrict(alloc, rel, &[true, false]))
}

/// The relation's projection on the names.
fn projected(alloc: Global, rel: &Rel, names: &[Name]) -> Result<Rel, Fault> {
    if !rel.heading().has_projection(names) {
        return Err(MISFIT);
    }
    made(project(alloc, rel, names))
}

/// The relation's closure.
fn closed(alloc: Global, rel: &Rel) -> Result<Rel, Fault> {
    if !rel.heading().is_closable() {
        return Err(MISFIT);
    }
    made(tclose(alloc, rel))
}

fn of_one(alloc: Global, call: Call, rel: &Rel, names: &[Name]) -> Result<Rel, Fault> {
    match (call, names) {
        (Call::Restrict, _) => restricted(alloc, rel),
        (Call::Project, _) => projected(alloc, rel, names),
        (Call::Rename, [old, new]) => renamed_one(alloc, rel, old, new),
        (Call::Group | Call::Wrap, [new, part @ ..]) => nested(alloc, call, rel, part, new),
        (Call::Unnest, [name]) => unnested(alloc, rel, name),
        (Call::Close, _) => closed(alloc, rel),
        (_, [name]) => with_column(alloc, call, rel, name),
        _ => Err(MISFIT),
    }
}

fn told(alloc: Global, call: Call, rel: &str, texts: &[&str]) -> Result<String, Fault> {
    let pair = both(relation(alloc, rel), names(alloc, texts))?;
    let found = of_one(alloc, call, &pair.0, &pair.1);
    drop(pair);
    literal(found)
}

const TWO: &str = "RELATION {A INTEGER, B INTEGER} {TUPLE {A 1, B 2}, TUPLE {A 1, B 3}}";

const WITH_FIVES: &str =
    "RELATION {A INTEGER, B INTEGER, C INTEGER} {TUPLE {A 1, B 2, C 5}, TUPLE {A 1, B 3, C 5}}";

const WITH_SEVENS: &str =
    "RELATION {A INTEGER, B INTEGER, C INTEGER} {TUPLE {A 1, B 2, C 7}, TUPLE {A 1, B 3, C 7}}";

/// A call of a relation with some names, and what it answers.
type Row = (Call, &'static str, &'static [&'static str], Want);

const CALLS: &[Row] = &[
    (
        Call::Restrict,
        TWO,
        &[],
        Ok("RELATION {A INTEGER, B INTEGER} {TUPLE {A 1, B 2}}"),
    ),
    (
        Call::Project,
        TWO,
        &["A"],
        Ok("RELATION {A INTEGER} {TUPLE {A 1}}"),
    ),
    (
        Call::Rename,
        TWO,
        &["A", "C"],
        Ok("RELATION {B INTEGER, C INTEGER} {TUPLE {B 2, C 1}, TUPLE {B 3, C 1}}"),
    ),
    (Call::Extend, TWO, &["C"], Ok(WITH_FIVES)),
    (Call::ExtendAll, TWO, &["C"], Ok(WITH_FIVES)),
    (Call::SetAll, TWO, &["C"], Ok(WITH_SEVENS)),
    (
        Call::SetAll,
        TWO,
        &["B"],
        Ok("RELATION {A INTEGER, B INTEGER} {TUPLE {A 1, B 7}}"),
    ),
];

#[test]
fn operators_of_one_relation(rt: HostRuntime) {
    for (call, rel, texts, want) in CALLS {
        let found = told(rt.alloc(), *call, rel, texts);
        assert!(rt; is_answer(found, *want), "{rel} {texts:?}");
    }
}

const GROUPED: &str = "RELATION {A INTEGER, X RELATION {B INTEGER}} \
    {TUPLE {A 1, X RELATION {B INTEGER} {TUPLE {B 2}, TUPLE {B 3}}}}";

const WRAPPED: &str = "RELATION {A INTEGER, X TUPLE {B INTEGER}} \
    {TUPLE {A 1, X TUPLE {B 2}}, TUPLE {A 1, X TUPLE {B 3}}}";

/// A name stands in an attribute's tuples and beside it.
const CLASHING: &str = "RELATION {B INTEGER, X TUPLE {B INTEGER}} {TUPLE {B 1, X TUPLE {B 2}}}";

/// Of GROUP and WRAP the new name comes first.
const NESTINGS: &[Row] = &[
    (Call::Group, TWO, &["X", "B"], Ok(GROUPED)),
    (Call::Wrap, TWO, &["X", "B"], Ok(WRAPPED)),
    (Call::Unnest, GROUPED, &["X"], Ok(TWO)),
    (Call::Unnest, WRAPPED, &["X"], Ok(TWO)),
    (Call::Group, TWO, &["A", "B"], Err(Cause::Heading)),
    (Call::Wrap, TWO, &["A", "B"], Err(Cause::Heading)),
    (Call::Unnest, CLASHING, &["X"], Err(Cause::Heading)),
    (Call::Close, TWO, &[], Ok(TWO)),
];

#[test]
fn nestings_and_closures(rt: HostRuntime) {
    for (call, rel, texts, want) in NESTINGS {
        let found = told(rt.alloc(), *call, rel, texts);
        assert!(rt; is_answer(found, *want), "{rel} {texts:?}");
    }
}
