//! Catalogues: what is added, found, changed and dropped.
ghost use Rattle.std.specs.Prelude.{◌≡◌, [], IfOk};
ghost use Rattle.td_value.specs.model.Values.{relation_view};

mod changes;
mod definitions;

use self::definitions::{Kind, add};
use super::given::both;
use super::statements::database;
use super::texts::name;
use std::alloc::{AllocError, Global};
use td_body::body::Body;
use td_body::sorted::SortedBody;
use td_catalog::catalog::Catalog;
use td_tree::cause::Cause;
use td_tree::fault::Fault;
use td_tree::name::Name;
use td_types::heading::Heading;
use td_value::relation::Rel;

const KINDS: &[Kind] = &[Kind::Type, Kind::Base, Kind::Virtual, Kind::Constraint];

const EMPTY_DUMP: &str = "TYPE QTY POSSREP {Q INTEGER CONSTRAINT Q >= 0};
VAR P BASE RELATION {N CHAR, Q QTY} INIT (RELATION {N CHAR, Q QTY} {}) KEY {N};
VAR V VIRTUAL (P { N });
CONSTRAINT C COUNT ( P ) < 10;
";

/// Whether the catalogue's dump is that text.
fn is_dump(catalog: &Catalog<SortedBody>, text: &str) -> Result<bool, AllocError> {
    let dump = catalog.dump_text()?;
    Ok(dump.as_str() == text)
}

/// Whether that is answered where an entry of each kind is added.
fn are_all_answered(
    catalog: &mut Catalog<SortedBody>,
    alloc: Global,
    want: Result<(), Fault>,
) -> bool {
    for kind in KINDS {
        if add(catalog, alloc, *kind) != want {
            return false;
        }
    }
    true
}

#[test]
fn entries_are_added_once(rt: HostRuntime) {
    let alloc = rt.alloc();
    let mut catalog = Catalog::new(alloc);
    assert!(rt; is_dump(&catalog, "") == Ok(true));
    assert!(rt; are_all_answered(&mut catalog, alloc, Ok(())));
    let taken = Err(Fault::Refused(Cause::NameTaken));
    assert!(rt; are_all_answered(&mut catalog, alloc, taken));
    assert!(rt; is_dump(&catalog, EMPTY_DUMP) == Ok(true));
    drop(catalog);
}

// ---- what is found

const STATEMENTS: &[&str] = &[
    "TYPE QTY POSSREP {Q INTEGER CONSTRAINT Q >= 0};",
    "VAR P BASE RELATION {Q QTY, N CHAR} KEY {N};",
    "INSERT P RELATION {TUPLE {N 'it''s', Q QTY(3)}};",
    "VAR V VIRTUAL (P {N});",
    "CONSTRAINT C COUNT(P) < 10;",
];

const DUMP: &str = "TYPE QTY POSSREP {Q INTEGER CONSTRAINT Q >= 0};
VAR P BASE RELATION {N CHAR, Q QTY} \
    INIT (RELATION {N CHAR, Q QTY} {TUPLE {N 'it''s', Q QTY(3)}}) KEY {N};
VAR V VIRTUAL (P { N });
CONSTRAINT C COUNT ( P ) < 10;
";

/// What is found under a name: a type, a base relvar, a virtual relvar, a constraint; and whether
/// the scope knows a relvar and a constraint of it.
type Found = [bool; 6];

fn found_by(catalog: &Catalog<SortedBody>, name: &Name) -> Result<Found, AllocError> {
    let scope = catalog.scope();
    let found = [
        catalog.get_type(name).is_some(),
        catalog.get_base(name).is_some(),
        catalog.get_virtual(name).is_some(),
        catalog.get_constraint(name).is_some(),
        scope.knows_relvar(name),
        scope.knows_constraint(name),
    ];
    drop(scope);
    Ok(found)
}

/// Whether that is found under the name of that text.
fn is_found(
    catalog: &Catalog<SortedBody>,
    alloc: Global,
    text: &str,
    want: Found,
) -> Result<bool, Fault> {
    let name = name(alloc, text)?;
    Ok(found_by(catalog, &name)?.as_slice() == want.as_slice())
}

const FOUND_BY: &[(&str, Found)] = &[
    ("QTY", [true, false, false, false, false, false]),
    ("P", [false, true, false, false, true, false]),
    ("V", [false, false, true, false, true, false]),
    ("C", [false, false, false, true, false, true]),
    ("Z", [false, false, false, false, false, false]),
];

fn is_text(name: Option<&Name>, text: &str) -> bool {
    match name {
        Some(name) => name.as_str() == text,
        None => false,
    }
}

/// Whether P, V and C are each the only one of its kind, by place.
fn are_placed(catalog: &Catalog<SortedBody>) -> bool {
    is_text(catalog.base_at(0), "P")
        && is_text(catalog.virtual_at(0), "V")
        && is_text(catalog.constraint_at(0), "C")
        && catalog.base_at(1).is_none()
        && catalog.virtual_at(1).is_none()
        && catalog.constraint_at(1).is_none()
}

/// Whether the base relvar has one member, and the virtual one no key.
fn are_whole(catalog: &Catalog<SortedBody>, p: &Name, v: &Name) -> bool {
    match (catalog.get_base(p), catalog.get_virtual(v)) {
        (Some(base), Some(derived)) => base.body.len() == 1 && derived.keys.is_empty(),
        _ => false,
    }
}

/// Whether P has one member, and V no key.
fn are_whole_by_name(catalog: &Catalog<SortedBody>, alloc: Global) -> Result<bool, Fault> {
    let (p, v) = both(name(alloc, "P"), name(alloc, "V"))?;
    Ok(are_whole(catalog, &p, &v))
}

/// A copy of the catalogue that the statements define.
fn copied(alloc: Global) -> Result<Catalog<SortedBody>, AllocError> {
    let catalog = database(alloc, STATEMENTS)?;
    let copy = catalog.try_clone();
    drop(catalog);
    copy
}

#[test]
fn entries_are_found(rt: HostRuntime) {
    let alloc = rt.alloc();
    let catalog = copied(alloc).expect(&rt, "memory");
    assert!(rt; is_dump(&catalog, DUMP) == Ok(true));
    for (text, want) in FOUND_BY {
        assert!(rt;
            is_found(&catalog, alloc, text, *want) == Ok(true),
            "{text}"
        );
    }
    assert!(rt; are_placed(&catalog));
    assert!(rt; are_whole_by_name(&catalog, alloc) == Ok(true));
    drop(catalog);
}

// ---- what is changed

/// A copy of the body without its tuples. The heading is its own.
fn emptied<B: Body>(alloc: Global, body: &B, heading: &Heading) -> Result<B, Fault>
    requires { heading.now ≡ (B.relation body.now).heading }
    ensures relation { IfOk result (λ b. B.relation b ≡ relation_view heading.now []) }
    ensures keys { IfOk result (λ b. B.keys b ≡ B.keys body.now) }
    ensures kept { IfOk result (λ b. B.kept b ≡ []) }
{
    let none = Rel::of_ascending(heading.try_clone()?, Vec::new(alloc))?;
    let all = body.to_rel()?;
    let mut copy = body.try_clone()?;
    let _ = copy.len();
    copy.change(&all, &none)?;
    copy.settle();
    Ok(copy)
}

/// Gives the base relvar a body of its keys without tuples.
fn empty(catalog: &mut Catalog<SortedBody>, alloc: Global, relvar: &Name) -> Result<(), Fault>
    requires { catalog.old.kept ≡ [] }
{
    let Some(entry) = catalog.get_base(relvar) else {
        return Err(Fault::Refused(Cause::NameUnknown));
    };
    let body = emptied(alloc, &entry.body, &entry.heading)?;
    catalog.set_body(relvar, body);
    Ok(())
}

/// Gives P a body of its keys without tuples.
fn empty_p(catalog: &mut Catalog<SortedBody>, alloc: Global) -> Result<(), Fault>
    requires { catalog.old.kept ≡ [] }
{
    let relvar = name(alloc, "P")?;
    empty(catalog, alloc, &relvar)
}

fn dropped(
    catalog: &mut Catalog<SortedBody>,
    alloc: Global,
    kind: Kind,
    text: &str,
) -> Result<(), Fault> {
    let name = name(alloc, text)?;
    match kind {
        Kind::Type => catalog.drop_type(&name),
        Kind::Base | Kind::Virtual => catalog.drop_var(&name),
        Kind::Constraint => catalog.drop_constraint(&name),
    }
}

const IN_USE: Result<(), Fault> = Err(Fault::Refused(Cause::InUse));

const UNKNOWN: Result<(), Fault> = Err(Fault::Refused(Cause::NameUnknown));

const DROPS: &[(Kind, &str, Result<(), Fault>)] = &[
    (Kind::Type, "QTY", IN_USE),
    (Kind::Base, "P", IN_USE),
    (Kind::Constraint, "C", Ok(())),
    (Kind::Constraint, "C", UNKNOWN),
    // the virtual relvar still mentions it
    (Kind::Base, "P", IN_USE),
    (Kind::Virtual, "V", Ok(())),
    (Kind::Base, "P", Ok(())),
    (Kind::Base, "P", UNKNOWN),
    (Kind::Type, "QTY", Ok(())),
];

#[test]
fn another_body_and_drops(rt: HostRuntime) {
    let alloc = rt.alloc();
    let mut catalog = database(alloc, STATEMENTS).expect(&rt, "memory");
    assert!(rt; empty_p(&mut catalog, alloc) == Ok(()));
    assert!(rt; is_dump(&catalog, EMPTY_DUMP) == Ok(true));
    for (kind, text, want) in DROPS {
        assert!(rt;
            dropped(&mut catalog, alloc, *kind, text) == *want,
            "{text}"
        );
    }
    assert!(rt; is_dump(&catalog, "") == Ok(true));
    drop(catalog);
}

// ---- what is gone back to

/// Drops all that may be dropped, in turn.
fn drop_all(catalog: &mut Catalog<SortedBody>, alloc: Global) {
    for (kind, text, _) in DROPS {
        let _ = dropped(catalog, alloc, *kind, text);
    }
}

#[test]
fn catalogues_go_back(rt: HostRuntime) {
    let alloc = rt.alloc();
    let mut catalog = database(alloc, STATEMENTS).expect(&rt, "memory");
    assert!(rt; catalog.kept() == 0);
    drop_all(&mut catalog, alloc);
    assert!(rt; catalog.kept() == 4);
    assert!(rt; is_dump(&catalog, "") == Ok(true));
    assert!(rt; are_all_answered(&mut catalog, alloc, Ok(())));
    catalog.revert(0);
    assert!(rt; catalog.kept() == 0);
    assert!(rt; is_dump(&catalog, DUMP) == Ok(true));
    drop_all(&mut catalog, alloc);
    catalog.settle();
    assert!(rt; catalog.kept() == 0);
    assert!(rt; is_dump(&catalog, "") == Ok(true));
    drop(catalog);
}
