//! Catalogues whose base relvars change in place.
ghost use Rattle.std.specs.Prelude.{◌≡◌, IfOk, IfSome, IsSome};
ghost use Rattle.td_catalog.specs.model.Database.{base_named};
ghost use Rattle.td_catalog.specs.model.TypedDatabases.{AreTyped};

use super::super::given::both;
use super::super::statements::database;
use super::super::texts::name;
use std::alloc::{AllocError, Global};
use td_body::body::Body;
use td_body::sorted::SortedBody;
use td_catalog::catalog::Catalog;
use td_catalog::entry::BaseEntry;
use td_tree::cause::Cause;
use td_tree::fault::Fault;
use td_tree::name::Name;
use td_value::relation::Rel;

/// No tuple of the relvar's heading, and the tuples of the other relvar.
fn none_and_all(
    alloc: Global,
    target: &BaseEntry<SortedBody>,
    source: &BaseEntry<SortedBody>,
) -> Result<(Rel, Rel), AllocError>
    ensures none { IfOk result (λ both. both.0.heading ≡ target.now.heading) }
    ensures all { IfOk result (λ both.
        both.1 ≡ ⟦<SortedBody as Body>⟧.relation source.now.body) }
{
    let none = Rel::of_ascending(target.heading.try_clone()?, Vec::new(alloc))?;
    Ok((none, source.body.to_rel()?))
}

/// What the one base relvar is to lose, which is nothing, and what it is to get: the tuples of the
/// other, whose heading is the same.
fn parts(
    catalog: &Catalog<SortedBody>,
    alloc: Global,
    to: &Name,
    from: &Name,
) -> Result<(Rel, Rel), Fault>
    ensures known { IfOk result (λ _. IsSome (base_named to.now catalog.now.database)) }
    ensures headings { IfOk result (λ both.
        IfSome (base_named to.now catalog.now.database) (λ r.
        (both.0.heading ≡ r.relation.heading) × (both.1.heading ≡ r.relation.heading))) }
    ensures typed { IfOk result (λ both. AreTyped catalog.now.database.types both.1) }
{
    catalog.reveal();
    match (catalog.get_base(to), catalog.get_base(from)) {
        (Some(target), Some(source)) if target.heading == source.heading => {
            Ok(none_and_all(alloc, target, source)?)
        }
        _ => Err(Fault::Refused(Cause::NameUnknown)),
    }
}

/// Gives the base relvar P the tuples of the base relvar S too.
fn put_s_into_p(catalog: &mut Catalog<SortedBody>, alloc: Global) -> Result<(), Fault> {
    let (to, from) = both(name(alloc, "P"), name(alloc, "S"))?;
    let (out, add) = parts(catalog, alloc, &to, &from)?;
    Ok(catalog.change(&to, &out, &add)?)
}

/// How many tuples the base relvar P has.
fn count_of_p(catalog: &Catalog<SortedBody>, alloc: Global) -> Result<usize, Fault> {
    let name = name(alloc, "P")?;
    match catalog.get_base(&name) {
        Some(entry) => Ok(entry.body.len()),
        None => Ok(0),
    }
}

const STATEMENTS: &[&str] = &[
    "TYPE QTY POSSREP {Q INTEGER CONSTRAINT Q >= 0};",
    "VAR P BASE RELATION {Q QTY, N CHAR} KEY {N};",
    "INSERT P RELATION {TUPLE {N 'it''s', Q QTY(3)}};",
    "VAR V VIRTUAL (P {N});",
    "CONSTRAINT C COUNT(P) < 10;",
    "VAR S BASE RELATION {Q QTY, N CHAR} \
        INIT (RELATION {TUPLE {N 'z', Q QTY(4)}}) KEY {N};",
];

#[test]
fn a_base_relvar_changes_in_place(rt: HostRuntime) {
    let alloc = rt.alloc();
    let mut catalog = database(alloc, STATEMENTS).expect(&rt, "memory");
    assert!(rt; put_s_into_p(&mut catalog, alloc) == Ok(()));
    assert!(rt; catalog.kept() == 1);
    assert!(rt; count_of_p(&catalog, alloc) == Ok(2));
    catalog.revert(0);
    assert!(rt; catalog.kept() == 0);
    assert!(rt; count_of_p(&catalog, alloc) == Ok(1));
    drop(catalog);
}
