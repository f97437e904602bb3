//! The indexes of tuples by number, for each of a body's keys.
ghost use Rattle.std.specs.Prelude.{◌≡◌, ◌<◌, IfOk, length, map};
ghost use Rattle.std.specs.List.{All};
ghost use Rattle.td_types.specs.model.Types.{attribute_names};
ghost use Rattle.td_body.specs.code.KeyIndexes.{IsIndex};
ghost use Rattle.td_body.specs.code.KeyParts.{places_from};
ghost use Rattle.td_body.specs.code.Members.{ArePlaced, IsFresh, places_in};

use super::index::KeyIndex;
use super::rows::Rows;
use crate::keys::places_of;
use std::alloc::{AllocError, Global};
use td_tree::name::Name;
use td_types::heading::Heading;

/// The names of the attributes.
fn attribute_names(heading: &Heading) -> Result<Vec<Name>, AllocError>
    ensures { IfOk result (λ names. names.items ≡ attribute_names heading.now) }
{
    heading.new_names(&[])
}

/// An index of the tuples for each key, whose names are among the names.
fn indexes_by(
    alloc: Global,
    names: &[Name],
    keys: &[Vec<Name>],
    rows: &Rows,
) -> Result<Vec<KeyIndex>, AllocError>
    ensures index { IfOk result (λ v. All (IsIndex rows.now.rows rows.now.gone) v.items) }
    ensures before { IfOk result (λ v. All IsFresh v.items) }
    ensures places { IfOk result (λ v. places_in v.items
        ≡ map (λ key. places_from 0 key.items names.now) keys.now) }
{
    let mut indexes = Vec::with_capacity(alloc, keys.len())?;
    for key in keys {
        let places = places_of(alloc, names, key)?;
        let index = KeyIndex::of(alloc, places, rows)?;
        indexes.push(index)?;
    }
    Ok(indexes)
}

/// An index of the tuples for all names.
fn index_by_all(alloc: Global, names: &[Name], rows: &Rows) -> Result<Vec<KeyIndex>, AllocError>
    ensures index { IfOk result (λ v. All (IsIndex rows.now.rows rows.now.gone) v.items) }
    ensures before { IfOk result (λ v. All IsFresh v.items) }
    ensures some { IfOk result (λ v. length v.items ≡ 1) }
{
    let places = places_of(alloc, names, names)?;
    let index = KeyIndex::of(alloc, places, rows)?;
    let mut indexes = Vec::new(alloc);
    indexes.push(index)?;
    Ok(indexes)
}

/// An index of the tuples for each key, or for all attributes where there is no key.
pub(crate) fn indexes_of(
    alloc: Global,
    keys: &[Vec<Name>],
    rows: &Rows,
) -> Result<Vec<KeyIndex>, AllocError>
    ensures index { IfOk result (λ v. All (IsIndex rows.now.rows rows.now.gone) v.items) }
    ensures before { IfOk result (λ v. All IsFresh v.items) }
    ensures placed { IfOk result (λ v. ArePlaced (map (λ key. key.items) keys.now)
        (attribute_names rows.now.heading) (places_in v.items)) }
    ensures some { IfOk result (λ v. 0 < length v.items) }
{
    let names = attribute_names(rows.heading())?;
    if keys.is_empty() {
        index_by_all(alloc, &names, rows)
    } else {
        indexes_by(alloc, &names, keys, rows)
    }
}

/// An index of the tuples for the key of each of these.
pub(crate) fn indexes_like(
    alloc: Global,
    old: &[KeyIndex],
    old_rows: &Rows,
    rows: &Rows,
) -> Result<Vec<KeyIndex>, AllocError>
    requires { All (IsIndex old_rows.now.rows old_rows.now.gone) old.now }
    ensures index { IfOk result (λ v. All (IsIndex rows.now.rows rows.now.gone) v.items) }
    ensures before { IfOk result (λ v. All IsFresh v.items) }
    ensures places { IfOk result (λ v. places_in v.items ≡ places_in old.now) }
{
    let mut indexes = Vec::with_capacity(alloc, old.len())?;
    for key in old {
        let index = key.renewed(alloc, old_rows, rows)?;
        indexes.push(index)?;
    }
    Ok(indexes)
}
