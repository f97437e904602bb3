//! Keys in name order.
ghost use Rattle.std.specs.Prelude.{◌≡◌, IfOk, map};
ghost use Rattle.td_catalog.specs.model.Dumps.{ordered_names};

use std::alloc::{AllocError, Global};
use td_tree::name::Name;
use td_types::heading::Heading;
use td_types::names::is_among;

/// The names of the key in name order: the attributes of the heading that the key names.
pub fn ordered_key(alloc: Global, heading: &Heading, key: &[Name]) -> Result<Vec<Name>, AllocError>
    ensures { IfOk result (λ names. names.items ≡ ordered_names heading.now key.now) }
{
    let mut names = Vec::with_capacity(alloc, key.len())?;
    for place in 0..heading.len() {
        let Some((name, _)) = heading.at(place) else {
            return Ok(names);
        };
        if is_among(name, key) {
            names.push(name.try_clone()?)?;
        }
    }
    Ok(names)
}

/// Each of the keys with its names in name order.
pub fn ordered_keys(
    alloc: Global,
    heading: &Heading,
    keys: &[Vec<Name>],
) -> Result<Vec<Vec<Name>>, AllocError>
    ensures { IfOk result (λ ordered. map (λ key. key.items) ordered.items
        ≡ map (ordered_names heading.now) (map (λ key. key.items) keys.now)) }
{
    let mut ordered = Vec::with_capacity(alloc, keys.len())?;
    for key in keys {
        ordered.push(ordered_key(alloc, heading, key)?)?;
    }
    Ok(ordered)
}
