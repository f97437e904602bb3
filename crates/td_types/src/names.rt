//! Names in lists: whether one is there, and whether one comes twice; the names of entries.
ghost use Rattle.std.specs.Prelude.{◌≡◌, ◌∷◌, IfOk, map, not};
ghost use Rattle.std.specs.Ordering.{is_lt, nat_cmp};
ghost use Rattle.std.specs.Cmp.Lexicographic.{slice_cmp};
ghost use Rattle.std.specs.List.Sorted.{IsSortedBy};
ghost use Rattle.td_types.specs.model.Headings.{are_distinct, has_name};

use std::alloc::{AllocError, Global};
use td_tree::name::Name;

/// The names of the entries.
pub fn names_of<T>(alloc: Global, entries: &[(Name, T)]) -> Result<Vec<Name>, AllocError>
    ensures { IfOk result (λ names. names.items ≡ map (λ e. e.0) entries.now) }
{
    let mut names = Vec::with_capacity(alloc, entries.len())?;
    for (name, _) in entries {
        names.push(name.try_clone()?)?;
    }
    Ok(names)
}

/// Whether the name is one of the names.
pub fn is_among(name: &Name, names: &[Name]) -> bool
    ensures { result ≡ has_name name.now names.now }
{
    names.contains(name)
}

/// Whether no name comes twice.
pub fn are_distinct(names: &[Name]) -> bool
    ensures { result ≡ are_distinct names.now }
{
    let mut rest = names;
    while let [name, later @ ..] = rest {
        if is_among(name, later) {
            return false;
        }
        rest = later;
    }
    true
}

/// Whether a name comes twice in a list that is sorted by its names.
pub fn repeats_a_name<T>(entries: &[(Name, T)]) -> bool
    requires { IsSortedBy (λ x y. is_lt (slice_cmp nat_cmp x.0 y.0)) entries.now }
    ensures { result ≡ not (are_distinct (map (λ e. e.0) entries.now)) }
{
    match entries {
        [] => false,
        [first, rest @ ..] => repeats_after(first, rest),
    }
}

/// Whether a name comes twice in a sorted list, given its first entry and the rest.
fn repeats_after<T>(first: &(Name, T), rest: &[(Name, T)]) -> bool
    requires { IsSortedBy (λ x y. is_lt (slice_cmp nat_cmp x.0 y.0)) (first.now ∷ rest.now) }
    ensures { result ≡ not (are_distinct (map (λ e. e.0) (first.now ∷ rest.now))) }
{
    let mut before = first;
    for entry in rest {
        if entry.0 == before.0 {
            return true;
        }
        before = entry;
    }
    false
}
