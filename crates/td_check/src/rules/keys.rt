//! The keys with which a relvar may be declared.
ghost use Rattle.std.specs.Prelude.{◌≡◌, ◌&&◌, ◌||◌, map, not};
ghost use Rattle.std.specs.List.{list_all};
ghost use Rattle.td_check.specs.model.StatementTypes.{is_included, keys_allowed, none_includes};
ghost use Rattle.td_types.specs.model.Headings.{are_distinct, has_attributes};

use td_tree::name::Name;
use td_types::heading::Heading;
use td_types::names::{are_distinct, is_among};

/// Whether each name of the key is one of the other.
fn is_included(key: &[Name], other: &[Name]) -> bool
    ensures { result ≡ is_included key.now other.now }
{
    key.iter().all(|name| is_among(name, other))
}

/// Whether none of the others includes the key, nor it one of them.
fn is_apart(key: &[Name], others: &[Vec<Name>]) -> bool
    ensures { result ≡ list_all
        (λ other. not (is_included key.now other || is_included other key.now))
        (map (λ other. other.items) others.now) }
{
    for other in others {
        if is_included(key, other) || is_included(other, key) {
            return false;
        }
    }
    true
}

/// Whether no key includes another.
fn none_includes(keys: &[Vec<Name>]) -> bool
    ensures { result ≡ none_includes (map (λ key. key.items) keys.now) }
{
    let mut rest = keys;
    while let [key, later @ ..] = rest {
        if !is_apart(key, later) {
            return false;
        }
        rest = later;
    }
    true
}

/// Whether the names of each key are distinct attributes.
fn are_of_attributes(heading: &Heading, keys: &[Vec<Name>]) -> bool
    ensures { result ≡ list_all (λ key. has_attributes key heading.now && are_distinct key)
        (map (λ key. key.items) keys.now) }
{
    for key in keys {
        if !heading.has_all(key) || !are_distinct(key) {
            return false;
        }
    }
    true
}

/// Whether the keys may be declared for the heading: the names of each are distinct attributes,
/// and none includes another.
pub(crate) fn keys_allowed(heading: &Heading, keys: &[Vec<Name>]) -> bool
    ensures { result ≡ keys_allowed heading.now (map (λ key. key.items) keys.now) }
{
    are_of_attributes(heading, keys) && none_includes(keys)
}
