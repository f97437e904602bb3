//! Hashes of the parts of tuples that a key names.
ghost use Rattle.std.specs.Prelude.{◌≡◌, Some, fold, map, option_map};
ghost use Rattle.td_body.specs.code.Hashes.{fed_if_found, found_hash, part_hash};

use crate::keys::value_at;
use std::hash::{FoldHasher, Hash, Hasher};
use td_value::tuple::Tuple;
use td_value::value::Value;

/// Feeds a value to a hash, where there is one.
fn feed_if_found<H: Hasher>(value: Option<&Value>, state: &mut H)
    ensures { state.new
        ≡ fold H.write state.old (fed_if_found (option_map (λ v. v.now) value.entry)) }
{
    if let Some(value) = value {
        value.hash(state);
    }
}

/// The hash of the tuple's values at the places.
pub(crate) fn hash_at(places: &[usize], tuple: &Tuple) -> u64
    ensures { result ≡ part_hash places.now tuple.now }
{
    let mut state = FoldHasher::default();
    for place in places {
        feed_if_found(value_at(tuple, *place), &mut state);
    }
    state.finish()
}

/// The hash of a tuple whose values at the places are these.
pub(crate) fn hash_of(part: &[Value]) -> u64
    ensures { result ≡ found_hash (map Some part.now) }
{
    let mut state = FoldHasher::default();
    for value in part {
        value.hash(&mut state);
    }
    state.finish()
}
