//! What a change makes of a relation.
ghost use Rattle.std.specs.Prelude.{◌≡◌, IfOk};
ghost use Rattle.td_body.specs.model.Bodies.{after_change};

use std::alloc::{AllocError, Global};
use td_algebra::sets::{minus, union};
use td_value::relation::Rel;

/// The relation without the tuples of the one, and then with those of the other. Both have its
/// heading. It goes once over the tuples of all three, side by side.
pub(crate) fn changed_relation(
    alloc: Global,
    relation: &Rel,
    out: &Rel,
    add: &Rel,
) -> Result<Rel, AllocError>
    requires out { out.now.heading ≡ relation.now.heading }
    requires add { add.now.heading ≡ relation.now.heading }
    ensures { IfOk result (λ r. r ≡ after_change out.now add.now relation.now) }
{
    let rest = minus(alloc, relation, out)?;
    union(alloc, &rest, add)
}
