//! What a statement takes out of a base relvar, and puts in.
ghost use Rattle.std.specs.Prelude.{◌≡◌, [], IfOk};
ghost use Rattle.td_engine.specs.code.Changes.{IsOfHeading, changed_by};
ghost use Rattle.td_value.specs.model.Values.{relation_view};

use std::alloc::{AllocError, Global};
use td_algebra::sets::{minus, union};
use td_types::heading::Heading;
use td_value::relation::Rel;

/// The tuples that go out of a relation, and those that then come in.
#[derive(Drop)]
pub(crate) struct Change {
    pub(crate) out: Rel,
    pub(crate) add: Rel,
}

/// The relation of the heading without tuples.
pub(crate) fn empty_of(alloc: Global, heading: &Heading) -> Result<Rel, AllocError>
    ensures { IfOk result (λ r. r ≡ relation_view heading.now []) }
{
    Rel::of_ascending(heading.try_clone()?, Vec::new(alloc))
}

/// The relation of the same heading without tuples.
pub(crate) fn empty_like(alloc: Global, relation: &Rel) -> Result<Rel, AllocError>
    ensures { IfOk result (λ r. r ≡ relation_view relation.now.heading []) }
{
    empty_of(alloc, relation.heading())
}

impl Change {
    /// The relation after the change.
    pub(crate) fn after(&self, alloc: Global, relation: &Rel) -> Result<Rel, AllocError>
        requires { IsOfHeading relation.now.heading self.now }
        ensures { IfOk result (λ r. r ≡ changed_by self.now relation.now) }
    {
        let others = minus(alloc, relation, &self.out)?;
        union(alloc, &others, &self.add)
    }

    /// The change that leads from the one relation to the other.
    pub(crate) fn between(alloc: Global, relation: &Rel, other: &Rel) -> Result<Change, AllocError>
        requires { other.now.heading ≡ relation.now.heading }
        ensures after { IfOk result (λ c. changed_by c relation.now ≡ other.now) }
        ensures headings { IfOk result (IsOfHeading relation.now.heading) }
    {
        relation.heading().reveal();
        relation.reveal();
        other.reveal();
        let out = minus(alloc, relation, other)?;
        let add = minus(alloc, other, relation)?;
        Ok(Change { out, add })
    }

    /// These tuples come in.
    pub(crate) fn adding(alloc: Global, add: Rel) -> Result<Change, AllocError>
        ensures add { IfOk result (λ c. c.add ≡ add) }
        ensures out { IfOk result (λ c. c.out ≡ relation_view add.heading []) }
    {
        let out = empty_like(alloc, &add)?;
        Ok(Change { out, add })
    }

    /// These tuples go out.
    pub(crate) fn taking(alloc: Global, out: Rel) -> Result<Change, AllocError>
        ensures out { IfOk result (λ c. c.out ≡ out) }
        ensures add { IfOk result (λ c. c.add ≡ relation_view out.heading []) }
    {
        let add = empty_like(alloc, &out)?;
        Ok(Change { out, add })
    }
}
