//! A body that is made outside of the crate of bodies, by its public calls.
use std::alloc::{AllocError, Global};
use td_body::body::Body;
use td_body::sorted::SortedBody;
use td_tree::name::Name;
use td_types::heading::Heading;
use td_value::relation::Rel;
use td_value::tuple::Tuple;

/// A body that does what another does.
#[derive(Drop)]
pub struct Outer {
    inner: SortedBody,
}

impl Body for Outer {
    ghost relation = { λ b. ⟦<SortedBody as Body>⟧.relation b.inner };

    ghost keys = { λ b. ⟦<SortedBody as Body>⟧.keys b.inner };

    ghost kept = { λ b. ⟦<SortedBody as Body>⟧.kept b.inner };

    fn empty(alloc: Global, heading: Heading, names: Vec<Vec<Name>>) -> Result<Self, AllocError> {
        let inner = SortedBody::empty(alloc, heading, names)?;
        Ok(Outer { inner })
    }

    fn insert(&mut self, tuple: Tuple) -> Result<bool, Tuple> {
        self.inner.insert(tuple)
    }

    fn remove(&mut self, tuple: &Tuple) -> Result<bool, AllocError> {
        self.inner.remove(tuple)
    }

    fn change(&mut self, out: &Rel, add: &Rel) -> Result<(), AllocError> {
        self.inner.change(out, add)
    }

    fn revert(&mut self) -> bool {
        self.inner.revert()
    }

    fn settle(&mut self) {
        self.inner.settle();
    }

    fn kept(&self) -> usize {
        self.inner.kept()
    }

    fn contains(&self, tuple: &Tuple) -> bool {
        self.inner.contains(tuple)
    }

    fn len(&self) -> usize {
        self.inner.len()
    }

    fn to_rel(&self) -> Result<Rel, AllocError> {
        self.inner.to_rel()
    }

    fn try_clone(&self) -> Result<Self, AllocError> {
        let inner = self.inner.try_clone()?;
        Ok(Outer { inner })
    }

    fn find_by_key(&self, key: usize, part: &Tuple) -> Result<Rel, AllocError> {
        self.inner.find_by_key(key, part)
    }

    fn key_holds(&self, key: usize) -> Result<bool, AllocError> {
        self.inner.key_holds(key)
    }
}
