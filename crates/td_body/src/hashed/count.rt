//! A number that is known of each set that is kept.
ghost use Rattle.std.specs.Prelude.{◌≡◌, ◌∷◌, ◌++◌, [], ◌<◌, OnOk, length, vec_capacity, vec_len};

use super::chains::note;
use std::alloc::{AllocError, Global};

/// A number that is known of a set, with what it was for each set that is kept.
#[derive(Drop)]
pub(crate) struct Count {
    pub(crate) now: usize,
    pub(crate) before: Vec<usize>,
}

impl Count {
    /// The number, where nothing is kept.
    pub(crate) fn of(alloc: Global, now: usize) -> Count
        ensures now { result.now ≡ now }
        ensures before { result.before.items ≡ [] }
    {
        Count {
            now,
            before: Vec::new(alloc),
        }
    }

    /// Makes room to keep one number more.
    pub(crate) fn reserve(&mut self) -> Result<(), AllocError>
        ensures now { self.new.now ≡ self.old.now }
        ensures before { self.new.before.items ≡ self.old.before.items }
        ensures room { OnOk result (vec_len self.new.before < vec_capacity self.new.before) }
    {
        self.before.reserve(1)?;
        Ok(())
    }

    /// Keeps the number as it is.
    pub(crate) fn keep(&mut self)
        requires { vec_len self.old.before < vec_capacity self.old.before }
        ensures now { self.new.now ≡ self.old.now }
        ensures before { self.new.before.items ≡ self.old.before.items ++ self.old.now ∷ [] }
    {
        note(&mut self.before, self.now);
    }

    /// Goes back to the number that was kept last.
    pub(crate) fn go_back(&mut self)
        requires { 0 < length self.old.before.items }
        ensures { self.old.before.items ≡ self.new.before.items ++ self.new.now ∷ [] }
    {
        self.now = self.before.pop().unwrap();
    }

    /// Keeps no earlier number.
    pub(crate) fn forget(&mut self)
        ensures now { self.new.now ≡ self.old.now }
        ensures before { self.new.before.items ≡ [] }
    {
        self.before.clear();
    }
}
