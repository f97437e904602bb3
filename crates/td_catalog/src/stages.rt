//! Ways back to what a catalogue was.
ghost use Rattle.std.specs.Prelude.{◌≡◌, ◌+◌, ◌≤◌, [], IsTrue, false, length, take};
ghost use Rattle.td_catalog.specs.code.KeptDatabases.{settled_view, stages};

use crate::catalog::Catalog;
use td_body::body::Body;

impl<B: Body> Catalog<B> {
    /// How many earlier databases are kept. It takes no memory.
    pub fn kept(&self) -> usize
        ensures { result ≡ length self.now.kept }
    {
        self.log.steps.as_slice().len()
    }

    /// Goes back to the latest database that is kept, and answers whether there was one.
    fn step_back(&mut self) -> bool
        ensures back { IsTrue result → self.old.kept ≡ stages self.new }
        ensures none { result ≡ false → (self.old.kept ≡ []) × (self.new ≡ self.old) }
    {
        let Some(step) = self.log.pop() else {
            return false;
        };
        self.tables.undo(step);
        true
    }

    /// Goes back to the stage of that place: so many earlier databases are kept then, and what was
    /// kept there is the present one. It takes no memory.
    pub fn revert(&mut self, to: usize)
        requires { to ≤ length self.old.kept }
        ensures { stages self.new ≡ take (to + 1) (stages self.old) }
    {
        'back: while to < self.kept() {
            self.step_back();
        }
    }

    /// Keeps no earlier database any longer. It takes no memory.
    pub fn settle(&mut self)
        ensures { self.new ≡ settled_view self.old.database }
    {
        self.tables.settle_bodies(&self.log.steps);
        self.log.clear();
    }
}
