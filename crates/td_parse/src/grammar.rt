//! The rules that hold expressions take the parser of those as a parameter, so that each is proved
//! by itself.
ghost use Rattle.std.specs.Prelude.{◌≡◌, suc, nat_le};
ghost use Rattle.td_tree.specs.model.Grammar.{loosest};
ghost use Rattle.td_parse.specs.code.Nests.{Nests};
ghost use Rattle.td_parse.specs.code.Parsing.{Fits, Moves};
ghost use Rattle.td_tree.specs.model.Heights.{height};
ghost use Rattle.td_parse.specs.code.Reading.{read};
ghost use Rattle.td_tree.specs.code.TreeViews.{tree_view};

use crate::cursor::Cursor;
use crate::found::Found;
use crate::steps::item_if;
use std::alloc::Global;
use td_tree::fault::Fault;
use td_tree::operator::Level;

/// How high an expression may be.
pub const MAX_HEIGHT: u16 = 400;

/// The level of a whole expression.
pub const LOOSEST: Level = Level::Binding;

/// The rules for an expression that is at most one higher than `depth`.
#[derive(Clone, Copy)]
pub struct Grammar<F> {
    pub alloc: Global,
    /// How high its parts may be.
    pub depth: u16,
    /// Reads a part.
    pub inner: F,
}

impl<F: Fn(Global, u16, Level, &mut Cursor<'_, '_>) -> Result<Found, Fault>> Grammar<F> {
    /// A part that stands at this level.
    pub fn inner(&self, level: Level, tokens: &mut Cursor<'_, '_>) -> Result<Found, Fault>
        requires { Nests self.now.depth (F.pre self.now.inner) (F.post self.now.inner) }
        ensures { Moves tree_view result tokens.new (read self.now.depth level tokens.old) }
    {
        (self.inner)(self.alloc, self.depth, level, tokens)
    }

    /// A part, whatever it is.
    pub fn expression(&self, tokens: &mut Cursor<'_, '_>) -> Result<Found, Fault>
        requires { Nests self.now.depth (F.pre self.now.inner) (F.post self.now.inner) }
        ensures { Moves tree_view result tokens.new (read self.now.depth loosest tokens.old) }
    {
        self.inner(LOOSEST, tokens)
    }

    /// Whether an expression is low enough.
    fn fits(&self, found: &Found) -> bool
        ensures { result ≡ nat_le (height (tree_view found.now)) (suc self.now.depth) }
    {
        found.fits(u64::from(self.depth) + 1)
    }

    /// An expression, if it is low enough.
    pub fn low(&self, found: Found) -> Result<Found, Fault>
        ensures { Fits found (nat_le (height (tree_view found)) (suc self.now.depth)) result }
    {
        let fits = self.fits(&found);
        item_if(found, fits)
    }
}
