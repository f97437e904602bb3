//! The expressions by which virtual relvars and constraints are defined.
ghost use Rattle.std.specs.Prelude.{◌≡◌, IfOk};
ghost use Rattle.td_catalog.specs.laws.NamedRelvars.{names_any};
ghost use Rattle.td_check.specs.laws.WrittenNames.{names_in};
ghost use Rattle.td_tree.specs.code.TreeViews.{tree_view};
ghost use Rattle.td_types.specs.model.Headings.{has_name};

use crate::marked_names::MarkedNames;
use std::alloc::{AllocError, Global};
use std::marker::Model;
use std::rc::Rc;
use td_check::names::names_in;
use td_tree::expression::Expr;
use td_tree::name::Name;

/// An expression that defines a virtual relvar or a constraint, seen as its tree, with the names
/// that stand in it, found when it is defined. Copies share both.
#[derive(Drop)]
pub struct DefiningExpression {
    tree: Rc<Expr>,
    names: Rc<MarkedNames>,
}

impl Model for DefiningExpression {
    ghost use Rattle.std.specs.Prelude.{◌≡◌};
    ghost use Rattle.td_check.specs.model.Mentions.{name_set};
    ghost use Rattle.td_check.specs.laws.WrittenNames.{names_in};
    ghost use Rattle.td_tree.specs.code.TreeCode.{tree_code};
    ghost use Rattle.td_tree.specs.code.TreeViews.{tree_view};
    ghost use Rattle.td_tree.specs.model.Trees.{Tree};

    ghost Value = { Tree };

    ghost coded = { tree_code };

    ghost view = { λ d. tree_view d.tree.value };

    ghost invariant = { λ d. d.names.value ≡ name_set (names_in (tree_view d.tree.value)) };
}

impl DefiningExpression {
    /// The expression, with its names.
    pub(crate) fn new(alloc: Global, tree: Expr) -> Result<DefiningExpression, AllocError>
        ensures { IfOk result (λ d. d ≡ tree_view tree) }
    {
        let names = names_in(alloc, &tree)?;
        let names = Rc::new(alloc, MarkedNames::new(names))?;
        let tree = Rc::new(alloc, tree)?;
        Ok(DefiningExpression { tree, names })
    }

    /// The expression.
    pub fn tree(&self) -> &Expr
        ensures { tree_view result.now ≡ self.now }
    {
        &self.tree
    }

    /// Whether one of the relvars is named in it. It takes time by the names in it, and mostly
    /// none where none is named; it takes no memory.
    pub fn names_any(&self, relvars: &MarkedNames) -> bool
        ensures { result ≡ names_any relvars.now self.now }
    {
        self.names.have_common(relvars)
    }

    /// Whether the name stands in it. It takes time by the names in it, and no memory.
    pub(crate) fn has_name(&self, name: &Name) -> bool
        ensures { result ≡ has_name name.now (names_in self.now) }
    {
        self.names.includes(name)
    }

    /// A copy of the expression.
    pub(crate) fn try_clone(&self) -> Result<DefiningExpression, AllocError>
        ensures { IfOk result (λ d. d ≡ self.now) }
    {
        Ok(DefiningExpression {
            tree: self.tree.clone()?,
            names: self.names.clone()?,
        })
    }
}
