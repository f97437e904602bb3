//! Lists of expressions that were read, each with the height of its highest.
ghost use Rattle.std.specs.Prelude.{◌≡◌, ◌∷◌, ◌++◌, [], length, IfOk, OnOk};
ghost use Rattle.td_parse.specs.code.FoundSummaries.{summary_view};

use crate::found::Found;
use std::alloc::{AllocError, Global};
use std::marker::Model;
use td_tree::expression::{Expr, NamedExpr, Summary};
use td_tree::name::Name;
use td_tree::operator::Aggregate;

/// How many expressions are so many that the room is let go that they leave over.
const MANY: usize = 1_024;

/// Expressions.
#[derive(Drop)]
pub struct Elements {
    pub(crate) items: Vec<Expr>,
    pub(crate) height: u64,
}

impl Model for Elements {
    ghost use Rattle.std.specs.Prelude.{◌≡◌, ◌-◌, ◌^◌, min, List};
    ghost use Rattle.std.specs.Coded.{codes};
    ghost use Rattle.td_tree.specs.contracts.expression.Expr as expr;
    ghost use Rattle.td_tree.specs.declared.expression.Expr.{Expr};
    ghost use Rattle.td_tree.specs.model.Heights.{highest};
    ghost use Rattle.td_tree.specs.code.TreeViews.{trees_view};

    ghost Value = { List Expr };

    ghost coded = { Prim.hlevel (codes, expr.the_row.coded) };

    ghost view = { λ e. e.items.items };

    ghost invariant = { λ e. e.height ≡ min (highest (trees_view e.items.items)) (2 ^ 64 - 1) };
}

impl Elements {
    /// None.
    pub fn new(alloc: Global) -> Elements
        ensures { result ≡ [] }
    {
        Elements {
            items: Vec::new(alloc),
            height: 0,
        }
    }

    /// One more, behind the others.
    #[tactic(auto, using(crate::proofs::Highest::highest_push))]
    pub fn push(&mut self, found: Found) -> Result<(), AllocError>
        ensures { OnOk result (self.new ≡ self.old ++ (found ∷ [])) }
    {
        let height = self.height.max(found.height());
        self.items.push(found.into_tree())?;
        self.height = height;
        Ok(())
    }

    /// The same, once no more are to come: many leave over much room, which is let go.
    pub fn complete(self) -> Elements
        ensures { result ≡ self }
    {
        let mut whole = self;
        if whole.items.len() >= MANY {
            whole.items.shrink_to_fit();
        }
        whole
    }
}

/// Expressions with their names.
#[derive(Drop)]
pub struct NamedParts {
    pub(crate) items: Vec<NamedExpr>,
    pub(crate) height: u64,
}

impl Model for NamedParts {
    ghost use Rattle.std.specs.Prelude.{◌≡◌, ◌-◌, ◌^◌, min, List};
    ghost use Rattle.std.specs.Coded.{codes};
    ghost use Rattle.td_tree.specs.contracts.expression.NamedExpr as named_expr;
    ghost use Rattle.td_tree.specs.declared.expression.NamedExpr.{NamedExpr};
    ghost use Rattle.td_tree.specs.model.Heights.{highest_named};
    ghost use Rattle.td_tree.specs.code.TreeViews.{named_view};

    ghost Value = { List NamedExpr };

    ghost coded = { Prim.hlevel (codes, named_expr.the_row.coded) };

    ghost view = { λ p. p.items.items };

    ghost invariant = { λ p.
        p.height ≡ min (highest_named (named_view p.items.items)) (2 ^ 64 - 1) };
}

impl NamedParts {
    /// None.
    pub fn new(alloc: Global) -> NamedParts
        ensures { result ≡ [] }
    {
        NamedParts {
            items: Vec::new(alloc),
            height: 0,
        }
    }

    /// None, with room for so many.
    pub fn with_room(alloc: Global, count: usize) -> Result<NamedParts, AllocError>
        ensures { IfOk result (λ parts. parts ≡ []) }
    {
        Ok(NamedParts {
            items: Vec::with_capacity(alloc, count)?,
            height: 0,
        })
    }

    /// The expressions with their names alone.
    pub fn into_items(self) -> Vec<NamedExpr>
        ensures { result.items ≡ self }
    {
        self.items
    }

    /// How many there are.
    pub fn count(&self) -> usize
        ensures { result ≡ length self.now }
    {
        self.items.len()
    }

    /// One more, behind the others.
    #[tactic(auto, using(crate::proofs::Highest::highest_named_push))]
    pub fn push(&mut self, name: Name, value: Found) -> Result<(), AllocError>
        ensures { OnOk result
            (self.new ≡ self.old ++ (record { name = name; value = value } ∷ [])) }
    {
        let height = self.height.max(value.height());
        let value = value.into_tree();
        self.items.push(NamedExpr { name, value })?;
        self.height = height;
        Ok(())
    }
}

/// An attribute that `SUMMARIZE` adds.
#[derive(Drop)]
pub enum FoundSummary {
    Count(Name),
    Of(Aggregate, Found, Name),
}

/// What `SUMMARIZE` adds.
#[derive(Drop)]
pub struct Summaries {
    pub(crate) items: Vec<Summary>,
    pub(crate) height: u64,
}

impl Model for Summaries {
    ghost use Rattle.std.specs.Prelude.{◌≡◌, ◌-◌, ◌^◌, min, List};
    ghost use Rattle.std.specs.Coded.{codes};
    ghost use Rattle.td_tree.specs.contracts.expression.Summary as summary;
    ghost use Rattle.td_tree.specs.declared.expression.Summary.{Summary};
    ghost use Rattle.td_tree.specs.model.Heights.{highest_summary};
    ghost use Rattle.td_tree.specs.code.TreeViews.{summaries_view};

    ghost Value = { List Summary };

    ghost coded = { Prim.hlevel (codes, summary.the_row.coded) };

    ghost view = { λ s. s.items.items };

    ghost invariant = { λ s. s.height
        ≡ min (highest_summary (summaries_view s.items.items)) (2 ^ 64 - 1) };
}

impl Summaries {
    /// None.
    pub fn new(alloc: Global) -> Summaries
        ensures { result ≡ [] }
    {
        Summaries {
            items: Vec::new(alloc),
            height: 0,
        }
    }

    /// One more, behind the others.
    #[tactic(auto, using(crate::proofs::Highest::highest_summary_push))]
    pub fn push(&mut self, found: FoundSummary) -> Result<(), AllocError>
        ensures { OnOk result (self.new ≡ self.old ++ (summary_view found ∷ [])) }
    {
        match found {
            FoundSummary::Count(name) => self.items.push(Summary::Count(name))?,
            FoundSummary::Of(op, value, name) => {
                let height = self.height.max(value.height());
                self.items.push(Summary::Of(op, value.into_tree(), name))?;
                self.height = height;
            }
        }
        Ok(())
    }
}
