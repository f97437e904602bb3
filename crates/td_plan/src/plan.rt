//! Plans, made once for all of the worlds that keep a scope.
pub mod explain;
pub(crate) mod step;

use crate::plan::step::Step;
use std::marker::Model;
use td_tree::name::Name;

/// An expression whose names are found and whose types are known.
#[derive(Drop)]
pub struct Plan {
    pub(crate) step: Step,
    /// How many parts have answers that are kept while it is run.
    pub(crate) places: usize,
    /// The names that stand in the expression, where there are virtual relvars.
    pub(crate) names: Vec<Name>,
}

impl Model for Plan {
    ghost use Rattle.std.specs.Coded.{codes};
    ghost use Rattle.td_plan.specs.contracts.plan.step.Step as e;
    ghost use Rattle.td_plan.specs.code.Memos.{IsRunnable};
    ghost use Rattle.td_plan.specs.code.PlanViews.{PlanValue};

    ghost Value = { PlanValue };

    ghost coded = { Prim.hlevel (codes, e.the_row.coded) };

    ghost view = { λ p. record { step = p.step } };

    ghost invariant = { λ p. IsRunnable p.step };
}
