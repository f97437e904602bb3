//! Plans that mean what an expression means, and the equalities that they stand on.
//!
//! td_engine values expressions by them. Most used are `plan`, `run_plan` and `value_in`, which
//! does both.
//!
//! Read plan/step.rt for what a plan is made of, making/planning.rt for how it is made, rewriting/
//! for what makes it faster, then running/run.rt and loops.rt. A plan gives what td_eval's
//! definitions say: nothing here adds to the model. specs/code/PlansOf says when a plan stands for
//! an expression.
#![tactic(auto)]

pub mod equalities;
pub mod laws;
pub mod making;
pub mod plan;
mod rewriting;
pub mod running;
pub mod values;
