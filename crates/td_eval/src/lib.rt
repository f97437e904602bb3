//! Evaluation: the value of an expression.
//!
//! td_plan falls back on it, and its plans call its operators. Most used are `eval`, `relation_in`,
//! which asks a value for its relation, and `relvar_in`, the value of a relvar.
//!
//! Read env.rt for what is handed in and lent_world.rt for what an expression may look at, then
//! value.rt, an arm for each node, and operators/. What a value is stands in specs/model/: Worlds,
//! OperatorValues, TreeValues, DatabaseWorlds.
#![tactic(auto)]

pub mod env;
pub mod extension;
pub mod flat;
pub mod in_tuples;
pub mod laws;
mod lent_world;
pub mod names;
pub mod operators;
pub mod rows;
pub mod value;
