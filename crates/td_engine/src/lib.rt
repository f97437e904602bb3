//! The engine: statements over a database, from bytes to bytes.
//!
//! td is made of it, and other programs may be. Most used are `run`, a whole script,
//! `Engine::step`, one statement, and `Engine::dump`.
//!
//! Read engine.rt and transaction.rt, legal_catalog.rt for what a statement does, assignments.rt
//! and target.rt, then checks.rt; last run.rt with source.rt and sink.rt, where the theorem stands.
//! The machine is specs/model/Machine; ./read prints all that the theorem means.
#![tactic(auto)]

mod added;
pub mod answer;
mod assignments;
mod bases;
mod change;
mod checks;
mod constraint_plans;
mod definitions;
pub mod engine;
mod evaluation;
pub mod laws;
mod legal_catalog;
mod paired;
mod reached;
mod refusal;
pub mod run;
mod settings;
pub mod sink;
pub mod source;
mod statement;
mod target;
mod transaction;
