//! The catalogue: what is defined in a database.
//!
//! td_engine changes it, td_eval and td_plan look names up in it. Most used are
//! `Catalog::get_base`, `Catalog::change`, which changes a body, and `Catalog::revert`, which goes
//! back.
//!
//! Read entry.rt and catalog.rt, then definitions.rt, drops.rt and bodies.rt for changes,
//! history.rt for the way back, and dump.rt. What a database is stands in specs/model/Database,
//! what every catalogue is in TypedDatabases.
#![tactic(auto)]

mod bodies;
pub mod by_place;
pub mod catalog;
pub mod copy;
pub mod defining;
pub mod definitions;
pub mod drops;
pub mod dump;
pub mod entry;
mod history;
pub mod keys;
pub mod laws;
pub mod marked_names;
mod mentioned;
pub mod scope;
mod stages;
mod tables;
