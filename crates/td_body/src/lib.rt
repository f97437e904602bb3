//! Bodies of relvars.
//!
//! td_catalog keeps one for each base relvar. Most used of the trait `Body` are `change`, `to_rel`
//! and `find_by_key`, which finds tuples by the values of a key.
//!
//! Read body.rt, which says what every body does, and sorted.rt, the plain one; then hashed/, the
//! one of td: members.rt, index.rt and chains.rt, and back.rt for the way back. specs/model/Bodies
//! says what a change makes of a relation, and when a key holds.
#![tactic(auto)]

pub mod body;
mod changes;
pub mod hashed;
pub mod keys;
pub mod laws;
pub mod sorted;
