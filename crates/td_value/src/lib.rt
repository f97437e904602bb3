//! Values, tuples and relations.
//!
//! Operators, bodies and evaluation are made of these. Most used are `Tuple::get`, the value of a
//! name, `Rel::rows`, the tuples of a relation in their order, and `Value::try_clone`, which
//! shares.
//!
//! Read value.rt, tuple.rt and relation.rt for what they are, order.rt and literal.rt for their
//! order and their text, then tuples.rt, names.rt and sharing.rt for how tuples lie in memory. What
//! they mean stands in specs/model/Values.
#![tactic(auto)]

mod buckets;
mod copy;
mod hash;
pub mod laws;
mod lists;
mod literal;
pub mod names;
mod numbered;
mod order;
pub mod placing;
pub mod relation;
pub mod sharing;
pub mod tuple;
pub mod tuples;
mod types;
pub mod user;
pub mod value;
