//! Grouping, aggregates and closure: each gives what its definition says, or wants memory.
//!
//! td_eval and td_plan call them. Most used are `groups`, the tuples that agree with each of PER,
//! `aggregate`, and `group`.
//!
//! Read groups.rt and aggregates.rt, then grouping.rt, wrapping.rt and unnesting.rt, with where
//! their tuples' values stand in layouts.rt, and closure.rt. Each is a comprehension in
//! specs/model/: Groups, Aggregates, Nesting, Closure.
#![tactic(auto)]

pub mod aggregates;
pub mod closure;
pub mod grouping;
pub mod groups;
pub mod laws;
mod layouts;
pub mod nesting;
pub mod unnesting;
pub mod wrapping;
