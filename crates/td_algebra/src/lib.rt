//! The relational operators: each gives the relation that its definition says, or wants memory.
//!
//! td_eval, td_group, td_body and td_plan call them. Most used are `project`, `union` and `minus`.
//!
//! Read sets.rt, projection.rt, restriction.rt and joins.rt, an operator or a few in each, then
//! layout.rt and laid_out.rt, by which most of them make their tuples, and lookup.rt. Each operator
//! is a comprehension in specs/model/Operators; laws/ says which tuples it has, and what equals
//! what.
#![tactic(auto)]

pub mod extension;
pub mod joins;
pub mod laid_out;
pub mod laws;
pub mod layout;
pub mod lookup;
mod part;
pub mod projection;
pub mod renaming;
pub mod restriction;
pub mod semijoins;
pub mod sets;
pub mod setting;
