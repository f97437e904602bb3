//! How plans are made of expressions.
pub(crate) mod bound;
pub(crate) mod closed;
pub(crate) mod nodes;
pub(crate) mod planner;
pub(crate) mod planning;
pub mod plans;
pub(crate) mod remember;
pub(crate) mod summaries;
