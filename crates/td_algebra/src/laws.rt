//! What the operators are to their callers: each function has its contract alone.
pub mod attributes;
pub mod equalities;
pub mod fitting;
pub mod join_equalities;
pub mod joins;
pub mod results;
pub mod sets;
