//! How a WHERE is computed of operands, and how it becomes a look-up.
mod brief;
pub(crate) mod fixed;
mod narrowed;
mod numbers;
mod push;
mod restrictions;
