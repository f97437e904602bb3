//! The values of operators, by the values of their operands.
pub mod aggregates;
mod arithmetic;
pub mod between;
pub mod comparisons;
pub mod elements;
pub mod literals;
mod nesting;
pub mod operand;
pub mod postfix;
pub mod relational;
pub mod requirements;
pub mod selectors;
mod simple;
pub mod summaries;
pub mod tuplewise;
mod unnesting;
